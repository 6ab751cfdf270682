// The bus of one process over a store and over the tables of processes.
ghost use Rattle.o2_regions.specs.Maps.{IsProcess};
ghost use Rattle.o2_segbus.specs.Settled.{IsSettled};
ghost use Rattle.o2_segbus.specs.Seen.{AreNamed};
ghost use Rattle.o2_segbus.specs.Bus.{AreInside, AreLoaded};
ghost use Rattle.o2_segbus.specs.Props.{AreInside-prop, AreNamed-prop, IsSettled-prop, AreLoaded-prop};

use crate::SegmentRegisters;
use o2_regions::Regions;
use o2_store::Store;

/// The bus of one process over a store and over the tables of processes. What its processor reads and writes goes through the
/// descriptors in its segment registers, and through nothing else.
#[derive(Drop)]
pub struct SegBus<'s, 'r> {
    pub store: &'s mut Store,
    pub regions: &'r mut Regions,
    pub pid: u16,
    pub registers: SegmentRegisters,
    ghost process: { IsProcess regions.now pid },
    ghost inside: { AreInside store.now } by { AreInside-prop store.now },
    ghost named: { AreNamed store.now regions.now } by { AreNamed-prop store.now regions.now },
    ghost settled: { IsSettled store.now regions.now } by { IsSettled-prop store.now regions.now },
    ghost loaded: { AreLoaded store.now regions.now pid registers } by { AreLoaded-prop store.now regions.now pid registers },
}
