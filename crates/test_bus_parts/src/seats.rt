// Whether what the segment registers name is in memory.
ghost use Rattle.std.specs.Prelude.{◌≡◌, option_map, true};
ghost use Rattle.o2_regions.specs.Maps.{IsProcess};
ghost use Rattle.o2_segbus.specs.Bus.{held_under};
ghost use Rattle.o2_segbus.specs.Seen.{AreNamed};
ghost use Rattle.test_bus_parts.specs.Trials.{AreSeated, IsSeated};

use o2_bus::Cpu;
use o2_place::SegId;
use o2_regions::Regions;
use o2_store::Store;

/// The segment that a selector names for process 1.
pub(crate) fn named(regions: &Regions, sel: u16) -> Option<SegId>
    requires { IsProcess regions.now 1 }
    ensures { result ≡ option_map (λ h. h.id) (held_under regions.now 1 sel) }
{
    if sel < 4 || sel / 4 % 2 != 1 {
        return None;
    }
    match regions.held(1, sel / 8) {
        Some(held) => Some(held.id),
        None => None,
    }
}

/// Whether what a selector names for process 1 is in memory, or it names nothing.
fn is_seated(store: &Store, regions: &Regions, sel: u16) -> bool
    requires process { IsProcess regions.now 1 }
    requires named { AreNamed store.now regions.now }
    ensures { result ≡ true → IsSeated store.now regions.now sel }
{
    match named(regions, sel) {
        Some(id) => store.base(id).is_some(),
        None => true,
    }
}

/// Whether what the segment registers of process 1 name is in memory.
pub(crate) fn are_seated(store: &Store, regions: &Regions, cpu: &Cpu) -> bool
    requires process { IsProcess regions.now 1 }
    requires named { AreNamed store.now regions.now }
    ensures { result ≡ true → AreSeated store.now regions.now cpu.now }
{
    is_seated(store, regions, cpu.es)
        && is_seated(store, regions, cpu.cs)
        && is_seated(store, regions, cpu.ss)
        && is_seated(store, regions, cpu.ds)
}
