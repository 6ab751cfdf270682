// How a bus is made.
ghost use Rattle.std.specs.Prelude.{◌≡◌};
ghost use Rattle.o2_isa.specs.View.{IsBound};
ghost use Rattle.o2_regions.specs.Maps.{IsProcess};
ghost use Rattle.o2_segbus.specs.Settled.{IsSettled};
ghost use Rattle.o2_segbus.specs.Seen.{AreNamed, seen};
ghost use Rattle.o2_segbus.specs.Bus.{AreLoaded};
ghost use Rattle.o2_segbus.specs.Opening.{are_shown, is_shown, opened_registers};

use crate::rules::loaded;
use crate::{SegBus, SegmentRegister, SegmentRegisters};
use o2_desc::Access;
use o2_isa::Cpu;
use o2_regions::Regions;
use o2_store::Store;

/// The segment registers of a processor, with the descriptors that their selectors name.
#[inline(always)]
pub fn registers_for(regions: &Regions, pid: u16, cpu: &Cpu) -> SegmentRegisters
    requires { IsProcess regions.now pid }
    ensures { result ≡ opened_registers regions.now pid cpu.now }
{
    SegmentRegisters {
        es: SegmentRegister {
            selector: cpu.es,
            descriptor: loaded(regions, pid, cpu.es),
        },
        cs: SegmentRegister {
            selector: cpu.cs,
            descriptor: loaded(regions, pid, cpu.cs),
        },
        ss: SegmentRegister {
            selector: cpu.ss,
            descriptor: loaded(regions, pid, cpu.ss),
        },
        ds: SegmentRegister {
            selector: cpu.ds,
            descriptor: loaded(regions, pid, cpu.ds),
        },
    }
}

/// Whether a register holds nothing, or a segment that is in memory by its hidden part.
#[inline(always)]
fn is_shown(register: &SegmentRegister) -> bool
    ensures { result ≡ is_shown register.now }
{
    if register.selector < 4 {
        true
    } else {
        Access(register.descriptor.access).is_present()
    }
}

/// Whether all segment registers do. One whose selector isn't null and names nothing doesn't.
#[inline(always)]
pub fn are_shown(registers: &SegmentRegisters) -> bool
    ensures { result ≡ are_shown registers.now }
{
    is_shown(&registers.es)
        && is_shown(&registers.cs)
        && is_shown(&registers.ss)
        && is_shown(&registers.ds)
}

impl<'s, 'r> SegBus<'s, 'r> {
    /// The bus of a process over these registers, each of which has what its selector names, in memory. The descriptors agree with
    /// the store, and each held segment is live.
    #[inline(always)]
    pub fn over_registers(
        store: &'s mut Store,
        regions: &'r mut Regions,
        pid: u16,
        registers: SegmentRegisters,
    ) -> SegBus<'s, 'r>
        requires process { IsProcess regions.old pid }
        requires named { AreNamed store.old regions.old }
        requires settled { IsSettled store.old regions.old }
        requires loaded { AreLoaded store.old regions.old pid registers }
        ensures same_store { result.store.ghost_name ≡ store.entry.ghost_name }
        ensures same_regions { result.regions.ghost_name ≡ regions.entry.ghost_name }
        ensures store { result.store.now ≡ store.old }
        ensures regions { result.regions.now ≡ regions.old }
        ensures pid { result.pid ≡ pid }
        ensures registers { result.registers ≡ registers }
    {
        store.law();
        SegBus {
            store,
            regions,
            pid,
            registers,
        }
    }

    /// The bus of a process whose processor has these registers. The descriptors agree with the store, each held segment is
    /// live, and what the segment registers name is in memory.
    #[inline(always)]
    pub fn new(
        store: &'s mut Store,
        regions: &'r mut Regions,
        pid: u16,
        cpu: &Cpu,
    ) -> SegBus<'s, 'r>
        requires process { IsProcess regions.old pid }
        requires named { AreNamed store.old regions.old }
        requires settled { IsSettled store.old regions.old }
        requires bound { IsBound (seen store.old regions.old pid cpu.now) }
        ensures same_store { result.store.ghost_name ≡ store.entry.ghost_name }
        ensures same_regions { result.regions.ghost_name ≡ regions.entry.ghost_name }
        ensures store { result.store.now ≡ store.old }
        ensures regions { result.regions.now ≡ regions.old }
        ensures pid { result.pid ≡ pid }
        ensures registers { result.registers ≡ opened_registers regions.old pid cpu.now }
    {
        let registers = registers_for(regions, pid, cpu);
        SegBus::over_registers(store, regions, pid, registers)
    }
}
