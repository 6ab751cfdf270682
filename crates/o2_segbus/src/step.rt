// One try of a step of a process, over what is in memory.
ghost use Rattle.std.specs.Prelude.{◌≡◌};
ghost use Rattle.o2_isa.specs.View.{bound_registers};
ghost use Rattle.o2_isa.specs.Step.{Answers, stepped};
ghost use Rattle.o2_segbus.specs.Seen.{hold_in, seen_state};
ghost use Rattle.o2_segbus.specs.Bus.{registers_of};
ghost use Rattle.o2_segbus.specs.Frames.{CanStep, KeepsClean, KeepsMaps, KeepsStore};

use crate::SegBus;
use o2_bus::{Cpu, Outcome};
use o2_core::step_one;
use o2_regions::Regions;
use o2_store::Store;

/// A step over the bus, said of store and tables.
fn step_in(cpu: &mut Cpu, bus: &mut SegBus<'_, '_>) -> Outcome
    requires agrees { registers_of bus.old.regions.now bus.old.pid bus.old.registers
        ≡ bound_registers (hold_in bus.old.regions.now bus.old.pid) cpu.old }
    ensures same_store { bus.new.store.ghost_name ≡ bus.old.store.ghost_name }
    ensures same_regions { bus.new.regions.ghost_name ≡ bus.old.regions.ghost_name }
    ensures step { Answers result (seen_state bus.new.store.now bus.new.regions.now bus.old.pid cpu.new)
        (seen_state bus.old.store.now bus.old.regions.now bus.old.pid cpu.old)
        (stepped (seen_state bus.old.store.now bus.old.regions.now bus.old.pid cpu.old)) }
    ensures store { KeepsStore bus.old.store.now bus.new.store.now }
    ensures maps { KeepsMaps bus.old.regions.now bus.new.regions.now }
    ensures clean { KeepsClean bus.old.store.now bus.old.regions.now bus.new.store.now }
    ensures next { CanStep bus.new.store.now bus.new.regions.now bus.old.pid cpu.new }
{
    step_one(cpu, bus)
}

/// One try of a step of a process: what the bytes at its CS:IP mean over its map and over the segments in memory, or the selector
/// that it misses. A miss, a trap and a call of a service change nothing but accessed bits.
///
/// The store changes in bytes of the memory alone, and the tables in accessed bits: they go on to agree with the store, and what
/// the segment registers name goes on to be in memory.
pub fn attempt(cpu: &mut Cpu, store: &mut Store, regions: &mut Regions, pid: u16) -> Outcome
    requires ready { CanStep store.old regions.old pid cpu.old }
    ensures step { Answers result (seen_state store.new regions.new pid cpu.new)
        (seen_state store.old regions.old pid cpu.old) (stepped (seen_state store.old regions.old pid cpu.old)) }
    ensures store { KeepsStore store.old store.new }
    ensures maps { KeepsMaps regions.old regions.new }
    ensures clean { KeepsClean store.old regions.old store.new }
    ensures next { CanStep store.new regions.new pid cpu.new }
{
    let mut bus = SegBus::new(store, regions, pid, cpu);
    step_in(cpu, &mut bus)
}
