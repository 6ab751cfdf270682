// One step of a process over a plain memory of segments.
ghost use Rattle.std.specs.Prelude.{◌≡◌, ℕ, true, false};
ghost use Rattle.o2_isa.specs.View.{bound_registers};
ghost use Rattle.o2_isa.specs.Steps.{state};
ghost use Rattle.o2_isa.specs.Step.{Answers, stepped, is_miss};
ghost use Rattle.o2_bus.specs.Plain.{plain_view, held_in, shown_in, registers_of};
ghost use Rattle.o2_bus.specs.Frames.{KeepsSegments};

use crate::step_one;
use o2_bus::{Cpu, Outcome, Plain, PlainBus};

/// A step over the bus, said of the memory.
fn step_in(cpu: &mut Cpu, bus: &mut PlainBus<'_>) -> Outcome
    requires agrees { registers_of bus.old.holds ≡ bound_registers (held_in bus.old.plain.now bus.old.pid) cpu.old }
    ensures same_reference { bus.new.plain.ghost_name ≡ bus.old.plain.ghost_name }
    ensures step { Answers result (state cpu.new (plain_view bus.new.plain.now bus.old.pid cpu.new)) (state cpu.old (plain_view bus.old.plain.now bus.old.pid cpu.old)) (stepped (state cpu.old (plain_view bus.old.plain.now bus.old.pid cpu.old))) }
    ensures frame { KeepsSegments bus.old.plain.now bus.new.plain.now }
    ensures never_missed { ((n : ℕ) → shown_in bus.old.plain.now n ≡ true) → is_miss result ≡ false }
{
    step_one(cpu, bus)
}

/// One step of a process: what the bytes at its CS:IP mean over its map and the bytes of its names. Maps, marks and sizes stay.
/// Where all names are present no step misses.
pub fn step_plain(plain: &mut Plain, pid: u16, cpu: &mut Cpu) -> Outcome
    ensures step { Answers result (state cpu.new (plain_view plain.new pid cpu.new)) (state cpu.old (plain_view plain.old pid cpu.old)) (stepped (state cpu.old (plain_view plain.old pid cpu.old))) }
    ensures frame { KeepsSegments plain.old plain.new }
    ensures never_missed { ((n : ℕ) → shown_in plain.old n ≡ true) → is_miss result ≡ false }
{
    let mut bus = plain.bus(pid, cpu);
    step_in(cpu, &mut bus)
}
