// One try of a step of a process over a store, by what is in memory.
ghost use Rattle.std.specs.Prelude.{◌≡◌, ◌≤◌, ◌⊎◌, true};
ghost use Rattle.o2_outer.specs.Texts.{Rose};
ghost use Rattle.o2_outer.specs.Inputs.{GoesOn};
ghost use Rattle.o2_isa.specs.View.{bound_registers};
ghost use Rattle.o2_segbus.specs.Seen.{hold_in, seen};
ghost use Rattle.o2_segbus.specs.Bus.{registers_of};
ghost use Rattle.o2_segbus.specs.Frames.{CanStep, KeepsClean, KeepsMaps, KeepsStore};
ghost use Rattle.o2_stepping.specs.Ran.{AttemptFor, OnAsked, OnMissed, OnUndone};
ghost use Rattle.o2_stepping.specs.Seated.{IsWholeUnder};
ghost use Rattle.o2_gate.specs.Targets.{targets};
ghost use Rattle.o2_gate.specs.Pointed.{are_ready};
ghost use Rattle.o2_stepping.specs.Tried.{PartTried, TriesOver};
ghost use Rattle.o2_run.specs.Pieces.{counts, told_counts};
ghost use Rattle.o2_stepping.specs.Pieces.{AttemptHands};

use crate::one_step::{Attempt, run_one};
use o2_cache::DecodeCache;
use o2_gate::State as Services;
use o2_isa::Cpu;
use o2_outer::{Sink, Source};
use o2_regions::Regions;
use o2_run::Fault;
use o2_segbus::SegBus;
use o2_store::Store;

/// A try over the bus, said of store and tables.
#[inline(always)]
fn try_in<I: Source, C: Sink, R: Sink>(
    pid: u16,
    cpu: &mut Cpu,
    bus: &mut SegBus<'_, '_>,
    cache: &mut DecodeCache,
    services: &mut Services,
    input: &mut I,
    console: &mut C,
    report: &mut R,
) -> Result<Attempt, Fault>
    requires { registers_of bus.old.regions.now bus.old.pid bus.old.registers
        ≡ bound_registers (hold_in bus.old.regions.now bus.old.pid) cpu.old }
    ensures same_store { bus.new.store.ghost_name ≡ bus.old.store.ghost_name }
    ensures same_regions { bus.new.regions.ghost_name ≡ bus.old.regions.ghost_name }
    ensures over { TriesOver bus.old.store.now bus.old.regions.now bus.new.store.now bus.old.pid pid cpu.old cpu.new services.old
        (I.left input.old) (I.left input.new) (I.past input.old) (I.past input.new)
        (C.taken console.old) (C.taken console.new) (R.taken report.old) (R.taken report.new) result }
    ensures goes_on { GoesOn (I.past input.old) (I.past input.new) }
    ensures still { OnUndone result ((cpu.new ≡ cpu.old)
        × (input.new ≡ input.old) × (console.new ≡ console.old) × (report.new ≡ report.old)) }
    ensures ready { OnAsked result (λ a. are_ready (seen bus.new.store.now bus.new.regions.now bus.old.pid cpu.new) (targets a) ≡ true) }
    ensures store { KeepsStore bus.old.store.now bus.new.store.now }
    ensures maps { KeepsMaps bus.old.regions.now bus.new.regions.now }
    ensures clean { KeepsClean bus.old.store.now bus.old.regions.now bus.new.store.now }
    ensures next { CanStep bus.new.store.now bus.new.regions.now bus.old.pid cpu.new }
    ensures whole { OnMissed result (λ z. IsWholeUnder bus.old.store.now bus.old.regions.now bus.old.pid z.0) }
    ensures avail { services.new.avail ≡ services.old.avail }
    ensures input_count { I.faults input.old ≤ I.faults input.new }
    ensures console_count { C.faults console.old ≤ C.faults console.new }
    ensures report_count { R.faults report.old ≤ R.faults report.new }
    ensures cause { AttemptFor (Rose (C.faults console.old) (C.faults console.new) ⊎ Rose (R.faults report.old) (R.faults report.new))
        (Rose (I.faults input.old) (I.faults input.new)) result }
    ensures puts { AttemptHands (counts (C.puts console.old) (C.puts console.new) (R.puts report.old) (R.puts report.new) 0) result }
    ensures part { PartTried bus.old.store.now bus.old.regions.now bus.old.pid pid cpu.old services.old (I.left input.old)
        (I.past input.old) (I.past input.new)
        (told_counts (C.puts console.old) (C.puts console.new) (R.puts report.old) (R.puts report.new) 0
        (R.taken report.old) (R.taken report.new)) result }
{
    run_one(pid, cpu, bus, cache, services, input, console, report)
}

/// One try of a step of process `pid`, all but what an end takes from it, over what is in memory. Where a segment is missed,
/// or a call on segments is asked for, nothing is changed but accessed bits, and nothing is taken or put; where one is missed, the step
/// may be tried again.
///
/// The store changes in bytes of the memory alone, and the tables in accessed bits.
#[inline(always)]
pub(crate) fn try_step<I: Source, C: Sink, R: Sink>(
    pid: u16,
    cpu: &mut Cpu,
    store: &mut Store,
    regions: &mut Regions,
    cache: &mut DecodeCache,
    services: &mut Services,
    input: &mut I,
    console: &mut C,
    report: &mut R,
) -> Result<Attempt, Fault>
    requires ready { CanStep store.old regions.old pid cpu.old }
    ensures over { TriesOver store.old regions.old store.new pid pid cpu.old cpu.new services.old
        (I.left input.old) (I.left input.new) (I.past input.old) (I.past input.new)
        (C.taken console.old) (C.taken console.new) (R.taken report.old) (R.taken report.new) result }
    ensures goes_on { GoesOn (I.past input.old) (I.past input.new) }
    ensures still { OnUndone result ((cpu.new ≡ cpu.old)
        × (input.new ≡ input.old) × (console.new ≡ console.old) × (report.new ≡ report.old)) }
    ensures ready { OnAsked result (λ a. are_ready (seen store.new regions.new pid cpu.new) (targets a) ≡ true) }
    ensures store { KeepsStore store.old store.new }
    ensures maps { KeepsMaps regions.old regions.new }
    ensures clean { KeepsClean store.old regions.old store.new }
    ensures next { CanStep store.new regions.new pid cpu.new }
    // What is missed wasn't discarded.
    ensures whole { OnMissed result (λ z. IsWholeUnder store.old regions.old pid z.0) }
    ensures avail { services.new.avail ≡ services.old.avail }
    ensures input_count { I.faults input.old ≤ I.faults input.new }
    ensures console_count { C.faults console.old ≤ C.faults console.new }
    ensures report_count { R.faults report.old ≤ R.faults report.new }
    ensures cause { AttemptFor (Rose (C.faults console.old) (C.faults console.new) ⊎ Rose (R.faults report.old) (R.faults report.new))
        (Rose (I.faults input.old) (I.faults input.new)) result }
    ensures puts { AttemptHands (counts (C.puts console.old) (C.puts console.new) (R.puts report.old) (R.puts report.new) 0) result }
    ensures part { PartTried store.old regions.old pid pid cpu.old services.old (I.left input.old)
        (I.past input.old) (I.past input.new)
        (told_counts (C.puts console.old) (C.puts console.new) (R.puts report.old) (R.puts report.new) 0
        (R.taken report.old) (R.taken report.new)) result }
{
    let mut bus = SegBus::new(store, regions, pid, cpu);
    try_in(pid, cpu, &mut bus, cache, services, input, console, report)
}
