// A run whose programs write nowhere.
ghost use Rattle.std.specs.Prelude.{◌≡◌, ◌≤◌, ℕ, IsTrue, List, [], length, Option, Some, None};
ghost use Rattle.o2_outer.specs.Inputs.{GoesOn, IsSeenAs, left_as};
ghost use Rattle.o2_outer.specs.Texts.{Gains, Rose};
ghost use Rattle.o2_world.specs.Text.{lines_text};
ghost use Rattle.o2_world.specs.World.{Setting, World};
ghost use Rattle.o2_run.specs.Ended.{EndsAs, AllFitRun};
ghost use Rattle.o2_run.specs.Faults.{Caused};
ghost use Rattle.o2_run.specs.Pieces.{counts};
ghost use Rattle.o2_machine.specs.GoesOver.{GoesOver};
ghost use Rattle.o2_machine.specs.Lasts.{machine_swaps, put_of, stopped_of};
ghost use Rattle.o2_machine.specs.StandsFor.{StandsFor};
ghost use Rattle.o2_run.specs.Lined.{HasLined, LastPutFailed};
ghost use Rattle.o2_cli.specs.Unseen.{Written};
ghost use Rattle.o2_store.specs.Idle.{NoneTaken};

use o2_machine::Machine;
use o2_outer::{NoSink, Sink, Source, SwapDevice};
use o2_run::{Fault, run};

/// Runs a machine to its end or its stop, and tells whether a stop line was put whole. What its programs write is counted by the machine, and goes nowhere.
pub(crate) fn run_unseen<I: Source, R: Sink, S: SwapDevice>(
    machine: &mut Machine,
    input: &mut I,
    report: &mut R,
    swap: &mut S,
) -> Result<(), Fault>
    requires device { GoesOver machine.old.space machine.old.sched (S.blocks swap.old) }
    ensures texts { stopped_of machine.old.last ≡ None → IsTrue (S.told swap.new) → (text : Option (List ℕ)) → IsSeenAs text (I.past input.new)
        → (s : Setting) (w : World) (r : Option (List ℕ)) → StandsFor machine.old (S.blocks swap.old) (S.block swap.old) s w
        → left_as text (I.left input.old) (I.past input.old) ≡ Some w.input
        → w.console ≡ [] → Gains r (R.taken report.old) (lines_text w.lines)
        → (z : Written) × HasLined (StandsFor machine.new (S.blocks swap.new) (S.block swap.new) s) machine_swaps (S.blocks swap.old) s w
        (left_as text (I.left input.new) (I.past input.new))
        (Some []) (Some z.bytes) r (R.taken report.new) (LastPutFailed R.puts R.faults report.old report.new)
        (counts 0 z.pieces (R.puts report.old) (R.puts report.new) (length w.lines)) (put_of machine.new.last) result }
    ensures goes_on { GoesOn (I.past input.old) (I.past input.new) }
    ensures stopped { EndsAs (stopped_of machine.new.last) result }
    ensures device { GoesOver machine.new.space machine.new.sched (S.blocks swap.new) }
    ensures images { machine.new.space.images ≡ machine.old.space.images }
    ensures swap_blocks { S.blocks swap.new ≡ S.blocks swap.old }
    ensures swap_told { IsTrue (S.told swap.new) → IsTrue (S.told swap.old) }
    ensures idle { stopped_of machine.old.last ≡ None → IsTrue (S.told swap.old) → (text : Option (List ℕ)) → IsSeenAs text (I.past input.new)
        → (s : Setting) (w : World) → StandsFor machine.old (S.blocks swap.old) (S.block swap.old) s w
        → left_as text (I.left input.old) (I.past input.old) ≡ Some w.input → NoneTaken machine.old.space.store.swap
        → AllFitRun s w → (swap.new ≡ swap.old) × NoneTaken machine.new.space.store.swap }

    // A fault is told only where a count rose.
    ensures input_count { I.faults input.old ≤ I.faults input.new }
    ensures report_count { R.faults report.old ≤ R.faults report.new }
    ensures swap_count { S.faults swap.old ≤ S.faults swap.new }
    ensures cause { stopped_of machine.old.last ≡ None → Caused (Rose (R.faults report.old) (R.faults report.new))
        (Rose (I.faults input.old) (I.faults input.new)) (Unit {0}) (Rose (S.faults swap.old) (S.faults swap.new)) result }
{
    let mut programs = NoSink::new();
    run(machine, input, &mut programs, report, swap)
}
