// The whole run.
ghost use Rattle.std.specs.Prelude.{◌≡◌, ◌≤◌, ◌⊎◌, IsTrue, false, List, length, ℕ, Option, Some, None};
ghost use Rattle.o2_outer.specs.Texts.{Rose, Gains};
ghost use Rattle.o2_outer.specs.Inputs.{GoesOn, IsSeenAs, left_as};
ghost use Rattle.o2_world.specs.World.{World, Setting};
ghost use Rattle.o2_world.specs.Text.{lines_text};
ghost use Rattle.o2_world.specs.Run.{console as console_text};
ghost use Rattle.o2_run.specs.Faults.{Caused};
ghost use Rattle.o2_run.specs.Pieces.{counts};
ghost use Rattle.o2_run.specs.Lined.{HasLined, LastPutFailed};
ghost use Rattle.o2_run.specs.Ended.{EndsAs, StopsForInput, AllFitRun};

use crate::{Fault, Steps};
use o2_outer::{Sink, Source, SwapDevice};

/// Runs a machine that stands for a world to its end, by the steps that are done at once, and by a call of `turn` where the next one
/// isn't: it is Ok where the last line is put. What both sinks took before the opening is `c` and `r`. At each end, and at each fault, the machine stands for the
/// world whose texts they have taken, and tells of a stop whether its line was put whole. Where it wasn't, that put, which is the
/// report's last, failed. Each line is one put, and so is the console's piece of each step that has one.
#[tactic(auto, using(o2_outer::proofs::Inputs::goes_same))]
pub fn run<M: Steps, I: Source, C: Sink, R: Sink, S: SwapDevice>(
    machine: &mut M,
    input: &mut I,
    console: &mut C,
    report: &mut R,
    swap: &mut S,
) -> Result<(), Fault>
    requires device { M.fits machine.old (S.blocks swap.old) }
    // Where each read of the device gave what was written last; and however the input is seen: by what it tells, or as a text that the
    // whole of it may be.
    ensures texts { M.stopped machine.old ≡ None → IsTrue (S.told swap.new) → (text : Option (List ℕ)) → IsSeenAs text (I.past input.new)
        → (s : Setting) (w : World) (c r : Option (List ℕ)) → M.stands machine.old (S.blocks swap.old) (S.block swap.old) s w
        → left_as text (I.left input.old) (I.past input.old) ≡ Some w.input
        → Gains c (C.taken console.old) (console_text w) → Gains r (R.taken report.old) (lines_text w.lines)
        → HasLined (M.stands machine.new (S.blocks swap.new) (S.block swap.new) s) M.swaps (S.blocks swap.old) s w
        (left_as text (I.left input.new) (I.past input.new))
        c (C.taken console.new) r (R.taken report.new) (LastPutFailed R.puts R.faults report.old report.new)
        (counts (C.puts console.old) (C.puts console.new) (R.puts report.old) (R.puts report.new) (length w.lines)) (M.line_put machine.new) result }
    ensures goes_on { GoesOn (I.past input.old) (I.past input.new) }
    ensures stopped { EndsAs (M.stopped machine.new) result }
    ensures fixed { M.fixed machine.new ≡ M.fixed machine.old }
    ensures device { M.fits machine.new (S.blocks swap.new) }

    // A machine that doesn't swap leaves the device as it is, and stops for its input alone.
    ensures unswapped { M.swaps ≡ false → swap.new ≡ swap.old }
    ensures no_swap_stop { M.swaps ≡ false → M.stopped machine.old ≡ None → StopsForInput result }
    ensures swap_blocks { S.blocks swap.new ≡ S.blocks swap.old }
    ensures swap_told { IsTrue (S.told swap.new) → IsTrue (S.told swap.old) }
    // Where it keeps nothing in blocks, and all that lives fits its memory at each step, the device is neither read nor written.
    ensures idle { M.stopped machine.old ≡ None → IsTrue (S.told swap.old) → (text : Option (List ℕ)) → IsSeenAs text (I.past input.new)
        → (s : Setting) (w : World) → M.stands machine.old (S.blocks swap.old) (S.block swap.old) s w
        → left_as text (I.left input.old) (I.past input.old) ≡ Some w.input → M.none_swapped machine.old
        → AllFitRun s w → (swap.new ≡ swap.old) × M.none_swapped machine.new }

    // A fault is told only where a count rose.
    ensures input_count { I.faults input.old ≤ I.faults input.new }
    ensures console_count { C.faults console.old ≤ C.faults console.new }
    ensures report_count { R.faults report.old ≤ R.faults report.new }
    ensures swap_count { S.faults swap.old ≤ S.faults swap.new }
    ensures cause { M.stopped machine.old ≡ None
        → Caused (Rose (C.faults console.old) (C.faults console.new) ⊎ Rose (R.faults report.old) (R.faults report.new))
        (Rose (I.faults input.old) (I.faults input.new)) (Unit {0}) (Rose (S.faults swap.old) (S.faults swap.new)) result }
{
    'steps: loop {
        let done = machine.slice();
        if done > 0 {
            continue 'steps;
        }
        let more = machine.turn(input, console, report, swap).goes_on()?;
        if !more {
            return Ok(());
        }
    }
}
