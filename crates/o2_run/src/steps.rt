// A machine that stands for a world, step by step.
ghost use Rattle.std.specs.Prelude.{◌≡◌, ◌≤◌, ◌<◌, ◌+◌, ◌⊎◌, ℕ, Bool, IsTrue, false, List, length, Option, Some, None};
ghost use Rattle.o2_outer.specs.Texts.{Rose};
ghost use Rattle.o2_outer.specs.Inputs.{GoesOn, IsSeenAs, left_as};
ghost use Rattle.o2_world.specs.World.{World, Setting};
ghost use Rattle.o2_run.specs.declared.steps.Turn.{Turn};
ghost use Rattle.o2_run.specs.Turn.{Turns, LineIs, Caused, OnGoing, stopped_by, is_for_swap};
ghost use Rattle.o2_run.specs.Pieces.{told_counts, TurnHands};
ghost use Rattle.o2_run.specs.Slice.{OverSome, Slices};
ghost use Rattle.o2_world.specs.Run.{is_over};
ghost use Rattle.o2_run.specs.Room.{AllFits};

use o2_outer::{Sink, Source, SwapDevice};

/// Why a run stops short.
#[derive(Clone, Copy, Debug, PartialEq, Eq)]
pub enum Stop {
    /// The input failed.
    Input,
    /// What the next step needs in memory together doesn't fit it.
    NoRoom,
    /// Neither memory nor the swap device has place for all that lives.
    SwapFull,
    /// The swap device failed.
    SwapFault,
}

/// What a turn came to. All but `Ran` and `Discarded` are final.
#[derive(Clone, Copy, Debug, PartialEq, Eq)]
pub enum Turn {
    /// One step.
    Ran,
    /// A word `discard` of the script.
    Discarded,
    /// All processes have ended; the last line is put.
    AllEnded,
    /// The budget is spent while a process lives; the last line is put.
    BudgetSpent,
    /// The input failed, and the run stopped before the step that asks it.
    InputFault,
    /// A sink failed, in a step or in the last line.
    SinkFault,
    /// The room of the next step exceeds the memory, and the run stopped before it.
    NoRoom,
    /// The swap load exceeds the blocks and the live load the memory, and the run stopped before the next step.
    SwapFull,
    /// The swap device failed, and the run stopped before the step that asked it.
    SwapFault,
}

/// A machine that does the boundless machine's steps: those that are done at once several at a time, and each other by a call of its own.
pub trait Steps {
    /// The settings and worlds that it stands for, over a device of so many blocks, which hold this.
    ghost stands: { Self → (blocks : ℕ) → (ℕ → List ℕ) → Setting → World → Type 0 };

    /// What is the same behind each turn.
    ghost Fixed: { Type 0 };

    ghost fixed: { Self → Fixed };

    /// Whether it keeps its segments in the memory of its setting, and swaps them. One that doesn't leaves the device as it is.
    ghost swaps: { Bool };

    /// That it goes on over a device of so many blocks.
    ghost fits: { Self → (blocks : ℕ) → Type 0 };

    /// How many steps and words of the script are left at most.
    ghost left: { Self → ℕ };

    /// The answer of its first stop or end, and none before.
    ghost stopped: { Self → Option Turn };

    /// Whether its stop line was put whole.
    ghost line_put: { Self → Bool };

    /// That it keeps nothing in blocks of its device.
    ghost none_swapped: { Self → Type 0 };

    /// One step, or one word `discard`, or the last line, or a stop line. After the first answer other than `Ran` and `Discarded` each
    /// turn gives that answer and touches nothing.
    fn turn<I: Source, C: Sink, R: Sink, S: SwapDevice>(
        &mut self,
        input: &mut I,
        console: &mut C,
        report: &mut R,
        swap: &mut S,
    ) -> Turn
        requires device { fits self.old (S.blocks swap.old) }
        // Where each read of the device so far gave what was written last; and however the input is seen: by what it tells, or as a text
        // that the whole of it may be.
        ensures turns { stopped self.old ≡ None → IsTrue (S.told swap.new) → (text : Option (List ℕ)) → IsSeenAs text (I.past input.new)
            → (s : Setting) (w : World) → stands self.old (S.blocks swap.old) (S.block swap.old) s w
            → left_as text (I.left input.old) (I.past input.old) ≡ Some w.input
            → Turns (stands self.new (S.blocks swap.new) (S.block swap.new) s) swaps (S.blocks swap.old) s w (line_put self.new)
            (left_as text (I.left input.new) (I.past input.new))
            (C.taken console.old) (C.taken console.new) (R.taken report.old) (R.taken report.new) result }
        ensures goes_on { GoesOn (I.past input.old) (I.past input.new) }
        // Each line is one put, and so is the piece for the console, where it has bytes. Where a line failed, those in front of it were
        // put whole.
        ensures puts { stopped self.old ≡ None → IsTrue (S.told swap.new) → (text : Option (List ℕ)) → IsSeenAs text (I.past input.new)
            → (s : Setting) (w : World) → stands self.old (S.blocks swap.old) (S.block swap.old) s w
            → left_as text (I.left input.old) (I.past input.old) ≡ Some w.input
            → TurnHands s w (told_counts (C.puts console.old) (C.puts console.new) (R.puts report.old) (R.puts report.new) (length w.lines)
            (R.taken report.old) (R.taken report.new)) result }
        ensures stops { stopped self.new ≡ stopped_by result }
        ensures fixed { fixed self.new ≡ fixed self.old }
        ensures device { fits self.new (S.blocks swap.new) }

        // A stop or an end is final.
        ensures again { (t : Turn) → stopped self.old ≡ Some t → result ≡ t }
        ensures same { (t : Turn) → stopped self.old ≡ Some t → self.new ≡ self.old }
        ensures same_input { (t : Turn) → stopped self.old ≡ Some t → input.new ≡ input.old }
        ensures same_console { (t : Turn) → stopped self.old ≡ Some t → console.new ≡ console.old }
        ensures same_report { (t : Turn) → stopped self.old ≡ Some t → report.new ≡ report.old }
        ensures same_swap { (t : Turn) → stopped self.old ≡ Some t → swap.new ≡ swap.old }

        // A machine that doesn't swap leaves the device as it is, and stops for its input alone.
        ensures unswapped { swaps ≡ false → swap.new ≡ swap.old }
        ensures no_swap_stop { swaps ≡ false → stopped self.old ≡ None → is_for_swap result ≡ false }
        ensures swap_blocks { S.blocks swap.new ≡ S.blocks swap.old }
        ensures swap_told { IsTrue (S.told swap.new) → IsTrue (S.told swap.old) }
        // Where it keeps nothing in blocks, and all that lives fits its memory, the device is neither read nor written.
        ensures idle { stopped self.old ≡ None → IsTrue (S.told swap.old) → (text : Option (List ℕ)) → IsSeenAs text (I.past input.new)
            → (s : Setting) (w : World) → stands self.old (S.blocks swap.old) (S.block swap.old) s w
            → left_as text (I.left input.old) (I.past input.old) ≡ Some w.input → none_swapped self.old
            → (is_over w ≡ false → AllFits s w) → (swap.new ≡ swap.old) × none_swapped self.new }

        // A fault is told only where a count rose in the turn that first tells it.
        ensures input_count { I.faults input.old ≤ I.faults input.new }
        ensures console_count { C.faults console.old ≤ C.faults console.new }
        ensures report_count { R.faults report.old ≤ R.faults report.new }
        ensures swap_count { S.faults swap.old ≤ S.faults swap.new }
        ensures cause { stopped self.old ≡ None
            → Caused (Rose (C.faults console.old) (C.faults console.new) ⊎ Rose (R.faults report.old) (R.faults report.new))
            (Rose (I.faults input.old) (I.faults input.new)) (Rose (S.faults swap.old) (S.faults swap.new)) result }
        ensures line { stopped self.old ≡ None → LineIs (line_put self.new) (Rose (R.faults report.old) (R.faults report.new)) result }
        ensures left { OnGoing result (left self.new < left self.old) };

    /// Steps of one process within its turn that are done at once, one behind another; how many. It stops before a step that
    /// isn't done at once, as it misses a segment, raises an exception, or calls a service and doesn't wait, at the end of the turn,
    /// before a word `discard`, and where the trap flag is set. So there may be none.
    fn slice(&mut self) -> u32
        requires device { OverSome (fits self.old) }
        // They are as many steps of the boundless machine, none of which puts anything or takes anything from the input.
        ensures steps { (blocks : ℕ) (block : ℕ → List ℕ) (s : Setting) (w : World)
            → stands self.old blocks block s w
            → Slices (stands self.new blocks block s) swaps s w result }
        ensures stops { stopped self.new ≡ stopped self.old }
        ensures fixed { fixed self.new ≡ fixed self.old }
        ensures device { (blocks : ℕ) → fits self.old blocks → fits self.new blocks }
        ensures left { left self.new + result ≤ left self.old }
        ensures idle { none_swapped self.old → none_swapped self.new }

        // Behind a stop or an end there is none.
        ensures same { (t : Turn) → stopped self.old ≡ Some t → self.new ≡ self.old };
}
