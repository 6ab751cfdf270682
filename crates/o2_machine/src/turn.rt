// A turn of the machine: whose it is, and its step.
ghost use Rattle.std.specs.Prelude.{◌≡◌, ◌<◌, ◌≤◌, ◌+◌, ◌⊎◌, ℕ, List, IsTrue, true, false, length, Option, Some};
ghost use Rattle.o2_outer.specs.Texts.{Rose};
ghost use Rattle.o2_outer.specs.Inputs.{GoesOn, IsSeenAs, left_as};
ghost use Rattle.o2_conf.specs.Dispatch.{lives};
ghost use Rattle.o2_world.specs.World.{World, Setting};
ghost use Rattle.o2_sched.specs.Schedule.{PicksLive, is_step, pick_of, work_left};
ghost use Rattle.o2_sched.specs.declared.sched.Pick.TheVariants.{Discard};
ghost use Rattle.o2_run.specs.Slice.{OverSome};
ghost use Rattle.o2_run.specs.Turn.{Turns, LineIs, Caused, OnGoing};
ghost use Rattle.o2_machine.specs.Lasts.{answer_of, is_word, put_of};
ghost use Rattle.o2_machine.specs.Steppeds.{stepped_sched};
ghost use Rattle.o2_world.specs.World.{is_live as lives_on};
ghost use Rattle.o2_machine.specs.GoesOver.{GoesOver};
ghost use Rattle.o2_machine.specs.StandsFor.{StandsFor};
ghost use Rattle.o2_run.specs.Pieces.{told_counts, TurnHands};
ghost use Rattle.o2_store.specs.Frames.{KeepsDevice};
ghost use Rattle.o2_store.specs.Idle.{IsIdle, NoneTaken};
ghost use Rattle.o2_run.specs.Room.{AllFits};
ghost use Rattle.o2_world.specs.Run.{is_over, with_word, words_coming};

use crate::last::{Last, answer};
use crate::machine::Machine;
use o2_outer::{Put, Sink, Source, SwapDevice};
use o2_run::{Fault, Steps, Turn, put_stop};
use o2_sched::Pick;
use o2_space::is_live;
use o2_stepping::Ran;

/// Whether a word of the script comes next.
fn is_word(pick: Pick) -> bool
    ensures { result ≡ is_word pick }
{
    match pick {
        Pick::Discard => true,
        Pick::Step(_) => false,
        Pick::AllEnded => false,
        Pick::BudgetSpent => false,
    }
}

impl Machine {
    /// The word `discard` that comes before the next step is done. Nothing is put, and no step is taken.
    fn discard(&mut self)
        requires pick { pick_of self.old.sched ≡ Discard }
        requires device { OverSome (GoesOver self.old.space self.old.sched) }
        ensures stands { (device : ℕ) (block : ℕ → List ℕ) (s : Setting) (w : World) → StandsFor self.old device block s w
            → (0 < words_coming w) × StandsFor self.new device block s (with_word w) }
        ensures device { (blocks : ℕ) → GoesOver self.old.space self.old.sched blocks
            → GoesOver self.new.space self.new.sched blocks }
        ensures left { work_left self.new.sched < work_left self.old.sched }
        ensures last { self.new.last ≡ self.old.last }
        ensures images { self.new.space.images ≡ self.old.space.images }
        ensures idle { NoneTaken self.old.space.store.swap → NoneTaken self.new.space.store.swap }
    {
        self.sched.next();
        self.space.discard_all();
    }

    /// A step of this process is done, and counted.
    fn stepped(&mut self, pid: u16, ran: &Ran)
        requires pick { is_step (pick_of self.old.sched) ≡ true }
        requires live { lives self.old.sched.flags pid ≡ true }
        ensures sched { self.new.sched ≡ stepped_sched self.old.sched pid (lives_on ran.now.state) }
        ensures bytes { self.new.console_bytes ≡ self.old.console_bytes + ran.now.tally.bytes }
        ensures lines { self.new.lines ≡ self.old.lines + ran.now.tally.lines }
        ensures space { self.new.space ≡ self.old.space }
        ensures budget { self.new.budget ≡ self.old.budget }
        ensures last { self.new.last ≡ self.old.last }
        ensures images { self.new.space.images ≡ self.old.space.images }
        ensures left { self.new.sched.dispatch.budget < self.old.sched.dispatch.budget }
    {
        self.sched.stepped();
        self.console_bytes += ran.tally.bytes as u64;
        self.lines += ran.tally.lines as u128;
        if !is_live(ran.state) {
            self.sched.ended(pid);
        }
    }

    /// What was picked: one step, or the last line, or a stop line.
    #[tactic(auto, using(o2_outer::proofs::Inputs::goes_same))]
    fn advance<I: Source, C: Sink, R: Sink, S: SwapDevice>(
        &mut self,
        pick: Pick,
        input: &mut I,
        console: &mut C,
        report: &mut R,
        swap: &mut S,
    ) -> Option<Last>
        requires pick { pick ≡ pick_of self.old.sched }
        requires live { PicksLive self.old.sched.flags pick }
        requires wordless { is_word pick ≡ false }
        requires device { GoesOver self.old.space self.old.sched (S.blocks swap.old) }
        ensures turns { IsTrue (S.told swap.new) → (text : Option (List ℕ)) → IsSeenAs text (I.past input.new) → (s : Setting) (w : World)
            → StandsFor self.old (S.blocks swap.old) (S.block swap.old) s w
            → left_as text (I.left input.old) (I.past input.old) ≡ Some w.input
            → Turns (StandsFor self.new (S.blocks swap.new) (S.block swap.new) s)
            true (S.blocks swap.old) s w (put_of result)
            (left_as text (I.left input.new) (I.past input.new))
            (C.taken console.old) (C.taken console.new) (R.taken report.old) (R.taken report.new) (answer_of result) }
        ensures goes_on { GoesOn (I.past input.old) (I.past input.new) }
        ensures last { self.new.last ≡ self.old.last }
        ensures images { self.new.space.images ≡ self.old.space.images }
        ensures device { GoesOver self.new.space self.new.sched (S.blocks swap.new) }
        ensures frame { KeepsDevice S.blocks S.told S.faults swap.old swap.new (answer_of result ≡ Turn.SwapFault) }
        ensures idle { IsTrue (S.told swap.old) → (text : Option (List ℕ)) → IsSeenAs text (I.past input.new) → (s : Setting) (w : World)
            → StandsFor self.old (S.blocks swap.old) (S.block swap.old) s w
            → left_as text (I.left input.old) (I.past input.old) ≡ Some w.input → (is_over w ≡ false → AllFits s w)
            → NoneTaken self.old.space.store.swap → IsIdle self.new.space.store swap.old swap.new }
        ensures input_count { I.faults input.old ≤ I.faults input.new }
        ensures console_count { C.faults console.old ≤ C.faults console.new }
        ensures report_count { R.faults report.old ≤ R.faults report.new }
        ensures cause { Caused
            (Rose (C.faults console.old) (C.faults console.new) ⊎ Rose (R.faults report.old) (R.faults report.new))
            (Rose (I.faults input.old) (I.faults input.new)) (Unit {0}) (answer_of result) }
        ensures line { LineIs (put_of result) (Rose (R.faults report.old) (R.faults report.new)) (answer_of result) }
        ensures left { OnGoing (answer_of result) (work_left self.new.sched < work_left self.old.sched) }
        // Each line is one put, and so is the piece for the console, where it has bytes. Where a line failed, those in front of it were
        // put whole.
        ensures puts { IsTrue (S.told swap.new) → (text : Option (List ℕ)) → IsSeenAs text (I.past input.new) → (s : Setting) (w : World)
            → StandsFor self.old (S.blocks swap.old) (S.block swap.old) s w
            → left_as text (I.left input.old) (I.past input.old) ≡ Some w.input
            → TurnHands s w (told_counts (C.puts console.old) (C.puts console.new)
            (R.puts report.old) (R.puts report.new) (length w.lines) (R.taken report.old) (R.taken report.new)) (answer_of result) }
    {
        match pick {
            Pick::Discard => unreachable!(),
            Pick::AllEnded => match report.put(b"all ended\n") {
                Put::Done => Some(Last::AllEnded),
                Put::Failed => Some(Last::SinkFault),
            },
            Pick::BudgetSpent => match report.put(b"budget spent\n") {
                Put::Done => Some(Last::BudgetSpent),
                Put::Failed => Some(Last::SinkFault),
            },
            Pick::Step(pid) => match self.space.act(pid, input, console, report, swap) {
                Err(Fault::Sink) => Some(Last::SinkFault),
                Err(Fault::Stopped(why)) => Some(Last::Stopped(why, put_stop(why, report))),
                Ok(ran) => {
                    self.stepped(pid, &ran);
                    if ran.whole {
                        None
                    } else {
                        Some(Last::SinkFault)
                    }
                }
            },
        }
    }
}

impl Steps for Machine {
    ghost use Rattle.o2_image.specs.ImageList.{ImageList};
    ghost use Rattle.o2_machine.specs.Lasts.{stopped_of, put_of, machine_swaps};
    ghost use Rattle.o2_sched.specs.Schedule.{work_left};
    ghost use Rattle.o2_machine.specs.GoesOver.{GoesOver};
    ghost use Rattle.o2_machine.specs.StandsFor.{StandsFor};
    ghost use Rattle.o2_store.specs.Idle.{NoneTaken};

    ghost stands = { λ m blocks block s w. StandsFor m blocks block s w };

    ghost Fixed = { ImageList };

    ghost fixed = { λ m. m.space.images };

    ghost fits = { λ m blocks. GoesOver m.space m.sched blocks };

    ghost swaps = { machine_swaps };

    ghost left = { λ m. work_left m.sched };

    ghost stopped = { λ m. stopped_of m.last };

    ghost line_put = { λ m. put_of m.last };

    ghost none_swapped = { λ m. NoneTaken m.space.store.swap };

    #[tactic(auto, using(o2_outer::proofs::Inputs::goes_same))]
    fn turn<I: Source, C: Sink, R: Sink, S: SwapDevice>(
        &mut self,
        input: &mut I,
        console: &mut C,
        report: &mut R,
        swap: &mut S,
    ) -> Turn {
        match self.last {
            Some(_) => answer(self.last),
            None => {
                let pick = self.sched.coming();
                if is_word(pick) {
                    self.discard();
                    return Turn::Discarded;
                }
                let last = self.advance(pick, input, console, report, swap);
                self.last = last;
                answer(last)
            }
        }
    }

    fn slice(&mut self) -> u32 {
        if self.last.is_some() {
            return 0;
        }
        let ahead = self.sched.ahead();
        if ahead.most == 0 {
            return 0;
        }
        self.steps_at_once(ahead.process, ahead.most)
    }
}
