// Steps of a turn that are done at once.
ghost use Rattle.std.specs.Prelude.{◌≡◌, ◌<◌, ◌≤◌, ◌+◌, ℕ, List, true};
ghost use Rattle.o2_sched.specs.Schedule.{ahead_of, next_of, work_left};
ghost use Rattle.o2_run.specs.Slice.{OverSome, Slices};
ghost use Rattle.o2_world.specs.World.{Setting, World};
ghost use Rattle.o2_machine.specs.GoesOver.{GoesOver};
ghost use Rattle.o2_machine.specs.StandsFor.{StandsFor};
ghost use Rattle.o2_store.specs.Idle.{NoneTaken};

use crate::machine::Machine;
use o2_slices::slice_of;

impl Machine {
    /// So many steps at most of the turn that the next step is of, which are done at once; how many are done.
    pub(crate) fn steps_at_once(&mut self, process: u16, most: u32) -> u32
        requires most { most ≡ ahead_of self.old.sched }
        requires some { 0 < most }
        requires process { process ≡ (next_of self.old.sched).current }
        requires device { OverSome (GoesOver self.old.space self.old.sched) }
        ensures steps { (device : ℕ) (block : ℕ → List ℕ) (s : Setting) (w : World)
            → StandsFor self.old device block s w → Slices (StandsFor self.new device block s) true s w result }
        ensures device { (blocks : ℕ) → GoesOver self.old.space self.old.sched blocks
            → GoesOver self.new.space self.new.sched blocks }
        ensures left { work_left self.new.sched + result ≤ work_left self.old.sched }
        ensures last { self.new.last ≡ self.old.last }
        ensures images { self.new.space.images ≡ self.old.space.images }
        ensures idle { NoneTaken self.old.space.store.swap → NoneTaken self.new.space.store.swap }
    {
        let done = slice_of(&mut self.space, process, most);
        if done > 0 {
            self.sched.take(done);
        }
        done
    }
}
