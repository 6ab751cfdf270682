// Steps of a process over a store that are done at once.
ghost use Rattle.std.specs.Prelude.{◌≡◌, ◌≤◌, ℕ, List, length, true, false};
ghost use Rattle.o2_regions.specs.Lives.{lives};
ghost use Rattle.o2_run.specs.Slice.{OverSome};
ghost use Rattle.o2_stands.specs.Stands.{IsSetTo, Stands};
ghost use Rattle.o2_store.specs.Shelf.{SameTables};
ghost use Rattle.o2_world.specs.Run.{is_over, next_dispatch, words_coming};
ghost use Rattle.o2_world.specs.World.{Setting, World};
ghost use Rattle.o2_slices.specs.Laters.{StandsLater};
ghost use Rattle.o2_space.specs.Frames.{AddsNone, KeepsSpace};
ghost use Rattle.o2_space.specs.Parts.{parts_in};
ghost use Rattle.o2_space.specs.Stands.{GoTogether};

use crate::steps::slice_in_store;
use o2_space::{Proc, Space};
use o2_stands::lawful;
use o2_world::State;

/// Steps of a process that lives, so many at most, which are done at once one behind another; how many. They end before a step
/// that isn't done at once, as it misses a segment, raises an exception, or calls a service and doesn't wait, and where the trap flag
/// is set. Where one waits, all that are left do, and they take no more time than one.
pub fn slice_of(space: &mut Space, pid: u16, most: u32) -> u32
    requires some { 1 ≤ pid }
    requires there { pid ≤ length space.old.procs.items }
    requires live { lives space.old.ends pid ≡ true }
    requires together { OverSome (GoTogether space.old) }

    // From a machine that stands for a world in whose turn they are, and before whose next step no word comes, as many steps of the
    // boundless machine.
    ensures later { (device : ℕ) (block : ℕ → List ℕ) (s : Setting) (w : World)
        → Stands (parts_in space.old device block) w → IsSetTo (parts_in space.old device block) s
        → is_over w ≡ false → words_coming w ≡ 0 → (next_dispatch s w).current ≡ pid
        → most ≤ (next_dispatch s w).left → most ≤ w.dispatch.budget
        → StandsLater (parts_in space.new device block) s w result }
    ensures within { result ≤ most }

    // The parts go on to go together, what a setting fixes stays, and who is marked live.
    ensures together { (device : ℕ) → GoTogether space.old device → GoTogether space.new device }
    ensures keeps { KeepsSpace space.old space.new }
    ensures adds { AddsNone space.old space.new }
    ensures ends { space.new.ends ≡ space.old.ends }
    ensures blocks { space.new.store.swap ≡ space.old.store.swap }
    // The same segments live, and the same names are kept.
    ensures names { space.new.names ≡ space.old.names }
    ensures tables { SameTables space.old.store space.new.store }
{
    lawful(&space.store, &space.regions);
    let mut cpu = space.procs[pid as usize - 1].cpu;
    let done = slice_in_store(
        pid,
        &mut cpu,
        &mut space.store,
        &mut space.regions,
        &mut space.cache,
        most,
    );
    space.procs[pid as usize - 1] = Proc {
        cpu,
        state: State::Live,
    };
    done
}
