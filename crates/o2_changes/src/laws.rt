// What follows for changes where a world is what a machine goes by.
ghost use Rattle.std.specs.Prelude.{◌≡◌, ◌<◌, ℕ, Some, false};
ghost use Rattle.o2_world.specs.Known.{held_at};
ghost use Rattle.o2_world.specs.Rulings.{is_in_run};
ghost use Rattle.o2_world.specs.World.{Held as HeldOf, World};
ghost use Rattle.o2_stands.specs.Stands.{IsTidy, is_by_load};
ghost use Rattle.o2_changes.specs.Worlds.{LosesOne};

/// A hold of a segment alone that didn't come with a module may go from a tidy world.
pub fn a_tidy_world_may_lose_a_hold()
    ensures { (w : World) (n i : ℕ) (h : HeldOf) → 0 < n → IsTidy w.processes w.names w.reserved
        → held_at w.processes n i ≡ Some h → is_in_run h ≡ false → is_by_load h.cause ≡ false → LosesOne w n i }
{}
