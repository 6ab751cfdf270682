// Laws of a machine that stands for a world.
ghost use Rattle.std.specs.Prelude.{ℕ, List};
ghost use Rattle.o2_machine.specs.declared.machine.Machine.{Machine};
ghost use Rattle.o2_machine.specs.Reaches.{HoldByLines, ReachesByLines};
ghost use Rattle.o2_machine.specs.StandsFor.{StandsFor};
ghost use Rattle.o2_world.specs.Reach.{IsTold};
ghost use Rattle.o2_world.specs.Tied.{IsSound};
ghost use Rattle.o2_world.specs.World.{Setting, World};

/// What each process holds under each selector is the reach of the report: in a machine, behind each turn, that of the lines of
/// the world for which it stands, and nothing where that is 0; and in the worlds of a run, behind each step.
pub fn what_is_held_is_the_reach_of_the_report()
    ensures machine { (m : Machine) (device : ℕ) (block : ℕ → List ℕ) (s : Setting) (w : World) → StandsFor m device block s w
        → HoldByLines m.space.regions w }
    ensures run { (s : Setting) (w : World) → IsSound w → IsTold w → ReachesByLines s w }
{}
