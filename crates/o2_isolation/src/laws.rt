// Laws on processes over linked modules.
ghost use Rattle.std.specs.Prelude.{◌≡◌, ◌-◌, ◌<◌, ℕ, List, slice_get, Ok, Some};
ghost use Rattle.std.specs.List.{All};
ghost use Rattle.o2_conf.specs.declared.conf.Conf.{Conf};
ghost use Rattle.o2_conf.specs.declared.script.Word.{Word};
ghost use Rattle.o2_conf.specs.Limits.{HasEnvironment};
ghost use Rattle.o2_image.specs.Parts.{Parts};
ghost use Rattle.o2_image.specs.Whole.{IsRunnable};
ghost use Rattle.o2_dynlink.specs.Linking.{linked_of};
ghost use Rattle.o2_dynlink.specs.Outcome.{LinkedParts};
ghost use Rattle.o2_world.specs.World.{World, Setting};
ghost use Rattle.o2_world.specs.Starts.{Start, opening_of};
ghost use Rattle.o2_load.specs.Loads.{library_ranges, starts_of};
ghost use Rattle.o2_world.specs.Run.{after};
ghost use Rattle.o2_alone.specs.Isolation.{RunsAlone};
ghost use Rattle.o2_alone.specs.Keeping.{KeepsToItself};
ghost use Rattle.o2_isolation.specs.Strangers.{HoldsNoSharedRun, IsStranger, StaysApart};

/// Over modules that passed their checks, each process that linking starts has a run alone, with its number, over the same libraries and
/// without the others. Where it keeps to itself up to some step of the run of all, its events up to there are the first events of its run
/// alone: the same console pieces, lines and registers, and the same bytes behind each selector.
pub fn linked_processes_do_not_feel_one_another()
    ensures keeping { (s : Setting) (script : List Word) (input : List ℕ)
        (ms : List Parts) (c : Conf) (l : LinkedParts) (w : World)
        → All IsRunnable ms → All HasEnvironment c.process → linked_of ms c ≡ Ok l
        → opening_of s (library_ranges l) script input (starts_of l 1 c.process) ≡ Ok w
        → (number : ℕ) (start : Start) → 0 < number
        → slice_get (starts_of l 1 c.process) (number - 1) ≡ Some start
        → RunsAlone s (library_ranges l) input number start w }
    // the same where of its calls of DosReallocHuge nothing is asked
    ensures strangers { (s : Setting) (script : List Word) (input : List ℕ)
        (ms : List Parts) (c : Conf) (l : LinkedParts) (w : World)
        → All IsRunnable ms → All HasEnvironment c.process → linked_of ms c ≡ Ok l
        → opening_of s (library_ranges l) script input (starts_of l 1 c.process) ≡ Ok w
        → (number : ℕ) (start : Start) → 0 < number
        → slice_get (starts_of l 1 c.process) (number - 1) ≡ Some start
        → IsStranger s (library_ranges l) input number start w }
{}

/// A process of a machine file that is given nothing, and makes no other call that tells of others or that they can tell, holds no
/// run of the region that all share. So its calls of DosReallocHuge go by its own runs alone, and `KeepsToItself` needn't ask
/// whose run they resize.
pub fn a_process_apart_resizes_its_own_runs_alone()
    ensures runs { (s : Setting) (reserved : List (ℕ × ℕ)) (script : List Word) (input : List ℕ)
        (starts : List Start) (w alone : World) (number k : ℕ)
        → opening_of s reserved script input starts ≡ Ok w
        → StaysApart s w alone number k → HoldsNoSharedRun (after s w k) number }
    ensures keeps { (s : Setting) (reserved : List (ℕ × ℕ)) (script : List Word) (input : List ℕ)
        (starts : List Start) (w alone : World) (number k : ℕ)
        → opening_of s reserved script input starts ≡ Ok w
        → StaysApart s w alone number k → KeepsToItself s w alone number k }
    ensures back { (s : Setting) (w alone : World) (number k : ℕ)
        → KeepsToItself s w alone number k → StaysApart s w alone number k }
{}
