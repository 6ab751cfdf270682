// Laws of starts over linked modules.
ghost use Rattle.std.specs.Prelude.{◌≡◌, ◌≤◌, ℕ, List, length, true, Ok, Some};
ghost use Rattle.std.specs.List.{All, list_any};
ghost use Rattle.o2_conf.specs.declared.conf.Conf.{Conf};
ghost use Rattle.o2_conf.specs.declared.script.Word.{Word};
ghost use Rattle.o2_image.specs.Parts.{Parts};
ghost use Rattle.o2_image.specs.Whole.{IsRunnable};
ghost use Rattle.o2_dynlink.specs.Linking.{linked_of};
ghost use Rattle.o2_dynlink.specs.Outcome.{LinkedParts};
ghost use Rattle.o2_world.specs.World.{World, Setting};
ghost use Rattle.o2_world.specs.Starts.{opening_of};
ghost use Rattle.o2_conf.specs.Limits.{HasEnvironment};
ghost use Rattle.o2_world.specs.FitStarts.{ShareNoIndex, AreFit, AreOf};
ghost use Rattle.o2_world.specs.Reach.{IsTold};
ghost use Rattle.o2_world.specs.Tied.{IsSound};
ghost use Rattle.o2_image.specs.Getters.{is_library, nth};
ghost use Rattle.o2_world.specs.Known.{is_for_the_run};
ghost use Rattle.o2_load.specs.Loads.{loaded, starts_of, library_ranges, index_at};
ghost use Rattle.o2_load.specs.Rises.{AreRising};

/// Over modules that passed their checks, each start that linking gives is fit and is over these modules, of which no two
/// segments have one shared index. So the world before the first step is sound, and what is held then is what the lines of the
/// starts tell.
pub fn linked_modules_open_soundly()
    ensures fit { (ms : List Parts) (c : Conf) (l : LinkedParts) → All IsRunnable ms
        → linked_of ms c ≡ Ok l → AreFit (starts_of l 1 c.process) }
    ensures over { (ms : List Parts) (c : Conf) (l : LinkedParts) → All IsRunnable ms
        → All HasEnvironment c.process → linked_of ms c ≡ Ok l
        → AreOf (loaded l.images) (starts_of l 1 c.process) }
    ensures apart { (ms : List Parts) (c : Conf) (l : LinkedParts) → All IsRunnable ms
        → linked_of ms c ≡ Ok l → ShareNoIndex (loaded l.images) }
    ensures sound { (s : Setting) (reserved : List (ℕ × ℕ)) (script : List Word) (input : List ℕ) (ms : List Parts) (c : Conf) (l : LinkedParts) (w : World)
        → All IsRunnable ms → All HasEnvironment c.process
        → linked_of ms c ≡ Ok l → opening_of s reserved script input (starts_of l 1 c.process) ≡ Ok w
        → IsSound w }
    ensures told { (s : Setting) (reserved : List (ℕ × ℕ)) (script : List Word) (input : List ℕ) (ms : List Parts) (c : Conf) (l : LinkedParts) (w : World)
        → All IsRunnable ms
        → linked_of ms c ≡ Ok l → opening_of s reserved script input (starts_of l 1 c.process) ≡ Ok w
        → IsTold w }
{}

/// The index of each segment of each library, reached or not, is reserved for the whole run in the world before the first step.
pub fn libraries_are_reserved_for_the_run()
    ensures { (s : Setting) (script : List Word) (input : List ℕ) (ms : List Parts) (c : Conf) (l : LinkedParts) (w : World)
        → linked_of ms c ≡ Ok l
        → opening_of s (library_ranges l) script input (starts_of l 1 c.process) ≡ Ok w
        → (place n : ℕ) (m : Parts) → nth ms place ≡ Some m → is_library m ≡ true → 1 ≤ n
        → n ≤ length m.segments
        → list_any (is_for_the_run (index_at l.images place n)) w.reserved ≡ true }
{}

/// What a process holds from its start on has rising indexes, so its lines tell rising selectors: its program's segments, its
/// environment, and the segments of the libraries that it reaches.
pub fn holds_by_load_rise()
    ensures { (ms : List Parts) (c : Conf) (l : LinkedParts) → All IsRunnable ms → linked_of ms c ≡ Ok l
        → AreRising (starts_of l 1 c.process) }
{}
