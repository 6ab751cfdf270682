// Laws of the report's text.
ghost use Rattle.std.specs.Prelude.{◌≡◌, ◌<◌, ◌^◌, ℕ, List, map, length, true, Ok, Some};
ghost use Rattle.std.specs.List.{All};
ghost use Rattle.o2_base.specs.declared.selector.Selector.{Selector};
ghost use Rattle.o2_conf.specs.declared.script.Word.{Word};
ghost use Rattle.o2_isa.specs.View.{is_local};
ghost use Rattle.o2_world.specs.World.{World, Setting, Process, Line};
ghost use Rattle.o2_world.specs.Holders.{process_at};
ghost use Rattle.o2_world.specs.Starts.{Start, opening_of};
ghost use Rattle.o2_world.specs.Text.{lines_text};
ghost use Rattle.o2_world.specs.Run.{after, step, report as report_text};
ghost use Rattle.o2_world.specs.Reach.{reach, holds_at, IsTold};
ghost use Rattle.o2_world.specs.Tied.{IsSound};
ghost use Rattle.o2_read_report.specs.Plain.{ArePlain, IsPlainStart, shown, shown_number};
ghost use Rattle.o2_read_report.specs.Finds.{FindsReach};

/// Two lists of plain lines with one text are the same, as far as a text shows lines: values behind an error aren't printed, and of a
/// decimal number 64 digits are. So the report of a run tells its lines, whatever its last line is. A line is plain if the names in it end
/// where they end: a module's name or a cause has no line end, and a call's name no blank.
pub fn a_text_is_of_one_list_of_lines()
    ensures lines { (ls ms : List Line) → ArePlain ls → ArePlain ms
        → lines_text ls ≡ lines_text ms → map shown ls ≡ map shown ms }
    ensures reports { (u v : World) → ArePlain u.lines → ArePlain v.lines
        → report_text u ≡ report_text v → map shown u.lines ≡ map shown v.lines }
    ensures numbers { (n : ℕ) → n < 10 ^ 64 → shown_number n ≡ n }
{}

/// Reach is read off the report: worlds with one report have the same reach of each process and selector. Where the lines tell what is
/// held, each process holds the same in both, as often.
pub fn reach_is_read_off_the_report()
    ensures lines { (ls ms : List Line) → ArePlain ls → ArePlain ms
        → lines_text ls ≡ lines_text ms → (p s : ℕ) → reach ls p s ≡ reach ms p s }
    ensures reports { (u v : World) → ArePlain u.lines → ArePlain v.lines
        → report_text u ≡ report_text v → (p s : ℕ) → reach u.lines p s ≡ reach v.lines p s }
    ensures held { (u v : World) → ArePlain u.lines → ArePlain v.lines → IsTold u → IsTold v
        → report_text u ≡ report_text v → (p i : ℕ) → holds_at u p i ≡ holds_at v p i }
{}

/// All lines of a run are plain, where the names of the modules that its processes run have no line end.
pub fn lines_of_runs_are_plain()
    ensures step { (s : Setting) (w : World) → length w.processes < 10 ^ 64
        → ArePlain w.lines → ArePlain (step s w).lines }
    ensures run { (s : Setting) (reserved : List (ℕ × ℕ)) (script : List Word) (input : List ℕ)
        (starts : List Start) (w : World) → All IsPlainStart starts
        → opening_of s reserved script input starts ≡ Ok w → length w.processes < 10 ^ 64
        → (k : ℕ) → ArePlain (after s w k).lines }
{}

/// What a load finds agrees with the report: in a sound world whose lines tell what is held, a selector of the local table names a
/// segment of a process exactly where the report's reach is above 0. Elsewhere each load of it is exception 13, and there a load into DS
/// or ES is done if the segment may be read, or exception 11 where it is discarded. So it is behind each step of a run from such a world on.
pub fn loads_find_what_is_reached()
    ensures worlds { (w : World) (q : ℕ) (p : Process) → IsSound w → IsTold w
        → process_at w.processes q ≡ Some p
        → (s : Selector) → is_local s.0 ≡ true → FindsReach w q p s }
    ensures runs { (setting : Setting) (w : World) (k q : ℕ) (p : Process) → IsSound w → IsTold w
        → process_at (after setting w k).processes q ≡ Some p
        → (s : Selector) → is_local s.0 ≡ true → FindsReach (after setting w k) q p s }
{}
