// Laws on the processes of what a command opens and runs.
ghost use Rattle.std.specs.Prelude.{◌≡◌, ◌++◌, ℕ, List, ◌∷◌, Ok};
ghost use Rattle.o2_words.specs.declared.words.Verb.{Verb};
ghost use Rattle.o2_words.specs.declared.words.Verb.TheVariants.{Run};
ghost use Rattle.o2_conf.specs.declared.conf.Conf.{Conf};
ghost use Rattle.o2_conf.specs.declared.process.Process.{Process};
ghost use Rattle.o2_world.specs.World.{World, Setting};
ghost use Rattle.o2_world.specs.Run.{after, console};
ghost use Rattle.o2_world.specs.Starts.{Start};
ghost use Rattle.o2_alone.specs.Events.{events, events_of, own_steps};
ghost use Rattle.o2_isolation.specs.Strangers.{IsStranger, StaysApart};
ghost use Rattle.o2_machine.specs.Begins.{opening};
ghost use Rattle.o2_open.specs.declared.session.Session.{Session};
ghost use Rattle.o2_open.specs.Loads.{Contents, loaded, machine_in};
ghost use Rattle.o2_cli_laws.specs.Commands.{HasRunAlone, IsProcess, RunsAsOnly};
ghost use Rattle.o2_cli_laws.specs.Files.{HoldBytes};
ghost use Rattle.o2_cli_laws.specs.FirstOnly.{first_only};
ghost use Rattle.o2_cli_laws.specs.Texts.{lines_in, pieces_in};
ghost use Rattle.o2_cli.specs.Opening.{Opened, opened};
ghost use Rattle.o2_cli_laws.specs.TopCall.{RunsAsAlone};

/// Where files that hold bytes open as this start, each process of it has a run alone, and of one that stays apart up to some step the
/// events up to there are the first events of its run alone: the same console pieces, lines and registers, and behind them it holds
/// the same, with the same bytes behind each selector. It is the start of which the clauses of `os2run` speak: who reads one of them has
/// `Opens` from it, with this very equation (`opens`), and needs to know no more of the files.
pub fn commands_isolate_processes()
    ensures { (verb : Verb) (contents : Contents) (name input : List ℕ) (start : Opened)
        → HoldBytes contents → opened verb contents name input ≡ Ok start
        → (number : ℕ) → IsProcess start.world number → RunsAsAlone verb contents name input start number }
{}

/// Where files that hold bytes are opened by a command as this session, and its processes start as this world, each of them has a
/// run alone: with its number, over the same modules, with the same input, without the others and without a script. Of a process that
/// stays apart up to some step, its events up to there are the first events of its run alone: the same console pieces, lines and
/// registers, and behind them it holds the same, with the same bytes behind each selector. Nothing is asked of the modules, the machine
/// file or linking: what the law over linked modules supposes of them, the checks of the opening give. The start that `os2run` runs
/// is such a world, by the definition of what it opens.
///
/// Nothing is said of a process that doesn't stay apart (`StaysApart` says what that takes), nor of steps that a run doesn't come
/// to for want of room or of swap, or by a fault.
pub fn opened_processes_do_not_feel_one_another()
    ensures { (verb : Verb) (contents : Contents) (name input : List ℕ) (session : Session) (w : World)
        → HoldBytes contents → loaded verb contents name ≡ Ok session
        → opening session.linked session.conf input ≡ Ok w
        → (number : ℕ) → IsProcess w number → HasRunAlone session input w number }
{}

/// The run alone of the first process can be had: it is that of a machine file with the same keys, but of the processes the first
/// alone, and with no script. That opens and starts wherever the other does. As long as the first process stays apart in the run of
/// all, its events there are the first events of the run of this file.
pub fn the_first_process_runs_as_its_own_machine_file()
    ensures { (contents : Contents) (name other input : List ℕ)
        (c : Conf) (p : Process) (ps : List Process) (session : Session) (w : World) → HoldBytes contents
        → machine_in contents name ≡ Ok c → c.process ≡ p ∷ ps → machine_in contents other ≡ Ok (first_only c p)
        → loaded Run contents name ≡ Ok session → opening session.linked session.conf input ≡ Ok w
        → RunsAsOnly contents other input session w }
{}

/// The events of a run tell both of its texts: the console is their pieces, one after the other, and the lines are theirs behind those
/// of the starts. So the pieces that a process writes among others, as long as it stays apart, are together what the console of
/// its run alone has by then, and its lines are the lines there.
pub fn events_tell_what_a_run_writes()
    ensures console { (s : Setting) (w : World) (k : ℕ)
        → console (after s w k) ≡ console w ++ pieces_in (events s w k) }
    ensures lines { (s : Setting) (w : World) (k : ℕ)
        → (after s w k).lines ≡ w.lines ++ lines_in (events s w k) }
    ensures wrote { (s : Setting) (reserved : List (ℕ × ℕ)) (input : List ℕ) (number : ℕ) (start : Start)
        (w : World) (run : IsStranger s reserved input number start w) (k : ℕ)
        → StaysApart s w run.alone number k
        → console (after s run.alone (own_steps s w number k)) ≡ pieces_in (events_of number (events s w k)) }
    ensures told { (s : Setting) (reserved : List (ℕ × ℕ)) (input : List ℕ) (number : ℕ) (start : Start)
        (w : World) (run : IsStranger s reserved input number start w) (k : ℕ)
        → StaysApart s w run.alone number k
        → (after s run.alone (own_steps s w number k)).lines ≡ run.alone.lines ++ lines_in (events_of number (events s w k)) }
{}
