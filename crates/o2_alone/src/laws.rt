// Laws on processes among others.
ghost use Rattle.std.specs.Prelude.{◌≡◌, ℕ, List, [], ◌∷◌, codes};
ghost use Rattle.o2_isa.specs.declared.cpu.Cpu.{Cpu};
ghost use Rattle.o2_isa.specs.View.{View};
ghost use Rattle.o2_isa.specs.Steps.{state};
ghost use Rattle.o2_isa.specs.Step.{stepped};
ghost use Rattle.o2_world.specs.CallParts.{Before};
ghost use Rattle.o2_world.specs.Calls.{serviced};
ghost use Rattle.o2_world.specs.Effect.{effect};
ghost use Rattle.o2_world.specs.Changes.{Change, moved_lines};
ghost use Rattle.o2_world.specs.World.{World, Setting};
ghost use Rattle.o2_world.specs.Starts.{Start, opening_of};
ghost use Rattle.o2_alone.specs.Events.{events, events_of};
ghost use Rattle.o2_alone.specs.Worked.{hello_pointers, in_turns, pieces, pointers, second_alone, two_hellos};
ghost use Rattle.o2_alone.specs.Alone.{opening_alone};
ghost use Rattle.o2_alone.specs.Isolation.{BeginsAlike, IsIsolatedFrom, Isolation};
ghost use Rattle.o2_alone.specs.Renaming.{Renaming, IsRenamed, IsRenamedEffect, IsRenamedView, IsRenamedResult, IsAskedAlike, IsCalledAlike, call_of, renamed_changes};

/// An instruction never depends on where a segment is: over two views with other numbers for the names that the process holds, and
/// with the same rights, sizes and bytes under each selector, it leaves the same registers and the same bytes behind the names, or
/// it stops by the same exception, gate or miss.
pub fn instructions_depend_on_no_name()
    ensures { (f : Renaming) (c : Cpu) (v other : View) → IsRenamedView f v other
        → IsRenamedResult f (stepped (state c v)) (stepped (state c other)) }
{}

/// Nor does a call: the same registers, state, bytes, console piece and lines, and the same changes of the same segments, where what it
/// goes by beside what its process holds is alike in both (`askings`). Nothing is said of the calls by which processes share segments,
/// nor of a DosReallocHuge of a run in the region that all share. The lines of a change have no number of a name.
pub fn calls_depend_on_no_name()
    ensures rows { (f : Renaming) (service : ℕ) (b other : Before) (next : ℕ)
        → IsRenamed f b other → IsCalledAlike f service b other
        → IsRenamedEffect f b other (serviced b service next) (serviced other service next) }
    ensures lines { (f : Renaming) (cause : List ℕ) (changes : List Change)
        → moved_lines cause (renamed_changes f changes) ≡ moved_lines cause changes }
{}

/// So a step of a process, an instruction or a call, depends on the numbers of its segments in nothing.
pub fn steps_depend_on_no_name()
    ensures { (f : Renaming) (b other : Before)
        → IsRenamed f b other → IsAskedAlike f (call_of b) b other
        → IsRenamedEffect f b other (effect b) (effect other) }
{}

/// From two worlds on in which a process is alike but for the numbers of its segments, and of which the second has no other process
/// that lives: for as long as it keeps to itself, its events are the first events of its run alone, with the same registers,
/// console pieces and lines, and behind them it holds the same, with the same bytes behind each selector.
pub fn who_keeps_to_itself_runs_as_alone()
    ensures { (s : Setting) (w alone : World) (number : ℕ)
        → BeginsAlike number w alone → IsIsolatedFrom s w alone number }
{}

/// Isolation. Each process of a machine file has a run alone, with its number and without the others. Where it keeps to itself up
/// to some step of the run, its events up to there are the first events of its run alone: the same console pieces, lines and
/// registers, and the same bytes behind each selector.
pub fn strangers_do_not_feel_one_another()
    ensures { Isolation }
{}

/// The only process of a machine without a script has its run for its run alone.
pub fn the_only_process_runs_alone()
    ensures { (s : Setting) (reserved : List (ℕ × ℕ)) (input : List ℕ) (start : Start)
        → opening_alone s reserved input 1 start ≡ opening_of s reserved [] input (start ∷ []) }
{}

/// Two processes that write `hello`, in turns of three steps: the second takes the ten steps that it takes alone, and writes `hello`.
pub fn two_hellos_run_as_alone()
    ensures among { pointers (events_of 2 (events in_turns two_hellos 20)) ≡ hello_pointers }
    ensures alone { pointers (events in_turns second_alone 10) ≡ hello_pointers }
    ensures written { pieces (events_of 2 (events in_turns two_hellos 20)) ≡ codes "hello" }
    ensures written_alone { pieces (events in_turns second_alone 10) ≡ codes "hello" }
{}
