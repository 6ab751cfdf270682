// Laws of the boundless machine.
ghost use Rattle.std.specs.Prelude.{◌≡◌, ◌≢◌, ◌+◌, ◌==◌, ◌&&◌, not, ◌<◌, ◌≤◌, ℕ, ◌++◌, List, [], ◌∷◌, codes, true, false, slice_get, Ok, Some};
ghost use Rattle.o2_conf.specs.declared.script.Word.{Word};
ghost use Rattle.o2_world.specs.World.{World, Setting, Reserve};
ghost use Rattle.o2_world.specs.Starts.{Loaded, Start, opening_of};
ghost use Rattle.o2_world.specs.FitStarts.{ShareNoIndex, AreFit, AreOf};
ghost use Rattle.o2_world.specs.Run.{after, step, next_dispatch, is_over, ready, steps_done, with_word, words_coming, IsLast, console as console_text, report as report_text};
ghost use Rattle.o2_world.specs.Discards.{behind_discard};
ghost use Rattle.o2_isa.specs.declared.cpu.Purpose.TheVariants as Purpose;
ghost use Rattle.o2_isa.specs.declared.cpu.Loaded.TheVariants.{Trap};
ghost use Rattle.o2_world.specs.DiscardsWorked.{aliased, bytes_behind as bytes_of_discarded, given_to_two, load_behind, may_read_behind, rights_behind, size_behind, told_behind, unlocked, with_cs, with_ds, worded_hello};
ghost use Rattle.std.specs.Prelude.{length};
ghost use Rattle.std.specs.List.{list_any};
ghost use Rattle.o2_conf.specs.Dispatch.{Dispatch};
ghost use Rattle.o2_world.specs.Map.{get};
ghost use Rattle.o2_world.specs.World.{Process, Segment, is_live};
ghost use Rattle.o2_world.specs.Holders.{process_at, with_process};
ghost use Rattle.std.specs.Prelude.{is_some, None};
ghost use Rattle.o2_base.specs.Services.{ServiceRow, is_built, row_at};
ghost use Rattle.o2_isa.specs.declared.cpu.Cpu.{Cpu};
ghost use Rattle.o2_isa.specs.Presence.{SameSelectors};
ghost use Rattle.o2_world.specs.HugeRulings.{huge_allocation, huge_reallocation, without};
ghost use Rattle.o2_world.specs.Outcomes.{CallRow, gone_indexes};
ghost use Rattle.o2_world.specs.RowLaws.{ErrorChangesNothing};
ghost use Rattle.o2_world.specs.Slots.{words_in};
ghost use Rattle.o2_world.specs.Calls.{row_of, serviced};
ghost use Rattle.o2_world.specs.CallParts.{Before};
ghost use Rattle.o2_world.specs.Effect.{effect};
ghost use Rattle.o2_world.specs.Moves.{AllMoves, AllSpare, AreSpared, RunMoves};
ghost use Rattle.o2_world.specs.Giving.{GivesNothing};
ghost use Rattle.o2_isa.specs.SegmentLoads.{LoadsByRules};
ghost use Rattle.o2_isa.specs.Sizes.{KeepsLengths};
ghost use Rattle.std.specs.Prelude.{option_map};
ghost use Rattle.o2_world.specs.Known.{is_for_the_run};
ghost use Rattle.o2_world.specs.SharedMarks.{shared_marks, some_marks};
ghost use Rattle.o2_world.specs.EndWorked.{before_ends, one_ended, both_ended, names_in, texts_in, runs_in};
ghost use Rattle.o2_world.specs.Changes.{Change, Locks, at_number, takes, used, told_of, moved_lines, with_all, with_changes};
ghost use Rattle.o2_world.specs.Bare.{bare};
ghost use Rattle.o2_world.specs.Calls.{Effect};
ghost use Rattle.o2_base.specs.Selectors.{selector_of};
ghost use Rattle.o2_world.specs.Sound.{HasGoodRegisters};
ghost use Rattle.o2_world.specs.Run.{before, changed, worked, working};
ghost use Rattle.o2_world.specs.Reach.{CanTellAll, Tells, IsTold, reach, tells_end, holds_at, came, went};
ghost use Rattle.o2_world.specs.Tied.{IsTied, IsSwept, IsSound, AreFitChanges};
ghost use Rattle.o2_world.specs.NewNames.{UsesNewNames};
ghost use Rattle.o2_world.specs.Text.{lines_text};
ghost use Rattle.o2_world.specs.Rulings.{grants, locking_with, unlocking_with};
ghost use Rattle.o2_world.specs.SharedNames.{before_zero, looked_at, name_by};
ghost use Rattle.o2_world.specs.SharedWorked.{byte_behind, gets, gives, lines_behind, names as names_of, one_left, reserves_behind, shares, texts_behind, told_by_two, two_sharers};
ghost use Rattle.o2_world.specs.HeapsWorked.{heap_behind, sub_allocs, sub_allocs_at, sub_frees, sub_sets, told_of_heap};
ghost use Rattle.o2_world.specs.HugeWorked.{data_behind, huges, loaded_behind, rehuges, shifts};
ghost use Rattle.o2_world.specs.SemsWorked.{clears, forever, registers_behind, requests, semaphores_behind, sets, stepping, told_of_semaphores, tried, waits_for};
ghost use Rattle.o2_world.specs.Waits.{IsButDispatch, spent};
ghost use Rattle.o2_world.specs.CallParts.{waiting};
ghost use Rattle.o2_conf.specs.Dispatch.{counted};
ghost use Rattle.std.specs.Prelude.{replicate, take};
ghost use Rattle.o2_world.specs.SegmentsWorked.{some_moves, es_after, ds_after, one_process, two_processes, told_after, told_by_one, data_after, allocs, allocs_of, reallocs, frees, sizes, locks, unlocks, aliases, calls, names_with, locked_marks};
ghost use Rattle.o2_world.specs.Hello.{hello_opening, hello_world, hello_setting, hello_report, hello_start, hello_write, text_of};

/// A program that writes `hello` by DosWrite and ends by DosExit takes ten steps. Its console and its report are these,
/// and with a budget of nine steps these fronts of them.
pub fn hello_runs_in_ten_steps()
    ensures opens { (budget : ℕ) → hello_opening budget ≡ Ok (hello_world budget) }
    ensures over { is_over (after (hello_setting 1000000) (hello_world 1000000) 10) ≡ true }
    ensures console { console_text (after (hello_setting 1000000) (hello_world 1000000) 10) ≡ codes "hello" }
    ensures report { report_text (after (hello_setting 1000000) (hello_world 1000000) 10) ≡ hello_report }
    ensures short_console { console_text (after (hello_setting 9) (hello_world 9) 9) ≡ codes "hello" }
    ensures short_report { report_text (after (hello_setting 9) (hello_world 9) 9)
        ≡ text_of (hello_start ++ hello_write ∷ codes "budget spent" ∷ []) }
{}

/// The world before the first step is sound, where each start of a program has its segments under their numbers, no index for
/// two segments, and automatic data that can be read, and where the starts are over the same modules, with segments of 1 to
/// 65,536 bytes, of which no two have one shared index.
pub fn opening_worlds_are_sound()
    ensures { (modules : ℕ → Loaded) (s : Setting) (reserved : List (ℕ × ℕ)) (script : List Word) (input : List ℕ) (starts : List Start) (w : World)
        → ShareNoIndex modules → AreFit starts → AreOf modules starts
        → opening_of s reserved script input starts ≡ Ok w → IsSound w }
{}

/// What is held before the first step is what the lines of the starts tell.
pub fn opening_worlds_are_told()
    ensures { (s : Setting) (reserved : List (ℕ × ℕ)) (script : List Word) (input : List ℕ) (starts : List Start) (w : World)
        → AreFit starts
        → opening_of s reserved script input starts ≡ Ok w → IsTold w }
{}

/// Each step keeps a sound world sound. What is held is a live segment of 1 to 65,536 bytes and is held at least once, and
/// nobody may write what is clean. No name is at or above the next one. Under a shared index all hold one name, but for a
/// library's data that each process has for itself. Each live segment is held, and each run of reserved indexes, but for those
/// of the whole run. What is discarded has zeros, isn't locked, and stands in no segment register. Texts are those of live names. A process that has ended holds nothing. Of a process that lives, CS names
/// held code and SS held writable data, both with privilege level 3, and DS and ES are null or name held data or readable code.
pub fn each_step_keeps_a_sound_world_sound()
    ensures { (s : Setting) (w : World) → IsSound w → IsSound (step s w) }
{}

/// A word `discard` takes no step: behind it the same step comes, one word less comes before that, and no process, text, console byte, line
/// or input has changed, nor the budget or whose turn it is.
pub fn a_word_takes_no_step()
    ensures step { (s : Setting) (w : World) → 0 < words_coming w → step s (with_word w) ≡ step s w }
    ensures ready { (w : World) → 0 < words_coming w → ready (with_word w) ≡ ready w }
    ensures fewer { (w : World) → 0 < words_coming w → words_coming (with_word w) + 1 ≡ words_coming w }
    ensures keeps { (w : World) → let script = (with_word w).dispatch.script in
        with_word w ≡ record w { names = (with_word w).names; dispatch = record w.dispatch { script = script } } }
    ensures none { (w : World) → is_over w ≡ true → words_coming w ≡ 0 }
{}

/// What goes at a word is zeros behind it, and marked; all other segments are as they were. A second word changes no segment.
pub fn a_word_discards_what_may_go()
    ensures segments { (w : World) (n : ℕ) → get (with_word w).names n ≡ option_map (behind_discard w.processes n) (get w.names n) }
    ensures twice { (w : World) → (with_word (with_word w)).names ≡ (with_word w).names }
{}

/// Each word keeps a sound world sound. What is discarded is discardable (flag 4), isn't clean and isn't locked, stands in no segment
/// register of a process that lives, and its bytes are zeros, until a call makes it anew.
pub fn each_word_keeps_a_sound_world_sound()
    ensures { (w : World) → IsSound w → IsSound (with_word w) }
{}

/// No name is used twice: one that a step's changes make is the next name or above it, and the next name never falls.
pub fn no_name_is_used_twice()
    ensures step { (s : Setting) (w : World) → UsesNewNames w (step s w) }
    ensures changes { (w : World) (d : Dispatch) (p : Process) (e : Effect) → UsesNewNames w (changed w d p e) }
{}

/// Number 0 is no process: none has it, and nothing changes one of it.
pub fn number_0_is_no_process()
    ensures none { (ps : List Process) → process_at ps 0 ≡ None }
    ensures stays { (ps : List Process) (p : Process) → with_process ps 0 p ≡ ps }
    ensures changes { (ps : List Process) (f : Process → Process) → at_number 0 f ps ≡ ps }
{}

/// A run that is over stays as it is.
pub fn a_run_that_is_over_stays()
    ensures { (s : Setting) (w : World) → is_over w ≡ true → step s w ≡ w }
{}

/// A step takes nothing from a process but the one that is chosen: of all others registers, state, place, parent and environment
/// stay, and what they hold they go on to hold, as often at least. One to which the step gives nothing is as it was.
pub fn other_processes_stay()
    ensures spares { (s : Setting) (w : World) (place : ℕ) → place + 1 ≢ (next_dispatch s w).current
        → AreSpared (slice_get w.processes place) (slice_get (step s w).processes place) }
    ensures stays { (s : Setting) (w : World) (place : ℕ) → place + 1 ≢ (next_dispatch s w).current
        → GivesNothing s w (place + 1) → slice_get (step s w).processes place ≡ slice_get w.processes place }
{}

/// No call takes anything from a process but its own: of all others registers, state, place, parent and environment stay, and
/// what they hold they go on to hold, as often at least.
pub fn no_call_takes_from_another_process()
    ensures rows { (service : ℕ) (b : Before) (next : ℕ) → AllSpare b.number (serviced b service next).changes }
    ensures spares { (w : World) (d : Dispatch) (p : Process) (e : Effect) → AllSpare d.current e.changes
        → (place : ℕ) → place + 1 ≢ d.current
        → AreSpared (slice_get w.processes place) (slice_get (changed w d p e).processes place) }
{}

/// Each run comes to its end, which is not past its budget.
pub fn no_run_is_longer_than_its_budget()
    ensures ends { (s : Setting) (w : World) → (k : ℕ) × IsLast s w k }
    ensures within { (s : Setting) (w : World) (k : ℕ) → IsLast s w k → k ≤ w.dispatch.budget }
{}

/// As many steps are behind a world of a run as its budget has lost, up to the last.
pub fn the_budget_counts_the_steps()
    ensures { (s : Setting) (w : World) (k : ℕ) → w.dispatch.budget ≡ s.budget
        → ((j : ℕ) → j < k → is_over (after s w j) ≡ false) → steps_done s (after s w k) ≡ k }
{}

/// What comes of a segment of 16 bytes of 7 that a word discards: calls, loads and pointers behind it, and registers that keep it.
pub fn discarded_segments_answer_by_their_rows()
    ensures gone { bytes_of_discarded [] ≡ replicate 16 0 }
    // It can't be locked before it is made anew, and is locked then.
    ensures anew { told_behind (locks 0x27 ∷ reallocs 16 0x27 ∷ locks 0x27 ∷ unlocks 0x27 ∷ unlocks 0x27 ∷ unlocks 0x27 ∷ [])
        ≡ text_of (codes "1 call DosLockSeg 0027 = 157" ∷ codes "1 call DosReallocSeg 0010 0027 = 0"
        ∷ codes "1 call DosLockSeg 0027 = 0" ∷ codes "1 call DosUnlockSeg 0027 = 0"
        ∷ codes "1 call DosUnlockSeg 0027 = 0" ∷ codes "1 call DosUnlockSeg 0027 = 158" ∷ []) }
    ensures sized_anew { bytes_of_discarded (reallocs 32 0x27 ∷ []) ≡ replicate 32 0 }
    // Other calls take it as any segment. An alias has no size of its own.
    ensures calls { told_behind (sizes 0x27 ∷ unlocks 0x27 ∷ aliases 0x27 ∷ reallocs 16 0x2f ∷ reallocs 32 0x27 ∷ sizes 0x27 ∷ [])
        ≡ text_of (codes "1 call DosSizeSeg 0027 0017:0004 = 0 00000010" ∷ codes "1 call DosUnlockSeg 0027 = 158"
        ∷ codes "1 call DosCreateCSAlias 0027 0017:0000 = 0 002F" ∷ codes "1 hold 002F by DosCreateCSAlias"
        ∷ codes "1 call DosReallocSeg 0010 002F = 5" ∷ codes "1 call DosReallocSeg 0020 0027 = 0"
        ∷ codes "1 call DosSizeSeg 0027 0017:0004 = 0 00000020" ∷ []) }
    // Loads: exception 12 for SS and 11 otherwise. LAR and LSL look at no mark, and a range of no bytes isn't looked at.
    ensures es { load_behind Purpose.DataReg ≡ Trap 11 0x24 }
    ensures ss { load_behind Purpose.StackReg ≡ Trap 12 0x24 }
    ensures size { size_behind ≡ Some 16 }
    ensures rights { rights_behind ≡ Some 0xf3 }
    ensures bytes { may_read_behind 5 ≡ false }
    ensures no_bytes { may_read_behind 0 ≡ true }
    // What stands in a segment register stays: by its segment, and of each process that lives.
    ensures ds { told_after 7 (with_word (with_ds 1 0x27 unlocked)) (locks 0x27 ∷ []) ≡ text_of (codes "1 call DosLockSeg 0027 = 0" ∷ []) }
    ensures alias { told_after 9 (with_word (with_cs 1 0x2f aliased)) (locks 0x27 ∷ []) ≡ text_of (codes "1 call DosLockSeg 0027 = 0" ∷ []) }
    ensures other { told_after 13 (with_word (with_ds 2 0x8007 (given_to_two 5))) (locks 0x8007 ∷ []) ≡ text_of (codes "1 call DosLockSeg 8007 = 0" ∷ []) }
    ensures neither { told_after 13 (with_word (given_to_two 5)) (locks 0x8007 ∷ reallocs 16 0x8007 ∷ locks 0x8007 ∷ sizes 0x8007 ∷ [])
        ≡ text_of (codes "1 call DosLockSeg 8007 = 157" ∷ codes "1 call DosReallocSeg 0010 8007 = 5"
        ∷ codes "1 call DosLockSeg 8007 = 157" ∷ codes "1 call DosSizeSeg 8007 0017:0004 = 0 00000020" ∷ []) }
    // A shared segment shrinks where it is sizeable (flag 8).
    ensures sizeable { told_after 13 (with_word (given_to_two 13)) (locks 0x8007 ∷ reallocs 16 0x8007 ∷ [])
        ≡ text_of (codes "1 call DosLockSeg 8007 = 157" ∷ codes "1 call DosReallocSeg 0010 8007 = 0" ∷ []) }
    ensures shrinks { told_after 8 two_processes (allocs 32 10 ∷ reallocs 16 0x8007 ∷ [])
        ≡ text_of (codes "1 call DosAllocSeg 0020 0017:0000 000A = 0 8007" ∷ codes "1 hold 8007 by DosAllocSeg"
        ∷ codes "1 call DosReallocSeg 0010 8007 = 0" ∷ []) }
    ensures stays { told_after 8 two_processes (allocs 32 2 ∷ reallocs 16 0x8007 ∷ [])
        ≡ text_of (codes "1 call DosAllocSeg 0020 0017:0000 0002 = 0 8007" ∷ codes "1 hold 8007 by DosAllocSeg"
        ∷ codes "1 call DosReallocSeg 0010 8007 = 5" ∷ []) }
{}

/// Words of a script over `hello` take no step: two come before the first, and it runs in ten steps as without them.
pub fn words_take_no_step_of_hello()
    ensures two { words_coming worded_hello ≡ 2 }
    ensures over { is_over (after (hello_setting 1000000) worded_hello 10) ≡ true }
    ensures report { report_text (after (hello_setting 1000000) worded_hello 10) ≡ hello_report }
    ensures none_behind { words_coming (record worded_hello { dispatch = record worded_hello.dispatch { budget = 0 } }) ≡ 0 }
{}

/// The lines of calls that make, free and give segments, from the opening of `hello`.
pub fn segment_calls_tell_their_holds()
    ensures makes { told_after 4 one_process (allocs 0 0 ∷ [])
        ≡ text_of (codes "1 call DosAllocSeg 0000 0017:0000 0000 = 0 0027" ∷ codes "1 hold 0027 by DosAllocSeg" ∷ []) }
    ensures frees { told_after 4 one_process (allocs 0 0 ∷ frees 0x27
        ∷ frees 0x27 ∷ [])
        ≡ text_of (codes "1 call DosAllocSeg 0000 0017:0000 0000 = 0 0027" ∷ codes "1 hold 0027 by DosAllocSeg"
        ∷ codes "1 call DosFreeSeg 0027 = 0" ∷ codes "1 drop 0027 by DosFreeSeg" ∷ codes "1 call DosFreeSeg 0027 = 5"
        ∷ []) }
    ensures gives { told_after 8 two_processes (allocs 16 1 ∷ calls 14 (0x8007 ∷ 2 ∷ 0x17 ∷ 0 ∷ [])
        ∷ calls 14 (0x8004 ∷ 3 ∷ 0x17 ∷ 0 ∷ []) ∷ [])
        ≡ text_of (codes "1 call DosAllocSeg 0010 0017:0000 0001 = 0 8007" ∷ codes "1 hold 8007 by DosAllocSeg"
        ∷ codes "1 call DosGiveSeg 8007 0002 0017:0000 = 0 8007" ∷ codes "2 hold 8007 by DosGiveSeg"
        ∷ codes "1 call DosGiveSeg 8004 0003 0017:0000 = 303" ∷ []) }
    ensures orders { lines_text (moved_lines (codes "DosX") some_moves)
        ≡ text_of (codes "1 hold 0027 by DosX" ∷ codes "1 hold 003F by DosX" ∷ codes "1 hold 003F by DosX"
        ∷ codes "2 hold 002F by DosX" ∷ codes "1 drop 004F by DosX" ∷ codes "2 drop 0027 by DosX" ∷ []) }
    // By index, whatever the privilege level that the register has.
    ensures clears { es_after 0x24 ≡ 0 }
    ensures clears_ds { ds_after 0x24 ≡ 0 }
    ensures leaves { es_after 0x17 ≡ 0x17 }
    ensures leaves_ds { ds_after 0x17 ≡ 0x17 }
{}

/// What each call that makes, sizes, locks or frees a segment answers, with each error, from the opening of `hello`.
pub fn segment_calls_answer_by_their_rows()
    // 0 bytes are 65,536; the two low bits of a selector don't count, and the global table has none.
    ensures sizes { told_by_one (allocs 0 0 ∷ sizes 0x27 ∷ sizes 0x24 ∷ sizes 0x23 ∷ sizes 0x2f ∷ [])
        ≡ text_of (codes "1 call DosAllocSeg 0000 0017:0000 0000 = 0 0027" ∷ codes "1 hold 0027 by DosAllocSeg"
        ∷ codes "1 call DosSizeSeg 0027 0017:0004 = 0 00010000" ∷ codes "1 call DosSizeSeg 0024 0017:0004 = 0 00010000"
        ∷ codes "1 call DosSizeSeg 0023 0017:0004 = 5" ∷ codes "1 call DosSizeSeg 002F 0017:0004 = 5" ∷ []) }
    ensures flags { told_by_one (allocs 16 16 ∷ allocs 16 15 ∷ [])
        ≡ text_of (codes "1 call DosAllocSeg 0010 0017:0000 0010 = 87"
        ∷ codes "1 call DosAllocSeg 0010 0017:0000 000F = 0 8007" ∷ codes "1 hold 8007 by DosAllocSeg" ∷ []) }
    // A shared segment doesn't shrink, and code of a module keeps its size.
    ensures reallocs { told_by_one (allocs 16 1 ∷ reallocs 15 0x8004 ∷ reallocs 16 0x8007 ∷ reallocs 0 0x8007
        ∷ sizes 0x8007 ∷ reallocs 16 0xf ∷ reallocs 16 0x2f ∷ [])
        ≡ text_of (codes "1 call DosAllocSeg 0010 0017:0000 0001 = 0 8007" ∷ codes "1 hold 8007 by DosAllocSeg"
        ∷ codes "1 call DosReallocSeg 000F 8004 = 5" ∷ codes "1 call DosReallocSeg 0010 8007 = 0"
        ∷ codes "1 call DosReallocSeg 0000 8007 = 0" ∷ codes "1 call DosSizeSeg 8007 0017:0004 = 0 00010000"
        ∷ codes "1 call DosReallocSeg 0010 000F = 5" ∷ codes "1 call DosReallocSeg 0010 002F = 5" ∷ []) }
    ensures zeros { data_after (reallocs 2 0x17 ∷ reallocs 6 0x17 ∷ []) ≡ 104 ∷ 101 ∷ 0 ∷ 0 ∷ 0 ∷ 0 ∷ [] }
    // A discardable segment starts with the lock count 1, and 158 comes behind 5.
    ensures locks { told_by_one (allocs 16 4 ∷ unlocks 0x24 ∷ unlocks 0x27 ∷ locks 0x27 ∷ unlocks 0x27 ∷ unlocks 0x27
        ∷ locks 0x17 ∷ unlocks 0x17 ∷ locks 0x2f ∷ unlocks 0x2f ∷ [])
        ≡ text_of (codes "1 call DosAllocSeg 0010 0017:0000 0004 = 0 0027" ∷ codes "1 hold 0027 by DosAllocSeg"
        ∷ codes "1 call DosUnlockSeg 0024 = 0" ∷ codes "1 call DosUnlockSeg 0027 = 158"
        ∷ codes "1 call DosLockSeg 0027 = 0" ∷ codes "1 call DosUnlockSeg 0027 = 0"
        ∷ codes "1 call DosUnlockSeg 0027 = 158" ∷ codes "1 call DosLockSeg 0017 = 5"
        ∷ codes "1 call DosUnlockSeg 0017 = 5" ∷ codes "1 call DosLockSeg 002F = 5"
        ∷ codes "1 call DosUnlockSeg 002F = 5" ∷ []) }
    // A lock count of 255 stays, and one of 254 rises to it.
    ensures most_locks { locking_with 3 (locked_marks 255) ≡ grants 0 (Locks 3 255 ∷ []) }
    ensures more_locks { locking_with 3 (locked_marks 254) ≡ grants 0 (Locks 3 255 ∷ []) }
    ensures stays_locked { unlocking_with 3 (locked_marks 255) ≡ grants 0 (Locks 3 255 ∷ []) }
    ensures less_locks { unlocking_with 3 (locked_marks 254) ≡ grants 0 (Locks 3 253 ∷ []) }
    // An alias is private and code: it is locked by its name, has no alias and no other size, and is freed by itself.
    ensures aliases { told_by_one (allocs 16 4 ∷ aliases 0x27 ∷ unlocks 0x2f ∷ unlocks 0x27 ∷ aliases 0x2f
        ∷ reallocs 32 0x2f ∷ frees 0x27 ∷ sizes 0x2f ∷ frees 0x2f ∷ aliases 0xf ∷ aliases 0x27 ∷ [])
        ≡ text_of (codes "1 call DosAllocSeg 0010 0017:0000 0004 = 0 0027" ∷ codes "1 hold 0027 by DosAllocSeg"
        ∷ codes "1 call DosCreateCSAlias 0027 0017:0000 = 0 002F" ∷ codes "1 hold 002F by DosCreateCSAlias"
        ∷ codes "1 call DosUnlockSeg 002F = 0" ∷ codes "1 call DosUnlockSeg 0027 = 158"
        ∷ codes "1 call DosCreateCSAlias 002F 0017:0000 = 5" ∷ codes "1 call DosReallocSeg 0020 002F = 5"
        ∷ codes "1 call DosFreeSeg 0027 = 0" ∷ codes "1 drop 0027 by DosFreeSeg"
        ∷ codes "1 call DosSizeSeg 002F 0017:0004 = 0 00000010" ∷ codes "1 call DosFreeSeg 002F = 0"
        ∷ codes "1 drop 002F by DosFreeSeg" ∷ codes "1 call DosCreateCSAlias 000F 0017:0000 = 5"
        ∷ codes "1 call DosCreateCSAlias 0027 0017:0000 = 5" ∷ []) }
    ensures shared_alias { told_by_one (allocs 16 2 ∷ aliases 0x8007 ∷ [])
        ≡ text_of (codes "1 call DosAllocSeg 0010 0017:0000 0002 = 0 8007" ∷ codes "1 hold 8007 by DosAllocSeg"
        ∷ codes "1 call DosCreateCSAlias 8007 0017:0000 = 5" ∷ []) }
    // What is held from the start on isn't freed, and the name goes with its last hold.
    ensures frees { told_by_one (frees 0x1f ∷ frees 0x27 ∷ allocs 16 0 ∷ frees 0x24 ∷ allocs 16 0 ∷ [])
        ≡ text_of (codes "1 call DosFreeSeg 001F = 5" ∷ codes "1 call DosFreeSeg 0027 = 5"
        ∷ codes "1 call DosAllocSeg 0010 0017:0000 0000 = 0 0027" ∷ codes "1 hold 0027 by DosAllocSeg"
        ∷ codes "1 call DosFreeSeg 0024 = 0" ∷ codes "1 drop 0027 by DosFreeSeg"
        ∷ codes "1 call DosAllocSeg 0010 0017:0000 0000 = 0 0027" ∷ codes "1 hold 0027 by DosAllocSeg" ∷ []) }
    ensures names { names_with (allocs 16 0 ∷ []) ≡ 4 }
    ensures no_names { names_with (allocs 16 0 ∷ frees 0x27 ∷ []) ≡ 3 }
    // Error 8 exactly at the number of segments: three live from the start on.
    ensures full { allocs_of 4
        ≡ text_of (codes "1 call DosAllocSeg 0010 0017:0000 0000 = 0 0027" ∷ codes "1 hold 0027 by DosAllocSeg"
        ∷ codes "1 call DosAllocSeg 0010 0017:0000 0000 = 8" ∷ []) }
{}

/// What each call that shares a segment answers, with each error, for two processes of a program that has names in its data.
pub fn shared_calls_answer_by_their_rows()
    // Names are compared folded.
    ensures named { told_by_two ((1, names_of 16 0) ∷ (2, names_of 16 12) ∷ (2, shares 12) ∷ [])
        ≡ text_of (codes "1 call DosAllocShrSeg 0010 0017:0000 0017:0034 = 0 8007" ∷ codes "1 hold 8007 by DosAllocShrSeg"
        ∷ codes "2 call DosAllocShrSeg 0010 0017:000C 0017:0034 = 183" ∷ codes "2 call DosGetShrSeg 0017:000C 0017:0034 = 0 8007"
        ∷ codes "2 hold 8007 by DosGetShrSeg" ∷ []) }
    ensures bad_names { told_by_two ((1, names_of 16 24) ∷ (1, names_of 16 35) ∷ (1, names_of 16 1) ∷ (1, shares 24) ∷ (1, shares 0) ∷ [])
        ≡ text_of (codes "1 call DosAllocShrSeg 0010 0017:0018 0017:0034 = 123"
        ∷ codes "1 call DosAllocShrSeg 0010 0017:0023 0017:0034 = 123" ∷ codes "1 call DosAllocShrSeg 0010 0017:0001 0017:0034 = 123"
        ∷ codes "1 call DosGetShrSeg 0017:0018 0017:0034 = 123" ∷ codes "1 call DosGetShrSeg 0017:0000 0017:0034 = 2" ∷ []) }
    // 128 bytes and a zero are a name, 129 bytes without one are none, and a text that its segment cuts off is a bad pointer.
    ensures longest { name_by (before_zero (take 129 (92 ∷ codes "sharemem" ++ 92 ∷ replicate 118 33 ++ 0 ∷ []))) ≡ Some (92 ∷ codes "sharemem" ++ 92 ∷ replicate 118 33) }
    ensures too_long { name_by (before_zero (take 129 (92 ∷ codes "sharemem" ++ 92 ∷ replicate 119 33 ++ 0 ∷ []))) ≡ None }
    ensures looks { looked_at 129 (replicate 128 33 ++ 0 ∷ []) ≡ 129 }
    ensures looks_no_more { looked_at 129 (replicate 140 33) ≡ 129 }
    ensures looks_past { looked_at 129 (replicate 12 33) ≡ 129 }
    // A text goes with the last hold of its segment, and the name may be made again.
    ensures dies { told_by_two ((1, names_of 16 0) ∷ (2, shares 0) ∷ (1, frees 0x8007) ∷ (2, frees 0x8004) ∷ (2, shares 0) ∷ (2, names_of 16 0) ∷ [])
        ≡ text_of (codes "1 call DosAllocShrSeg 0010 0017:0000 0017:0034 = 0 8007" ∷ codes "1 hold 8007 by DosAllocShrSeg"
        ∷ codes "2 call DosGetShrSeg 0017:0000 0017:0034 = 0 8007" ∷ codes "2 hold 8007 by DosGetShrSeg"
        ∷ codes "1 call DosFreeSeg 8007 = 0" ∷ codes "1 drop 8007 by DosFreeSeg" ∷ codes "2 call DosFreeSeg 8004 = 0"
        ∷ codes "2 drop 8007 by DosFreeSeg" ∷ codes "2 call DosGetShrSeg 0017:0000 0017:0034 = 2"
        ∷ codes "2 call DosAllocShrSeg 0010 0017:0000 0017:0034 = 0 8007" ∷ codes "2 hold 8007 by DosAllocShrSeg" ∷ []) }
    ensures texts { texts_behind two_sharers ((1, names_of 16 0) ∷ []) ≡ 5 ∷ [] }
    ensures no_texts { texts_behind two_sharers ((1, names_of 16 0) ∷ (1, frees 0x8007) ∷ []) ≡ [] }
    // A named segment has no flags, so it is neither given nor got, and it doesn't shrink.
    ensures flagless { told_by_two ((1, names_of 16 0) ∷ (1, gives 0x8007 2) ∷ (2, gets 0x8007) ∷ (1, reallocs 15 0x8007) ∷ [])
        ≡ text_of (codes "1 call DosAllocShrSeg 0010 0017:0000 0017:0034 = 0 8007" ∷ codes "1 hold 8007 by DosAllocShrSeg" ∷ codes "1 call DosGiveSeg 8007 0002 0017:0034 = 5" ∷ codes "2 call DosGetSeg 8007 = 5" ∷ codes "1 call DosReallocSeg 000F 8007 = 5" ∷ []) }
    // Of two that hold a segment, a free takes the caller's hold alone.
    ensures gets { told_by_two ((1, allocs 16 2) ∷ (2, gets 0x8004) ∷ (2, frees 0x8007) ∷ (1, gets 0x8007) ∷ (2, gets 0x27) ∷ (2, gets 0x800f) ∷ (2, gives 0x8007 2) ∷ (1, gives 0x8007 2) ∷ [])
        ≡ text_of (codes "1 call DosAllocSeg 0010 0017:0000 0002 = 0 8007" ∷ codes "1 hold 8007 by DosAllocSeg"
        ∷ codes "2 call DosGetSeg 8004 = 0" ∷ codes "2 hold 8007 by DosGetSeg" ∷ codes "2 call DosFreeSeg 8007 = 0"
        ∷ codes "2 drop 8007 by DosFreeSeg" ∷ codes "1 call DosGetSeg 8007 = 0" ∷ codes "1 hold 8007 by DosGetSeg"
        ∷ codes "2 call DosGetSeg 0027 = 5" ∷ codes "2 call DosGetSeg 800F = 5" ∷ codes "2 call DosGiveSeg 8007 0002 0017:0034 = 5"
        ∷ codes "1 call DosGiveSeg 8007 0002 0017:0034 = 5" ∷ []) }
    // To itself: one more hold, and two frees are needed. Number 0, one that never started and one that has ended are no processes.
    ensures gives { told_by_two ((1, allocs 16 1) ∷ (1, gives 0x8007 1) ∷ (1, gives 0x8007 0) ∷ (1, gives 0x8007 3) ∷ (1, frees 0x8007) ∷ (1, frees 0x8007) ∷ (1, frees 0x8007) ∷ [])
        ≡ text_of (codes "1 call DosAllocSeg 0010 0017:0000 0001 = 0 8007" ∷ codes "1 hold 8007 by DosAllocSeg"
        ∷ codes "1 call DosGiveSeg 8007 0001 0017:0034 = 0 8007" ∷ codes "1 hold 8007 by DosGiveSeg"
        ∷ codes "1 call DosGiveSeg 8007 0000 0017:0034 = 303" ∷ codes "1 call DosGiveSeg 8007 0003 0017:0034 = 303"
        ∷ codes "1 call DosFreeSeg 8007 = 0" ∷ codes "1 drop 8007 by DosFreeSeg" ∷ codes "1 call DosFreeSeg 8007 = 0"
        ∷ codes "1 drop 8007 by DosFreeSeg" ∷ codes "1 call DosFreeSeg 8007 = 5" ∷ []) }
    ensures ended { lines_behind one_left ((2, allocs 16 1) ∷ (2, gives 0x8007 1) ∷ [])
        ≡ text_of (codes "2 call DosAllocSeg 0010 0017:0000 0001 = 0 8007" ∷ codes "2 hold 8007 by DosAllocSeg" ∷ codes "2 call DosGiveSeg 8007 0001 0017:0034 = 303" ∷ []) }
    // What one process makes larger is larger for all that hold it, and the new bytes are zeros.
    ensures grows { told_by_two ((1, allocs 16 2) ∷ (2, gets 0x8007) ∷ (2, reallocs 32 0x8007) ∷ (1, sizes 0x8007) ∷ [])
        ≡ text_of (codes "1 call DosAllocSeg 0010 0017:0000 0002 = 0 8007" ∷ codes "1 hold 8007 by DosAllocSeg"
        ∷ codes "2 call DosGetSeg 8007 = 0" ∷ codes "2 hold 8007 by DosGetSeg" ∷ codes "2 call DosReallocSeg 0020 8007 = 0"
        ∷ codes "1 call DosSizeSeg 8007 0017:0004 = 0 00000020" ∷ []) }
    ensures zero { byte_behind two_sharers ((1, allocs 16 2) ∷ (2, gets 0x8007) ∷ (2, reallocs 32 0x8007) ∷ []) 5 31 ≡ 0 }
{}

/// What each call on a huge allocation answers, with each error, for two processes.
pub fn huge_calls_answer_by_their_rows()
    ensures makes { told_by_two ((1, huges 2 0x64 4 0) ∷ (1, allocs 16 0) ∷ (1, rehuges 4 1 0x27) ∷ (1, rehuges 4 0 0x27) ∷ (1, sizes 0x37) ∷ [])
        ≡ text_of (codes "1 call DosAllocHuge 0002 0064 0017:0034 0004 0000 = 0 0027" ∷ codes "1 hold 0027 by DosAllocHuge"
        ∷ codes "1 hold 002F by DosAllocHuge" ∷ codes "1 hold 0037 by DosAllocHuge"
        ∷ codes "1 call DosAllocSeg 0010 0017:0000 0000 = 0 0047" ∷ codes "1 hold 0047 by DosAllocSeg"
        ∷ codes "1 call DosReallocHuge 0004 0001 0027 = 8" ∷ codes "1 call DosReallocHuge 0004 0000 0027 = 0"
        ∷ codes "1 hold 003F by DosReallocHuge" ∷ codes "1 call DosSizeSeg 0037 0017:0004 = 0 00010000" ∷ []) }
    // 87 for flags, for no segment, and for a most that is below their number, before 8.
    ensures faults { told_by_two ((1, huges 1 0 0 16) ∷ (1, huges 1 0 0 4) ∷ (1, huges 0 0 0 0) ∷ (1, huges 2 1 2 0) ∷ (1, huges 0xFFFF 1 0 0) ∷ (1, huges 1024 0 0 0) ∷ (1, huges 0 1 4093 0) ∷ [])
        ≡ text_of (codes "1 call DosAllocHuge 0001 0000 0017:0034 0000 0010 = 87"
        ∷ codes "1 call DosAllocHuge 0001 0000 0017:0034 0000 0004 = 87"
        ∷ codes "1 call DosAllocHuge 0000 0000 0017:0034 0000 0000 = 87"
        ∷ codes "1 call DosAllocHuge 0002 0001 0017:0034 0002 0000 = 87" ∷ codes "1 call DosAllocHuge FFFF 0001 0017:0034 0000 0000 = 8"
        ∷ codes "1 call DosAllocHuge 0400 0000 0017:0034 0000 0000 = 8" ∷ codes "1 call DosAllocHuge 0000 0001 0017:0034 0FFD 0000 = 8"
        ∷ []) }
    // A run is freed as a whole, by its first selector, and so are the indexes that are reserved for it; it is not sized alone.
    ensures frees { told_by_two ((1, huges 1 1 3 0) ∷ (1, frees 0x2f) ∷ (1, reallocs 16 0x27) ∷ (1, aliases 0x27) ∷ (1, frees 0x27) ∷ (1, allocs 16 0) ∷ (1, allocs 16 0) ∷ [])
        ≡ text_of (codes "1 call DosAllocHuge 0001 0001 0017:0034 0003 0000 = 0 0027" ∷ codes "1 hold 0027 by DosAllocHuge"
        ∷ codes "1 hold 002F by DosAllocHuge" ∷ codes "1 call DosFreeSeg 002F = 5" ∷ codes "1 call DosReallocSeg 0010 0027 = 5"
        ∷ codes "1 call DosCreateCSAlias 0027 0017:0000 = 5" ∷ codes "1 call DosFreeSeg 0027 = 0" ∷ codes "1 drop 0027 by DosFreeSeg"
        ∷ codes "1 drop 002F by DosFreeSeg" ∷ codes "1 call DosAllocSeg 0010 0017:0000 0000 = 0 0027"
        ∷ codes "1 hold 0027 by DosAllocSeg" ∷ codes "1 call DosAllocSeg 0010 0017:0000 0000 = 0 002F"
        ∷ codes "1 hold 002F by DosAllocSeg" ∷ []) }
    // Indexes that a run gives up stay reserved for it, and come back with it.
    ensures shrinks { told_by_two ((1, huges 1 1 3 0) ∷ (1, rehuges 1 0 0x24) ∷ (1, allocs 16 0) ∷ (1, rehuges 2 1 0x27) ∷ (1, rehuges 0 0 0x27) ∷ (1, rehuges 4 0 0x27) ∷ (1, rehuges 1 0 0x2f) ∷ (1, rehuges 1 0 0x17) ∷ [])
        ≡ text_of (codes "1 call DosAllocHuge 0001 0001 0017:0034 0003 0000 = 0 0027" ∷ codes "1 hold 0027 by DosAllocHuge"
        ∷ codes "1 hold 002F by DosAllocHuge" ∷ codes "1 call DosReallocHuge 0001 0000 0024 = 0" ∷ codes "1 drop 002F by DosReallocHuge"
        ∷ codes "1 call DosAllocSeg 0010 0017:0000 0000 = 0 003F" ∷ codes "1 hold 003F by DosAllocSeg"
        ∷ codes "1 call DosReallocHuge 0002 0001 0027 = 0" ∷ codes "1 hold 002F by DosReallocHuge"
        ∷ codes "1 hold 0037 by DosReallocHuge" ∷ codes "1 call DosReallocHuge 0000 0000 0027 = 87"
        ∷ codes "1 call DosReallocHuge 0004 0000 0027 = 8" ∷ codes "1 call DosReallocHuge 0001 0000 002F = 5"
        ∷ codes "1 call DosReallocHuge 0001 0000 0017 = 5" ∷ []) }
    // Each holder has the new members as often as the first one, and a shared run loses no byte.
    ensures shares { told_by_two ((1, huges 1 0 2 3) ∷ (1, gives 0x8007 2) ∷ (2, gets 0x8007) ∷ (1, rehuges 1 1 0x8007) ∷ (2, rehuges 1 0 0x8007) ∷ (2, rehuges 2 0 0x8007) ∷ (2, gets 0x800f) ∷ (2, gives 0x800f 1) ∷ [])
        ≡ text_of (codes "1 call DosAllocHuge 0001 0000 0017:0034 0002 0003 = 0 8007" ∷ codes "1 hold 8007 by DosAllocHuge"
        ∷ codes "1 call DosGiveSeg 8007 0002 0017:0034 = 0 8007" ∷ codes "2 hold 8007 by DosGiveSeg" ∷ codes "2 call DosGetSeg 8007 = 0"
        ∷ codes "2 hold 8007 by DosGetSeg" ∷ codes "1 call DosReallocHuge 0001 0001 8007 = 0" ∷ codes "1 hold 800F by DosReallocHuge"
        ∷ codes "2 hold 800F by DosReallocHuge" ∷ codes "2 hold 800F by DosReallocHuge"
        ∷ codes "2 call DosReallocHuge 0001 0000 8007 = 5" ∷ codes "2 call DosReallocHuge 0002 0000 8007 = 0"
        ∷ codes "2 call DosGetSeg 800F = 5" ∷ codes "2 call DosGiveSeg 800F 0001 0017:0034 = 5" ∷ []) }
    // A run is given as a whole.
    ensures whole { told_by_two ((1, huges 1 1 0 1) ∷ (1, gives 0x8007 2) ∷ [])
        ≡ text_of (codes "1 call DosAllocHuge 0001 0001 0017:0034 0000 0001 = 0 8007" ∷ codes "1 hold 8007 by DosAllocHuge"
        ∷ codes "1 hold 800F by DosAllocHuge" ∷ codes "1 call DosGiveSeg 8007 0002 0017:0034 = 0 8007"
        ∷ codes "2 hold 8007 by DosGiveSeg" ∷ codes "2 hold 800F by DosGiveSeg" ∷ []) }
    ensures reserves { reserves_behind two_sharers ((1, huges 1 1 3 0) ∷ (1, huges 1 0 2 1) ∷ []) ≡ (0, 4096, 2) ∷ (1, 4, 3) ∷ [] }
    ensures still_reserved { reserves_behind two_sharers ((1, huges 1 1 3 0) ∷ (1, rehuges 1 0 0x27) ∷ []) ≡ (1, 4, 3) ∷ [] }
    ensures unreserved { reserves_behind two_sharers ((1, huges 1 1 3 0) ∷ (1, frees 0x27) ∷ []) ≡ [] }
    // DS and ES are 0 where they named a member that is gone, and CS and SS name none.
    ensures clears { data_behind (loaded_behind 0x2c ((1, huges 1 1 3 0) ∷ [])) (rehuges 1 0 0x27) ≡ (0, 0) }
    ensures keeps { data_behind (loaded_behind 0x24 ((1, huges 1 1 3 0) ∷ [])) (rehuges 1 0 0x27) ≡ (0x24, 0x24) }
    ensures shift { told_by_two ((1, shifts) ∷ []) ≡ text_of (codes "1 call DosGetHugeShift 0017:0034 = 0 0003" ∷ []) }
{}

/// What each call on a heap inside a segment answers, with each error, over a segment of 64 bytes.
pub fn heap_calls_answer_by_their_rows()
    // The lowest place that is long enough; a free range that is free already; and sizes that don't suit.
    ensures takes { told_of_heap (sub_sets 0x27 1 64 ∷ sub_allocs 5 ∷ sub_allocs 16 ∷ sub_frees 8 5 ∷ sub_frees 8 5 ∷ sub_allocs 49 ∷ sub_allocs 57 ∷ sub_allocs 4 ∷ [])
        ≡ text_of (codes "1 call DosSubSet 0027 0001 0040 = 0" ∷ codes "1 call DosSubAlloc 0027 0017:0034 0005 = 0 0008" ∷
        codes "1 call DosSubAlloc 0027 0017:0034 0010 = 0 0010" ∷ codes "1 call DosSubFree 0027 0008 0005 = 0" ∷
        codes "1 call DosSubFree 0027 0008 0005 = 312" ∷ codes "1 call DosSubAlloc 0027 0017:0034 0031 = 311" ∷
        codes "1 call DosSubAlloc 0027 0017:0034 0039 = 313" ∷ codes "1 call DosSubAlloc 0027 0017:0034 0004 = 0 0008" ∷ []) }
    // What is freed joins what is free on both sides.
    ensures joins { told_of_heap (sub_sets 0x27 1 64 ∷ sub_allocs 8 ∷ sub_allocs 8 ∷ sub_allocs 8 ∷ sub_frees 16 8 ∷ sub_frees 8 8 ∷ sub_frees 24 8 ∷ sub_allocs 56 ∷ [])
        ≡ text_of (codes "1 call DosSubSet 0027 0001 0040 = 0" ∷ codes "1 call DosSubAlloc 0027 0017:0034 0008 = 0 0008" ∷
        codes "1 call DosSubAlloc 0027 0017:0034 0008 = 0 0010" ∷ codes "1 call DosSubAlloc 0027 0017:0034 0008 = 0 0018" ∷
        codes "1 call DosSubFree 0027 0010 0008 = 0" ∷ codes "1 call DosSubFree 0027 0008 0008 = 0" ∷
        codes "1 call DosSubFree 0027 0018 0008 = 0" ∷ codes "1 call DosSubAlloc 0027 0017:0034 0038 = 0 0008" ∷ []) }
    // A part may be freed, and what is free in part isn't freed.
    ensures frees_parts { told_of_heap (sub_sets 0x27 1 64 ∷ sub_allocs 16 ∷ sub_frees 12 4 ∷ sub_frees 8 16 ∷ sub_frees 8 4 ∷ sub_allocs 8 ∷ [])
        ≡ text_of (codes "1 call DosSubSet 0027 0001 0040 = 0" ∷ codes "1 call DosSubAlloc 0027 0017:0034 0010 = 0 0008" ∷
        codes "1 call DosSubFree 0027 000C 0004 = 0" ∷ codes "1 call DosSubFree 0027 0008 0010 = 312" ∷
        codes "1 call DosSubFree 0027 0008 0004 = 0" ∷ codes "1 call DosSubAlloc 0027 0017:0034 0008 = 0 0008" ∷ []) }
    // Ranges that are none of a heap, whose sums pass a word.
    ensures wrong_ranges { told_of_heap (sub_sets 0x27 1 64 ∷ sub_frees 8 0 ∷ sub_frees 9 4 ∷ sub_frees 4 4 ∷ sub_frees 60 5 ∷ sub_frees 60 4 ∷ sub_frees 65532 4 ∷ sub_frees 65532 65535 ∷ [])
        ≡ text_of (codes "1 call DosSubSet 0027 0001 0040 = 0" ∷ codes "1 call DosSubFree 0027 0008 0000 = 313" ∷
        codes "1 call DosSubFree 0027 0009 0004 = 313" ∷ codes "1 call DosSubFree 0027 0004 0004 = 313" ∷
        codes "1 call DosSubFree 0027 003C 0005 = 313" ∷ codes "1 call DosSubFree 0027 003C 0004 = 312" ∷
        codes "1 call DosSubFree 0027 FFFC 0004 = 313" ∷ codes "1 call DosSubFree 0027 FFFC FFFF = 313" ∷ []) }
    // An area is rounded down to four bytes before it is compared.
    ensures sizes { told_of_heap (sub_sets 0x27 1 11 ∷ sub_sets 0x27 1 65 ∷ sub_sets 0x27 1 68 ∷ sub_sets 0x27 1 67 ∷ sub_sets 0x27 1 12 ∷ sub_sets 0x27 1 15 ∷ sub_allocs 4 ∷ sub_allocs 1 ∷ [])
        ≡ text_of (codes "1 call DosSubSet 0027 0001 000B = 313" ∷ codes "1 call DosSubSet 0027 0001 0041 = 0" ∷
        codes "1 call DosSubSet 0027 0001 0044 = 313" ∷ codes "1 call DosSubSet 0027 0001 0043 = 0" ∷
        codes "1 call DosSubSet 0027 0001 000C = 0" ∷ codes "1 call DosSubSet 0027 0001 000F = 0" ∷
        codes "1 call DosSubAlloc 0027 0017:0034 0004 = 0 0008" ∷ codes "1 call DosSubAlloc 0027 0017:0034 0001 = 311" ∷ []) }
    // A heap that reaches further keeps what is taken.
    ensures reaches_further { told_of_heap (sub_sets 0x27 0 64 ∷ sub_sets 0x27 1 20 ∷ sub_allocs 12 ∷ sub_allocs 1 ∷ sub_sets 0x27 0 16 ∷ sub_sets 0x27 0 20 ∷ sub_sets 0x27 0 64 ∷ sub_allocs 44 ∷ [])
        ≡ text_of (codes "1 call DosSubSet 0027 0000 0040 = 87" ∷ codes "1 call DosSubSet 0027 0001 0014 = 0" ∷
        codes "1 call DosSubAlloc 0027 0017:0034 000C = 0 0008" ∷ codes "1 call DosSubAlloc 0027 0017:0034 0001 = 311" ∷
        codes "1 call DosSubSet 0027 0000 0010 = 310" ∷ codes "1 call DosSubSet 0027 0000 0014 = 0" ∷
        codes "1 call DosSubSet 0027 0000 0040 = 0" ∷ codes "1 call DosSubAlloc 0027 0017:0034 002C = 0 0014" ∷ []) }
    // Flags come behind the selector, which is that of data that can be written, with any low bits.
    ensures selectors { told_of_heap (sub_sets 0x27 2 0 ∷ sub_sets 0x0 2 0 ∷ sub_sets 0xf 1 64 ∷ sub_sets 0x24 1 64 ∷ sub_sets 0xa3 1 64 ∷ [])
        ≡ text_of (codes "1 call DosSubSet 0027 0002 0000 = 314" ∷ codes "1 call DosSubSet 0000 0002 0000 = 315" ∷
        codes "1 call DosSubSet 000F 0001 0040 = 315" ∷ codes "1 call DosSubSet 0024 0001 0040 = 0" ∷
        codes "1 call DosSubSet 00A3 0001 0040 = 315" ∷ []) }
    // The heap is changed first, and then the word behind the pointer, which may spoil it.
    ensures spoils { told_of_heap (sub_sets 0x27 1 64 ∷ sub_allocs_at 0x27 0x27 0 4 ∷ sub_allocs 4 ∷ [])
        ≡ text_of (codes "1 call DosSubSet 0027 0001 0040 = 0" ∷ codes "1 call DosSubAlloc 0027 0027:0000 0004 = 0 0008" ∷
        codes "1 call DosSubAlloc 0027 0017:0034 0004 = 87" ∷ []) }
    // A bad pointer is told before a selector.
    ensures points_badly { told_of_heap (sub_allocs_at 0 0x27 63 4 ∷ []) ≡ text_of (codes "1 end trap 13 at 000F:0000" ∷ []) }
    ensures bytes { heap_behind 12 (sub_sets 0x27 1 64 ∷ []) ≡ 0x53 ∷ 0x42 ∷ 0x40 ∷ 0 ∷ 8 ∷ 0 ∷ 0 ∷ 0 ∷ 0 ∷ 0 ∷ 0x38 ∷ 0 ∷ [] }
{}

/// What each call on a RAM semaphore answers, with each error, and where it waits, for two processes that share a segment of 16 zeros.
pub fn semaphore_calls_answer_by_their_rows()
    // Whoever asks first has it until it is cleared, and its number stands in the four bytes.
    ensures owner { told_of_semaphores ((1, requests 0x8007 0 forever) ∷ (2, requests 0x8007 0 0) ∷ (1, clears 0x8007 0) ∷ (2, requests 0x8007 0 forever) ∷ [])
        ≡ text_of (codes "1 call DosSemRequest 8007:0000 FFFFFFFF = 0" ∷ codes "2 call DosSemRequest 8007:0000 00000000 = 121" ∷
        codes "1 call DosSemClear 8007:0000 = 0" ∷ codes "2 call DosSemRequest 8007:0000 FFFFFFFF = 0" ∷ []) }
    ensures bytes { semaphores_behind 5 ((1, clears 0x8007 0) ∷ (2, requests 0x8007 0 forever) ∷ []) ≡ 2 ∷ 0 ∷ 0 ∷ 0 ∷ 0 ∷ [] }
    // The owner's second request is as anybody's, and a wait for what is clear takes nothing.
    ensures again { told_of_semaphores ((1, requests 0x8007 0 forever) ∷ (1, requests 0x8007 0 0) ∷ (1, waits_for 0x8007 0 0) ∷ (1, clears 0x8007 0) ∷ (1, waits_for 0x8007 0 forever) ∷ (1, requests 0x8007 0 0) ∷ [])
        ≡ text_of (codes "1 call DosSemRequest 8007:0000 FFFFFFFF = 0" ∷ codes "1 call DosSemRequest 8007:0000 00000000 = 121" ∷
        codes "1 call DosSemWait 8007:0000 00000000 = 121" ∷ codes "1 call DosSemClear 8007:0000 = 0" ∷
        codes "1 call DosSemWait 8007:0000 FFFFFFFF = 0" ∷ codes "1 call DosSemRequest 8007:0000 00000000 = 0" ∷ []) }
    ensures takes_nothing { told_of_semaphores ((1, waits_for 0x8007 0 forever) ∷ (2, waits_for 0x8007 0 forever) ∷ (2, requests 0x8007 0 0) ∷ (1, requests 0x8007 0 0) ∷ [])
        ≡ text_of (codes "1 call DosSemWait 8007:0000 FFFFFFFF = 0" ∷ codes "2 call DosSemWait 8007:0000 FFFFFFFF = 0" ∷
        codes "2 call DosSemRequest 8007:0000 00000000 = 0" ∷ codes "1 call DosSemRequest 8007:0000 00000000 = 121" ∷ []) }
    ensures writes_nothing { semaphores_behind 5 ((1, waits_for 0x8007 0 forever) ∷ []) ≡ 0 ∷ 0 ∷ 0 ∷ 0 ∷ 0 ∷ [] }
    // A request or a wait for what isn't clear waits without an end, by the owner too: no line, and registers and bytes stay.
    ensures waits { tried ((1, requests 0x8007 0 forever) ∷ []) 2 (requests 0x8007 0 forever) ≡ Some (record { waits = true; lines = [] }) }
    ensures owner_waits { tried ((1, requests 0x8007 0 forever) ∷ []) 1 (requests 0x8007 0 forever) ≡ Some (record { waits = true; lines = [] }) }
    ensures wait_waits { tried ((1, sets 0x8007 0) ∷ []) 2 (waits_for 0x8007 0 forever) ≡ Some (record { waits = true; lines = [] }) }
    ensures waits_at_its_call { registers_behind ((1, requests 0x8007 0 forever) ∷ (2, requests 0x8007 0 forever) ∷ []) 2 ≡ registers_behind [] 2 }
    ensures waits_writing_nothing { semaphores_behind 5 ((1, requests 0x8007 0 forever) ∷ (2, requests 0x8007 0 forever) ∷ []) ≡ 1 ∷ 0 ∷ 0 ∷ 0 ∷ 0 ∷ [] }
    ensures goes_on_waiting { tried ((1, requests 0x8007 0 forever) ∷ (1, frees 0x8007) ∷ []) 2 (requests 0x8007 0 forever) ≡ Some (record { waits = true; lines = [] }) }
    // 87 for any other timeout, whatever the number is, behind the pointer.
    ensures timeouts { told_of_semaphores ((1, requests 0x8007 0 1) ∷ (1, requests 0x8007 0 0xFFFF_FFFE) ∷ (1, requests 0x8007 0 0xFFFF) ∷ (1, waits_for 0x8007 0 1) ∷ (1, sets 0x8007 0) ∷ (1, waits_for 0x8007 0 0xFFFF_0000) ∷ [])
        ≡ text_of (codes "1 call DosSemRequest 8007:0000 00000001 = 87" ∷ codes "1 call DosSemRequest 8007:0000 FFFFFFFE = 87" ∷
        codes "1 call DosSemRequest 8007:0000 0000FFFF = 87" ∷ codes "1 call DosSemWait 8007:0000 00000001 = 87" ∷
        codes "1 call DosSemSet 8007:0000 = 0" ∷ codes "1 call DosSemWait 8007:0000 FFFF0000 = 87" ∷ []) }
    ensures points_badly { told_of_semaphores ((1, requests 0 0 1) ∷ []) ≡ text_of (codes "1 end trap 13 at 000F:0000" ∷ []) }
    ensures wants_writing { told_of_semaphores ((1, waits_for 0xf 0 0) ∷ []) ≡ text_of (codes "1 end trap 13 at 000F:0000" ∷ []) }
    ensures last { told_of_semaphores ((1, sets 0x8007 12) ∷ (1, sets 0x8007 13) ∷ [])
        ≡ text_of (codes "1 call DosSemSet 8007:000C = 0" ∷ codes "1 end trap 13 at 000F:0000" ∷ []) }
    // A set leaves nobody's number, over an owner's too.
    ensures sets { told_of_semaphores ((1, sets 0x8007 0) ∷ (2, requests 0x8007 0 0) ∷ (2, clears 0x8007 0) ∷ (1, requests 0x8007 0 0) ∷ (2, sets 0x8007 0) ∷ (1, clears 0x8007 0) ∷ [])
        ≡ text_of (codes "1 call DosSemSet 8007:0000 = 0" ∷ codes "2 call DosSemRequest 8007:0000 00000000 = 121" ∷
        codes "2 call DosSemClear 8007:0000 = 0" ∷ codes "1 call DosSemRequest 8007:0000 00000000 = 0" ∷
        codes "2 call DosSemSet 8007:0000 = 0" ∷ codes "1 call DosSemClear 8007:0000 = 0" ∷ []) }
    ensures set_bytes { semaphores_behind 5 ((1, requests 0x8007 0 0) ∷ (2, sets 0x8007 0) ∷ []) ≡ 0xFF ∷ 0xFF ∷ 0 ∷ 0 ∷ 0 ∷ [] }
    // Whatever low bits the selector has it is the same semaphore.
    ensures low_bits { told_of_semaphores ((1, requests 0x8007 0 forever) ∷ (2, requests 0x8004 0 0) ∷ [])
        ≡ text_of (codes "1 call DosSemRequest 8007:0000 FFFFFFFF = 0" ∷ codes "2 call DosSemRequest 8004:0000 00000000 = 121" ∷ []) }
    // Two that overlap are bytes as any others, and all four count.
    ensures overlaps { told_of_semaphores ((1, sets 0x8007 0) ∷ (1, requests 0x8007 1 0) ∷ (1, requests 0x8007 2 0) ∷ (1, clears 0x8007 0) ∷ (2, requests 0x8007 2 0) ∷ [])
        ≡ text_of (codes "1 call DosSemSet 8007:0000 = 0" ∷ codes "1 call DosSemRequest 8007:0001 00000000 = 121" ∷
        codes "1 call DosSemRequest 8007:0002 00000000 = 0" ∷ codes "1 call DosSemClear 8007:0000 = 0" ∷
        codes "2 call DosSemRequest 8007:0002 00000000 = 0" ∷ []) }
    ensures high_word { told_of_semaphores ((1, requests 0x8007 2 0) ∷ (2, requests 0x8007 0 0) ∷ [])
        ≡ text_of (codes "1 call DosSemRequest 8007:0002 00000000 = 0" ∷ codes "2 call DosSemRequest 8007:0000 00000000 = 121" ∷ []) }
    // What an ended process owned stays so until somebody clears it.
    ensures ended_owner { told_of_semaphores ((1, requests 0x8007 0 forever) ∷ (1, calls 1 (1 ∷ 3 ∷ [])) ∷ (2, requests 0x8007 0 0) ∷ (2, clears 0x8007 0) ∷ (2, requests 0x8007 0 0) ∷ [])
        ≡ text_of (codes "1 call DosSemRequest 8007:0000 FFFFFFFF = 0" ∷ codes "1 call DosExit 0001 0003" ∷ codes "1 end exit 3" ∷
        codes "2 call DosSemRequest 8007:0000 00000000 = 121" ∷ codes "2 call DosSemClear 8007:0000 = 0" ∷
        codes "2 call DosSemRequest 8007:0000 00000000 = 0" ∷ []) }
    // Exception 1 follows the step in which the call comes back, and no step that waits.
    ensures traps { told_of_semaphores ((1, stepping (requests 0x8007 0 forever)) ∷ [])
        ≡ text_of (codes "1 call DosSemRequest 8007:0000 FFFFFFFF = 0" ∷ codes "1 end trap 1 at 000F:0000" ∷ []) }
    ensures waits_untrapped { tried ((1, sets 0x8007 0) ∷ []) 1 (stepping (requests 0x8007 0 forever)) ≡ Some (record { waits = true; lines = [] }) }
{}

/// A step that waits leaves the registers, at its call, and the world as they were behind the words that come before it, but for whose
/// turn it is and the budget.
pub fn a_wait_changes_the_dispatch_alone()
    ensures effect { (b : Before) → (effect b).waits ≡ true → effect b ≡ waiting b }
    ensures changed { (s : Setting) (w : World) (d : Dispatch) (p : Process)
        → process_at w.processes d.current ≡ Some p → is_live p.state ≡ true
        → let b = before s w d.current p in (effect b).waits ≡ true → IsButDispatch w (counted d) (changed w d p (effect b)) }
    ensures step { (s : Setting) (w : World) (p : Process) → is_over w ≡ false
        → let d = next_dispatch s w in process_at w.processes d.current ≡ Some p
        → (effect (before s (ready w) d.current p)).waits ≡ true → IsButDispatch (ready w) (counted d) (step s w) }
{}

/// Where a step waits and the next one is of the same process, that starts from the same, so it is the same effect. It is of the same
/// process as long as its slice or turn has steps left, so it waits for the rest of that.
pub fn a_wait_repeats()
    ensures turn { (s : Setting) (w : World) (p : Process) → is_over w ≡ false
        → let d = next_dispatch s w in process_at w.processes d.current ≡ Some p
        → (effect (before s (ready w) d.current p)).waits ≡ true → 1 < d.left → next_dispatch s (step s w) ≡ counted d }
    ensures process { (s : Setting) (w : World) (p : Process) → is_over w ≡ false
        → let d = next_dispatch s w in process_at w.processes d.current ≡ Some p
        → (effect (before s (ready w) d.current p)).waits ≡ true → process_at (step s w).processes d.current ≡ Some p }
    ensures effect { (s : Setting) (w : World) (p : Process) → is_over w ≡ false
        → let d = next_dispatch s w in process_at w.processes d.current ≡ Some p
        → (effect (before s (ready w) d.current p)).waits ≡ true → before s (step s w) d.current p ≡ before s (ready w) d.current p }
    ensures rest { (s : Setting) (w : World) (p : Process) → is_over w ≡ false
        → let d = next_dispatch s w in process_at w.processes d.current ≡ Some p
        → (effect (before s (ready w) d.current p)).waits ≡ true
        → (k : ℕ) → 0 < k → k ≤ d.left → k ≤ d.budget → IsButDispatch (ready w) (spent k d) (after s w k) }
{}

/// A step of a process that goes on gives and takes as many holds of each process and selector as its lines tell.
pub fn what_is_held_is_told()
    ensures { (w : World) (d : Dispatch) (p : Process) (e : Effect)
        → process_at w.processes d.current ≡ Some p → CanTellAll (worked w d p e) e.changes → Tells e
        → is_live e.state ≡ true
        → (q i : ℕ) → 0 < q
        → holds_at (changed w d p e) q i + went e.lines q (selector_of i) ≡ holds_at w q i + came e.lines q (selector_of i) }
{}

/// Where what is held is what the lines so far tell, it is so behind a step whose lines tell its changes, which puts the line of
/// an end where it ends its process, and which gives nothing to a process that has ended. Then it is the reach of the report.
pub fn what_is_held_is_the_reach_of_the_report()
    ensures step { (w : World) (d : Dispatch) (p : Process) (e : Effect)
        → process_at w.processes d.current ≡ Some p → CanTellAll (worked w d p e) e.changes → Tells e
        → 0 < d.current
        → ((q : ℕ) → tells_end e.lines q ≡ (not (is_live e.state) && (q == d.current)))
        → ((q i : ℕ) → tells_end w.lines q ≡ true → came e.lines q (selector_of i) ≡ 0) → IsTold w
        → IsTold (changed w d p e) }
    ensures reach { (w : World) → IsTold w → (q i : ℕ) → 0 < q
        → reach w.lines q (selector_of i) ≡ holds_at w q i }
{}

/// From a sound opening on, what each process holds under each selector is the reach of the report, step by step: the lines of
/// holds that came less those that went, and nothing behind the line of its end.
pub fn reach_holds_along_the_run()
    ensures step { (s : Setting) (w : World) → IsSound w → IsTold w → IsTold (step s w) }
    ensures run { (s : Setting) (reserved : List (ℕ × ℕ)) (script : List Word) (input : List ℕ) (starts : List Start) (w : World)
        → AreFit starts → opening_of s reserved script input starts ≡ Ok w → IsSound w
        → (k q i : ℕ) → 0 < q
        → reach (after s w k).lines q (selector_of i) ≡ holds_at (after s w k) q i }
{}

/// A step whose changes are fit keeps a world tied and each live name held.
pub fn fit_changes_keep_a_world_tied()
    ensures { (w : World) (d : Dispatch) (p : Process) (e : Effect)
        → process_at w.processes d.current ≡ Some p → is_live p.state ≡ true
        → HasGoodRegisters (working p e)
        → ((q : ℕ) (s : Segment) → get w.names q ≡ Some s → length (e.bytes q) ≡ length s.bytes)
        → AreFitChanges (worked w d p e) e.changes
        → (list_any takes e.changes ≡ false → IsSwept (with_changes (worked w d p e) e.changes))
        → IsTied w → IsTied (changed w d p e) × IsSwept (changed w d p e) }
{}

/// What a call may change is one of a few things: nothing but bytes; a new segment that is held at an index that was free; the size
/// of a segment; its lock count; a segment that is held already and is held at a free index too, as code; or one hold less at each
/// of some indexes that are held and that neither CS nor SS names, with DS and ES 0 where they named one that is gone; and of calls that
/// share segments, a new shared segment with a name, or a hold more of each of some shared segments, for a process that lives. In a
/// sound world these changes are fit, and where none takes a hold all that lives behind them is held.
pub fn what_calls_change_is_fit()
    ensures shape { (service : ℕ) (b : Before) (next : ℕ)
        → AllMoves b (serviced b service next).cpu (serviced b service next).changes }
    ensures steps { (b : Before) → AllMoves b (effect b).cpu (effect b).changes }
    ensures fit { (s : Setting) (w : World) (d : Dispatch) (p : Process) (e : Effect)
        → process_at w.processes d.current ≡ Some p → is_live p.state ≡ true → is_live (working p e).state ≡ true
        → HasGoodRegisters (working p e)
        → ((q : ℕ) (x : Segment) → get w.names q ≡ Some x → length (e.bytes q) ≡ length x.bytes)
        → IsSound w → AllMoves (before s w d.current p) e.cpu e.changes → AreFitChanges (worked w d p e) e.changes }
    ensures swept { (s : Setting) (w : World) (d : Dispatch) (p : Process) (e : Effect)
        → process_at w.processes d.current ≡ Some p → is_live p.state ≡ true → is_live (working p e).state ≡ true
        → HasGoodRegisters (working p e)
        → ((q : ℕ) (x : Segment) → get w.names q ≡ Some x → length (e.bytes q) ≡ length x.bytes)
        → IsSound w → AllMoves (before s w d.current p) e.cpu e.changes
        → list_any takes e.changes ≡ false → IsSwept (with_changes (worked w d p e) e.changes) }
{}

/// Each call loads segment registers by the load rules or leaves them, keeps the size of what lived before, but for its changes, and
/// tells its changes.
pub fn each_call_keeps_sizes_and_tells_its_changes()
    ensures registers { (service : ℕ) (b : Before) (next : ℕ) → LoadsByRules b.view b.cpu (serviced b service next).cpu }
    ensures sizes { (service : ℕ) (b : Before) (next : ℕ) → KeepsLengths b.view.bytes (serviced b service next).bytes }
    ensures lines { (service : ℕ) (b : Before) (next : ℕ) → Tells (serviced b service next) }
{}

/// Where the line of a call has an error, no name, map or lock changes, nothing is written, no input goes, and the process goes on
/// with its selectors.
pub fn an_error_changes_nothing()
    ensures { (service : ℕ) (b : Before) (next : ℕ) → ErrorChangesNothing b (serviced b service next) }
{}

/// What the calls on huge allocations change is one of these: nothing; a new run, which is reserved, with members of which the caller
/// holds each; or of a run the sizes of members, new members for each of its holders, and members that go, which neither CS nor SS
/// names, with DS and ES 0 where they named one. In a sound world these changes are fit, can be told, and where none takes a hold all
/// that lives behind them is held, and each run that is reserved.
pub fn what_huge_calls_change_is_fit()
    ensures makes { (b : Before) (cpu : Cpu) (segs part most flags : ℕ)
        → RunMoves b cpu (huge_allocation b.known b.number segs part most flags).changes }
    ensures sizes { (b : Before) (segs part selector : ℕ) (cpu : Cpu) → SameSelectors cpu b.cpu
        → let r = huge_reallocation b.known b.number segs part selector b.cpu in
        RunMoves b (without cpu (gone_indexes b.known r.changes)) r.changes }
    ensures fit { (s : Setting) (w : World) (d : Dispatch) (p : Process) (e : Effect)
        → process_at w.processes d.current ≡ Some p → is_live p.state ≡ true → is_live (working p e).state ≡ true
        → HasGoodRegisters (working p e)
        → ((q : ℕ) (x : Segment) → get w.names q ≡ Some x → length (e.bytes q) ≡ length x.bytes)
        → IsSound w → RunMoves (before s w d.current p) e.cpu e.changes → AreFitChanges (worked w d p e) e.changes }
    ensures told { (s : Setting) (w : World) (d : Dispatch) (p : Process) (e : Effect)
        → process_at w.processes d.current ≡ Some p → is_live p.state ≡ true → is_live (working p e).state ≡ true
        → HasGoodRegisters (working p e)
        → ((q : ℕ) (x : Segment) → get w.names q ≡ Some x → length (e.bytes q) ≡ length x.bytes)
        → IsSound w → RunMoves (before s w d.current p) e.cpu e.changes → CanTellAll (worked w d p e) e.changes }
    ensures swept { (s : Setting) (w : World) (d : Dispatch) (p : Process) (e : Effect)
        → process_at w.processes d.current ≡ Some p → is_live p.state ≡ true → is_live (working p e).state ≡ true
        → HasGoodRegisters (working p e)
        → ((q : ℕ) (x : Segment) → get w.names q ≡ Some x → length (e.bytes q) ≡ length x.bytes)
        → IsSound w → RunMoves (before s w d.current p) e.cpu e.changes
        → list_any takes e.changes ≡ false → IsSwept (with_changes (worked w d p e) e.changes) }
{}

/// Changes go by names, marks and holds, and by no byte and no register: worlds that have these alike have them alike behind
/// changes. Bytes and registers of a step change none of them.
pub fn changes_go_by_no_bytes()
    ensures alike { (u v : World) (cs : List Change) → bare u ≡ bare v → bare (with_all u cs) ≡ bare (with_all v cs) }
    ensures worked { (w : World) (d : Dispatch) (p : Process) (e : Effect) → process_at w.processes d.current ≡ Some p
        → bare (worked w d p e) ≡ bare w }
{}

/// Each service that is built has a row, and no other. The row has the name of its service, and as many words.
pub fn each_service_that_is_built_has_a_row()
    ensures built { (service : ℕ) → is_some (row_of service) ≡ is_built service }
    ensures named { (service : ℕ) (r : CallRow) → row_of service ≡ Some r
        → option_map {U = List ℕ × ℕ} (λ (s : ServiceRow). (s.name, s.words)) (row_at service) ≡ Some (r.name, words_in r.slots) }
{}

/// Code is not marked as shared, read-only data and data that is one for all processes are, and what each process has for itself
/// is not: the marks of the names that two processes of one program with code, read-only data, common data and data of their
/// own open, by number.
pub fn common_data_is_marked_as_shared()
    ensures { shared_marks ≡ some_marks }
{}

/// A shared index that is reserved for the whole run, as those of the libraries, is so behind each step.
pub fn what_is_reserved_for_the_run_stays()
    ensures { (s : Setting) (w : World) (i : ℕ) → list_any (is_for_the_run i) w.reserved ≡ true
        → list_any (is_for_the_run i) (step s w).reserved ≡ true }
{}

/// Behind the end of a process no index is reserved for a run that nobody holds, none of the process's own region is reserved,
/// each live name is held, and each text is that of a name that is held.
pub fn an_end_frees_what_nobody_holds()
    ensures reserves { (w : World) (d : Dispatch) (p : Process) (e : Effect) → is_live e.state ≡ false
        → let v = changed w d p e in used v.processes v.reserved ≡ v.reserved }
    ensures own { (w : World) (d : Dispatch) (p : Process) (e : Effect)
        → process_at w.processes d.current ≡ Some p → is_live e.state ≡ false
        → list_any (λ (r : Reserve). r.region == d.current) (changed w d p e).reserved ≡ false }
    ensures texts { (w : World) (d : Dispatch) (p : Process) (e : Effect) → is_live e.state ≡ false
        → let v = changed w d p e in told_of v.processes v.texts ≡ v.texts }
    ensures swept { (w : World) (d : Dispatch) (p : Process) (e : Effect) → is_live e.state ≡ false
        → IsSwept (changed w d p e) }
{}

/// What two processes leave that end one behind the other: code that both hold, data and environment of either, names 5 and 6 with
/// a text, of which the second process holds the latter, a run of its own of either, and shared runs, of which the second process
/// holds that of index 4102 and a library has that of 4104.
pub fn an_end_leaves_what_another_holds()
    ensures names_before { names_in before_ends ≡ 10 ∷ 9 ∷ 8 ∷ 7 ∷ 6 ∷ 5 ∷ 4 ∷ 3 ∷ 2 ∷ 1 ∷ 0 ∷ [] }
    ensures names_of_one { names_in one_ended ≡ 10 ∷ 8 ∷ 6 ∷ 4 ∷ 3 ∷ 0 ∷ [] }
    ensures names_of_none { names_in both_ended ≡ [] }
    ensures texts_before { texts_in before_ends ≡ 6 ∷ 5 ∷ [] }
    ensures texts_of_one { texts_in one_ended ≡ 6 ∷ [] }
    ensures texts_of_none { texts_in both_ended ≡ [] }
    ensures runs_before { runs_in before_ends ≡ (1, 8) ∷ (2, 8) ∷ (0, 4100) ∷ (0, 4102) ∷ (0, 4104) ∷ [] }
    ensures runs_of_one { runs_in one_ended ≡ (2, 8) ∷ (0, 4102) ∷ (0, 4104) ∷ [] }
    ensures runs_of_none { runs_in both_ended ≡ (0, 4104) ∷ [] }
{}
