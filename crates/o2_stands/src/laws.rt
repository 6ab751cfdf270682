// What follows where a machine over a store stands for a world, and what keeps that.
ghost use Rattle.std.specs.Prelude.{◌≡◌, ◌≤◌, ℕ, Bool, true, List, length, Ok, Some, is_some, IsTrue};
ghost use Rattle.std.specs.List.{list_any};
ghost use Rattle.o2_conf.specs.declared.script.Word.{Word as WordThere};
ghost use Rattle.std.specs.Borrow.{GName};
ghost use Rattle.o2_isa.specs.declared.cpu.Cpu.{Cpu as CpuThere};
ghost use Rattle.o2_isa.specs.View.{Filling, Hidden, Rest, bound_registers};
ghost use Rattle.o2_place.specs.declared.seg_id.SegId.{SegId as SegIdThere};
ghost use Rattle.o2_place.specs.Layout.{over};
ghost use Rattle.o2_regions.specs.Maps.{IsProcess, Maps};
ghost use Rattle.o2_run.specs.Room.{load_between, room_between, swap_load as world_load};
ghost use Rattle.o2_segbus.specs.declared.registers.SegmentRegisters.{SegmentRegisters as SegmentRegistersThere};
ghost use Rattle.o2_segbus.specs.Bus.{AreInside, bus_view, registers_of};
ghost use Rattle.o2_segbus.specs.Frames.{CanStep, KeepsClean, KeepsMaps, KeepsStore};
ghost use Rattle.o2_segbus.specs.Seen.{hold_in};
ghost use Rattle.o2_segbus.specs.Settled.{IsSettled};
ghost use Rattle.o2_service.specs.Needs.{all_needed};
ghost use Rattle.o2_service.specs.Told.{IsHeldWell, OnlyTables};
ghost use Rattle.o2_store.specs.Loads.{live_load, swap_load};
ghost use Rattle.o2_store.specs.Pictures.{picture};
ghost use Rattle.o2_store.specs.Shelf.{AreClean, KeepsAll, SameTables, Shelf};
ghost use Rattle.o2_swapmap.specs.Piles.{all_of};
ghost use Rattle.o2_world.specs.Map.{Map};
ghost use Rattle.o2_world.specs.World.{Process, Reserve, Segment, Setting, World, is_live};
ghost use Rattle.o2_world.specs.Holders.{process_at, with_process};
ghost use Rattle.o2_world.specs.Known.{Known, held_at, is_for_the_run, known_of};
ghost use Rattle.o2_world.specs.Rulings.{aliasing, allocation, freeing, freeing_cpu, locking, reallocation, sizing, unlocking};
ghost use Rattle.o2_world.specs.Run.{step};
ghost use Rattle.o2_world.specs.Starts.{Start, opening_of};
ghost use Rattle.o2_world.specs.Changes.{Change, with_all, with_change, with_changes};
ghost use Rattle.o2_world.specs.Tied.{AreFitChanges, IsSound, IsSwept, IsTied};
ghost use Rattle.o2_world.specs.Bare.{bare};
ghost use Rattle.o2_world.specs.Views.{bytes_in, view_of, with_bytes};
ghost use Rattle.o2_stands.specs.Parts.{Parts, Running as RunningThere, running_of};
ghost use Rattle.o2_stands.specs.Stands.{AreLawful, AreOnce, IsReady, IsSetTo, IsTidy, Matches, MatchesIn, Stands, StandsIn};
ghost use Rattle.o2_stands.specs.Runs.{AreFull, AreRuns, HasFullMembers, HasRunFlags, HasRuns};
ghost use Rattle.o2_stands.specs.Tidies.{AreTidyChanges};
ghost use Rattle.o2_stands.specs.Moves.{AreWritten, RunsAs, moved, stepped_to, with_running};
ghost use Rattle.o2_stands.specs.Views.{Fills, boundless_view, filled};
ghost use Rattle.o2_stands.specs.Knows.{KnowsAs, known_in, others_of};
ghost use Rattle.o2_stands.specs.Sums.{AreAllHere, AreAtLeast, AreAtMost, IsAmong, NoneGrows, SaysNeed};

/// What the boundless machine sees of a process is what a bus shows of it, with all segments present, where a filling gives
/// the bytes of those that are out of memory.
pub fn views_are_filled()
    ensures view { (p : Parts) (ps : List Process) (names : Map Segment) (next : ℕ) (reserved : List Reserve)
        (pid : ℕ) (q : Process) (r : Rest) (h : Hidden) (f : Filling) → AreLawful p.shelf p.maps
        → StandsIn p ps names next reserved → process_at ps pid ≡ Some q → Fills p h f
        → view_of names q ≡ filled p r h f pid q.cpu }
    ensures bus { (p : Parts) (ps : List Process) (names : Map Segment) (next : ℕ) (reserved : List Reserve)
        (pid : ℕ) (q : Process) (g t : GName) (x : SegmentRegistersThere) (h : Hidden) → AreLawful p.shelf p.maps
        → StandsIn p ps names next reserved → process_at ps pid ≡ Some q
        → registers_of p.maps pid x ≡ bound_registers (hold_in p.maps pid) q.cpu
        → view_of names q ≡ boundless_view p h (bus_view g t p.shelf p.maps pid x) }
{}

/// The world before the first step is what the machine goes by, where each shared index that is held then is one of a library.
pub fn openings_are_tidy()
    ensures { (s : Setting) (reserved : List (ℕ × ℕ)) (script : List WordThere) (input : List ℕ)
        (starts : List Start) (w : World) → opening_of s reserved script input starts ≡ Ok w → IsSound w
        → ((n i : ℕ) → 4096 ≤ i → is_some (held_at w.processes n i) ≡ true
        → list_any (is_for_the_run i) w.reserved ≡ true) → IsTidy w.processes w.names w.reserved }
{}

/// A machine stands for a world where it matches it by look-ups and the world is tidy.
pub fn standing_is_matching()
    ensures matches { (p : Parts) (ps : List Process) (names : Map Segment) (next : ℕ) (reserved : List Reserve)
        → StandsIn p ps names next reserved → MatchesIn p ps names next reserved }
    ensures stands { (p : Parts) (ps : List Process) (names : Map Segment) (next : ℕ) (reserved : List Reserve)
        → MatchesIn p ps names next reserved → IsTidy ps names reserved → StandsIn p ps names next reserved }
{}

/// Each name of a world stands once behind changes, where it did so before them, and sums over names count it once.
pub fn names_stand_once()
    ensures change { (w : World) (c : Change) → IsTied w → AreOnce w.names → AreOnce (with_change w c).names }
    ensures all { (w : World) (cs : List Change) → AreFitChanges w cs → IsTied w → AreOnce w.names
        → AreOnce (with_all w cs).names }
{}

/// A tidy world stays tidy behind changes that are fit, where all that lives behind them is held, what is held anew is held as its index
/// is reserved, and what is held in runs behind them has the form of runs.
pub fn changes_keep_a_world_tidy()
    ensures { (w : World) (cs : List Change) → IsTied w → AreFitChanges w cs → AreTidyChanges w cs
        → IsTidy w.processes w.names w.reserved → IsSwept (with_all w cs)
        → HasRuns (held_at (with_changes w cs).processes) → HasRunFlags (held_at (with_changes w cs).processes) (with_changes w cs).names
        → HasFullMembers (held_at (with_changes w cs).processes) (with_changes w cs).names
        → IsTidy (with_all w cs).processes (with_all w cs).names (with_all w cs).reserved }
{}

/// What a call writes behind its changes is seen: a machine that matches the world with the changes matches the one that is bare the
/// same, once its segments have the bytes that they have there and its process has these registers and this state.
pub fn what_a_call_writes_is_seen()
    ensures { (p : Parts) (t : Shelf) (m : Maps) (number : ℕ) (r : RunningThere) (u v : World)
        → KeepsStore p.shelf t → KeepsMaps p.maps m → AreInside t → IsReady (stepped_to p t m) → bare u ≡ bare v
        → AreWritten u.names t (bytes_in v.names) → RunsAs u v number r
        → Matches p u → Matches (with_running (stepped_to p t m) number r) v }
{}

/// Each step keeps a sound world tidy, whatever the call that it makes.
pub fn each_step_keeps_a_world_tidy()
    ensures { (s : Setting) (w : World) → IsSound w → IsTidy w.processes w.names w.reserved
        → IsTidy (step s w).processes (step s w).names (step s w).reserved }
{}

/// Calls on segments come to the same where the same is known: error, value, changes and registers.
pub fn rulings_go_by_what_is_known()
    ensures allocation { (m : Maps) (k l : Known) (n size flags : ℕ) → KnowsAs m k l → IsProcess m n
        → allocation k n size flags ≡ allocation l n size flags }
    ensures reallocation { (m : Maps) (k l : Known) (n size selector : ℕ) → KnowsAs m k l
        → reallocation k n size selector ≡ reallocation l n size selector }
    ensures freeing { (m : Maps) (k l : Known) (n selector : ℕ) (c : CpuThere) → KnowsAs m k l
        → freeing k n selector c ≡ freeing l n selector c }
    ensures freeing_cpu { (m : Maps) (k l : Known) (n selector : ℕ) (c : CpuThere) → KnowsAs m k l
        → freeing_cpu k n selector c ≡ freeing_cpu l n selector c }
    ensures sizing { (m : Maps) (k l : Known) (n selector : ℕ) → KnowsAs m k l
        → sizing k n selector ≡ sizing l n selector }
    ensures locking { (m : Maps) (k l : Known) (n selector : ℕ) → KnowsAs m k l
        → locking k n selector ≡ locking l n selector }
    ensures unlocking { (m : Maps) (k l : Known) (n selector : ℕ) → KnowsAs m k l
        → unlocking k n selector ≡ unlocking l n selector }
    ensures aliasing { (m : Maps) (k l : Known) (n selector : ℕ) → KnowsAs m k l → IsProcess m n
        → aliasing k n selector ≡ aliasing l n selector }
{}

/// What is known of a world beside what a process sees is known of the machine.
pub fn worlds_are_known()
    ensures { (p : Parts) (s : Setting) (w : World) → AreLawful p.shelf p.maps → IsSetTo p s
        → Stands p w → KnowsAs p.maps (known_of s w) (known_in p (others_of s w)) }
{}

/// What is held in runs in a tidy world is held so in a machine that matches it, with segments of these sizes.
pub fn runs_are_seen()
    ensures runs { (p : Parts) (ps : List Process) (names : Map Segment) (next : ℕ) (reserved : List Reserve)
        → AreLawful p.shelf p.maps → MatchesIn p ps names next reserved → IsTidy ps names reserved → AreRuns p.maps }
    ensures full { (p : Parts) (ps : List Process) (names : Map Segment) (next : ℕ) (reserved : List Reserve)
        → AreLawful p.shelf p.maps → MatchesIn p ps names next reserved → IsTidy ps names reserved → AreFull p.shelf p.maps }
{}

/// Nobody sees that segments come into memory, go out of it or move in it.
pub fn moves_are_unseen()
    ensures stands { (p : Parts) (t : Shelf) (m : Maps) (after : ℕ → List ℕ) (told : Bool)
        (ps : List Process) (names : Map Segment) (next : ℕ) (reserved : List Reserve)
        → IsTrue told → KeepsAll told (picture p.images) p.shelf p.block t after → OnlyTables p.maps m
        → IsReady (moved p t m after)
        → StandsIn p ps names next reserved → StandsIn (moved p t m after) ps names next reserved }
    ensures ready { (p : Parts) (t : Shelf) (m : Maps) (after : ℕ → List ℕ) → IsReady p
        → SameTables p.shelf t → OnlyTables p.maps m
        → AreClean t (picture p.images) → IsSettled t m → IsHeldWell t m
        → all_of t.swap ≡ all_of p.shelf.swap → IsReady (moved p t m after) }
{}

/// What a step writes is written in the world: what is in memory has the bytes that it has there, and what is out of it those
/// that it had. That is what the boundless machine sees behind it.
pub fn steps_are_seen()
    ensures stands { (p : Parts) (t : Shelf) (m : Maps) (bytes : ℕ → List ℕ)
        (ps : List Process) (names : Map Segment) (next : ℕ) (reserved : List Reserve)
        → KeepsStore p.shelf t → KeepsMaps p.maps m → AreInside t → IsReady (stepped_to p t m)
        → StandsIn p ps names next reserved → AreWritten names t bytes
        → StandsIn (stepped_to p t m) ps (with_bytes names bytes) next reserved }
    ensures written { (p : Parts) (t : Shelf) (m : Maps) (g k : GName) (pid : ℕ) (x : SegmentRegistersThere) (h : Hidden)
        (ps : List Process) (names : Map Segment) (next : ℕ) (reserved : List Reserve)
        → AreLawful p.shelf p.maps → StandsIn p ps names next reserved → KeepsStore p.shelf t
        → AreWritten names t (boundless_view p h (bus_view g k t m pid x)).bytes }
    ensures ready { (p : Parts) (t : Shelf) (m : Maps) (pid : ℕ) (c : CpuThere) → IsReady p
        → KeepsStore p.shelf t → KeepsMaps p.maps m → KeepsClean p.shelf p.maps t
        → CanStep t m pid c → IsReady (stepped_to p t m) }
{}

/// A process goes on with other registers.
pub fn processes_go_on()
    ensures { (p : Parts) (ps : List Process) (names : Map Segment) (next : ℕ) (reserved : List Reserve)
        (pid : ℕ) (x q : Process) → process_at ps pid ≡ Some x → q.held ≡ x.held
        → is_live q.state ≡ is_live x.state → StandsIn p ps names next reserved
        → StandsIn (with_running p pid (running_of q)) (with_process ps pid q) names next reserved }
{}

/// Names and the numbers of live segments are one to one, so what is needed, what lives and what may go to the device are as
/// much by names as by numbers.
pub fn names_are_segments()
    ensures room { (p : Parts) (ps : List Process) (names behind : Map Segment) (next : ℕ) (reserved : List Reserve)
        (list : List ℕ) (need : List (SegIdThere × ℕ)) → AreLawful p.shelf p.maps
        → StandsIn p ps names next reserved → SaysNeed p.shelf names behind list need
        → room_between names behind list ≡ all_needed p.shelf need }
    ensures room_at_least { (p : Parts) (ps : List Process) (names behind : Map Segment) (next : ℕ) (reserved : List Reserve)
        (list : List ℕ) (need : List (SegIdThere × ℕ)) → AreLawful p.shelf p.maps
        → StandsIn p ps names next reserved → IsAmong p.shelf behind list need
        → all_needed p.shelf need ≤ room_between names behind list }
    ensures room_at_most { (p : Parts) (ps : List Process) (names behind : Map Segment) (next : ℕ) (reserved : List Reserve)
        (list : List ℕ) → AreLawful p.shelf p.maps → StandsIn p ps names next reserved
        → AreAllHere p.shelf names behind list → room_between names behind list ≤ p.shelf.places.size }
    ensures weighs_at_least { (p : Parts) (ps : List Process) (names behind : Map Segment) (next : ℕ) (reserved : List Reserve)
        (list : List ℕ) (weight : ℕ → ℕ) → AreLawful p.shelf p.maps → StandsIn p ps names next reserved
        → AreAtLeast p.shelf names behind list weight → over weight (length p.shelf.entries) ≤ room_between names behind list }
    ensures weighs_at_most { (p : Parts) (ps : List Process) (names behind : Map Segment) (next : ℕ) (reserved : List Reserve)
        (list : List ℕ) (weight : ℕ → ℕ) → AreLawful p.shelf p.maps → StandsIn p ps names next reserved
        → AreAtMost p.shelf names behind list weight → room_between names behind list ≤ over weight (length p.shelf.entries) }
    ensures live_at_least { (p : Parts) (ps : List Process) (names behind : Map Segment) (next : ℕ) (reserved : List Reserve)
        → AreLawful p.shelf p.maps → StandsIn p ps names next reserved
        → live_load p.shelf ≤ load_between names behind }
    ensures live { (p : Parts) (ps : List Process) (names behind : Map Segment) (next : ℕ) (reserved : List Reserve)
        → AreLawful p.shelf p.maps → StandsIn p ps names next reserved → NoneGrows p.shelf names behind
        → load_between names behind ≡ live_load p.shelf }
    ensures swap { (p : Parts) (w : World) → AreLawful p.shelf p.maps → Stands p w
        → world_load w ≡ swap_load p.shelf }
{}
