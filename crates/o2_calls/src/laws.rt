// What the rows of the calls on segments come to by their rulings.
ghost use Rattle.std.specs.Prelude.{◌≡◌, ℕ, List, ◌++◌, ◌∷◌, [], Some, length};
ghost use Rattle.o2_conf.specs.Dispatch.{Dispatch};
ghost use Rattle.o2_gate.specs.declared.requests.SegmentArguments.{SegmentArguments as ArgumentsThere};
ghost use Rattle.o2_gate.specs.declared.arguments.Arguments.{Arguments as AllArguments};
ghost use Rattle.o2_gate.specs.Targets.{asked};
ghost use Rattle.o2_isa.specs.declared.cpu.Cpu.{Cpu as CpuThere};
ghost use Rattle.o2_regions.specs.declared.answer.Answer.{Answer as AnswerThere};
ghost use Rattle.o2_regions.specs.declared.answer.Roomed.TheVariants.{Done};
ghost use Rattle.o2_regions.specs.Maps.{Maps, IsProcess};
ghost use Rattle.o2_segbus.specs.Bus.{AreInside};
ghost use Rattle.o2_segbus.specs.Frames.{KeepsMaps, KeepsStore};
ghost use Rattle.o2_stands.specs.Moves.{stepped_to, with_running};
ghost use Rattle.o2_stands.specs.Parts.{Parts};
ghost use Rattle.o2_stands.specs.Stands.{AreLawful, IsReady, IsSetTo, Matches, Stands};
ghost use Rattle.o2_store.specs.Shelf.{Shelf};
ghost use Rattle.o2_world.specs.Calls.{Before};
ghost use Rattle.o2_world.specs.Changes.{Change, Finishes, with_all};
ghost use Rattle.o2_world.specs.Holders.{process_at};
ghost use Rattle.o2_world.specs.Run.{before, changed};
ghost use Rattle.o2_world.specs.World.{Process, Setting, World};
ghost use Rattle.o2_world.specs.declared.types.State.{State as StateThere};
ghost use Rattle.o2_world.specs.declared.types.State.TheVariants as State;
ghost use Rattle.o2_world.specs.Known.{known_of};
ghost use Rattle.o2_segs.specs.Answers.{Answers};
ghost use Rattle.o2_calls.specs.Noted.{AreTold, counted_by, noted};
ghost use Rattle.o2_calls.specs.Seen.{Gives};
ghost use Rattle.o2_calls.specs.Acts.{ruling_of};
ghost use Rattle.o2_calls.specs.Tellings.{replied_by};

/// A call on segments whose pointers are good comes back with the error number of its ruling: the value behind its pointer, its
/// registers and its line are those of `give_value`, `come_back` and `put_reply` of `o2_gate`, its changes are the ruling's, and the
/// lines behind its own are those of its changes.
pub fn calls_come_back_by_their_rulings()
    ensures { (a : AllArguments) (b : Before) (next : ℕ) → asked a b next ≡ replied_by a b next }
{}

/// A call whose changes are made, and whose value is then written behind its pointer, is seen: a machine that matches the world with
/// the changes matches the world behind the call, once the bytes and the registers of its process are those of the call.
pub fn what_a_call_gives_is_seen()
    ensures { (s : Setting) (w : World) (d : Dispatch) (x : Process) (a : AllArguments) (next : ℕ)
        (q : Parts) (t : Shelf) (m : Maps) → process_at w.processes d.current ≡ Some x
        → let b = before s w d.current x in let r = ruling_of a.request b.known d.current x.cpu in
        Matches q (with_all w r.changes)
        → Gives w (with_all w r.changes) d.current x a r q t → KeepsStore q.shelf t → KeepsMaps q.maps m → AreInside t
        → IsReady (stepped_to q t m)
        → Matches (with_running (stepped_to q t m) d.current
        (record { cpu = (replied_by a b next).cpu; state = State.Live }))
        (changed w d x (replied_by a b next)) }
{}

/// What is noted of a call, by what was counted before it and what is held behind it, has the lines of what the call changes, at
/// indexes of a table.
pub fn what_is_noted_is_told()
    ensures { (p q : Parts) (s : Setting) (w : World) (x : Process) (cause : List ℕ) (a : ArgumentsThere) (number : ℕ) (c : CpuThere) (answer : AnswerThere)
        → AreLawful p.shelf p.maps → IsSetTo p s → Stands p w → IsProcess p.maps number
        → length w.processes ≡ p.maps.processes → q.maps.processes ≡ p.maps.processes
        → process_at w.processes number ≡ Some x → let r = ruling_of a (known_of s w) number c in
        Matches q (with_all w r.changes) → Answers r answer
        → AreTold cause (noted a number (counted_by a p.maps number) q.maps (Done answer)) r.changes }
{}

/// Where a process ends in the step of a call, as by exception 1 behind it, the world is that behind the call and then its end: what
/// nobody holds goes once.
pub fn an_end_sweeps_once()
    ensures { (w : World) (cs : List Change) (p : ℕ) (state : StateThere)
        → with_all w (cs ++ Finishes p state ∷ []) ≡ with_all (with_all w cs) (Finishes p state ∷ []) }
{}
