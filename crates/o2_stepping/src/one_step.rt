// One step of a process, all but what an end takes from it.
ghost use Rattle.std.specs.Prelude.{◌≡◌, ◌<◌, ◌≤◌, ◌+◌, ◌^◌, ◌⊎◌, ◌∷◌, [], ℕ, List, Option, Some, Err, true, false};
ghost use Rattle.o2_outer.specs.Texts.{Rose};
ghost use Rattle.o2_outer.specs.Answers.{Takes, OnFailed};
ghost use Rattle.o2_outer.specs.Inputs.{GoesOn, IsSeenAs, left_as};
ghost use Rattle.o2_isa.specs.View.{View, Filling, IsBound, KeepsFrame, Agrees, whole};
ghost use Rattle.o2_isa.specs.Presence.{IsMissed};
ghost use Rattle.o2_isa.specs.Step.{stepped};
ghost use Rattle.o2_isa.specs.Steps.{state};
ghost use Rattle.o2_isa.specs.declared.cpu.Stop.TheVariants.{Gate};
ghost use Rattle.o2_world.specs.Known.{Known};
ghost use Rattle.o2_world.specs.World.{Traps};
ghost use Rattle.o2_world.specs.Text.{lines_text};
ghost use Rattle.o2_world.specs.Effect.{effect, single_stepped, has_trap_flag as trap_flag_of};
ghost use Rattle.o2_world.specs.Calls.{Before, Effect, trapped};
ghost use Rattle.o2_gate.specs.Befores.{boundless, before_call, IsKnown};
ghost use Rattle.o2_gate.specs.Pointed.{IsAway, ArePresent, are_ready};
ghost use Rattle.o2_gate.specs.Targets.{targets};
ghost use Rattle.o2_run.specs.Room.{call_names, touched};
ghost use Rattle.o2_gate.specs.Called.{IsMade};
ghost use Rattle.o2_bus.specs.Writes.{WritesHeld};
ghost use Rattle.o2_stepping.specs.Ran.{Leaves, AttemptFor, RanFor, OnAsked, OnMissed, OnUndone, TellsTried, is_missed};
ghost use Rattle.o2_run.specs.Pieces.{counts, told_counts, Hands, puts_of};
ghost use Rattle.o2_stepping.specs.Pieces.{AttemptHands, AttemptPart, RanHands};

use crate::tally::Tally;
use o2_alu::is_set;
use o2_base::Selector;
use o2_bus::Ranges;
use o2_cache::{DecodeCache, step_cached};
use o2_gate::{Arguments, Called, State as Services, call};
use o2_isa::{Cpu, Flag, Outcome};
use o2_outer::{Put, Sink, Source};
use o2_report::{LineBuffer, set_traps};
use o2_run::Fault;
use o2_world::State;

/// A step that is done.
#[derive(Clone, Copy, Debug, PartialEq, Eq)]
pub struct Ran {
    /// The state of its process behind it.
    pub state: State,
    /// How much it puts.
    pub tally: Tally,
    /// Whether its lines were put whole. Where a sink failed in the line of exception 1, or in one of a call on segments, the step is done
    /// all the same, and all its lines count as put.
    pub whole: bool,
}

/// What a step came to, once all that it needs is in memory.
#[derive(Clone, Copy, Debug, PartialEq, Eq)]
pub enum Stepped {
    /// It is done.
    Ran(Ran),
    /// A call on segments that comes back to `next`: its arguments lie in SS, and its pointer is good. Nothing is changed, taken or
    /// put yet.
    Asked { arguments: Arguments, next: u16 },
}

/// What an attempt at a step came to.
#[derive(Clone, Copy, Debug, PartialEq, Eq)]
pub enum Attempt {
    /// It misses nothing.
    Stepped(Stepped),
    /// The segment behind this selector isn't present; nothing is changed, taken or put.
    Missed(Selector),
}

/// Whether the trap flag is set.
#[inline(always)]
pub fn has_trap_flag(flags: u16) -> bool
    ensures { result ≡ trap_flag_of flags }
{
    is_set(flags, Flag::Trap)
}

/// Puts the line of an exception at the instruction of these registers, by one put.
pub(crate) fn put_trap<R: Sink>(
    line: &mut LineBuffer,
    pid: u16,
    vector: u8,
    cpu: &Cpu,
    report: &mut R,
) -> Put
    ensures report { Takes (R.taken report.old) (R.taken report.new) (lines_text (Traps pid vector cpu.now.cs cpu.now.ip ∷ [])) result }
    ensures puts { R.puts report.new ≡ R.puts report.old + 1 }
    ensures count { R.faults report.old ≤ R.faults report.new }
    ensures cause { OnFailed result (Rose (R.faults report.old) (R.faults report.new)) }
{
    set_traps(line, pid, vector, cpu.cs, cpu.ip);
    report.put(line.as_slice())
}

/// An exception: nothing changes but that the process ends.
fn trap<R: Sink>(
    pid: u16,
    vector: u8,
    cpu: &Cpu,
    line: &mut LineBuffer,
    report: &mut R,
) -> Result<Attempt, Fault>
    ensures leaves { (b : Before) (registers : Cpu) (old new : ℕ → List ℕ) (i c : Option (List ℕ)) → b.number ≡ pid → b.cpu ≡ cpu.now → registers ≡ b.cpu → i ≡ Some b.input
        → ((n : ℕ) → new n ≡ b.view.bytes n) → ((n : ℕ) → new n ≡ old n)
        → Leaves b (single_stepped b (trapped b vector)) registers old new i i c c (R.taken report.old) (R.taken report.new) result }
    ensures done { OnUndone result ⊥ }
    ensures count { R.faults report.old ≤ R.faults report.new }
    ensures cause { AttemptFor (Rose (R.faults report.old) (R.faults report.new)) ⊥ result }
    ensures puts { (c : ℕ) → AttemptHands (counts c c (R.puts report.old) (R.puts report.new) 0) result }
    ensures part { (e : Effect) (c : ℕ) → e.piece ≡ [] → e.lines ≡ Traps pid vector cpu.now.cs cpu.now.ip ∷ []
        → AttemptPart e (told_counts c c (R.puts report.old) (R.puts report.new) 0 (R.taken report.old) (R.taken report.new)) result }
{
    match put_trap(line, pid, vector, cpu, report) {
        Put::Failed => Err(Fault::Sink),
        Put::Done => Ok(Attempt::Stepped(Stepped::Ran(Ran {
            state: State::Trapped(vector),
            tally: Tally { bytes: 0, lines: 1 },
            whole: true,
        }))),
    }
}

/// A step that the process outlives, and that has put so much. Where the trap flag was set before it, exception 1 follows.
fn outlived<R: Sink>(
    pid: u16,
    before: &Cpu,
    tally: Tally,
    line: &mut LineBuffer,
    report: &mut R,
) -> Result<Attempt, Fault>
    requires few { tally.lines < 2 ^ 63 }
    ensures leaves { (f : Filling) (b : Before) (e : Effect) (cpu : Cpu) (old : ℕ → List ℕ) (new : View) (i j c d r : Option (List ℕ)) → b.number ≡ pid → b.cpu ≡ before.now
        → IsMade f e State.Live tally.bytes tally.lines cpu new j c d r (R.taken report.old)
        → Leaves b (single_stepped b e) cpu old (whole f new).bytes i j c d r (R.taken report.new) result }
    ensures done { OnUndone result ⊥ }
    ensures count { R.faults report.old ≤ R.faults report.new }
    ensures cause { AttemptFor (Rose (R.faults report.old) (R.faults report.new)) ⊥ result }
    ensures puts { (c d r : ℕ) → Hands (counts c d r (R.puts report.old) 0) (puts_of tally.bytes) tally.lines
        → AttemptHands (counts c d r (R.puts report.new) 0) result }
    ensures part { (f : Filling) (b : Before) (e : Effect) (cpu : Cpu) (new : View) (j c d r : Option (List ℕ)) (k l m : ℕ) → b.number ≡ pid → b.cpu ≡ before.now
        → IsMade f e State.Live tally.bytes tally.lines cpu new j c d r (R.taken report.old)
        → Hands (counts k l m (R.puts report.old) 0) (puts_of tally.bytes) tally.lines
        → AttemptPart (single_stepped b e) (told_counts k l m (R.puts report.new) 0 r (R.taken report.new)) result }
{
    if !has_trap_flag(before.flags) {
        return Ok(Attempt::Stepped(Stepped::Ran(Ran {
            state: State::Live,
            tally,
            whole: true,
        })));
    }
    let both = Tally {
        bytes: tally.bytes,
        lines: tally.lines + 1,
    };
    match put_trap(line, pid, 1, before, report) {
        Put::Failed => Ok(Attempt::Stepped(Stepped::Ran(Ran {
            state: State::Trapped(1),
            tally: both,
            whole: false,
        }))),
        Put::Done => Ok(Attempt::Stepped(Stepped::Ran(Ran {
            state: State::Trapped(1),
            tally: both,
            whole: true,
        }))),
    }
}

/// A miss in a machine that brings no segment into memory: exception 11.
pub fn absent<R: Sink>(
    pid: u16,
    cpu: &Cpu,
    services: &mut Services,
    report: &mut R,
) -> Result<Ran, Fault>
    ensures avail { services.new.avail ≡ services.old.avail }
    ensures count { R.faults report.old ≤ R.faults report.new }
    ensures cause { RanFor (Rose (R.faults report.old) (R.faults report.new)) ⊥ result }
    ensures puts { (c : ℕ) → RanHands (counts c c (R.puts report.old) (R.puts report.new) 0) result }
{
    match put_trap(&mut services.line, pid, 11, cpu, report) {
        Put::Failed => Err(Fault::Sink),
        Put::Done => Ok(Ran {
            state: State::Trapped(11),
            tally: Tally { bytes: 0, lines: 1 },
            whole: true,
        }),
    }
}

/// One step of process `pid`, all but what an end takes from it, over a bus whose registers are those of `cpu`. Where a segment
/// is missed, nothing is changed, and the step may be tried again. A call on segments is asked for, and isn't made yet. One that waits is a
/// step that puts nothing, behind which no exception 1 follows.
#[tactic(auto, using(o2_outer::proofs::Inputs::goes_same))]
pub fn run_one<B: Ranges, I: Source, C: Sink, R: Sink>(
    pid: u16,
    cpu: &mut Cpu,
    bus: &mut B,
    cache: &mut DecodeCache,
    services: &mut Services,
    input: &mut I,
    console: &mut C,
    report: &mut R,
) -> Result<Attempt, Fault>
    // The step of the boundless machine, whatever is absent.
    ensures leaves { (f : Filling) (bytes : List ℕ) (known : Known) → IsBound (B.view bus.old) → I.left input.old ≡ Some bytes → IsKnown known services.old
        → let b = before_call (boundless f (B.view bus.old)) pid cpu.old bytes known in
        Leaves b (effect b) cpu.new (whole f (B.view bus.old)).bytes (whole f (B.view bus.new)).bytes
        (I.left input.old) (I.left input.new) (C.taken console.old) (C.taken console.new) (R.taken report.old) (R.taken report.new) result }
    // The same, however the input is seen: by what it tells, or as a text that the whole of it may be.
    ensures leaves_as { (text : Option (List ℕ)) → IsSeenAs text (I.past input.new)
        → (f : Filling) (bytes : List ℕ) (known : Known) → IsBound (B.view bus.old)
        → left_as text (I.left input.old) (I.past input.old) ≡ Some bytes → IsKnown known services.old
        → let b = before_call (boundless f (B.view bus.old)) pid cpu.old bytes known in
        Leaves b (effect b) cpu.new (whole f (B.view bus.old)).bytes (whole f (B.view bus.new)).bytes
        (left_as text (I.left input.old) (I.past input.old)) (left_as text (I.left input.new) (I.past input.new))
        (C.taken console.old) (C.taken console.new) (R.taken report.old) (R.taken report.new) result }
    ensures goes_on { GoesOn (I.past input.old) (I.past input.new) }
    ensures away { IsBound (B.view bus.old) → OnMissed result (λ s. IsAway (B.view bus.old) s) }
    // What is missed is one of the names that the step touches in the boundless machine; at every other answer all of them are
    // present.
    ensures missed { (f : Filling) (bytes : List ℕ) (known : Known) → IsBound (B.view bus.old)
        → let b = before_call (boundless f (B.view bus.old)) pid cpu.old bytes known in
        OnMissed result (λ s. IsMissed (B.view bus.old) s (touched b)) }
    ensures present { (f : Filling) (bytes : List ℕ) (known : Known) → IsBound (B.view bus.old) → is_missed result ≡ false
        → let b = before_call (boundless f (B.view bus.old)) pid cpu.old bytes known in
        ArePresent (B.view bus.old) (touched b) }
    // Where one is missed, or a call on segments is asked for, nothing is changed, taken or put.
    ensures still { OnUndone result ((cpu.new ≡ cpu.old) × (B.view bus.new ≡ B.view bus.old)
        × (input.new ≡ input.old) × (console.new ≡ console.old) × (report.new ≡ report.old)) }
    // The pointer of the call that is asked for is ready for a write.
    ensures ready { OnAsked result (λ a. are_ready (B.view bus.old) (targets a) ≡ true) }
    ensures frame { KeepsFrame (B.view bus.old) (B.view bus.new) }
    ensures writes { Agrees cpu.old (B.view bus.old) → WritesHeld (B.view bus.old) (B.view bus.new) }
    ensures agrees { Agrees cpu.old (B.view bus.old) → Agrees cpu.new (B.view bus.new) }
    ensures avail { services.new.avail ≡ services.old.avail }
    ensures input_count { I.faults input.old ≤ I.faults input.new }
    ensures console_count { C.faults console.old ≤ C.faults console.new }
    ensures report_count { R.faults report.old ≤ R.faults report.new }
    ensures cause { AttemptFor (Rose (C.faults console.old) (C.faults console.new) ⊎ Rose (R.faults report.old) (R.faults report.new))
        (Rose (I.faults input.old) (I.faults input.new)) result }
    // Each line is one put, and so is the piece where it has bytes. Where a line failed, those in front of it were put whole.
    ensures puts { AttemptHands (counts (C.puts console.old) (C.puts console.new) (R.puts report.old) (R.puts report.new) 0) result }
    ensures part { (f : Filling) (bytes : List ℕ) (known : Known) → IsBound (B.view bus.old) → I.left input.old ≡ Some bytes → IsKnown known services.old
        → AttemptPart (effect (before_call (boundless f (B.view bus.old)) pid cpu.old bytes known))
        (told_counts (C.puts console.old) (C.puts console.new) (R.puts report.old) (R.puts report.new) 0
        (R.taken report.old) (R.taken report.new)) result }
    ensures part_as { (text : Option (List ℕ)) → IsSeenAs text (I.past input.new)
        → (f : Filling) (bytes : List ℕ) (known : Known) → IsBound (B.view bus.old)
        → left_as text (I.left input.old) (I.past input.old) ≡ Some bytes → IsKnown known services.old
        → AttemptPart (effect (before_call (boundless f (B.view bus.old)) pid cpu.old bytes known))
        (told_counts (C.puts console.old) (C.puts console.new) (R.puts report.old) (R.puts report.new) 0
        (R.taken report.old) (R.taken report.new)) result }
{
    let before = *cpu;
    match step_cached(cpu, bus, cache) {
        Outcome::Done => {
            let tally = Tally { bytes: 0, lines: 0 };
            outlived(pid, &before, tally, &mut services.line, report)
        }
        Outcome::Trap(vector, _) => trap(pid, vector, cpu, &mut services.line, report),
        Outcome::Miss(sel) => Ok(Attempt::Missed(sel)),
        Outcome::Gate { service, next } => match call(
            service, next, pid, cpu, bus, services, input, console, report,
        ) {
            Err(fault) => Err(fault),
            Ok(Called::Back(bytes)) => {
                let tally = Tally { bytes, lines: 1 };
                outlived(pid, &before, tally, &mut services.line, report)
            }
            Ok(Called::Exited(code)) => Ok(Attempt::Stepped(Stepped::Ran(Ran {
                state: State::Exited(code),
                tally: Tally { bytes: 0, lines: 2 },
                whole: true,
            }))),
            Ok(Called::Trap(vector, _)) => trap(pid, vector, cpu, &mut services.line, report),
            Ok(Called::Missed(sel)) => Ok(Attempt::Missed(sel)),
            Ok(Called::Waits) => Ok(Attempt::Stepped(Stepped::Ran(Ran {
                state: State::Live,
                tally: Tally { bytes: 0, lines: 0 },
                whole: true,
            }))),
            Ok(Called::Asked { arguments, next }) => {
                Ok(Attempt::Stepped(Stepped::Asked { arguments, next }))
            }
        },
    }
}
