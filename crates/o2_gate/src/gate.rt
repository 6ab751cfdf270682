// The call of a service.
ghost use Rattle.std.specs.Prelude.{◌≡◌, ◌≢◌, ◌≤◌, ◌⊎◌, ℕ, List, Option, Some, false, true};
ghost use Rattle.o2_outer.specs.Texts.{Rose};
ghost use Rattle.o2_outer.specs.Inputs.{GoesOn, IsSeenAs, left_as};
ghost use Rattle.o2_isa.specs.View.{Filling, IsBound};
ghost use Rattle.o2_isa.specs.Pointers.{KeepsAllButBytes};
ghost use Rattle.o2_isa.specs.Presence.{SameSelectors};
ghost use Rattle.o2_bus.specs.Writes.{WritesHeld};
ghost use Rattle.o2_world.specs.Known.{Known};
ghost use Rattle.o2_world.specs.Calls.{argument, serviced, row_of as row_there};
ghost use Rattle.o2_world.specs.Outcomes.{CallRow, come_out};
ghost use Rattle.o2_world.specs.Slots.{pointers_in};
ghost use Rattle.o2_gate.specs.Befores.{boundless, before_call, IsKnown};
ghost use Rattle.o2_gate.specs.Called.{Does, OnAsked, OnMissed, OnUndone};
ghost use Rattle.o2_gate.specs.Given.{IsTextIn, pointers_by, word_in};
ghost use Rattle.o2_gate.specs.Heaps.{is_heap_call};
ghost use Rattle.o2_gate.specs.Pointed.{IsAway, IsGoodTest, are_ready};
ghost use Rattle.o2_gate.specs.Names.{TellsNames};
ghost use Rattle.o2_gate.specs.Rows.{IsRowOf};
ghost use Rattle.o2_gate.specs.Targets.{targets};
ghost use Rattle.o2_run.specs.Room.{call_names, pointed};
ghost use Rattle.o2_run.specs.Faults.{Caused};
ghost use Rattle.o2_gate.specs.Pieces.{CallHands};
ghost use Rattle.o2_run.specs.Pieces.{counts, told_counts, PartHands};

use crate::ask::ask;
use crate::exit::exit;
use crate::given::{Gathered, Given, gather};
use crate::heap::serve_heap;
use crate::read::read;
use crate::row::Row;
use crate::semaphore::serve_semaphore;
use crate::table::row_of;
use crate::told::{tell_avail, tell_pid};
use crate::write::write;
use crate::{Called, State};
use o2_bus::Ranges;
use o2_isa::Cpu;
use o2_outer::{Sink, Source};
use o2_report::LineBuffer;
use o2_run::Fault;

/// Whether a call is one on a heap inside a segment.
fn is_on_heap(service: u16) -> bool
    ensures { result ≡ is_heap_call service }
{
    20 <= service && service <= 22
}

/// A call that goes neither to the input, to a heap nor to a semaphore, with its arguments, whose pointers are good.
fn serve_early<B: Ranges, C: Sink, R: Sink>(
    service: u16,
    next: u16,
    pid: u16,
    avail: u32,
    row: &Row,
    given: &Given,
    cpu: &mut Cpu,
    bus: &mut B,
    line: &mut LineBuffer,
    console: &mut C,
    report: &mut R,
) -> Result<Called, Fault>
    requires first { 1 ≤ service }
    requires last { service ≤ 19 }
    requires other { service ≢ 3 }
    requires row { IsRowOf (row_there service) (Some row.now) }
    requires test { IsGoodTest (B.view bus.old) (pointers_by row.now.slots.now (word_in given.now.words)) }
    requires text { IsTextIn (B.view bus.old) (word_in given.now.words) given.now.text row.now.slots.now }
    ensures does { (f : Filling) (bytes : List ℕ) (known : Known) (i : Option (List ℕ)) (r : CallRow)
        → i ≡ Some bytes → known.avail ≡ avail → row_there service ≡ Some r
        → let b = before_call (boundless f (B.view bus.old)) pid cpu.old bytes known in let a = word_in given.now.words in
        Does f b (come_out r b next a (r.outcome b a)) cpu.new (B.view bus.old) (B.view bus.new)
        i i (C.taken console.old) (C.taken console.new) (R.taken report.old) (R.taken report.new) result }
    ensures frame { KeepsAllButBytes (B.view bus.old) (B.view bus.new) }
    ensures writes { WritesHeld (B.view bus.old) (B.view bus.new) }
    ensures selectors { SameSelectors cpu.old cpu.new }
    ensures never { OnMissed result (λ s. ⊥) }
    ensures still { OnUndone result ((cpu.new ≡ cpu.old) × (B.view bus.new ≡ B.view bus.old) × (console.new ≡ console.old) × (report.new ≡ report.old)) }
    ensures aims { OnAsked result (λ a. (f : Filling)
        → pointers_in row.now.slots.now (boundless f (B.view bus.old)) (word_in given.now.words) ≡ targets a) }
    ensures no_console { service ≢ 4 → console.new ≡ console.old }
    ensures console_count { C.faults console.old ≤ C.faults console.new }
    ensures report_count { R.faults report.old ≤ R.faults report.new }
    ensures cause { Caused (Rose (C.faults console.old) (C.faults console.new) ⊎ Rose (R.faults report.old) (R.faults report.new)) ⊥ ⊥ ⊥ result }
    ensures puts { CallHands (counts (C.puts console.old) (C.puts console.new) (R.puts report.old) (R.puts report.new) 0) result }
    ensures part { (f : Filling) (bytes : List ℕ) (known : Known) (r : CallRow) → known.avail ≡ avail → row_there service ≡ Some r
        → let b = before_call (boundless f (B.view bus.old)) pid cpu.old bytes known in let a = word_in given.now.words in
        PartHands (come_out r b next a (r.outcome b a))
        (told_counts (C.puts console.old) (C.puts console.new) (R.puts report.old) (R.puts report.new) 0
        (R.taken report.old) (R.taken report.new)) result }
{
    let words = &given.words;
    match service {
        1 => exit(pid, words[1], words[0], line, report),
        2 => tell_pid(pid, next, row, words, cpu, bus, line, report),
        4 => write(pid, next, row, words, cpu, bus, line, console, report),
        19 => tell_avail(pid, next, avail, row, words, cpu, bus, line, report),
        _ => {
            let arguments = ask(service, given);
            Ok(Called::Asked { arguments, next })
        }
    }
}

/// A call that goes neither to the input nor to a heap, with its arguments, whose pointers are good.
fn serve<B: Ranges, C: Sink, R: Sink>(
    service: u16,
    next: u16,
    pid: u16,
    avail: u32,
    row: &Row,
    given: &Given,
    cpu: &mut Cpu,
    bus: &mut B,
    line: &mut LineBuffer,
    console: &mut C,
    report: &mut R,
) -> Result<Called, Fault>
    requires first { 1 ≤ service }
    requires last { service ≤ 28 }
    requires other { service ≢ 3 }
    requires no_heap { is_heap_call service ≡ false }
    requires row { IsRowOf (row_there service) (Some row.now) }
    requires test { IsGoodTest (B.view bus.old) (pointers_by row.now.slots.now (word_in given.now.words)) }
    requires text { IsTextIn (B.view bus.old) (word_in given.now.words) given.now.text row.now.slots.now }
    ensures does { (f : Filling) (bytes : List ℕ) (known : Known) (i : Option (List ℕ)) (r : CallRow)
        → i ≡ Some bytes → known.avail ≡ avail → row_there service ≡ Some r
        → let b = before_call (boundless f (B.view bus.old)) pid cpu.old bytes known in let a = word_in given.now.words in
        Does f b (come_out r b next a (r.outcome b a)) cpu.new (B.view bus.old) (B.view bus.new)
        i i (C.taken console.old) (C.taken console.new) (R.taken report.old) (R.taken report.new) result }
    ensures frame { KeepsAllButBytes (B.view bus.old) (B.view bus.new) }
    ensures writes { WritesHeld (B.view bus.old) (B.view bus.new) }
    ensures selectors { SameSelectors cpu.old cpu.new }
    ensures never { OnMissed result (λ s. ⊥) }
    ensures still { OnUndone result ((cpu.new ≡ cpu.old) × (B.view bus.new ≡ B.view bus.old) × (console.new ≡ console.old) × (report.new ≡ report.old)) }
    ensures aims { OnAsked result (λ a. (f : Filling)
        → pointers_in row.now.slots.now (boundless f (B.view bus.old)) (word_in given.now.words) ≡ targets a) }
    ensures no_console { service ≢ 4 → console.new ≡ console.old }
    ensures console_count { C.faults console.old ≤ C.faults console.new }
    ensures report_count { R.faults report.old ≤ R.faults report.new }
    ensures cause { Caused (Rose (C.faults console.old) (C.faults console.new) ⊎ Rose (R.faults report.old) (R.faults report.new)) ⊥ ⊥ ⊥ result }
    ensures puts { CallHands (counts (C.puts console.old) (C.puts console.new) (R.puts report.old) (R.puts report.new) 0) result }
    ensures part { (f : Filling) (bytes : List ℕ) (known : Known) (r : CallRow) → known.avail ≡ avail → row_there service ≡ Some r
        → let b = before_call (boundless f (B.view bus.old)) pid cpu.old bytes known in let a = word_in given.now.words in
        PartHands (come_out r b next a (r.outcome b a))
        (told_counts (C.puts console.old) (C.puts console.new) (R.puts report.old) (R.puts report.new) 0
        (R.taken report.old) (R.taken report.new)) result }
{
    if service >= 25 {
        return serve_semaphore(
            service,
            next,
            pid,
            row,
            &given.words,
            cpu,
            bus,
            line,
            report,
        );
    }
    serve_early(
        service, next, pid, avail, row, given, cpu, bus, line, console, report,
    )
}

/// The call by process `pid` of a service, which comes back to `next`. It sees the segments of its process by the bus alone, whose four
/// registers are those of `cpu`. A call on segments is asked for, and isn't made yet. No call takes memory.
#[tactic(auto, using(o2_outer::proofs::Inputs::goes_same))]
pub fn call<B: Ranges, I: Source, C: Sink, R: Sink>(
    service: u16,
    next: u16,
    pid: u16,
    cpu: &mut Cpu,
    bus: &mut B,
    state: &mut State,
    input: &mut I,
    console: &mut C,
    report: &mut R,
) -> Result<Called, Fault>
    // What the row of the service does in the boundless machine, whatever is absent; nothing where a segment is missed.
    // However the input is seen: by what it tells, or as a text that the whole of it may be.
    ensures does { (text : Option (List ℕ)) → IsSeenAs text (I.past input.new)
        → (f : Filling) (bytes : List ℕ) (known : Known) → IsBound (B.view bus.old)
        → left_as text (I.left input.old) (I.past input.old) ≡ Some bytes → IsKnown known state.old
        → let b = before_call (boundless f (B.view bus.old)) pid cpu.old bytes known in
        Does f b (serviced b service next) cpu.new (B.view bus.old) (B.view bus.new)
        (left_as text (I.left input.old) (I.past input.old)) (left_as text (I.left input.new) (I.past input.new))
        (C.taken console.old) (C.taken console.new) (R.taken report.old) (R.taken report.new) result }
    ensures goes_on { GoesOn (I.past input.old) (I.past input.new) }
    // Any service but DosRead does this for every input.
    ensures every { service ≢ 3 → (f : Filling) (bytes : List ℕ) (known : Known) → IsBound (B.view bus.old) → IsKnown known state.old
        → let b = before_call (boundless f (B.view bus.old)) pid cpu.old bytes known in
        Does f b (serviced b service next) cpu.new (B.view bus.old) (B.view bus.new)
        (Some bytes) (Some bytes) (C.taken console.old) (C.taken console.new) (R.taken report.old) (R.taken report.new) result }
    ensures frame { KeepsAllButBytes (B.view bus.old) (B.view bus.new) }
    ensures writes { WritesHeld (B.view bus.old) (B.view bus.new) }
    ensures selectors { SameSelectors cpu.old cpu.new }
    // A segment that is missed is one that isn't present.
    ensures away { OnMissed result (λ s. IsAway (B.view bus.old) s) }
    // It is behind one of the service's pointers that pass; at every other answer what these name is present.
    ensures names { (input : List ℕ) (known : Known) → IsBound (B.view bus.old)
        → TellsNames (B.view bus.old)
        (λ f. call_names (before_call (boundless f (B.view bus.old)) pid cpu.old input known) (row_there service)) result }
    // Where one is missed, a call on segments is asked for, or the call waits, nothing is changed, taken or put.
    ensures still { OnUndone result ((cpu.new ≡ cpu.old) × (B.view bus.new ≡ B.view bus.old) × (input.new ≡ input.old) × (console.new ≡ console.old) × (report.new ≡ report.old)) }
    // The pointers of the call that is asked for are ready, and the names that it passes are behind them.
    ensures ready { OnAsked result (λ a. are_ready (B.view bus.old) (targets a) ≡ true) }
    ensures points { OnAsked result (λ a. (f : Filling) (bytes : List ℕ) (known : Known) → IsBound (B.view bus.old)
        → call_names (before_call (boundless f (B.view bus.old)) pid cpu.old bytes known) (row_there service)
        ≡ pointed (boundless f (B.view bus.old)) (targets a)) }
    ensures avail { state.new.avail ≡ state.old.avail }
    // The input is touched in a DosRead alone, and the console in a DosWrite alone.
    ensures no_input { service ≢ 3 → input.new ≡ input.old }
    // A DosRead of no bytes, or from a handle that isn't the input's, asks it for nothing.
    ensures nothing { service ≡ 3 → (f : Filling) → IsBound (B.view bus.old) → argument (boundless f (B.view bus.old)) cpu.old 2 ≡ 0 → input.new ≡ input.old }
    ensures refused { service ≡ 3 → (f : Filling) → IsBound (B.view bus.old) → argument (boundless f (B.view bus.old)) cpu.old 5 ≢ 0 → input.new ≡ input.old }
    ensures no_console { service ≢ 4 → console.new ≡ console.old }
    ensures input_count { I.faults input.old ≤ I.faults input.new }
    ensures console_count { C.faults console.old ≤ C.faults console.new }
    ensures report_count { R.faults report.old ≤ R.faults report.new }
    ensures cause { Caused (Rose (C.faults console.old) (C.faults console.new) ⊎ Rose (R.faults report.old) (R.faults report.new)) (Rose (I.faults input.old) (I.faults input.new)) ⊥ ⊥ result }
    // The input fails in a DosRead alone.
    ensures input_service { Caused (Unit {0}) (service ≡ 3) ⊥ ⊥ result }
    // Each line is one put, and so is the piece where it has bytes; none is put for an exception or a miss. Where a line failed, those in
    // front of it were put whole.
    ensures puts { CallHands (counts (C.puts console.old) (C.puts console.new) (R.puts report.old) (R.puts report.new) 0) result }
    ensures part { (text : Option (List ℕ)) → IsSeenAs text (I.past input.new)
        → (f : Filling) (bytes : List ℕ) (known : Known) → IsBound (B.view bus.old)
        → left_as text (I.left input.old) (I.past input.old) ≡ Some bytes → IsKnown known state.old
        → PartHands (serviced (before_call (boundless f (B.view bus.old)) pid cpu.old bytes known) service next)
        (told_counts (C.puts console.old) (C.puts console.new) (R.puts report.old) (R.puts report.new) 0
        (R.taken report.old) (R.taken report.new)) result }
{
    let Some(row) = row_of(service) else {
        return Ok(Called::Trap(13, 0));
    };
    match gather(row.slots, cpu, bus) {
        Gathered::Trap(vector) => Ok(Called::Trap(vector, 0)),
        Gathered::Missed(sel) => Ok(Called::Missed(sel)),
        Gathered::Good(given) => {
            let line = &mut state.line;
            if service == 3 {
                let buffer = &mut state.buffer;
                let words = &given.words;
                return read(
                    pid, next, &row, words, cpu, bus, line, buffer, input, report,
                );
            }
            if is_on_heap(service) {
                return serve_heap(
                    service,
                    next,
                    pid,
                    &row,
                    &given.words,
                    cpu,
                    bus,
                    line,
                    report,
                );
            }
            serve(
                service,
                next,
                pid,
                state.avail,
                &row,
                &given,
                cpu,
                bus,
                line,
                console,
                report,
            )
        }
    }
}
