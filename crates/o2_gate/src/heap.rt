// The calls on a heap inside a segment.
ghost use Rattle.std.specs.Prelude.{◌≡◌, ◌≤◌, ◌∷◌, [], ◌++◌, ℕ, Bool, List, Option, Some, true, drop, length};
ghost use Rattle.o2_outer.specs.Texts.{Rose};
ghost use Rattle.o2_isa.specs.View.{View, Filling, is_writable, size_at, whole};
ghost use Rattle.o2_isa.specs.Pointers.{is_ready, put_at_pointer, KeepsAllButBytes};
ghost use Rattle.o2_isa.specs.Presence.{SameSelectors};
ghost use Rattle.o2_bus.specs.Writes.{WritesHeld};
ghost use Rattle.o2_world.specs.Known.{Known};
ghost use Rattle.o2_world.specs.Calls.{Before, by_heap, row_of as row_there, word_bytes};
ghost use Rattle.o2_world.specs.Heaps.{put_words};
ghost use Rattle.o2_world.specs.Outcomes.{CallRow, Fails, Outcome, come_out, row as call_row};
ghost use Rattle.o2_world.specs.Slots.{parts_in, pointers_in, put_all, targets_in, words_in};
ghost use Rattle.o2_world.specs.declared.types.Slot.TheVariants.{Heap};
ghost use Rattle.o2_subseg.specs.Plans.{AreInside, Plans, words_of};
ghost use Rattle.o2_gate.specs.Befores.{boundless, before_call};
ghost use Rattle.o2_gate.specs.Called.{Does, OnAsked, OnMissed, OnUndone};
ghost use Rattle.o2_gate.specs.Given.{pointers_by, word_in};
ghost use Rattle.o2_gate.specs.Heaps.{TellsHeap, done_by, front_of, heap_by, heap_names, planned, reach_of, ruling_by, selector_of};
ghost use Rattle.o2_gate.specs.Names.{TellsNames};
ghost use Rattle.o2_gate.specs.Pointed.{IsAway, IsGoodTest, are_ready};
ghost use Rattle.o2_gate.specs.Replies.{FitsIn};
ghost use Rattle.o2_gate.specs.Rows.{IsRowOf};
ghost use Rattle.o2_run.specs.Faults.{Caused};
ghost use Rattle.o2_gate.specs.Pieces.{CallHands};
ghost use Rattle.o2_run.specs.Pieces.{counts, told_counts, LineHands, PartHands};

use crate::Called;
use crate::line::{put_call, values_in};
use crate::pointer::{Pointed, names_writable, range, store};
use crate::row::Row;
use crate::table::word_count;
use crate::value::{return_from, store_value};
use o2_base::Selector;
use o2_bus::{Bus, Ranges};
use o2_isa::{Cpu, Loaded, Purpose};
use o2_outer::{Put, Sink};
use o2_report::LineBuffer;
use o2_run::Fault;
use o2_subseg::{Plan, plan_alloc, plan_free, plan_set};
use o2_world::Slot;

/// The most bytes that a heap has: its size is a word that is a multiple of 4.
const MOST: u32 = 65_532;

/// The selector isn't that of data that can be written.
const NO_SEGMENT: u16 = 315;

/// Tests the selector of a heap: that it isn't null and names data that can be written, then the rules for loading ES, and then that the
/// segment is present.
fn test_heap<B: Bus>(bus: &mut B, selector: u16) -> Pointed
    ensures tells { TellsHeap (B.view bus.old) selector result }
    ensures same { B.view bus.new ≡ B.view bus.old }
{
    let sel = Selector(selector);
    if selector < 4 {
        return Pointed::Bad;
    }
    if !names_writable(bus, sel) {
        return Pointed::Bad;
    }
    match bus.probe(Purpose::DataReg, sel) {
        Loaded::Done => Pointed::Good,
        Loaded::Miss(sel) => Pointed::Missed(sel),
        Loaded::Trap(_, _) => Pointed::Bad,
        Loaded::Gate(_) => Pointed::Bad,
    }
}

/// How many bytes of a segment a heap may have.
#[tactic(auto, unfolding(o2_isa::specs::View::size_at))]
fn reach<B: Bus>(bus: &B, sel: Selector) -> u16
    ensures value { result ≡ reach_of (size_at (B.view bus.now) sel.0) }
    ensures most { result ≤ 65532 }
{
    match bus.size_of(sel) {
        Some(size) => size.min(MOST) as u16,
        None => 1,
    }
}

/// The bytes of a segment that was found good, as far as a heap may reach.
fn front<B: Ranges>(bus: &B, selector: u16) -> &[u8]
    requires { is_ready is_writable (B.view bus.now) selector 0 1 ≡ true }
    ensures value { (f : Filling) → result.now ≡ front_of f (B.view bus.now) selector }
    ensures most { length result.now ≤ 65532 }
{
    range(bus, selector, 0, reach(bus, Selector(selector)))
}

/// The arguments behind the first one.
#[tactic(auto, using(std::proofs::lemmas::Grind::common_steps))]
fn behind_first(slots: &[Slot]) -> &[Slot]
    requires { 1 ≤ length slots.now }
    ensures { result.now ≡ drop 1 slots.now }
{
    &slots[1..]
}

/// What a call answers, and the words that it writes.
fn plan_for(service: u16, words: &[u16; 6], bytes: &[u8]) -> Plan
    requires first { 20 ≤ service }
    requires last { service ≤ 22 }
    ensures { Plans result (ruling_by service (word_in words.now) bytes.now) bytes.now }
{
    match service {
        20 => plan_set(bytes, words[1], words[0]),
        21 => plan_alloc(bytes, words[0]),
        22 => plan_free(bytes, words[1], words[0]),
        _ => unreachable!(),
    }
}

/// A word, low byte first.
fn bytes_of(word: u16) -> [u8; 2]
    ensures { result ≡ word_bytes word }
{
    [(word % 256) as u8, (word / 256) as u8]
}

/// Writes the words of a plan.
fn follow<B: Ranges>(bus: &mut B, selector: u16, plan: &Plan)
    requires few { plan.now.count ≤ 6 }
    requires ready { is_ready is_writable (B.view bus.old) selector 0 1 ≡ true }
    requires inside { (f : Filling) → AreInside (length (front_of f (B.view bus.old) selector)) (words_of plan.now) }
    ensures bytes { (f : Filling) (n : ℕ) → (whole f (B.view bus.new)).bytes n
        ≡ put_at_pointer (B.view bus.old).held (whole f (B.view bus.old)).bytes selector 0
        (put_words (front_of f (B.view bus.old) selector) (words_of plan.now)) n }
    ensures frame { KeepsAllButBytes (B.view bus.old) (B.view bus.new) }
    ensures writes { WritesHeld (B.view bus.old) (B.view bus.new) }
    ensures ready { (ok : ℕ → Bool) (s o n : ℕ) → is_ready ok (B.view bus.new) s o n ≡ is_ready ok (B.view bus.old) s o n }
{
    for at in 0..plan.count {
        let (place, word) = plan.words[at];
        store(bus, selector, place, &bytes_of(word));
    }
}

/// Writes the words of a plan, and then its value where that goes: `slots` are the arguments behind the heap.
fn store_plan<B: Ranges>(bus: &mut B, selector: u16, slots: &[Slot], words: &[u16; 6], plan: &Plan)
    requires words { words_in slots.now ≤ 5 }
    requires few { plan.now.count ≤ 6 }
    requires heap { is_ready is_writable (B.view bus.old) selector 0 1 ≡ true }
    requires ready { are_ready (B.view bus.old) (targets_in slots.now (word_in words.now)) ≡ true }
    requires value { FitsIn slots.now plan.now.answer.value }
    requires inside { (f : Filling) → AreInside (length (front_of f (B.view bus.old) selector)) (words_of plan.now) }
    ensures bytes { (f : Filling) (n : ℕ) → (whole f (B.view bus.new)).bytes n
        ≡ put_all (B.view bus.old).held (heap_by selector ∷ targets_in slots.now (word_in words.now))
        (put_words (front_of f (B.view bus.old) selector) (words_of plan.now) ∷ parts_in slots.now plan.now.answer.value)
        (whole f (B.view bus.old)).bytes n }
    ensures frame { KeepsAllButBytes (B.view bus.old) (B.view bus.new) }
    ensures writes { WritesHeld (B.view bus.old) (B.view bus.new) }
{
    follow(bus, selector, plan);
    store_value(bus, slots, words, plan.answer.value);
}

/// The call with an error, which changes nothing.
#[tactic(auto, using(o2_outer::proofs::TextLemmas::gains_none, o2_outer::proofs::TextLemmas::puts_none))]
pub(crate) fn refuse<R: Sink>(
    pid: u16,
    next: u16,
    row: &Row,
    words: &[u16; 6],
    error: u16,
    cpu: &mut Cpu,
    line: &mut LineBuffer,
    report: &mut R,
) -> Result<Called, Fault>
    ensures does { (f : Filling) (v : View) (input : List ℕ) (known : Known) (i c : Option (List ℕ)) (outcome : Before → (ℕ → ℕ) → Outcome) → i ≡ Some input
        → let b = before_call (boundless f v) pid cpu.old input known in
        Does f b (come_out (call_row row.now.name.now row.now.slots.now outcome) b next (word_in words.now) (Fails error [])) cpu.new v v
        i i c c (R.taken report.old) (R.taken report.new) result }
    ensures selectors { SameSelectors cpu.old cpu.new }
    ensures count { R.faults report.old ≤ R.faults report.new }
    ensures cause { Caused (Rose (R.faults report.old) (R.faults report.new)) ⊥ ⊥ ⊥ result }
    // It is over: nothing is missed or asked for.
    ensures over { OnUndone result ⊥ }
    // The line is one put.
    ensures puts { (c : ℕ) → CallHands (counts c c (R.puts report.old) (R.puts report.new) 0) result }
    ensures part { (c : ℕ) → LineHands (counts c c (R.puts report.old) (R.puts report.new) 0) result }
{
    match put_call(line, pid, row, words, error, &[], report) {
        Put::Failed => Err(Fault::Sink),
        Put::Done => {
            return_from(cpu, row.slots, error, next);
            Ok(Called::Back(0))
        }
    }
}

/// The call that is done: its line, then the heap, and then the value, which goes behind the call's pointer.
#[tactic(auto, unfolding(o2_world::specs::Changes::moved_lines), using(o2_outer::proofs::TextLemmas::gains_none, o2_outer::proofs::TextLemmas::puts_none))]
fn complete<B: Ranges, R: Sink>(
    pid: u16,
    next: u16,
    row: &Row,
    selector: u16,
    slots: &[Slot],
    words: &[u16; 6],
    plan: &Plan,
    cpu: &mut Cpu,
    bus: &mut B,
    line: &mut LineBuffer,
    report: &mut R,
) -> Result<Called, Fault>
    requires slots { row.now.slots.now ≡ Heap ∷ slots.now }
    requires selector { selector ≡ word_in words.now (words_in slots.now) }
    requires few { plan.now.count ≤ 6 }
    requires heap { is_ready is_writable (B.view bus.old) selector 0 1 ≡ true }
    requires ready { are_ready (B.view bus.old) (targets_in slots.now (word_in words.now)) ≡ true }
    requires value { FitsIn slots.now plan.now.answer.value }
    requires inside { (f : Filling) → AreInside (length (front_of f (B.view bus.old) selector)) (words_of plan.now) }
    ensures does { (f : Filling) (input : List ℕ) (known : Known) (i c : Option (List ℕ)) (outcome : Before → (ℕ → ℕ) → Outcome) → i ≡ Some input
        → let b = before_call (boundless f (B.view bus.old)) pid cpu.old input known in
        Does f b (come_out (call_row row.now.name.now (Heap ∷ slots.now) outcome) b next (word_in words.now)
        (done_by (Heap ∷ slots.now) b (planned plan.now (front_of f (B.view bus.old) selector))))
        cpu.new (B.view bus.old) (B.view bus.new) i i c c (R.taken report.old) (R.taken report.new) result }
    ensures frame { KeepsAllButBytes (B.view bus.old) (B.view bus.new) }
    ensures writes { WritesHeld (B.view bus.old) (B.view bus.new) }
    ensures selectors { SameSelectors cpu.old cpu.new }
    ensures count { R.faults report.old ≤ R.faults report.new }
    ensures cause { Caused (Rose (R.faults report.old) (R.faults report.new)) ⊥ ⊥ ⊥ result }
    // It is over: nothing is missed or asked for.
    ensures over { OnUndone result ⊥ }
    // The line is one put.
    ensures puts { (c : ℕ) → CallHands (counts c c (R.puts report.old) (R.puts report.new) 0) result }
    ensures part { (c : ℕ) → LineHands (counts c c (R.puts report.old) (R.puts report.new) 0) result }
{
    let values = values_in(slots, plan.answer.value);
    match put_call(line, pid, row, words, 0, values.as_slice(), report) {
        Put::Failed => Err(Fault::Sink),
        Put::Done => {
            store_plan(bus, selector, slots, words, plan);
            return_from(cpu, row.slots, 0, next);
            Ok(Called::Back(0))
        }
    }
}

/// The call by its plan.
fn finish<B: Ranges, R: Sink>(
    pid: u16,
    next: u16,
    row: &Row,
    selector: u16,
    slots: &[Slot],
    words: &[u16; 6],
    plan: &Plan,
    cpu: &mut Cpu,
    bus: &mut B,
    line: &mut LineBuffer,
    report: &mut R,
) -> Result<Called, Fault>
    requires slots { row.now.slots.now ≡ Heap ∷ slots.now }
    requires selector { selector ≡ word_in words.now (words_in slots.now) }
    requires few { plan.now.count ≤ 6 }
    requires heap { is_ready is_writable (B.view bus.old) selector 0 1 ≡ true }
    requires ready { are_ready (B.view bus.old) (targets_in slots.now (word_in words.now)) ≡ true }
    requires value { FitsIn slots.now plan.now.answer.value }
    requires inside { (f : Filling) → AreInside (length (front_of f (B.view bus.old) selector)) (words_of plan.now) }
    ensures does { (f : Filling) (input : List ℕ) (known : Known) (i c : Option (List ℕ)) (outcome : Before → (ℕ → ℕ) → Outcome) → i ≡ Some input
        → let b = before_call (boundless f (B.view bus.old)) pid cpu.old input known in
        Does f b (come_out (call_row row.now.name.now (Heap ∷ slots.now) outcome) b next (word_in words.now)
        (by_heap (Heap ∷ slots.now) b (planned plan.now (front_of f (B.view bus.old) selector))))
        cpu.new (B.view bus.old) (B.view bus.new) i i c c (R.taken report.old) (R.taken report.new) result }
    ensures frame { KeepsAllButBytes (B.view bus.old) (B.view bus.new) }
    ensures writes { WritesHeld (B.view bus.old) (B.view bus.new) }
    ensures selectors { SameSelectors cpu.old cpu.new }
    ensures count { R.faults report.old ≤ R.faults report.new }
    ensures cause { Caused (Rose (R.faults report.old) (R.faults report.new)) ⊥ ⊥ ⊥ result }
    // It is over: nothing is missed or asked for.
    ensures over { OnUndone result ⊥ }
    // The line is one put.
    ensures puts { (c : ℕ) → CallHands (counts c c (R.puts report.old) (R.puts report.new) 0) result }
    ensures part { (c : ℕ) → LineHands (counts c c (R.puts report.old) (R.puts report.new) 0) result }
{
    let error = plan.answer.error;
    if error != 0 {
        return refuse(pid, next, row, words, error, cpu, line, report);
    }
    complete(
        pid, next, row, selector, slots, words, plan, cpu, bus, line, report,
    )
}

/// A call on a heap with its arguments, whose pointers are good. A selector that isn't that of data that can be written is error 315; the
/// call misses one whose segment isn't present.
pub(crate) fn serve_heap<B: Ranges, R: Sink>(
    service: u16,
    next: u16,
    pid: u16,
    row: &Row,
    words: &[u16; 6],
    cpu: &mut Cpu,
    bus: &mut B,
    line: &mut LineBuffer,
    report: &mut R,
) -> Result<Called, Fault>
    requires first { 20 ≤ service }
    requires last { service ≤ 22 }
    requires row { IsRowOf (row_there service) (Some row.now) }
    requires test { IsGoodTest (B.view bus.old) (pointers_by row.now.slots.now (word_in words.now)) }
    ensures does { (f : Filling) (bytes : List ℕ) (known : Known) (i c : Option (List ℕ)) (r : CallRow)
        → i ≡ Some bytes → row_there service ≡ Some r
        → let b = before_call (boundless f (B.view bus.old)) pid cpu.old bytes known in let a = word_in words.now in
        Does f b (come_out r b next a (r.outcome b a)) cpu.new (B.view bus.old) (B.view bus.new)
        i i c c (R.taken report.old) (R.taken report.new) result }
    ensures frame { KeepsAllButBytes (B.view bus.old) (B.view bus.new) }
    ensures writes { WritesHeld (B.view bus.old) (B.view bus.new) }
    ensures selectors { SameSelectors cpu.old cpu.new }
    ensures away { OnMissed result (λ s. IsAway (B.view bus.old) s) }
    // The heap's name comes behind those of the pointers.
    ensures names { TellsNames (B.view bus.old)
        (λ f. heap_names (boundless f (B.view bus.old)) row.now.slots.now (word_in words.now) (selector_of service row.now.slots.now (word_in words.now))) result }
    ensures never { OnAsked result (λ a. ⊥) }
    ensures still { OnUndone result ((cpu.new ≡ cpu.old) × (B.view bus.new ≡ B.view bus.old) × (report.new ≡ report.old)) }
    ensures count { R.faults report.old ≤ R.faults report.new }
    ensures cause { Caused (Rose (R.faults report.old) (R.faults report.new)) ⊥ ⊥ ⊥ result }
    ensures puts { (c : ℕ) → CallHands (counts c c (R.puts report.old) (R.puts report.new) 0) result }
    ensures part { (f : Filling) (bytes : List ℕ) (known : Known) (c : ℕ) (r : CallRow) → row_there service ≡ Some r
        → let b = before_call (boundless f (B.view bus.old)) pid cpu.old bytes known in let a = word_in words.now in
        PartHands (come_out r b next a (r.outcome b a))
        (told_counts c c (R.puts report.old) (R.puts report.new) 0 (R.taken report.old) (R.taken report.new)) result }
{
    let slots = behind_first(row.slots);
    let selector = words[word_count(slots)];
    match test_heap(bus, selector) {
        Pointed::Missed(sel) => Ok(Called::Missed(sel)),
        Pointed::Bad => refuse(pid, next, row, words, NO_SEGMENT, cpu, line, report),
        Pointed::Good => {
            let plan = plan_for(service, words, front(bus, selector));
            finish(
                pid, next, row, selector, slots, words, &plan, cpu, bus, line, report,
            )
        }
    }
}
