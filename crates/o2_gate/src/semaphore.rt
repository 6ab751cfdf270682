// The calls on RAM semaphores: four bytes anywhere that the caller may write.
ghost use Rattle.std.specs.Prelude.{◌≡◌, ◌==◌, ◌≤◌, ◌+◌, [], ℕ, List, Option, Some, not, true, length};
ghost use Rattle.o2_outer.specs.Texts.{Rose};
ghost use Rattle.o2_isa.specs.View.{Filling, IsBound, is_writable, whole};
ghost use Rattle.o2_isa.specs.Pointers.{is_ready, range_of, KeepsAllButBytes};
ghost use Rattle.o2_isa.specs.Presence.{SameSelectors};
ghost use Rattle.o2_bus.specs.Writes.{WritesHeld};
ghost use Rattle.o2_world.specs.Known.{Known};
ghost use Rattle.o2_world.specs.CallParts.{waiting};
ghost use Rattle.o2_world.specs.Calls.{Before, by_semaphore, row_of as row_there, serviced, timeout_in};
ghost use Rattle.o2_world.specs.Outcomes.{CallRow, Outcome, come_out, row as call_row};
ghost use Rattle.o2_world.specs.SemRulings.{Becomes, number_in};
ghost use Rattle.o2_world.specs.Slots.{put_all, targets_in};
ghost use Rattle.o2_ramsem.specs.Ruled.{ruled};
ghost use Rattle.o2_gate.specs.Befores.{boundless, before_call};
ghost use Rattle.o2_gate.specs.Called.{Does, OnAsked, OnMissed, OnUndone};
ghost use Rattle.o2_gate.specs.Given.{pointers_by, word_in};
ghost use Rattle.o2_gate.specs.Pointed.{ArePresent, IsGoodTest};
ghost use Rattle.o2_gate.specs.Rows.{IsRowOf};
ghost use Rattle.o2_gate.specs.Semaphores.{place_of, sem_parts, sem_ruling, sem_slots};
ghost use Rattle.o2_run.specs.Faults.{Caused};
ghost use Rattle.o2_gate.specs.Pieces.{CallHands};
ghost use Rattle.o2_run.specs.Pieces.{counts, told_counts, LineHands, PartHands};
ghost use Rattle.o2_run.specs.Room.{call_names};

use crate::Called;
use crate::given::{Gathered, gather};
use crate::heap::refuse;
use crate::line::put_call;
use crate::pointer::range;
use crate::row::Row;
use crate::table::row_of;
use crate::value::{return_from, store_long};
use o2_bus::Ranges;
use o2_isa::Cpu;
use o2_outer::{Put, Sink};
use o2_ramsem::{Sem, clear, request, set, wait};
use o2_report::LineBuffer;
use o2_run::Fault;

/// Where the words of a call's pointer begin: behind its timeout, where it has one.
fn place_of(service: u16) -> usize
    ensures value { result ≡ place_of service }
    ensures few { result ≤ 2 }
{
    if service == 25 || service == 27 {
        return 2;
    }
    0
}

/// The timeout of a call that has one.
fn timeout_in(words: &[u16; 6]) -> u32
    ensures { result ≡ timeout_in (word_in words.now) }
{
    u32::from(words[0]) + 65536 * u32::from(words[1])
}

/// The number of a semaphore by its bytes, the low one first.
#[tactic(auto, unfolding(o2_world::specs::Heaps::word))]
fn number_in(bytes: &[u8]) -> u32
    requires { length bytes.now ≡ 4 }
    ensures { result ≡ number_in bytes.now }
{
    let low = u32::from(bytes[0]) + 256 * u32::from(bytes[1]);
    let high = u32::from(bytes[2]) + 256 * u32::from(bytes[3]);
    low + 65536 * high
}

/// The number of the semaphore behind the pointer at a place, which was found good.
fn number_at<B: Ranges>(bus: &B, words: &[u16; 6], place: usize) -> u32
    requires inside { place ≤ 2 }
    requires ready { is_ready is_writable (B.view bus.now) (word_in words.now (place + 1)) (word_in words.now place) 4 ≡ true }
    ensures { (f : Filling) → result ≡ number_in (range_of (B.view bus.now).held (whole f (B.view bus.now)).bytes
        (word_in words.now (place + 1)) (word_in words.now place) 4) }
{
    number_in(range(bus, words[place + 1], words[place], 4))
}

/// What a call does, where the semaphore's number is `word`.
fn ruling_of(service: u16, words: &[u16; 6], pid: u16, word: u32) -> Sem
    requires first { 25 ≤ service }
    requires last { service ≤ 28 }
    ensures { ruled result ≡ sem_ruling service (word_in words.now) pid word }
{
    match service {
        25 => request(word, pid, timeout_in(words)),
        26 => Sem::Word(clear()),
        27 => wait(word, timeout_in(words)),
        28 => Sem::Word(set()),
        _ => unreachable!(),
    }
}

/// Whether a call writes the number where it answers 0: DosSemWait doesn't.
fn writes(service: u16) -> bool
    ensures { result ≡ not (service == 27) }
{
    service != 27
}

/// Writes the number behind the pointer at a place, where the call writes it.
fn store_number<B: Ranges>(bus: &mut B, service: u16, words: &[u16; 6], place: usize, word: u32)
    requires place { place ≡ place_of service }
    requires inside { place ≤ 2 }
    requires ready { is_ready is_writable (B.view bus.old) (word_in words.now (place + 1)) (word_in words.now place) 4 ≡ true }
    ensures bytes { (f : Filling) (n : ℕ) → (whole f (B.view bus.new)).bytes n
        ≡ put_all (B.view bus.old).held (targets_in (sem_slots service) (word_in words.now)) (sem_parts service word)
        (whole f (B.view bus.old)).bytes n }
    ensures frame { KeepsAllButBytes (B.view bus.old) (B.view bus.new) }
    ensures writes { WritesHeld (B.view bus.old) (B.view bus.new) }
{
    if writes(service) {
        store_long(bus, words, place, word);
    }
}

/// The call that answers 0: its line, and then the number.
#[tactic(auto, unfolding(o2_world::specs::Changes::moved_lines), using(o2_outer::proofs::TextLemmas::gains_none, o2_outer::proofs::TextLemmas::puts_none))]
fn settle<B: Ranges, R: Sink>(
    service: u16,
    next: u16,
    pid: u16,
    row: &Row,
    words: &[u16; 6],
    place: usize,
    word: u32,
    cpu: &mut Cpu,
    bus: &mut B,
    line: &mut LineBuffer,
    report: &mut R,
) -> Result<Called, Fault>
    requires slots { row.now.slots.now ≡ sem_slots service }
    requires place { place ≡ place_of service }
    requires inside { place ≤ 2 }
    requires ready { is_ready is_writable (B.view bus.old) (word_in words.now (place + 1)) (word_in words.now place) 4 ≡ true }
    ensures does { (f : Filling) (input : List ℕ) (known : Known) (i c : Option (List ℕ)) (outcome : Before → (ℕ → ℕ) → Outcome) → i ≡ Some input
        → let b = before_call (boundless f (B.view bus.old)) pid cpu.old input known in
        Does f b (come_out (call_row row.now.name.now row.now.slots.now outcome) b next (word_in words.now) (by_semaphore (sem_parts service) b (Becomes word)))
        cpu.new (B.view bus.old) (B.view bus.new) i i c c (R.taken report.old) (R.taken report.new) result }
    ensures frame { KeepsAllButBytes (B.view bus.old) (B.view bus.new) }
    ensures writes { WritesHeld (B.view bus.old) (B.view bus.new) }
    ensures selectors { SameSelectors cpu.old cpu.new }
    ensures count { R.faults report.old ≤ R.faults report.new }
    ensures cause { Caused (Rose (R.faults report.old) (R.faults report.new)) ⊥ ⊥ ⊥ result }
    // It is over: nothing is missed or asked for, and it doesn't wait.
    ensures over { OnUndone result ⊥ }
    // The line is one put.
    ensures puts { (c : ℕ) → CallHands (counts c c (R.puts report.old) (R.puts report.new) 0) result }
    ensures part { (c : ℕ) → LineHands (counts c c (R.puts report.old) (R.puts report.new) 0) result }
{
    match put_call(line, pid, row, words, 0, &[], report) {
        Put::Failed => Err(Fault::Sink),
        Put::Done => {
            store_number(bus, service, words, place, word);
            return_from(cpu, row.slots, 0, next);
            Ok(Called::Back(0))
        }
    }
}

/// A call on a RAM semaphore with its arguments, whose pointer is good. One that waits leaves all as it is.
pub(crate) fn serve_semaphore<B: Ranges, R: Sink>(
    service: u16,
    next: u16,
    pid: u16,
    row: &Row,
    words: &[u16; 6],
    cpu: &mut Cpu,
    bus: &mut B,
    line: &mut LineBuffer,
    report: &mut R,
) -> Result<Called, Fault>
    requires first { 25 ≤ service }
    requires last { service ≤ 28 }
    requires row { IsRowOf (row_there service) (Some row.now) }
    requires test { IsGoodTest (B.view bus.old) (pointers_by row.now.slots.now (word_in words.now)) }
    ensures does { (f : Filling) (bytes : List ℕ) (known : Known) (i c : Option (List ℕ)) (r : CallRow)
        → i ≡ Some bytes → row_there service ≡ Some r
        → let b = before_call (boundless f (B.view bus.old)) pid cpu.old bytes known in let a = word_in words.now in
        Does f b (come_out r b next a (r.outcome b a)) cpu.new (B.view bus.old) (B.view bus.new)
        i i c c (R.taken report.old) (R.taken report.new) result }
    ensures frame { KeepsAllButBytes (B.view bus.old) (B.view bus.new) }
    ensures writes { WritesHeld (B.view bus.old) (B.view bus.new) }
    ensures selectors { SameSelectors cpu.old cpu.new }
    ensures never_missed { OnMissed result (λ s. ⊥) }
    ensures never_asked { OnAsked result (λ a. ⊥) }
    ensures still { OnUndone result ((cpu.new ≡ cpu.old) × (B.view bus.new ≡ B.view bus.old) × (report.new ≡ report.old)) }
    ensures count { R.faults report.old ≤ R.faults report.new }
    ensures cause { Caused (Rose (R.faults report.old) (R.faults report.new)) ⊥ ⊥ ⊥ result }
    ensures puts { (c : ℕ) → CallHands (counts c c (R.puts report.old) (R.puts report.new) 0) result }
    ensures part { (f : Filling) (bytes : List ℕ) (known : Known) (c : ℕ) (r : CallRow) → row_there service ≡ Some r
        → let b = before_call (boundless f (B.view bus.old)) pid cpu.old bytes known in let a = word_in words.now in
        PartHands (come_out r b next a (r.outcome b a))
        (told_counts c c (R.puts report.old) (R.puts report.new) 0 (R.taken report.old) (R.taken report.new)) result }
{
    let place = place_of(service);
    let number = number_at(bus, words, place);
    match ruling_of(service, words, pid, number) {
        Sem::Waits => Ok(Called::Waits),
        Sem::Error(error) => refuse(pid, next, row, words, error, cpu, line, report),
        Sem::Word(word) => settle(
            service, next, pid, row, words, place, word, cpu, bus, line, report,
        ),
    }
}

/// Whether the call by process `pid` of a service is one on a RAM semaphore that waits: then it misses nothing, and leaves all as it is.
/// It is looked at by the rules of `call`, but nothing is changed or put. Where its pointer misses a segment the answer is no.
pub fn waits<B: Ranges>(service: u16, pid: u16, cpu: &Cpu, bus: &mut B) -> bool
    ensures effect { result ≡ true → (f : Filling) (input : List ℕ) (known : Known) (next : ℕ) → IsBound (B.view bus.old)
        → let b = before_call (boundless f (B.view bus.old)) pid cpu.now input known in
        serviced b service next ≡ waiting b }
    ensures present { result ≡ true → (f : Filling) (input : List ℕ) (known : Known) → IsBound (B.view bus.old)
        → ArePresent (B.view bus.old)
        (call_names (before_call (boundless f (B.view bus.old)) pid cpu.now input known) (row_there service)) }
    ensures same { B.view bus.new ≡ B.view bus.old }
{
    if service < 25 {
        return false;
    }
    let Some(row) = row_of(service) else {
        return false;
    };
    match gather(row.slots, cpu, bus) {
        Gathered::Good(given) => {
            let place = place_of(service);
            let number = number_at(bus, &given.words, place);
            match ruling_of(service, &given.words, pid, number) {
                Sem::Waits => true,
                _ => false,
            }
        }
        _ => false,
    }
}
