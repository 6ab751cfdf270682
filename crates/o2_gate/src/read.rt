// DosRead.
ghost use Rattle.std.specs.Prelude.{◌≡◌, ◌≢◌, ◌≤◌, ◌<◌, ◌==◌, ◌&&◌, ◌∷◌, [], ℕ, List, Option, Some, true, not, length, vec_len};
ghost use Rattle.o2_outer.specs.Texts.{Rose};
ghost use Rattle.o2_outer.specs.Answers.{TookAtMost, TookHasCause};
ghost use Rattle.o2_outer.specs.Inputs.{GoesOn, IsSeenAs, left_as};
ghost use Rattle.o2_isa.specs.View.{Filling, is_writable, whole};
ghost use Rattle.o2_isa.specs.Pointers.{is_ready, KeepsAllButBytes};
ghost use Rattle.o2_isa.specs.Presence.{SameSelectors};
ghost use Rattle.o2_bus.specs.Writes.{WritesHeld};
ghost use Rattle.o2_world.specs.Known.{Known};
ghost use Rattle.o2_world.specs.Calls.{read_slots, reading, word_bytes};
ghost use Rattle.o2_world.specs.Outcomes.{come_out, row as call_row};
ghost use Rattle.o2_world.specs.Slots.{put_all, targets_in};
ghost use Rattle.o2_gate.specs.Befores.{boundless, before_call};
ghost use Rattle.o2_gate.specs.Called.{Does, DoesFor, Fills, AskedFor, OnUndone};
ghost use Rattle.o2_gate.specs.Given.{word_in};
ghost use Rattle.o2_gate.specs.Overs.{got_bytes};
ghost use Rattle.o2_gate.specs.Pointed.{are_ready};
ghost use Rattle.o2_run.specs.Faults.{Caused};
ghost use Rattle.o2_gate.specs.Pieces.{CallHands};
ghost use Rattle.o2_run.specs.Pieces.{counts, LineHands};

use crate::Called;
use crate::line::put_call;
use crate::pointer::store;
use crate::row::Row;
use crate::stack::give_back;
use crate::value::store_word;
use o2_bus::Ranges;
use o2_isa::Cpu;
use o2_outer::{Put, Sink, Source, Took};
use o2_report::LineBuffer;
use o2_run::{Fault, Stop};
use o2_world::Argument;

/// Takes bytes of the input into the front of a slice.
fn take_front<I: Source>(bytes: &mut [u8], count: u16, input: &mut I) -> Took
    requires some { 0 < count }
    requires room { count ≤ length bytes.old }
    ensures fills { (text : Option (List ℕ)) → IsSeenAs text (I.past input.new)
        → Fills count (left_as text (I.left input.old) (I.past input.old))
        (left_as text (I.left input.new) (I.past input.new)) bytes.new result }
    ensures asked { AskedFor count result }
    ensures goes_on { GoesOn (I.past input.old) (I.past input.new) }
    ensures bounded { TookAtMost count result }
    ensures count { I.faults input.old ≤ I.faults input.new }
    ensures cause { TookHasCause (I.faults input.old) (I.faults input.new) result }
{
    input.take(&mut bytes[..count as usize])
}

/// Takes bytes of the input into the front of the buffer; none are no take.
#[tactic(auto, using(o2_outer::proofs::Inputs::goes_same))]
fn take_bytes<I: Source>(buffer: &mut Vec<u8>, count: u16, input: &mut I) -> Took
    requires { vec_len buffer.old ≡ 65536 }
    ensures fills { (text : Option (List ℕ)) → IsSeenAs text (I.past input.new)
        → Fills count (left_as text (I.left input.old) (I.past input.old))
        (left_as text (I.left input.new) (I.past input.new)) buffer.new.items result }
    ensures asked { AskedFor count result }
    ensures goes_on { GoesOn (I.past input.old) (I.past input.new) }
    ensures bounded { TookAtMost count result }
    ensures room { vec_len buffer.new ≡ 65536 }
    ensures nothing { count ≡ 0 → input.new ≡ input.old }
    ensures count { I.faults input.old ≤ I.faults input.new }
    ensures cause { TookHasCause (I.faults input.old) (I.faults input.new) result }
{
    if count == 0 {
        return Took::Done(0);
    }
    take_front(buffer.as_mut_slice(), count, input)
}

/// Writes the bytes of the input, and then their number.
fn store_both<B: Ranges>(bus: &mut B, words: &[u16; 6], got: &[u8])
    requires short { length got.now ≤ word_in words.now 2 }
    requires small { length got.now < 65536 }
    requires buffer { is_ready is_writable (B.view bus.old) (word_in words.now 4) (word_in words.now 3) (word_in words.now 2) ≡ true }
    requires done { is_ready is_writable (B.view bus.old) (word_in words.now 1) (word_in words.now 0) 2 ≡ true }
    ensures bytes { (f : Filling) (n : ℕ) → (whole f (B.view bus.new)).bytes n
        ≡ put_all (B.view bus.old).held (targets_in read_slots (word_in words.now)) (got.now ∷ word_bytes (length got.now) ∷ [])
        (whole f (B.view bus.old)).bytes n }
    ensures frame { KeepsAllButBytes (B.view bus.old) (B.view bus.new) }
    ensures writes { WritesHeld (B.view bus.old) (B.view bus.new) }
{
    store(bus, words[4], words[3], got);
    store_word(bus, words, 0, got.len() as u16);
}

/// The call with the bytes that came.
#[tactic(auto, unfolding(o2_world::specs::Changes::moved_lines), using(o2_outer::proofs::TextLemmas::gains_none, o2_outer::proofs::TextLemmas::puts_none))]
fn deliver<B: Ranges, R: Sink>(
    pid: u16,
    next: u16,
    row: &Row,
    words: &[u16; 6],
    got: &[u8],
    cpu: &mut Cpu,
    bus: &mut B,
    line: &mut LineBuffer,
    report: &mut R,
) -> Result<Called, Fault>
    requires slots { row.now.slots.now ≡ read_slots }
    requires short { length got.now ≤ word_in words.now 2 }
    requires small { length got.now < 65536 }
    requires buffer { is_ready is_writable (B.view bus.old) (word_in words.now 4) (word_in words.now 3) (word_in words.now 2) ≡ true }
    requires done { is_ready is_writable (B.view bus.old) (word_in words.now 1) (word_in words.now 0) 2 ≡ true }
    ensures does { (f : Filling) (input rest : List ℕ) (known : Known) (i j c : Option (List ℕ)) → j ≡ Some rest
        → let b = before_call (boundless f (B.view bus.old)) pid cpu.old input known in
        Does f b (come_out (call_row row.now.name.now read_slots reading) b next (word_in words.now) (got_bytes got.now rest))
        cpu.new (B.view bus.old) (B.view bus.new) i j c c (R.taken report.old) (R.taken report.new) result }
    ensures frame { KeepsAllButBytes (B.view bus.old) (B.view bus.new) }
    ensures writes { WritesHeld (B.view bus.old) (B.view bus.new) }
    ensures selectors { SameSelectors cpu.old cpu.new }
    ensures count { R.faults report.old ≤ R.faults report.new }
    ensures cause { Caused (Rose (R.faults report.old) (R.faults report.new)) ⊥ ⊥ ⊥ result }
    // It is over: nothing is missed or asked for.
    ensures over { OnUndone result ⊥ }
    // The line is one put.
    ensures puts { (c : ℕ) → CallHands (counts c c (R.puts report.old) (R.puts report.new) 0) result }
    ensures part { (c : ℕ) → LineHands (counts c c (R.puts report.old) (R.puts report.new) 0) result }
{
    let values = [Argument::Word(got.len() as u16)];
    match put_call(line, pid, row, words, 0, &values, report) {
        Put::Failed => Err(Fault::Sink),
        Put::Done => {
            store_both(bus, words, got);
            give_back(cpu, next, 6, 0);
            Ok(Called::Back(0))
        }
    }
}

/// DosRead(handle, buffer, count, pdone), whose pointers are good: the next bytes of the input go to the buffer, and then their number
/// behind `pdone`. Error 6 unless the handle is 0.
#[tactic(auto, unfolding(o2_world::specs::Changes::moved_lines), using(o2_outer::proofs::TextLemmas::gains_none, o2_outer::proofs::TextLemmas::puts_none, o2_outer::proofs::Inputs::goes_same))]
pub(crate) fn read<B: Ranges, I: Source, R: Sink>(
    pid: u16,
    next: u16,
    row: &Row,
    words: &[u16; 6],
    cpu: &mut Cpu,
    bus: &mut B,
    line: &mut LineBuffer,
    buffer: &mut Vec<u8>,
    input: &mut I,
    report: &mut R,
) -> Result<Called, Fault>
    requires slots { row.now.slots.now ≡ read_slots }
    requires size { vec_len buffer.old ≡ 65536 }
    requires buffer { is_ready is_writable (B.view bus.old) (word_in words.now 4) (word_in words.now 3) (word_in words.now 2) ≡ true }
    requires done { is_ready is_writable (B.view bus.old) (word_in words.now 1) (word_in words.now 0) 2 ≡ true }
    // However the input is seen: by what it tells, or as a text that the whole of it may be.
    ensures does { (text : Option (List ℕ)) → IsSeenAs text (I.past input.new)
        → (f : Filling) (bytes : List ℕ) (known : Known) (c : Option (List ℕ)) → left_as text (I.left input.old) (I.past input.old) ≡ Some bytes
        → let b = before_call (boundless f (B.view bus.old)) pid cpu.old bytes known in let a = word_in words.now in
        DoesFor (((a 5 == 0) && not (a 2 == 0)) ≡ true) f b (come_out (call_row row.now.name.now read_slots reading) b next a (reading b a))
        cpu.new (B.view bus.old) (B.view bus.new)
        (left_as text (I.left input.old) (I.past input.old)) (left_as text (I.left input.new) (I.past input.new))
        c c (R.taken report.old) (R.taken report.new) result }
    ensures goes_on { GoesOn (I.past input.old) (I.past input.new) }
    ensures frame { KeepsAllButBytes (B.view bus.old) (B.view bus.new) }
    ensures writes { WritesHeld (B.view bus.old) (B.view bus.new) }
    ensures selectors { SameSelectors cpu.old cpu.new }
    ensures size { vec_len buffer.new ≡ 65536 }
    // No bytes are not taken, nor any with error 6.
    ensures nothing { word_in words.now 2 ≡ 0 → input.new ≡ input.old }
    ensures refused { word_in words.now 5 ≢ 0 → input.new ≡ input.old }
    ensures input_count { I.faults input.old ≤ I.faults input.new }
    ensures report_count { R.faults report.old ≤ R.faults report.new }
    ensures cause { Caused (Rose (R.faults report.old) (R.faults report.new)) (Rose (I.faults input.old) (I.faults input.new)) ⊥ ⊥ result }
    // It is over: nothing is missed or asked for.
    ensures over { OnUndone result ⊥ }
    // The line is one put.
    ensures puts { (c : ℕ) → CallHands (counts c c (R.puts report.old) (R.puts report.new) 0) result }
    ensures part { (c : ℕ) → LineHands (counts c c (R.puts report.old) (R.puts report.new) 0) result }
{
    if words[5] != 0 {
        return match put_call(line, pid, row, words, 6, &[Argument::Word(0)], report) {
            Put::Failed => Err(Fault::Sink),
            Put::Done => {
                give_back(cpu, next, 6, 6);
                Ok(Called::Back(0))
            }
        };
    }
    match take_bytes(buffer, words[2], input) {
        Took::Failed => Err(Fault::Stopped(Stop::Input)),
        Took::Done(got) => {
            deliver(
                pid,
                next,
                row,
                words,
                &buffer[..got],
                cpu,
                bus,
                line,
                report,
            )
        }
    }
}
