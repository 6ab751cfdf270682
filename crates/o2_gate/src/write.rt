// DosWrite.
ghost use Rattle.std.specs.Prelude.{◌≡◌, ◌≢◌, ◌≤◌, ◌+◌, ◌⊎◌, ◌∷◌, [], ℕ, List, Option, Some, true, false, length};
ghost use Rattle.o2_outer.specs.Texts.{Rose};
ghost use Rattle.o2_outer.specs.Answers.{Takes, OnDone, OnFailed};
ghost use Rattle.o2_isa.specs.View.{Filling, is_readable, is_writable, whole};
ghost use Rattle.o2_isa.specs.Pointers.{is_ready, range_of, KeepsAllButBytes};
ghost use Rattle.o2_isa.specs.Presence.{SameSelectors};
ghost use Rattle.o2_bus.specs.Writes.{WritesHeld};
ghost use Rattle.o2_world.specs.Known.{Known};
ghost use Rattle.o2_world.specs.Text.{lines_text};
ghost use Rattle.o2_world.specs.World.{Calls};
ghost use Rattle.o2_world.specs.Calls.{is_console, writing};
ghost use Rattle.o2_world.specs.Outcomes.{come_out, row as call_row};
ghost use Rattle.o2_world.specs.Slots.{shown_in};
ghost use Rattle.o2_gate.specs.Befores.{boundless, before_call};
ghost use Rattle.o2_gate.specs.Called.{Does, OnUndone, PutsBoth};
ghost use Rattle.o2_gate.specs.Given.{word_in};
ghost use Rattle.o2_gate.specs.Overs.{write_slots};
ghost use Rattle.o2_run.specs.Faults.{Caused};
ghost use Rattle.o2_gate.specs.Pieces.{CallHands};
ghost use Rattle.o2_run.specs.Pieces.{counts, told_counts, puts_of, PartHands};

use crate::Called;
use crate::line::put_call;
use crate::pointer::range;
use crate::row::Row;
use crate::stack::give_back;
use crate::value::store_word;
use o2_bus::Ranges;
use o2_isa::Cpu;
use o2_outer::{Put, Sink};
use o2_report::LineBuffer;
use o2_run::Fault;
use o2_world::Argument;

/// Puts the bytes of the buffer, by one put; none are no put.
#[tactic(auto, unfolding(o2_isa::specs::Pointers::range_of), using(o2_outer::proofs::TextLemmas::gains_none))]
fn put_range<B: Ranges, C: Sink>(bus: &B, words: &[u16; 6], console: &mut C) -> Put
    requires { is_ready is_readable (B.view bus.now) (word_in words.now 4) (word_in words.now 3) (word_in words.now 2) ≡ true }
    ensures console { (f : Filling) → Takes (C.taken console.old) (C.taken console.new)
        (range_of (B.view bus.now).held (whole f (B.view bus.now)).bytes (word_in words.now 4) (word_in words.now 3) (word_in words.now 2)) result }
    ensures len { (f : Filling)
        → length (range_of (B.view bus.now).held (whole f (B.view bus.now)).bytes (word_in words.now 4) (word_in words.now 3) (word_in words.now 2)) ≡ word_in words.now 2 }
    ensures nothing { word_in words.now 2 ≡ 0 → console.new ≡ console.old }
    ensures puts { word_in words.now 2 ≢ 0 → C.puts console.new ≡ C.puts console.old + 1 }
    ensures count { C.faults console.old ≤ C.faults console.new }
    ensures cause { OnFailed result (Rose (C.faults console.old) (C.faults console.new)) }
{
    if words[2] == 0 {
        return Put::Done;
    }
    console.put(range(bus, words[4], words[3], words[2]))
}

/// Puts the buffer, and then the line.
fn put_both<B: Ranges, C: Sink, R: Sink>(
    bus: &B,
    pid: u16,
    row: &Row,
    words: &[u16; 6],
    line: &mut LineBuffer,
    console: &mut C,
    report: &mut R,
) -> Put
    requires { is_ready is_readable (B.view bus.now) (word_in words.now 4) (word_in words.now 3) (word_in words.now 2) ≡ true }
    ensures both { (f : Filling)
        → PutsBoth (range_of (B.view bus.now).held (whole f (B.view bus.now)).bytes (word_in words.now 4) (word_in words.now 3) (word_in words.now 2))
        (lines_text (Calls pid row.now.name.now (shown_in row.now.slots.now (word_in words.now)) 0 (Argument.Word (word_in words.now 2) ∷ []) ∷ []))
        (C.taken console.old) (C.taken console.new) (R.taken report.old) (R.taken report.new) result }
    ensures len { (f : Filling)
        → length (range_of (B.view bus.now).held (whole f (B.view bus.now)).bytes (word_in words.now 4) (word_in words.now 3) (word_in words.now 2)) ≡ word_in words.now 2 }
    ensures nothing { word_in words.now 2 ≡ 0 → console.new ≡ console.old }
    ensures console_count { C.faults console.old ≤ C.faults console.new }
    ensures report_count { R.faults report.old ≤ R.faults report.new }
    ensures cause { OnFailed result (Rose (C.faults console.old) (C.faults console.new) ⊎ Rose (R.faults report.old) (R.faults report.new)) }
    ensures piece { C.puts console.new ≡ C.puts console.old + puts_of (word_in words.now 2) }
    ensures line { OnDone result (R.puts report.new ≡ R.puts report.old + 1) }
    // Where the piece failed the report isn't touched, and where the line did it was handed that.
    ensures failed { OnFailed result ((report.new ≡ report.old) ⊎ (R.puts report.new ≡ R.puts report.old + 1)) }
{
    match put_range(bus, words, console) {
        Put::Failed => Put::Failed,
        Put::Done => {
            let values = [Argument::Word(words[2])];
            put_call(line, pid, row, words, 0, &values, report)
        }
    }
}

/// Whether a handle is one of the console.
fn is_console(handle: u16) -> bool
    ensures { result ≡ is_console handle }
{
    handle == 1 || handle == 2
}

/// DosWrite(handle, buffer, count, pdone), whose pointers are good: the bytes go to the console, and their number behind `pdone`. Error 6
/// unless the handle is 1 or 2.
#[tactic(auto, unfolding(o2_world::specs::Changes::moved_lines), using(o2_outer::proofs::TextLemmas::gains_none, o2_outer::proofs::TextLemmas::puts_none))]
pub(crate) fn write<B: Ranges, C: Sink, R: Sink>(
    pid: u16,
    next: u16,
    row: &Row,
    words: &[u16; 6],
    cpu: &mut Cpu,
    bus: &mut B,
    line: &mut LineBuffer,
    console: &mut C,
    report: &mut R,
) -> Result<Called, Fault>
    requires slots { row.now.slots.now ≡ write_slots }
    requires buffer { is_ready is_readable (B.view bus.old) (word_in words.now 4) (word_in words.now 3) (word_in words.now 2) ≡ true }
    requires done { is_ready is_writable (B.view bus.old) (word_in words.now 1) (word_in words.now 0) 2 ≡ true }
    ensures does { (f : Filling) (input : List ℕ) (known : Known) (i : Option (List ℕ)) → i ≡ Some input
        → let b = before_call (boundless f (B.view bus.old)) pid cpu.old input known in let a = word_in words.now in
        Does f b (come_out (call_row row.now.name.now write_slots writing) b next a (writing b a)) cpu.new (B.view bus.old) (B.view bus.new)
        i i (C.taken console.old) (C.taken console.new) (R.taken report.old) (R.taken report.new) result }
    ensures frame { KeepsAllButBytes (B.view bus.old) (B.view bus.new) }
    ensures writes { WritesHeld (B.view bus.old) (B.view bus.new) }
    ensures selectors { SameSelectors cpu.old cpu.new }
    // A piece of no bytes is not put, nor any piece with error 6.
    ensures nothing { word_in words.now 2 ≡ 0 → console.new ≡ console.old }
    ensures refused { is_console (word_in words.now 5) ≡ false → console.new ≡ console.old }
    ensures console_count { C.faults console.old ≤ C.faults console.new }
    ensures report_count { R.faults report.old ≤ R.faults report.new }
    ensures cause { Caused (Rose (C.faults console.old) (C.faults console.new) ⊎ Rose (R.faults report.old) (R.faults report.new)) ⊥ ⊥ ⊥ result }
    // It is over: nothing is missed or asked for.
    ensures over { OnUndone result ⊥ }
    // The line is one put, and so is the piece where it has bytes.
    ensures puts { CallHands (counts (C.puts console.old) (C.puts console.new) (R.puts report.old) (R.puts report.new) 0) result }
    ensures part { (f : Filling) (input : List ℕ) (known : Known)
        → let b = before_call (boundless f (B.view bus.old)) pid cpu.old input known in let a = word_in words.now in
        PartHands (come_out (call_row row.now.name.now write_slots writing) b next a (writing b a))
        (told_counts (C.puts console.old) (C.puts console.new) (R.puts report.old) (R.puts report.new) 0
        (R.taken report.old) (R.taken report.new)) result }
{
    let values = [Argument::Word(words[2])];
    if !is_console(words[5]) {
        return match put_call(line, pid, row, words, 6, &values, report) {
            Put::Failed => Err(Fault::Sink),
            Put::Done => {
                give_back(cpu, next, 6, 6);
                Ok(Called::Back(0))
            }
        };
    }
    match put_both(bus, pid, row, words, line, console, report) {
        Put::Failed => Err(Fault::Sink),
        Put::Done => {
            store_word(bus, words, 0, words[2]);
            give_back(cpu, next, 6, 0);
            Ok(Called::Back(words[2]))
        }
    }
}
