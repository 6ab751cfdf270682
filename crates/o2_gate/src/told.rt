// DosGetPID and DosMemAvail: what they tell goes behind their one pointer.
ghost use Rattle.std.specs.Prelude.{◌≡◌, ◌≤◌, ℕ, List, Option, Some, true};
ghost use Rattle.o2_outer.specs.Texts.{Rose};
ghost use Rattle.o2_isa.specs.View.{Filling, is_writable};
ghost use Rattle.o2_isa.specs.Pointers.{is_ready, KeepsAllButBytes};
ghost use Rattle.o2_isa.specs.Presence.{SameSelectors};
ghost use Rattle.o2_bus.specs.Writes.{WritesHeld};
ghost use Rattle.o2_world.specs.Known.{Known};
ghost use Rattle.o2_world.specs.Calls.{avail_by, telling_pid};
ghost use Rattle.o2_world.specs.Outcomes.{by_ruling, come_out, row as call_row, ruled};
ghost use Rattle.o2_world.specs.Slots.{targets_in};
ghost use Rattle.o2_gate.specs.Befores.{boundless, before_call};
ghost use Rattle.o2_gate.specs.Called.{Does, OnUndone};
ghost use Rattle.o2_gate.specs.Given.{word_in};
ghost use Rattle.o2_gate.specs.Overs.{avail_slots, pid_slots};
ghost use Rattle.o2_gate.specs.Pointed.{are_ready};
ghost use Rattle.o2_run.specs.Faults.{Caused};
ghost use Rattle.o2_gate.specs.Pieces.{CallHands};
ghost use Rattle.o2_run.specs.Pieces.{counts, LineHands};

use crate::Called;
use crate::line::{put_call, values_in};
use crate::pointer::store;
use crate::row::Row;
use crate::stack::give_back;
use crate::value::store_value;
use o2_bus::Ranges;
use o2_isa::Cpu;
use o2_outer::{Put, Sink};
use o2_report::LineBuffer;
use o2_run::Fault;
use o2_world::Argument;

/// The number of the process that started one of the machine file: none.
const PARENT: u16 = 0;

/// DosGetPID(pinfo): the numbers of the process, of its only thread and of its parent.
#[tactic(auto, unfolding(o2_world::specs::Changes::moved_lines), using(o2_outer::proofs::TextLemmas::gains_none, o2_outer::proofs::TextLemmas::puts_none))]
pub(crate) fn tell_pid<B: Ranges, R: Sink>(
    pid: u16,
    next: u16,
    row: &Row,
    words: &[u16; 6],
    cpu: &mut Cpu,
    bus: &mut B,
    line: &mut LineBuffer,
    report: &mut R,
) -> Result<Called, Fault>
    requires slots { row.now.slots.now ≡ pid_slots }
    requires ready { is_ready is_writable (B.view bus.old) (word_in words.now 1) (word_in words.now 0) 6 ≡ true }
    ensures does { (f : Filling) (input : List ℕ) (known : Known) (i c : Option (List ℕ)) → i ≡ Some input
        → let b = before_call (boundless f (B.view bus.old)) pid cpu.old input known in let a = word_in words.now in
        Does f b (come_out (call_row row.now.name.now pid_slots telling_pid) b next a (telling_pid b a)) cpu.new (B.view bus.old) (B.view bus.new)
        i i c c (R.taken report.old) (R.taken report.new) result }
    ensures frame { KeepsAllButBytes (B.view bus.old) (B.view bus.new) }
    ensures writes { WritesHeld (B.view bus.old) (B.view bus.new) }
    ensures selectors { SameSelectors cpu.old cpu.new }
    ensures count { R.faults report.old ≤ R.faults report.new }
    ensures cause { Caused (Rose (R.faults report.old) (R.faults report.new)) ⊥ ⊥ ⊥ result }
    // It is over: nothing is missed or asked for.
    ensures over { OnUndone result ⊥ }
    // The line is one put.
    ensures puts { (c : ℕ) → CallHands (counts c c (R.puts report.old) (R.puts report.new) 0) result }
    ensures part { (c : ℕ) → LineHands (counts c c (R.puts report.old) (R.puts report.new) 0) result }
{
    let part = [(pid % 256) as u8, (pid / 256) as u8, 1, 0, 0, 0];
    let values = [
        Argument::Word(pid),
        Argument::Word(1),
        Argument::Word(PARENT),
    ];
    match put_call(line, pid, row, words, 0, &values, report) {
        Put::Failed => Err(Fault::Sink),
        Put::Done => {
            store(bus, words[1], words[0], &part);
            give_back(cpu, next, 2, 0);
            Ok(Called::Back(0))
        }
    }
}

/// DosMemAvail(psize): the machine file's number, the low word first in memory.
#[tactic(auto, unfolding(o2_world::specs::Changes::moved_lines), using(o2_outer::proofs::TextLemmas::gains_none, o2_outer::proofs::TextLemmas::puts_none))]
pub(crate) fn tell_avail<B: Ranges, R: Sink>(
    pid: u16,
    next: u16,
    avail: u32,
    row: &Row,
    words: &[u16; 6],
    cpu: &mut Cpu,
    bus: &mut B,
    line: &mut LineBuffer,
    report: &mut R,
) -> Result<Called, Fault>
    requires slots { row.now.slots.now ≡ avail_slots }
    requires ready { are_ready (B.view bus.old) (targets_in avail_slots (word_in words.now)) ≡ true }
    ensures does { (f : Filling) (input : List ℕ) (known : Known) (i c : Option (List ℕ)) → i ≡ Some input → known.avail ≡ avail
        → let b = before_call (boundless f (B.view bus.old)) pid cpu.old input known in let a = word_in words.now in
        Does f b (come_out (ruled row.now.name.now avail_slots avail_by) b next a (by_ruling avail_slots b (avail_by b a)))
        cpu.new (B.view bus.old) (B.view bus.new) i i c c (R.taken report.old) (R.taken report.new) result }
    ensures frame { KeepsAllButBytes (B.view bus.old) (B.view bus.new) }
    ensures writes { WritesHeld (B.view bus.old) (B.view bus.new) }
    ensures selectors { SameSelectors cpu.old cpu.new }
    ensures count { R.faults report.old ≤ R.faults report.new }
    ensures cause { Caused (Rose (R.faults report.old) (R.faults report.new)) ⊥ ⊥ ⊥ result }
    // It is over: nothing is missed or asked for.
    ensures over { OnUndone result ⊥ }
    // The line is one put.
    ensures puts { (c : ℕ) → CallHands (counts c c (R.puts report.old) (R.puts report.new) 0) result }
    ensures part { (c : ℕ) → LineHands (counts c c (R.puts report.old) (R.puts report.new) 0) result }
{
    let values = values_in(row.slots, avail);
    match put_call(line, pid, row, words, 0, values.as_slice(), report) {
        Put::Failed => Err(Fault::Sink),
        Put::Done => {
            store_value(bus, row.slots, words, avail);
            give_back(cpu, next, 2, 0);
            Ok(Called::Back(0))
        }
    }
}
