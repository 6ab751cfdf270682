// DosExit.
ghost use Rattle.std.specs.Prelude.{◌≡◌, ◌≤◌, ◌∷◌, [], ℕ, List, Option, Some};
ghost use Rattle.o2_outer.specs.Texts.{Rose};
ghost use Rattle.o2_outer.specs.Answers.{Takes, Puts, OnFailed};
ghost use Rattle.o2_isa.specs.View.{View, Filling};
ghost use Rattle.o2_isa.specs.declared.cpu.Cpu.{Cpu};
ghost use Rattle.o2_world.specs.Known.{Known};
ghost use Rattle.o2_world.specs.World.{Exits, Ends};
ghost use Rattle.o2_world.specs.Outcomes.{CallRow, Leaves, come_out};
ghost use Rattle.o2_world.specs.Text.{lines_text};
ghost use Rattle.o2_gate.specs.Befores.{boundless, before_call};
ghost use Rattle.o2_gate.specs.Called.{Does, OnUndone};
ghost use Rattle.o2_run.specs.Faults.{Caused};
ghost use Rattle.o2_gate.specs.Pieces.{CallHands};
ghost use Rattle.o2_run.specs.Pieces.{counts, told_counts, FailsInLine, PartHands};
ghost use Rattle.o2_world.specs.Calls.{Effect};

use crate::Called;
use o2_outer::{Put, Sink};
use o2_report::{LineBuffer, set_ends, set_exits};
use o2_run::Fault;

/// Puts the two lines of an exit, each by a put of its own.
fn put_exit<R: Sink>(line: &mut LineBuffer, pid: u16, action: u16, code: u16, report: &mut R) -> Put
    ensures report { Takes (R.taken report.old) (R.taken report.new) (lines_text (Exits pid action code ∷ Ends pid code ∷ [])) result }
    ensures puts { Puts (R.puts report.old) (R.puts report.new) 2 result }
    ensures line { OnFailed result (FailsInLine (Exits pid action code ∷ Ends pid code ∷ [])
        (R.taken report.old) (R.taken report.new) (R.puts report.old) (R.puts report.new)) }
    ensures count { R.faults report.old ≤ R.faults report.new }
    ensures cause { OnFailed result (Rose (R.faults report.old) (R.faults report.new)) }
{
    set_exits(line, pid, action, code);
    match report.put(line.as_slice()) {
        Put::Failed => Put::Failed,
        Put::Done => {
            set_ends(line, pid, code);
            report.put(line.as_slice())
        }
    }
}

/// DosExit(action, code): the process ends with the code, whatever the action is.
#[tactic(auto, using(o2_outer::proofs::TextLemmas::gains_none, o2_outer::proofs::TextLemmas::puts_none))]
pub(crate) fn exit<R: Sink>(
    pid: u16,
    action: u16,
    code: u16,
    line: &mut LineBuffer,
    report: &mut R,
) -> Result<Called, Fault>
    ensures does { (f : Filling) (v : View) (cpu : Cpu) (input : List ℕ) (known : Known) (i c : Option (List ℕ)) (r : CallRow) (next : ℕ) (a : ℕ → ℕ)
        → i ≡ Some input → let b = before_call (boundless f v) pid cpu input known in
        Does f b (come_out r b next a (Leaves action code)) cpu v v i i c c (R.taken report.old) (R.taken report.new) result }
    ensures count { R.faults report.old ≤ R.faults report.new }
    ensures cause { Caused (Rose (R.faults report.old) (R.faults report.new)) ⊥ ⊥ ⊥ result }
    // It is over: nothing is missed or asked for.
    ensures over { OnUndone result ⊥ }
    // Each line is one put.
    ensures puts { (c : ℕ) → CallHands (counts c c (R.puts report.old) (R.puts report.new) 0) result }
    ensures part { (e : Effect) (c : ℕ) → e.piece ≡ [] → e.lines ≡ Exits pid action code ∷ Ends pid code ∷ []
        → PartHands e (told_counts c c (R.puts report.old) (R.puts report.new) 0 (R.taken report.old) (R.taken report.new)) result }
{
    match put_exit(line, pid, action, code, report) {
        Put::Failed => Err(Fault::Sink),
        Put::Done => Ok(Called::Exited(code)),
    }
}
