// The lines of one start, each put by a put of its own.
ghost use Rattle.std.specs.Prelude.{◌≤◌, length};
ghost use Rattle.o2_outer.specs.Answers.{OnFailed};
ghost use Rattle.o2_outer.specs.Texts.{Rose};
ghost use Rattle.o2_world.specs.Opening.{hold_lines, start_lines};
ghost use Rattle.o2_machine.specs.PutLines.{PutsLines};

use o2_outer::{Put, Sink};
use o2_report::{LineBuffer, set_holds, set_starts};

/// Puts the lines of the holds of a process by load.
fn put_holds<R: Sink>(line: &mut LineBuffer, process: u16, selectors: &[u16], report: &mut R) -> Put
    ensures lines { PutsLines (hold_lines process selectors.now)
        (R.taken report.old) (R.taken report.new) (R.puts report.old) (R.puts report.new) result }
    ensures count { R.faults report.old ≤ R.faults report.new }
    ensures cause { OnFailed result (Rose (R.faults report.old) (R.faults report.new)) }
{
    for selector in selectors {
        set_holds(line, process, *selector, b"load");
        match report.put(line.as_slice()) {
            Put::Done => {}
            Put::Failed => return Put::Failed,
        }
    }
    Put::Done
}

/// Puts the lines of the start of a process.
pub(crate) fn put_start<R: Sink>(
    line: &mut LineBuffer,
    process: u16,
    name: &[u8],
    selectors: &[u16],
    report: &mut R,
) -> Put
    requires { length name.now ≤ 255 }
    ensures lines { PutsLines (start_lines process name.now selectors.now)
        (R.taken report.old) (R.taken report.new) (R.puts report.old) (R.puts report.new) result }
    ensures count { R.faults report.old ≤ R.faults report.new }
    ensures cause { OnFailed result (Rose (R.faults report.old) (R.faults report.new)) }
{
    set_starts(line, process, name);
    match report.put(line.as_slice()) {
        Put::Failed => Put::Failed,
        Put::Done => put_holds(line, process, selectors, report),
    }
}
