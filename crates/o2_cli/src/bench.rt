// A bench: the run of its processes, and its line.
ghost use Rattle.std.specs.Prelude.{◌≡◌, ◌≤◌, ◌+◌, ◌++◌, ℕ, List, length, decimal};
ghost use Rattle.o2_conf.specs.Limits.{IsWithinLimits};
ghost use Rattle.o2_open.specs.Loads.{HasEnvironments, IsLinked};
ghost use Rattle.o2_outer.specs.Answers.{OnFailed, Takes};
ghost use Rattle.o2_outer.specs.Texts.{Rose};
ghost use Rattle.o2_world.specs.World.{Setting, World};
ghost use Rattle.o2_machine.specs.Lasts.{last_lines};
ghost use Rattle.o2_machine.specs.StandsFor.{StandsFor};
ghost use Rattle.o2_words.specs.declared.words.Verb.TheVariants.{Bench};
ghost use Rattle.o2_cli.specs.BenchTexts.{bench_line, bench_text};
ghost use Rattle.o2_open.specs.declared.session.Session.{Session};
ghost use Rattle.o2_machine.specs.GoesOver.{GoesOver};
ghost use Rattle.o2_cli.specs.Sessions.{BegunAs, RunsAs};
ghost use Rattle.o2_cli.specs.Sides.{input_sides, sink_sides, swap_sides};

use crate::Status;
use crate::begun::begun;
use crate::unseen::run_unseen;
use o2_machine::Machine;
use o2_open::Session;
use o2_outer::{Put, Sink, Source, SwapDevice};
use o2_report::LineBuffer;
use std::alloc::Global;

/// Adds a decimal number.
#[tactic(auto, using(crate::proofs::Decimal::decimal_more, crate::proofs::Decimal::length_more, crate::proofs::Decimal::decimal_one, crate::proofs::Decimal::length_one))]
fn push_digits(line: &mut LineBuffer, n: u128)
    requires { length line.old + length (decimal n) ≤ 640 }
    ensures { line.new ≡ line.old ++ decimal n }
{
    if n < 10 {
        line.push_byte(b'0' + n as u8);
    } else {
        push_digits(line, n / 10);
        line.push_byte(b'0' + (n % 10) as u8);
    }
}

/// Adds a number of at most 39 digits, and what it counts.
#[tactic(auto, using(std::proofs::Common::append_assoc, crate::proofs::Decimal::length_most))]
fn push_count(line: &mut LineBuffer, n: u128, what: &[u8])
    requires { length line.old + length what.now + 39 ≤ 640 }
    ensures text { line.new ≡ line.old ++ decimal n ++ what.now }
    ensures most { length line.new ≤ length line.old + length what.now + 39 }
{
    push_digits(line, n);
    line.push_text(what);
}

/// Makes the line of a bench of so many processes.
#[tactic(auto, using(std::proofs::Common::append_assoc))]
fn set_line(line: &mut LineBuffer, count: u16, steps: u64, bytes: u64, lines: u128)
    ensures { line.new ≡ bench_text count steps bytes lines }
{
    line.clear();
    line.push_text(b"bench ");
    push_count(line, count as u128, b": ");
    push_count(line, steps as u128, b" steps, ");
    push_count(line, bytes as u128, b" console bytes, ");
    push_count(line, lines, b" report lines\n");
}

/// Puts the line of a bench whose run is over.
fn put_line<C: Sink>(line: &mut LineBuffer, count: u16, machine: &Machine, console: &mut C) -> Put
    requires { last_lines machine.now.last ≡ 1 }
    ensures text { (device : ℕ) (block : ℕ → List ℕ) (s : Setting) (w : World) → StandsFor machine.now device block s w
        → Takes (C.taken console.old) (C.taken console.new) (bench_line count s w) result }
    ensures puts { C.puts console.new ≡ C.puts console.old + 1 }
    ensures count { C.faults console.old ≤ C.faults console.new }
    ensures cause { OnFailed result (Rose (C.faults console.old) (C.faults console.new)) }
{
    set_line(
        line,
        count,
        machine.steps(),
        machine.console_bytes(),
        machine.report_lines(),
    );
    console.put(line.as_slice())
}

/// Runs the processes of a bench, of which there are so many, and writes its line. The line's room is taken before the first step.
pub(crate) fn bench_session<I: Source, C: Sink, R: Sink, S: SwapDevice>(
    alloc: Global,
    session: Session,
    count: u16,
    input: &mut I,
    console: &mut C,
    report: &mut R,
    swap: &mut S,
) -> Status
    requires within { IsWithinLimits session.conf }
    requires environments { HasEnvironments session }
    requires linked { IsLinked session.conf session.linked }
    ensures runs { RunsAs (Bench count) session (input_sides input.old input.new I.left I.past I.faults)
        (sink_sides console.old console.new C.taken C.puts C.faults) (sink_sides report.old report.new R.taken R.puts R.faults)
        (swap_sides swap.old swap.new S.blocks S.told S.faults) result }
{
    let Ok(mut line) = LineBuffer::new(alloc) else {
        return Status::NoMemory;
    };
    match begun(alloc, session, swap.count(), report) {
        Err(status) => status,
        Ok(mut machine) => {
            bench_machine(&mut machine, &mut line, count, input, console, report, swap)
        }
    }
}

/// Runs a machine that has begun, and writes the line of its bench.
fn bench_machine<I: Source, C: Sink, R: Sink, S: SwapDevice>(
    machine: &mut Machine,
    line: &mut LineBuffer,
    count: u16,
    input: &mut I,
    console: &mut C,
    report: &mut R,
    swap: &mut S,
) -> Status
    requires device { GoesOver machine.old.space machine.old.sched (S.blocks swap.old) }
    ensures runs { (session : Session) (start : R) → BegunAs machine.old session (sink_sides start report.old R.taken R.puts R.faults) (S.blocks swap.old)
        → RunsAs (Bench count) session (input_sides input.old input.new I.left I.past I.faults)
        (sink_sides console.old console.new C.taken C.puts C.faults) (sink_sides start report.new R.taken R.puts R.faults)
        (swap_sides swap.old swap.new S.blocks S.told S.faults) result }
{
    match run_unseen(machine, input, report, swap) {
        Err(why) => Status::from(why),
        Ok(()) => match put_line(line, count, machine, console) {
            Put::Done => Status::Fine,
            Put::Failed => Status::SinkFault,
        },
    }
}
