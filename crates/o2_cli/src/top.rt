// The top call.
ghost use Rattle.std.specs.Prelude.{◌≡◌, ◌+◌};
ghost use Rattle.o2_conf.specs.Limits.{IsWithinLimits};
ghost use Rattle.o2_open.specs.Loads.{HasEnvironments, IsLinked};
ghost use Rattle.o2_outer.specs.Texts.{Rose};
ghost use Rattle.o2_cli.specs.Top.{OnSinkFault, OnTried, OnUnrun};
ghost use Rattle.o2_words.specs.declared.words.Verb.TheVariants.{Run};
ghost use Rattle.o2_cli.specs.Checks.{IsUnstarted, ShowsLines};
ghost use Rattle.o2_cli.specs.Promises.{Promises};
ghost use Rattle.o2_open.specs.declared.session.Session.{Session};
ghost use Rattle.o2_machine.specs.GoesOver.{GoesOver};
ghost use Rattle.o2_cli.specs.Sessions.{ActsAs, BegunAs, RunsAs};
ghost use Rattle.o2_cli.specs.Sides.{file_sides, input_sides, sink_sides, swap_sides};

use crate::Status;
use crate::begun::begun;
use crate::bench::bench_session;
use crate::dump::dump_session;
use crate::lines::lines;
use o2_base::Bytes;
use o2_machine::Machine;
use o2_open::{Session, open};
use o2_outer::{Files, Put, Sink, Source, SwapDevice};
use o2_run::run;
use o2_words::{Verb, command, is_command};
use std::alloc::Global;

/// Runs a command. What it writes is what the boundless machine's run shows, or where a sink or the input fails a front
/// of it; `bench` writes a line of its run to the console; `check` starts nothing, and writes a line for each module. Where a
/// command is refused, nothing is written.
pub fn os2run<F: Files, I: Source, C: Sink, R: Sink, S: SwapDevice>(
    alloc: Global,
    words: &[String],
    files: &mut F,
    input: &mut I,
    console: &mut C,
    report: &mut R,
    swap: &mut S,
) -> Status
    ensures promises { Promises words.now (file_sides files.old files.new F.may_hold F.asked F.faults) (input_sides input.old input.new I.left I.past I.faults)
        (sink_sides console.old console.new C.taken C.puts C.faults) (sink_sides report.old report.new R.taken R.puts R.faults)
        (swap_sides swap.old swap.new S.blocks S.told S.faults) result }
{
    if !is_command(words) {
        return Status::BadWords;
    }
    let Ok(command) = command(alloc, words) else {
        return Status::NoMemory;
    };
    let Ok(name) = Bytes::from_slice(alloc, command.operand.as_bytes()) else {
        return Status::NoMemory;
    };
    match open(alloc, command.verb, files, &name) {
        Err(fault) => Status::from(fault),
        Ok(session) => act(alloc, session, command.verb, input, console, report, swap),
    }
}

/// Does what a command asks for with the session that it opened.
fn act<I: Source, C: Sink, R: Sink, S: SwapDevice>(
    alloc: Global,
    session: Session,
    verb: Verb,
    input: &mut I,
    console: &mut C,
    report: &mut R,
    swap: &mut S,
) -> Status
    requires within { IsWithinLimits session.conf }
    requires environments { HasEnvironments session }
    requires linked { IsLinked session.conf session.linked }
    ensures acts { ActsAs verb session (input_sides input.old input.new I.left I.past I.faults)
        (sink_sides console.old console.new C.taken C.puts C.faults) (sink_sides report.old report.new R.taken R.puts R.faults)
        (swap_sides swap.old swap.new S.blocks S.told S.faults) result }
{
    match verb {
        Verb::Check => check_session(alloc, &session, console),
        Verb::Dump => dump_session(alloc, session, input, console, report, swap),
        Verb::Bench(count) => bench_session(alloc, session, count, input, console, report, swap),
        Verb::Exe | Verb::Run => run_session(alloc, session, input, console, report, swap),
    }
}

/// Writes what `check` says of what it opened.
fn check_session<C: Sink>(alloc: Global, session: &Session, console: &mut C) -> Status
    ensures lines { ShowsLines session.now (C.taken console.old) (C.taken console.new) result }
    ensures at_once { OnTried result (C.puts console.new ≡ C.puts console.old + 1) }
    ensures unstarted { IsUnstarted result }
    ensures same_console { OnUnrun result (console.new ≡ console.old) }
    ensures sink_fault { OnSinkFault result (Rose (C.faults console.old) (C.faults console.new)) }
{
    let Ok(text) = lines(alloc, &session.conf.shim, &session.linked) else {
        return Status::NoMemory;
    };
    match console.put(text.as_slice()) {
        Put::Done => Status::Fine,
        Put::Failed => Status::SinkFault,
    }
}

/// Runs what a command opened.
fn run_session<I: Source, C: Sink, R: Sink, S: SwapDevice>(
    alloc: Global,
    session: Session,
    input: &mut I,
    console: &mut C,
    report: &mut R,
    swap: &mut S,
) -> Status
    requires within { IsWithinLimits session.conf }
    requires environments { HasEnvironments session }
    requires linked { IsLinked session.conf session.linked }
    ensures runs { RunsAs Run session (input_sides input.old input.new I.left I.past I.faults)
        (sink_sides console.old console.new C.taken C.puts C.faults) (sink_sides report.old report.new R.taken R.puts R.faults)
        (swap_sides swap.old swap.new S.blocks S.told S.faults) result }
{
    match begun(alloc, session, swap.count(), report) {
        Err(status) => status,
        Ok(mut machine) => run_machine(&mut machine, input, console, report, swap),
    }
}

/// Runs a machine that has begun.
fn run_machine<I: Source, C: Sink, R: Sink, S: SwapDevice>(
    machine: &mut Machine,
    input: &mut I,
    console: &mut C,
    report: &mut R,
    swap: &mut S,
) -> Status
    requires device { GoesOver machine.old.space machine.old.sched (S.blocks swap.old) }
    ensures runs { (session : Session) (start : R) → BegunAs machine.old session (sink_sides start report.old R.taken R.puts R.faults) (S.blocks swap.old)
        → RunsAs Run session (input_sides input.old input.new I.left I.past I.faults)
        (sink_sides console.old console.new C.taken C.puts C.faults) (sink_sides start report.new R.taken R.puts R.faults)
        (swap_sides swap.old swap.new S.blocks S.told S.faults) result }
{
    match run(machine, input, console, report, swap) {
        Ok(()) => Status::Fine,
        Err(why) => Status::from(why),
    }
}
