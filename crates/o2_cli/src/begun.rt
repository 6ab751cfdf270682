// The machine of a session, before its first step.
ghost use Rattle.std.specs.Prelude.{◌≡◌, ◌≤◌, ◌+◌, length, IfOk, IfErr, Ok};
ghost use Rattle.o2_conf.specs.Limits.{IsWithinLimits};
ghost use Rattle.o2_open.specs.Loads.{HasEnvironments, IsLinked};
ghost use Rattle.o2_outer.specs.Texts.{Rose};
ghost use Rattle.o2_world.specs.Starts.{Built};
ghost use Rattle.o2_machine.specs.Begins.{HasBegun, starting};
ghost use Rattle.o2_cli.specs.Top.{OnSinkFault, OnUnrun};
ghost use Rattle.o2_cli.specs.RunTexts.{FailsToBegin, RefusesRun};

use crate::Status;
use o2_machine::{BeginFault, Machine};
use o2_open::{Session, program_places, refused_start};
use o2_outer::Sink;
use std::alloc::Global;

/// The machine of a session over a swap device of so many blocks: all processes have started, and the lines of their starts are put.
pub(crate) fn begun<R: Sink>(
    alloc: Global,
    session: Session,
    blocks: u32,
    report: &mut R,
) -> Result<Machine, Status>
    requires within { IsWithinLimits session.conf }
    requires environments { HasEnvironments session }
    requires linked { IsLinked session.conf session.linked }
    ensures begins { IfOk result (λ m. HasBegun m session.linked session.conf blocks (R.taken report.old) (R.taken report.new)) }
    ensures puts { IfOk result (λ m. (b : Built) → starting session.linked session.conf ≡ Ok b
        → R.puts report.new ≡ R.puts report.old + length b.lines) }
    ensures refused { IfErr result (RefusesRun session) }
    ensures failed { IfErr result (FailsToBegin session
        (R.taken report.old) (R.taken report.new) (R.puts report.old) (R.puts report.new)) }
    ensures same_report { IfErr result (λ status. OnUnrun status (report.new ≡ report.old)) }
    ensures count { R.faults report.old ≤ R.faults report.new }
    ensures sink_fault { IfErr result (λ status. OnSinkFault status (Rose (R.faults report.old) (R.faults report.new))) }
{
    let Session { conf, linked } = session;
    let Ok(places) = program_places(alloc, &linked) else {
        return Err(Status::NoMemory);
    };
    match Machine::begin(alloc, &conf, linked, blocks, report) {
        Err(BeginFault::NoMemory) => Err(Status::NoMemory),
        Err(BeginFault::SinkFault) => Err(Status::SinkFault),
        Err(BeginFault::Start(pid, fault)) => Err(Status::from(refused_start(
            alloc,
            &conf,
            places.as_slice(),
            pid,
            fault,
        ))),
        Ok(machine) => Ok(machine),
    }
}
