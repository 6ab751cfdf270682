// A dump: the run of a machine file, and the core image of its machine.
ghost use Rattle.std.specs.Prelude.{◌≡◌, ◌≤◌, ◌<◌, ◌++◌, [], IsTrue, length, map, min, option_map, option_to_list, slice_get, vec_capacity};
ghost use Rattle.o2_conf.specs.Limits.{IsWithinLimits};
ghost use Rattle.o2_open.specs.Loads.{HasEnvironments, IsLinked};
ghost use Rattle.o2_world.specs.World.{Setting, World};
ghost use Rattle.o2_dumping.specs.Puts.{HasCauses, IsRead};
ghost use Rattle.o2_machine.specs.GoesOver.{GoesOver};
ghost use Rattle.o2_machine.specs.Shown.{shown_proc};
ghost use Rattle.o2_machine.specs.StandsFor.{StandsFor};
ghost use Rattle.o2_words.specs.declared.words.Verb.TheVariants.{Dump};
ghost use Rattle.o2_cli.specs.DumpTexts.{GainsByWrote, is_dumped};
ghost use Rattle.o2_open.specs.declared.session.Session.{Session};
ghost use Rattle.o2_cli.specs.Sessions.{BegunAs, RunsAs};
ghost use Rattle.o2_cli.specs.Sides.{input_sides, sink_sides, swap_sides};
ghost use Rattle.o2_cli.specs.Statuses.{status_of_image, status_of_run};
ghost use Rattle.o2_store.specs.Idle.{NoneTaken};

use crate::Status;
use crate::begun::begun;
use crate::unseen::run_unseen;
use o2_dumping::{Parts, Wrote, write};
use o2_isa::Cpu;
use o2_machine::Machine;
use o2_open::Session;
use o2_outer::{Sink, Source, SwapDevice};
use o2_run::{Fault, Stop};
use o2_stands::lawful;
use std::alloc::Global;

/// How many processes a machine has at most.
const MOST_PROCESSES: u16 = 64;

/// Adds the process of a number, where there is one, to a list that has room for it.
fn add_process(rows: &mut Vec<(Cpu, u16, u16)>, machine: &Machine, place: u16)
    requires room { length rows.old.items < vec_capacity rows.old }
    requires place { place < 64 }
    ensures items { rows.new.items ≡ rows.old.items ++ option_to_list (option_map shown_proc (slice_get machine.now.space.procs.items place)) }
    ensures room { vec_capacity rows.old ≤ vec_capacity rows.new }
{
    match machine.process(place + 1) {
        Some(row) => {
            let _ = rows.push(row);
        }
        None => {}
    }
}

/// Fills a list, which has room for them, with the processes: their registers, the numbers of their states, and their codes.
fn fill(rows: &mut Vec<(Cpu, u16, u16)>, machine: &Machine)
    requires empty { rows.old.items ≡ [] }
    requires room { 64 ≤ vec_capacity rows.old }
    requires few { length machine.now.space.procs.items ≤ 64 }
    ensures { rows.new.items ≡ map shown_proc machine.now.space.procs.items }
{
    for k in 0..MOST_PROCESSES {
        add_process(rows, machine, k);
    }
}

/// Puts the core image of a machine whose run came to its end or its stop, over a device of which it uses so many blocks.
fn put_image<C: Sink, S: SwapDevice>(
    machine: &Machine,
    rows: &mut Vec<(Cpu, u16, u16)>,
    blocks: u32,
    console: &mut C,
    swap: &mut S,
) -> Wrote
    requires empty { rows.old.items ≡ [] }
    requires room { 64 ≤ vec_capacity rows.old }
    requires device { GoesOver machine.now.space machine.now.sched (S.blocks swap.old) }
    ensures text { IsTrue (S.told swap.new) → (s : Setting) (w : World) → blocks ≡ min s.swap (S.blocks swap.old)
        → StandsFor machine.now (S.blocks swap.old) (S.block swap.old) s w
        → GainsByWrote machine.now.space.images (S.blocks swap.old) s w (C.taken console.old) (C.taken console.new) result }
    ensures read { IsRead (S.blocks swap.old) (S.blocks swap.new)
        (S.told swap.old) (S.told swap.new) (S.block swap.old) (S.block swap.new) }
    ensures idle { NoneTaken machine.now.space.store.swap → swap.new ≡ swap.old }
    ensures causes { HasCauses (C.faults console.old) (C.faults console.new)
        (S.faults swap.old) (S.faults swap.new) result }
{
    let store = machine.store();
    let regions = machine.regions();
    lawful(store, regions);
    fill(rows, machine);
    let parts = Parts {
        store,
        regions,
        processes: rows.as_slice(),
        blocks,
        steps: machine.steps(),
        console: machine.console_bytes(),
    };
    write(&parts, console, swap)
}

/// The status of an image: this one, where it was put whole.
fn status_of_image(wrote: Wrote, whole: Status) -> Status
    ensures { result ≡ status_of_image wrote whole }
{
    match wrote {
        Wrote::Done => whole,
        Wrote::SinkFault => Status::SinkFault,
        Wrote::SwapFault => Status::SwapFault,
    }
}

/// The status of a run by itself.
fn status_of_run(ended: Result<(), Fault>) -> Status
    ensures { result ≡ status_of_run ended }
{
    match ended {
        Ok(()) => Status::Fine,
        Err(why) => Status::from(why),
    }
}

/// Whether an image is put behind a run: at its end, and at a stop for room or for swap whose line was put whole.
fn is_dumped(ended: Result<(), Fault>, line_put: bool) -> bool
    ensures { result ≡ is_dumped ended line_put }
{
    match ended {
        Ok(()) => true,
        Err(Fault::Stopped(Stop::NoRoom)) => line_put,
        Err(Fault::Stopped(Stop::SwapFull)) => line_put,
        Err(_) => false,
    }
}

/// Runs what a machine file says, and writes the core image of its machine. What an image needs is taken before the first step.
#[tactic(auto, using(o2_outer::proofs::Inputs::goes_same))]
pub(crate) fn dump_session<I: Source, C: Sink, R: Sink, S: SwapDevice>(
    alloc: Global,
    session: Session,
    input: &mut I,
    console: &mut C,
    report: &mut R,
    swap: &mut S,
) -> Status
    requires within { IsWithinLimits session.conf }
    requires environments { HasEnvironments session }
    requires linked { IsLinked session.conf session.linked }
    ensures runs { RunsAs Dump session (input_sides input.old input.new I.left I.past I.faults)
        (sink_sides console.old console.new C.taken C.puts C.faults) (sink_sides report.old report.new R.taken R.puts R.faults)
        (swap_sides swap.old swap.new S.blocks S.told S.faults) result }
{
    let Ok(mut rows) = Vec::with_capacity(alloc, usize::from(MOST_PROCESSES)) else {
        return Status::NoMemory;
    };
    let device = swap.count();
    let blocks = session.conf.swap.min(device);
    match begun(alloc, session, device, report) {
        Err(status) => status,
        Ok(mut machine) => {
            dump_machine(
                &mut machine,
                &mut rows,
                blocks,
                input,
                console,
                report,
                swap,
            )
        }
    }
}

/// Runs a machine that has begun, over a device of which it uses so many blocks, and puts its core image.
fn dump_machine<I: Source, C: Sink, R: Sink, S: SwapDevice>(
    machine: &mut Machine,
    rows: &mut Vec<(Cpu, u16, u16)>,
    blocks: u32,
    input: &mut I,
    console: &mut C,
    report: &mut R,
    swap: &mut S,
) -> Status
    requires empty { rows.old.items ≡ [] }
    requires room { 64 ≤ vec_capacity rows.old }
    requires device { GoesOver machine.old.space machine.old.sched (S.blocks swap.old) }
    ensures runs { (session : Session) (start : R) → BegunAs machine.old session (sink_sides start report.old R.taken R.puts R.faults) (S.blocks swap.old)
        → blocks ≡ min session.conf.swap (S.blocks swap.old) → RunsAs Dump session (input_sides input.old input.new I.left I.past I.faults)
        (sink_sides console.old console.new C.taken C.puts C.faults) (sink_sides start report.new R.taken R.puts R.faults)
        (swap_sides swap.old swap.new S.blocks S.told S.faults) result }
{
    let ended = run_unseen(machine, input, report, swap);
    let whole = status_of_run(ended);
    if is_dumped(ended, machine.line_put()) {
        let wrote = put_image(machine, rows, blocks, console, swap);
        status_of_image(wrote, whole)
    } else {
        whole
    }
}
