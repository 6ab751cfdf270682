// The steps of a run, each with what the processor answers to it and with the bytes that it changed: a step that ends its process leaves
// nothing to look at. So what the process holds is copied before its step. Behind the step it is compared, and the processor is asked
// over the copy, and does in it what the step did.
ghost use Rattle.std.specs.Prelude.{ℕ, ◌≡◌, ◌≤◌, IfOk};
ghost use Rattle.o2_conf.specs.Limits.{IsWithinLimits};
ghost use Rattle.o2_machine.specs.GoesOver.{GoesOver};
ghost use Rattle.o2_open.specs.Loads.{HasEnvironments, IsLinked};
ghost use Rattle.o2_outer.specs.Devices.{swap_blocks};
ghost use Rattle.o2_sched.specs.Schedule.{pick_of};
ghost use Rattle.os2trace.specs.Chosen.{is_chosen, next_of};
ghost use Rattle.os2trace.specs.Going.{IsGoing, AreShown};

use crate::command::Choice;
use crate::copied::{Copied, changes_of, copy_of, held};
use crate::output::{put_lines, put_step, put_waiter, put_word};
use crate::reading::{bytes_of, ten_at};
use o2_base::{NoMemory, SERVICE_COUNT, Selector, service_at};
use o2_core::step_plain;
use o2_isa::{Cpu, Outcome};
use o2_machine::{BeginFault, Machine, Steps, Turn};
use o2_open::Session;
use o2_outer::{MemSink, StdinSource, SureSwap};
use o2_place::SegId;
use o2_sched::Pick;
use o2_tool::REFUSED;
use o2_trace::{Before, Exception, Place, Told, Waiter, exception_of};
use std::alloc::{AllocError, Global};
use std::process::ExitCode;

/// Room for what one step puts to the console or to the report.
const STEP_ROOM: usize = 1_048_576;

/// Room for the lines of all starts: of 64 processes, each of which holds at most 4,351 selectors, with 22 bytes a line.
const START_ROOM: usize = 8_388_608;

/// The most words that a script has.
const MOST_WORDS: u64 = 100_000;

/// A sink in memory.
fn sink(alloc: Global, room: usize) -> Result<MemSink, AllocError> {
    match MemSink::new(alloc, room, Vec::new(alloc)) {
        Ok(sink) => Ok(sink),
        Err(NoMemory) => Err(AllocError),
    }
}

/// What a machine has beside it.
#[derive(Drop)]
struct Outside {
    /// The standard input, which is read as the run asks for it.
    input: StdinSource,
    /// What the turn puts to the console.
    console: MemSink,
    /// The lines of the turn; before the first one those of the starts.
    report: MemSink,
    swap: SureSwap,
    /// What the process of the step holds. It is copied anew where that may not be what the step before it left: a call of a service
    /// may change what a process holds, and the step of another one the bytes that they share.
    copied: Copied,
    /// Whether each process, by its number, stands where it stood before its last step.
    standing: Vec<bool>,
}

/// What stands beside a machine with so many swap blocks.
fn beside(rt: &HostRuntime, blocks: u32) -> Result<Outside, NoMemory>
    requires { blocks ≤ 65536 }
    ensures { IfOk result (λ o. swap_blocks o.swap ≡ blocks) }
{
    Ok(Outside {
        input: StdinSource::new(rt.alloc(), rt.reader())?,
        console: sink(rt.alloc(), STEP_ROOM)?,
        report: sink(rt.alloc(), START_ROOM)?,
        swap: SureSwap::new(rt.alloc(), blocks)?,
        copied: Copied::new(rt.alloc())?,
        standing: vec![in rt.alloc(); false; 65]?,
    })
}

/// The process whose step is next; none where the run has ended or stopped, where a turn would end it, and where a word is next.
fn next_process(machine: &Machine) -> Option<u16>
    ensures next { result ≡ next_of machine.now.last (pick_of machine.now.sched) }
{
    if machine.stopped().is_some() {
        return None;
    }
    match machine.sched.coming() {
        Pick::Step(process) => Some(process),
        Pick::Discard => None,
        Pick::AllEnded => None,
        Pick::BudgetSpent => None,
    }
}

/// The segment that a process holds under a selector with privilege level 3; none where it holds none.
fn named(machine: &Machine, process: u16, selector: Selector) -> Option<SegId> {
    if !selector.is_local() || selector.rpl() != 3 {
        return None;
    }
    let (id, _) = held(machine, process, selector.index())?;
    Some(id)
}

/// The bytes of the instruction at CS:IP, ten at most.
fn code(
    alloc: Global,
    machine: &Machine,
    swap: &mut SureSwap,
    process: u16,
    cpu: &Cpu,
) -> Result<([u8; 10], usize), AllocError>
    requires shown { AreShown machine.now }
    ensures blocks { swap_blocks swap.new ≡ swap_blocks swap.old }
{
    let Some(id) = named(machine, process, Selector(cpu.cs)) else {
        return Ok(([0u8; 10], 0));
    };
    if let Some(window) = machine.space.store.window(id) {
        return Ok(ten_at(window, cpu.ip));
    }
    match bytes_of(alloc, &machine.space, id, swap)? {
        Some(bytes) => Ok(ten_at(bytes.as_slice(), cpu.ip)),
        None => Ok(([0u8; 10], 0)),
    }
}

/// A step before it is taken. What its process holds is copied.
fn prepared(
    alloc: Global,
    machine: &Machine,
    outside: &mut Outside,
    process: u16,
    cpu: Cpu,
) -> Result<Before, AllocError>
    requires shown { AreShown machine.now }
    ensures blocks { swap_blocks outside.new.swap ≡ swap_blocks outside.old.swap }
{
    let (bytes, count) = code(alloc, machine, &mut outside.swap, process, &cpu)?;
    if copy_of(
        alloc,
        machine,
        &mut outside.swap,
        &mut outside.copied,
        process,
    )
    .is_err()
    {
        return Err(AllocError);
    }
    Ok(Before {
        process,
        cpu,
        bytes,
        count,
    })
}

/// What the processor answers to a step, which is done in the copy of what its process holds.
fn answer_of(copied: &mut Copied, before: &Before) -> Outcome {
    let mut cpu = before.cpu;
    let answer = step_plain(&mut copied.memory, before.process, &mut cpu);
    if !matches!(answer, Outcome::Done) {
        copied.process = 0;
    }
    answer
}

/// Whether a step is shown, by its number from 1, its process and the selector in CS.
fn is_chosen(choice: Choice, number: u64, process: u16, cs: u16) -> bool
    ensures { result ≡ is_chosen choice number process cs }
{
    number >= choice.from
        && (choice.process == 0 || choice.process == process)
        && (choice.selector == 0 || choice.selector == cs)
}

/// The process and the registers of the step that is next.
fn next_step(machine: &Machine) -> Option<(u16, Cpu)> {
    let process = next_process(machine)?;
    let (cpu, _, _) = machine.process(process)?;
    Some((process, cpu))
}

/// A step that is next, where it is shown.
fn chosen(step: Option<(u16, Cpu)>, choice: Choice, number: u64) -> Option<(u16, Cpu)> {
    let (process, cpu) = step?;
    if is_chosen(choice, number, process, cpu.cs) {
        Some((process, cpu))
    } else {
        None
    }
}

/// Whether a living process stands where it stood with these registers.
fn stands(machine: &Machine, process: u16, old: &Cpu) -> bool {
    match machine.process(process) {
        Some((new, 0, _)) => new.ip == old.ip && new.cs == old.cs && new.sp == old.sp,
        _ => false,
    }
}

/// Notes whether the process of a step stands where it stood before it, where the step was taken.
fn note(machine: &Machine, standing: &mut [bool], turn: &Turn, step: Option<(u16, Cpu)>) {
    let Some((process, old)) = step else {
        return;
    };
    if !matches!(turn, Turn::Ran) {
        return;
    }
    if let Some(place) = standing.get_mut(process as usize) {
        *place = stands(machine, process, &old);
    }
}

/// The name of the service that the processor's answer calls, where its process stands before the call.
fn waited_call(stands: bool, answer: Outcome) -> &'static [u8] {
    match answer {
        Outcome::Gate { service, .. } => {
            if stands && service >= 1 && service <= SERVICE_COUNT {
                service_at(service).name
            } else {
                b""
            }
        }
        _ => b"",
    }
}

/// The exception by which a step ended its process. A load of what was discarded misses, and the error code is its selector.
fn ended_by(before: &Before, vector: u16, answer: Outcome) -> Exception {
    match answer {
        Outcome::Miss(selector) => Exception {
            vector,
            code: selector.0 & 65532,
            place: Place::Instruction,
            first: None,
            second: None,
        },
        answer => exception_of(before, vector, answer),
    }
}

/// What is told of a step that was taken.
fn told<'a>(
    machine: &Machine,
    outside: &'a Outside,
    before: Before,
    number: u64,
    answer: Outcome,
) -> Told<'a> {
    let (after, exception) = match machine.process(before.process) {
        Some((cpu, 0, _)) => (Some(cpu), None),
        Some((_, 2, vector)) => (None, Some(ended_by(&before, vector, answer))),
        _ => (None, None),
    };
    let waits = waited_call(stands(machine, before.process, &before.cpu), answer);
    Told {
        number,
        before,
        after,
        exception,
        waits,
        changes: outside.copied.changes.as_slice(),
        console: outside.console.taken(),
        report: outside.report.taken(),
    }
}

/// Shows a step that was taken.
fn show(
    rt: &HostRuntime,
    machine: &Machine,
    outside: &mut Outside,
    choice: Choice,
    before: Before,
    number: u64,
) -> anyhow::Result<()>
    requires shown { AreShown machine.now }
    ensures blocks { swap_blocks outside.new.swap ≡ swap_blocks outside.old.swap }
{
    if choice.has_writes {
        changes_of(rt.alloc(), machine, &mut outside.swap, &mut outside.copied)?;
    }
    let answer = answer_of(&mut outside.copied, &before);
    let told = told(machine, outside, before, number, answer);
    put_step(rt, &told, choice.is_json)
}

/// One turn.
fn turn(machine: &mut Machine, outside: &mut Outside) -> Turn
    requires going { IsGoing machine.old outside.old.swap }
    ensures going { IsGoing machine.new outside.new.swap }
{
    machine.turn(
        &mut outside.input,
        &mut outside.console,
        &mut outside.report,
        &mut outside.swap,
    )
}

/// Takes a step, and shows it; where the run stops before it, the stop line alone.
fn shown_turn(
    rt: &HostRuntime,
    machine: &mut Machine,
    outside: &mut Outside,
    choice: Choice,
    step: (u16, Cpu),
    number: u64,
) -> anyhow::Result<Turn>
    requires going { IsGoing machine.old outside.old.swap }
    ensures going { IsGoing machine.new outside.new.swap }
{
    let before = prepared(rt.alloc(), machine, outside, step.0, step.1)?;
    let turn = turn(machine, outside);
    if matches!(turn, Turn::Ran) {
        show(rt, machine, outside, choice, before, number)?;
    } else {
        put_lines(rt, outside.report.taken(), choice.is_json)?;
    }
    Ok(turn)
}

/// Takes a turn whose step isn't shown; the last line of the run is, and that of a stop.
fn unseen_turn(
    rt: &HostRuntime,
    machine: &mut Machine,
    outside: &mut Outside,
    choice: Choice,
) -> anyhow::Result<Turn>
    requires going { IsGoing machine.old outside.old.swap }
    ensures going { IsGoing machine.new outside.new.swap }
{
    outside.copied.process = 0;
    let turn = turn(machine, outside);
    if !matches!(turn, Turn::Ran) {
        put_lines(rt, outside.report.taken(), choice.is_json)?;
    }
    Ok(turn)
}

/// Empty sinks for a turn.
fn empty(alloc: Global, outside: &mut Outside) -> Result<(), AllocError>
    ensures blocks { swap_blocks outside.new.swap ≡ swap_blocks outside.old.swap }
{
    outside.console = sink(alloc, STEP_ROOM)?;
    outside.report = sink(alloc, STEP_ROOM)?;
    Ok(())
}

/// Shows a word behind whose turn the step of this number comes.
fn told_word(rt: &HostRuntime, turn: &Turn, choice: Choice, number: u64) -> anyhow::Result<()> {
    if matches!(turn, Turn::Discarded) && number >= choice.from {
        put_word(rt, choice.is_json)?;
    }
    Ok(())
}

/// Takes a turn: one whose step is shown, or another.
fn taken_turn(
    rt: &HostRuntime,
    machine: &mut Machine,
    outside: &mut Outside,
    choice: Choice,
    step: Option<(u16, Cpu)>,
    number: u64,
) -> anyhow::Result<Turn>
    requires going { IsGoing machine.old outside.old.swap }
    ensures going { IsGoing machine.new outside.new.swap }
{
    match step {
        Some(step) => shown_turn(rt, machine, outside, choice, step, number),
        None => unseen_turn(rt, machine, outside, choice),
    }
}

/// Takes a turn: the step of this number, from 1, or the word in front of it.
fn turned(
    rt: &HostRuntime,
    machine: &mut Machine,
    outside: &mut Outside,
    choice: Choice,
    number: u64,
) -> anyhow::Result<Turn>
    requires going { IsGoing machine.old outside.old.swap }
    ensures going { IsGoing machine.new outside.new.swap }
{
    empty(rt.alloc(), outside)?;
    let next = next_step(machine);
    let step = chosen(next, choice, number);
    let turn = taken_turn(rt, machine, outside, choice, step, number)?;
    note(machine, &mut outside.standing, &turn, next);
    told_word(rt, &turn, choice, number)?;
    Ok(turn)
}

/// The call in which a process stands that lives, where it does so in one.
fn standing_call(
    alloc: Global,
    machine: &Machine,
    outside: &mut Outside,
    process: u16,
    cpu: Cpu,
) -> Result<&'static [u8], AllocError>
    requires shown { AreShown machine.now }
    ensures blocks { swap_blocks outside.new.swap ≡ swap_blocks outside.old.swap }
{
    outside.copied.process = 0;
    let before = prepared(alloc, machine, outside, process, cpu)?;
    let answer = answer_of(&mut outside.copied, &before);
    Ok(waited_call(true, answer))
}

/// Says where a process waits that stands where it stood before its last step, and in which call.
fn put_waiting(
    rt: &HostRuntime,
    machine: &Machine,
    outside: &mut Outside,
    is_json: bool,
    process: u16,
) -> anyhow::Result<()>
    requires shown { AreShown machine.now }
    ensures blocks { swap_blocks outside.new.swap ≡ swap_blocks outside.old.swap }
{
    let Some((cpu, 0, _)) = machine.process(process) else {
        return Ok(());
    };
    let call = standing_call(rt.alloc(), machine, outside, process, cpu)?;
    if call.is_empty() {
        return Ok(());
    }
    let waiter = Waiter {
        process,
        cs: cpu.cs,
        ip: cpu.ip,
        call,
    };
    put_waiter(rt, &waiter, is_json)
}

/// Says of each process that waits at the end of the run where it does.
fn put_all_waiting(
    rt: &HostRuntime,
    machine: &Machine,
    outside: &mut Outside,
    is_json: bool,
) -> anyhow::Result<()>
    requires shown { AreShown machine.now }
{
    for process in 1..65u16 {
        if outside.standing.get(process as usize).copied() == Some(true) {
            put_waiting(rt, machine, outside, is_json, process)?;
        }
    }
    Ok(())
}

/// Shows the lines of the starts, and the steps of a machine that stands at the front of its run.
fn follow_on(
    rt: &HostRuntime,
    machine: &mut Machine,
    outside: &mut Outside,
    choice: Choice,
) -> anyhow::Result<ExitCode>
    requires going { IsGoing machine.old outside.old.swap }
{
    put_lines(rt, outside.report.taken(), choice.is_json)?;
    let last = choice.to.min(1 << 60);
    let mut number = 1u64;
    for _turn in 0..last.saturating_add(MOST_WORDS) {
        if number > last {
            return Ok(ExitCode::SUCCESS);
        }
        match turned(rt, machine, outside, choice, number)? {
            Turn::Ran => number = number.saturating_add(1),
            Turn::Discarded => {}
            Turn::AllEnded | Turn::BudgetSpent | Turn::NoRoom | Turn::SwapFull => {
                put_all_waiting(rt, machine, outside, choice.is_json)?;
                return Ok(ExitCode::SUCCESS);
            }
            Turn::InputFault => anyhow::bail!("the input can't be read"),
            _ => anyhow::bail!("the run has stopped"),
        }
    }
    Ok(ExitCode::SUCCESS)
}

/// The machine of a session at the front of its run, with the lines of its starts put.
fn machine_of(alloc: Global, session: Session, starts: &mut MemSink) -> Result<Machine, BeginFault>
    requires within { IsWithinLimits session.conf }
    requires environments { HasEnvironments session }
    requires linked { IsLinked session.conf session.linked }
    ensures { IfOk result (λ m. (device : ℕ) → session.conf.swap ≤ device
        → GoesOver m.space m.sched device) }
{
    let Session { conf, linked } = session;
    match Machine::begin(alloc, &conf, linked, conf.swap, starts) {
        Ok(machine) => Ok(machine),
        Err(fault) => Err(fault),
    }
}

/// What is said of a machine that doesn't begin.
fn not_begun(rt: &HostRuntime, fault: BeginFault) -> anyhow::Result<ExitCode> {
    match fault {
        BeginFault::Start(_, _) => {
            eprintln!(rt; "os2trace: it doesn't start: `os2why` with the same words says why")?;
            Ok(ExitCode::from(REFUSED))
        }
        _ => anyhow::bail!("there is no memory"),
    }
}

/// Shows the run of a session.
fn begun(
    rt: &HostRuntime,
    session: Session,
    outside: &mut Outside,
    choice: Choice,
) -> anyhow::Result<ExitCode>
    requires within { IsWithinLimits session.conf }
    requires environments { HasEnvironments session }
    requires linked { IsLinked session.conf session.linked }
    requires blocks { session.conf.swap ≤ swap_blocks outside.old.swap }
{
    match machine_of(rt.alloc(), session, &mut outside.report) {
        Ok(mut machine) => follow_on(rt, &mut machine, outside, choice),
        Err(fault) => not_begun(rt, fault),
    }
}

/// Shows the run of a session, over the standard input.
pub fn follow(rt: &HostRuntime, session: Session, choice: Choice) -> anyhow::Result<ExitCode>
    requires within { IsWithinLimits session.conf }
    requires environments { HasEnvironments session }
    requires linked { IsLinked session.conf session.linked }
{
    match beside(rt, session.conf.swap) {
        Ok(mut outside) => begun(rt, session, &mut outside, choice),
        Err(NoMemory) => anyhow::bail!("there is no memory"),
    }
}
