// How a machine begins: its processes start, and the lines of their starts are put.
ghost use Rattle.std.specs.Prelude.{◌≡◌, ◌≤◌, ◌+◌, ◌^◌, ℕ, List, length, map, min, sum_by, IfOk, Ok, None, replicate};
ghost use Rattle.o2_conf.specs.Limits.{IsWithinLimits};
ghost use Rattle.o2_conf.specs.Environments.{environment_bytes};
ghost use Rattle.o2_image.specs.ImageList.{Exists};
ghost use Rattle.o2_outer.specs.Texts.{Rose};
ghost use Rattle.o2_outer.specs.Answers.{OnFailed};
ghost use Rattle.o2_swapmap.specs.Piles.{all_of};
ghost use Rattle.o2_world.specs.Reach.{IsTold};
ghost use Rattle.o2_world.specs.Tied.{IsSound};
ghost use Rattle.o2_world.specs.World.{Setting, World};
ghost use Rattle.o2_load.specs.Beginnings.{lines_from, program_name};
ghost use Rattle.o2_world.specs.Starts.{Built};
ghost use Rattle.o2_opening.specs.Openings.{IsOpened, IsSettingOf, StandsFirst};
ghost use Rattle.o2_machine.specs.Begins.{Begins, BeginPuts, IsLinked, OnSinkFault, OnUnbegun, opening, opening_in, starting};
ghost use Rattle.o2_machine.specs.PutLines.{PutsLines};
ghost use Rattle.o2_machine.specs.Readies.{first_proc, first_schedule};
ghost use Rattle.o2_store.specs.Idle.{NoneTaken};

use crate::fault::BeginFault;
use crate::machine::Machine;
use crate::starts::put_start;
use o2_base::{Fail, NoMemory};
use o2_cache::DecodeCache;
use o2_conf::Conf;
use o2_dynlink::Linked;
use o2_gate::State as Services;
use o2_image::Images;
use o2_isa::Cpu;
use o2_opening::{Opened, open};
use o2_outer::{Put, Sink};
use o2_report::LineBuffer;
use o2_sched::Sched;
use o2_shared::Shared;
use o2_space::{Proc, Space};
use o2_world::State;
use std::alloc::Global;

/// What a machine has before its first step beside the store and what processes hold, and a buffer for the lines of the starts.
#[derive(Drop)]
struct Front {
    procs: Vec<Proc>,
    sched: Sched,
    services: Services,
    cache: DecodeCache,
    names: Shared,
    line: LineBuffer,
}

/// The processes before their first step.
fn first_procs(alloc: Global, cpus: &[Cpu]) -> Result<Vec<Proc>, NoMemory>
    ensures { IfOk result (λ v. v.items ≡ map first_proc cpus.now) }
{
    let mut procs = Vec::new(alloc);
    for cpu in cpus {
        procs.push(Proc {
            cpu: *cpu,
            state: State::Live,
        })?;
    }
    Ok(procs)
}

/// How many lines the starts have: one, and one for each selector.
fn line_count(starts: &[Vec<u16>]) -> u128
    requires { length starts.now ≤ 64 }
    ensures count { result ≡ sum_by (λ v. length v.items + 1) starts.now }
    ensures few { result ≤ 2 ^ 96 }
{
    let mut count: u128 = 0;
    for selectors in starts {
        count += selectors.len() as u128 + 1;
    }
    count
}

/// All that a machine has beside its store, for processes with these registers.
fn prepared(alloc: Global, conf: &Conf, cpus: &[Cpu]) -> Result<Front, NoMemory>
    requires few { length conf.now.process ≤ 64 }
    ensures procs { IfOk result (λ f. f.procs.items ≡ map first_proc cpus.now) }
    ensures sched { IfOk result (λ f. f.sched ≡ first_schedule conf.now) }
    ensures avail { IfOk result (λ f. f.services.avail ≡ conf.now.avail) }
    ensures names { IfOk result (λ f. f.names ≡ replicate 4096 None) }
{
    let procs = first_procs(alloc, cpus)?;
    let sched = Sched::make(alloc, conf)?;
    let services = Services::new(alloc, conf.avail)?;
    let cache = DecodeCache::new(alloc)?;
    let names = Shared::new(alloc)?;
    let line = LineBuffer::new(alloc)?;
    Ok(Front {
        procs,
        sched,
        services,
        cache,
        names,
        line,
    })
}

/// The machine of processes that have started, with these images.
fn assemble(front: Front, conf: &Conf, opened: Opened, images: Images, lines: u128) -> Machine
    requires sched { front.sched ≡ first_schedule conf.now }
    requires procs { length front.procs.items ≡ length conf.now.process }
    requires lines { lines ≤ 2 ^ 96 }
    ensures space { result.space ≡ record {
      procs = front.procs;
      ends = opened.ends;
      store = opened.store;
      regions = opened.regions;
      names = front.names;
      images = images;
      services = front.services;
      cache = front.cache;
    } }
    ensures sched { result.sched ≡ front.sched }
    ensures budget { result.budget ≡ conf.now.budget }
    ensures console { result.console_bytes ≡ 0 }
    ensures lines { result.lines ≡ lines }
    ensures fresh { result.last ≡ None }
{
    let Front {
        procs,
        sched,
        services,
        cache,
        names,
        ..
    } = front;
    let Opened {
        store,
        regions,
        ends,
        ..
    } = opened;
    Machine {
        space: Space {
            procs,
            ends,
            store,
            regions,
            names,
            images,
            services,
            cache,
        },
        sched,
        budget: conf.budget,
        console_bytes: 0,
        lines,
        last: None,
    }
}

/// The name of the program that a process runs, of at most 255 bytes.
fn program_name(linked: &Linked, pid: u16) -> &[u8]
    requires { Exists linked.now.programs pid }
    ensures value { result.now ≡ program_name linked.now pid }
    ensures short { length result.now ≤ 255 }
{
    let Some(place) = linked.program(pid) else {
        unreachable!()
    };
    let Some(program) = linked.images().module(place) else {
        unreachable!()
    };
    program.is_runnable();
    program.name().as_slice()
}

/// Puts the lines of the starts, one process after the other, each with its selectors.
fn put_starts<R: Sink>(
    line: &mut LineBuffer,
    linked: &Linked,
    starts: &[Vec<u16>],
    report: &mut R,
) -> Put
    requires few { length starts.now ≤ 64 }
    requires there { length starts.now ≤ length linked.now.programs }
    ensures lines { PutsLines (lines_from linked.now 1 (map (λ v. v.items) starts.now))
        (R.taken report.old) (R.taken report.new) (R.puts report.old) (R.puts report.new) result }
    ensures count { R.faults report.old ≤ R.faults report.new }
    ensures cause { OnFailed result (Rose (R.faults report.old) (R.faults report.new)) }
{
    for (i, selectors) in starts.iter().enumerate() {
        let pid = i as u16 + 1;
        match put_start(line, pid, program_name(linked, pid), selectors, report) {
            Put::Done => {}
            Put::Failed => return Put::Failed,
        }
    }
    Put::Done
}

/// The machine of processes that have started, with the lines of their starts put.
fn finish<R: Sink>(
    alloc: Global,
    conf: &Conf,
    linked: Linked,
    opened: Opened,
    blocks: u32,
    report: &mut R,
) -> Result<Machine, BeginFault>
    requires within { IsWithinLimits conf.now }
    requires count { length opened.cpus.items ≡ length conf.now.process }
    requires rows { length opened.starts.items ≡ length opened.cpus.items }
    requires few { length conf.now.process ≤ 64 }
    requires there { length conf.now.process ≤ length linked.programs }
    requires processes { opened.regions.processes ≡ length conf.now.process }
    requires swap { all_of opened.store.swap ≡ min conf.now.swap blocks }
    requires unused { NoneTaken opened.store.swap }
    requires stands { (s : Setting) (input : List ℕ) (w : World) → IsSettingOf conf.now s
        → opening_in s linked conf.now input ≡ Ok w → IsSound w → StandsFirst opened linked.images blocks s w }
    requires sound { (input : List ℕ) (w : World) → opening linked conf.now input ≡ Ok w → IsSound w }
    requires told { (input : List ℕ) (w : World) → opening linked conf.now input ≡ Ok w → IsTold w }
    ensures begins { (b : Built) → starting linked conf.now ≡ Ok b → IsOpened opened linked b
        → Begins linked conf.now blocks (R.taken report.old) (R.taken report.new) result }
    ensures puts { (b : Built) → IsOpened opened linked b → BeginPuts b.lines
        (R.taken report.old) (R.taken report.new) (R.puts report.old) (R.puts report.new) result }
    ensures untouched { OnUnbegun result (report.new ≡ report.old) }
    ensures count { R.faults report.old ≤ R.faults report.new }
    ensures cause { OnSinkFault result (Rose (R.faults report.old) (R.faults report.new)) }
{
    let Ok(mut front) = prepared(alloc, conf, &opened.cpus) else {
        return Err(BeginFault::NoMemory);
    };
    let lines = line_count(&opened.starts);
    match put_starts(&mut front.line, &linked, &opened.starts, report) {
        Put::Failed => Err(BeginFault::SinkFault),
        Put::Done => Ok(assemble(front, conf, opened, linked.into_images(), lines)),
    }
}

impl Machine {
    /// The machine of a setting and its linked modules, over a swap device of so many blocks, or of which it is to use as many at
    /// most: all processes have started, and the lines of their starts are put. The first start that is refused decides; every
    /// refusal of a start, and want of memory, come before the first line.
    pub fn begin<R: Sink>(
        alloc: Global,
        conf: &Conf,
        linked: Linked,
        blocks: u32,
        report: &mut R,
    ) -> Result<Machine, BeginFault>
        requires within { IsWithinLimits conf.now }
        requires environments { linked.images.environments ≡ map environment_bytes conf.now.process }
        requires linked { IsLinked conf.now linked }
        ensures begins { Begins linked conf.now blocks (R.taken report.old) (R.taken report.new) result }
        // Each line of the starts is one put. Where one failed, those in front of it were put whole, and none behind it was put.
        ensures puts { (b : Built) → starting linked conf.now ≡ Ok b → BeginPuts b.lines
            (R.taken report.old) (R.taken report.new) (R.puts report.old) (R.puts report.new) result }
        ensures untouched { OnUnbegun result (report.new ≡ report.old) }
        ensures count { R.faults report.old ≤ R.faults report.new }
        ensures cause { OnSinkFault result (Rose (R.faults report.old) (R.faults report.new)) }
    {
        linked.process_count();
        match open(alloc, &linked, conf, blocks) {
            Ok(opened) => finish(alloc, conf, linked, opened, blocks, report),
            Err(Fail::NoMemory) => Err(BeginFault::NoMemory),
            Err(Fail::Bad(refusal)) => Err(BeginFault::Start(refusal.pid, refusal.fault)),
        }
    }
}
