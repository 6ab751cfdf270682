// All processes start, one after the other.
ghost use Rattle.std.specs.Prelude.{◌≡◌, ◌≤◌, ◌<◌, ◌+◌, [], ℕ, All, length, map, Ok, IfOk, OnOk};
ghost use Rattle.o2_conf.specs.Environments.{environment_bytes, command_place};
ghost use Rattle.o2_conf.specs.Limits.{HasEnvironment};
ghost use Rattle.o2_conf.specs.Processes.{strings_size};
ghost use Rattle.o2_image.specs.Getters.{nth_list};
ghost use Rattle.o2_image.specs.ImageList.{Exists};
ghost use Rattle.o2_world.specs.Starts.{Built, next_started, all_started};
ghost use Rattle.o2_load.specs.Memory.{KeepsSetting};
ghost use Rattle.o2_load.specs.Holds.{IsReady};
ghost use Rattle.o2_load.specs.Loads.{start_of, starts_of};
ghost use Rattle.o2_load.specs.Progresses.{HasCome, ComesOn, ComesAll, IsEmpty, course};

use crate::build::Build;
use crate::made_names::MadeNames;
use crate::progress::Progress;
use crate::starting_memory::Segments;
use o2_base::{Bytes, Fail, ModuleFault};
use o2_conf::Process;
use o2_dynlink::Linked;
use std::alloc::Global;

/// Why the processes don't start: the first that is refused, and its fault.
#[derive(Debug, Drop)]
pub struct StartFault {
    /// The number of the process, from 1.
    pub pid: u16,
    /// Why it isn't started.
    pub fault: ModuleFault,
}

/// Where the command line stands behind these environment strings, each with a zero byte, and a zero byte after them.
fn place_behind(strings: &[Bytes]) -> u16
    requires { strings_size strings.now + 1 < 65536 }
    ensures { result ≡ strings_size strings.now + 1 }
{
    let mut place = 1usize;
    for string in strings {
        place += string.len() + 1;
    }
    place as u16
}

/// Where the command line of a process begins in its environment.
#[tactic(auto, using(crate::proofs::Sizes::front_size))]
fn command_place(process: &Process) -> u16
    requires { HasEnvironment process.now }
    ensures { result ≡ command_place process.now }
{
    place_behind(process.environment.as_slice())
}

/// One process more starts, the next one.
#[tactic(auto, using(crate::proofs::Sizes::bytes_size, crate::proofs::Sizes::bytes_some))]
fn start_next<S: Segments>(
    alloc: Global,
    progress: &mut Progress<S>,
    linked: &Linked,
    process: &Process,
    pid: u16,
) -> Result<(), Fail<StartFault>>
    requires number { pid ≡ length progress.old.cpus.items + 1 }
    requires there { Exists linked.now.programs pid }
    requires environment { environment_bytes process.now ≡ nth_list linked.now.images.environments pid }
    requires fits { HasEnvironment process.now }
    requires ready { IsReady (S.whole progress.old.build.segments) (S.seen progress.old.build.segments) progress.old.build.made linked.now }
    ensures comes { (most : ℕ) (b : Built)
        → HasCome (S.names progress.old.build.segments linked.now.images) (course (S.seen progress.old.build.segments) progress.old) linked.now most b
        → ComesOn (S.names progress.new.build.segments linked.now.images) (course (S.seen progress.new.build.segments) progress.new) linked.now most
        (next_started most (Ok b) (start_of linked.now pid process.now)) result }
    ensures ready { OnOk result (IsReady (S.whole progress.new.build.segments) (S.seen progress.new.build.segments) progress.new.build.made linked.now) }
    ensures setting { KeepsSetting (S.seen progress.old.build.segments) (S.seen progress.new.build.segments) }
    ensures count { OnOk result (length progress.new.cpus.items ≡ length progress.old.cpus.items + 1) }
{
    match progress.next(alloc, linked, pid, command_place(process)) {
        Ok(()) => Ok(()),
        Err(Fail::NoMemory) => Err(Fail::NoMemory),
        Err(Fail::Bad(fault)) => Err(Fail::Bad(StartFault { pid, fault })),
    }
}

/// These processes start in a memory without names, one after the other, from number 1 on. The first that is refused decides.
pub fn start_each<S: Segments>(
    alloc: Global,
    segments: S,
    linked: &Linked,
    processes: &[Process],
) -> Result<Progress<S>, Fail<StartFault>>
    requires few { length processes.now ≤ 64 }
    requires fit { All HasEnvironment processes.now }
    requires environments { linked.now.images.environments ≡ map environment_bytes processes.now }
    requires programs { length linked.now.programs ≡ length processes.now }
    requires empty { IsEmpty (S.names segments linked.now.images) (S.seen segments) }
    requires ready { IsReady (S.whole segments) (S.seen segments) [] linked.now }
    ensures comes { ComesAll S.seen (λ s. S.names s linked.now.images) linked.now (S.seen segments).most
        (all_started (S.seen segments).most (starts_of linked.now 1 processes.now)) result }
    ensures whole { IfOk result (λ p. S.whole p.build.segments) }
    ensures setting { IfOk result (λ p. KeepsSetting (S.seen segments) (S.seen p.build.segments)) }
    ensures count { IfOk result (λ p. length p.cpus.items ≡ length processes.now) }
{
    let mut progress = Progress {
        build: Build {
            segments,
            made: MadeNames::new(alloc),
            selectors: Vec::new(alloc),
        },
        cpus: Vec::new(alloc),
        starts: Vec::new(alloc),
    };
    let mut pid = 1u16;
    for process in processes {
        start_next(alloc, &mut progress, linked, process, pid)?;
        pid += 1;
    }
    Ok(progress)
}
