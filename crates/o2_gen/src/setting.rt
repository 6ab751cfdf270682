// The setting of a bench.
ghost use Rattle.std.specs.Prelude.{◌≡◌, ◌≤◌, codes, replicate, IfOk};
ghost use Rattle.o2_conf.specs.Alone.{bare_process};
ghost use Rattle.o2_conf.specs.Limits.{IsWithinLimits};
ghost use Rattle.o2_gen.specs.BenchSetting.{bench_setting};

use o2_base::{Bytes, NoMemory};
use o2_conf::{Conf, Process, Processes, Texts};
use std::alloc::Global;

// A process of the module.
fn process(alloc: Global) -> Result<Process, NoMemory>
    ensures { IfOk result (λ p. p ≡ bare_process (codes "BENCH")) }
{
    Ok(Process {
        module: Bytes::from_slice(alloc, b"BENCH")?,
        arguments: Bytes::new(Vec::new(alloc)),
        environment: Texts::new(Vec::new(alloc)),
    })
}

// So many of them.
fn processes(alloc: Global, count: u16) -> Result<Processes, NoMemory>
    ensures { IfOk result (λ p. p ≡ replicate count (bare_process (codes "BENCH"))) }
{
    let mut processes = Vec::new(alloc);
    for _ in 0..count {
        processes.push(process(alloc)?)?;
    }
    Ok(Processes::new(processes))
}

/// The setting of a bench with 1 to 64 processes: memory 32,768, 16,384 blocks of swap, 2,048 segments, budget 1,000,000, quantum 7, no
/// avail; the module file `bench.exe`, of whose module each process is, without arguments and environment strings; the ordinals of the
/// table of services, no script and no shim.
#[tactic(auto, using(crate::proofs::Settings::within))]
pub fn machine(alloc: Global, count: u16) -> Result<Conf, NoMemory>
    requires some { 1 ≤ count }
    requires few { count ≤ 64 }
    ensures exact { IfOk result (λ c. c ≡ bench_setting count) }
    ensures within { IfOk result IsWithinLimits }
{
    let file = Bytes::from_slice(alloc, b"bench.exe")?;
    let name = Bytes::from_slice(alloc, b"BENCH")?;
    let Conf {
        modules,
        ordinals,
        script,
        ..
    } = Conf::exe(alloc, &file, &name)?;
    Ok(Conf {
        memory: 32_768,
        swap: 16_384,
        segments: 2_048,
        budget: 1_000_000,
        quantum: 7,
        avail: 0,
        modules,
        process: processes(alloc, count)?,
        ordinals,
        script,
        shim: None,
    })
}
