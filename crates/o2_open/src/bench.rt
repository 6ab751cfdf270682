// What a bench opens: its own setting and its own module.
ghost use Rattle.std.specs.Prelude.{◌≡◌, ◌≤◌, IfOk, IfErr};
ghost use Rattle.o2_conf.specs.Limits.{IsWithinLimits};
ghost use Rattle.o2_gen.specs.BenchModule.{bench_module};
ghost use Rattle.o2_gen.specs.BenchSetting.{bench_setting};
ghost use Rattle.o2_open.specs.declared.fault.OpenFault.TheVariants as open_fault;

use crate::OpenFault;
use o2_base::{Fail, NoMemory};
use o2_conf::Conf;
use o2_gen::{machine, module};
use o2_image::Module;
use std::alloc::Global;

/// The setting of a bench with so many processes.
pub(crate) fn setting(alloc: Global, count: u16) -> Result<Conf, OpenFault>
    requires some { 1 ≤ count }
    requires few { count ≤ 64 }
    ensures exact { IfOk result (λ c. c ≡ bench_setting count) }
    ensures within { IfOk result IsWithinLimits }
    ensures memory { IfErr result (λ s. s ≡ open_fault.NoMemory) }
{
    match machine(alloc, count) {
        Ok(conf) => Ok(conf),
        Err(NoMemory) => Err(OpenFault::NoMemory),
    }
}

/// The module of a bench, which passes its checks.
#[tactic(auto, using(crate::proofs::Benches::small))]
pub(crate) fn program(alloc: Global) -> Result<Module, OpenFault>
    ensures exact { IfOk result (λ m. m ≡ bench_module) }
    ensures memory { IfErr result (λ s. s ≡ open_fault.NoMemory) }
{
    let Ok(file) = module(alloc) else {
        return Err(OpenFault::NoMemory);
    };
    match Module::check(alloc, file) {
        Ok(program) => Ok(program),
        Err(Fail::NoMemory) => Err(OpenFault::NoMemory),
        Err(Fail::Bad(_)) => unreachable!(),
    }
}
