// The setting of a program that is run alone.
ghost use Rattle.std.specs.Prelude.{◌≡◌, ◌≤◌, [], ◌∷◌, length, IfOk};
ghost use Rattle.o2_conf.specs.Alone.{bare_process, exe_setting};
ghost use Rattle.o2_conf.specs.Limits.{IsWithinLimits};

use crate::conf::Conf;
use crate::lists::{Ordinals, Processes, Script, Texts};
use crate::ordinals::default_ordinals;
use crate::process::Process;
use o2_base::{Bytes, NoMemory};
use std::alloc::Global;

/// The list of one text.
fn one_text(alloc: Global, text: &Bytes) -> Result<Texts, NoMemory>
    ensures { IfOk result (λ t. t ≡ text.now ∷ []) }
{
    let mut texts = Vec::new(alloc);
    texts.push(Bytes::from_slice(alloc, text.as_slice())?)?;
    Ok(Texts::new(texts))
}

/// A process of a module, without arguments and environment strings.
fn bare_process(alloc: Global, name: &Bytes) -> Result<Process, NoMemory>
    ensures { IfOk result (λ p. p ≡ bare_process name.now) }
{
    Ok(Process {
        module: Bytes::from_slice(alloc, name.as_slice())?,
        arguments: Bytes::new(Vec::new(alloc)),
        environment: Texts::new(Vec::new(alloc)),
    })
}

/// The list of one such process.
fn one_process(alloc: Global, name: &Bytes) -> Result<Processes, NoMemory>
    ensures { IfOk result (λ t. t ≡ bare_process name.now ∷ []) }
{
    let mut processes = Vec::new(alloc);
    processes.push(bare_process(alloc, name)?)?;
    Ok(Processes::new(processes))
}

impl Conf {
    /// The setting of a program that is run alone, the module `name` in `file`: memory 1,048,576, 2,048 blocks of swap, 1,024
    /// segments, budget 1,000,000, quantum 1,000 and avail 524,288; one process without arguments and environment strings;
    /// the ordinals of the table of services, no script and no shim.
    pub fn exe(alloc: Global, file: &Bytes, name: &Bytes) -> Result<Conf, NoMemory>
        ensures exact { IfOk result (λ c. c ≡ exe_setting file.now name.now) }
        ensures within { length name.now ≤ 255 → IfOk result IsWithinLimits }
    {
        let modules = one_text(alloc, file)?;
        let process = one_process(alloc, name)?;
        let ordinals = Ordinals::new(default_ordinals(alloc)?);
        Ok(Conf {
            memory: 1048576,
            swap: 2048,
            segments: 1024,
            budget: 1000000,
            quantum: 1000,
            avail: 524288,
            modules,
            process,
            ordinals,
            script: Script::new(Vec::new(alloc)),
            shim: None,
        })
    }
}
