// The bytes of the environment segments.
ghost use Rattle.std.specs.Prelude.{◌≡◌, map, IfOk};
ghost use Rattle.o2_conf.specs.Environments.{environment_bytes, environment_front};

use o2_base::{Bytes, NoMemory};
use o2_conf::Process;
use std::alloc::Global;

// The strings, each with a zero byte, and a zero byte after them.
fn front_of(alloc: Global, strings: &[Bytes]) -> Result<Vec<u8>, NoMemory>
    ensures { IfOk result (λ v. v.items ≡ environment_front strings.now) }
{
    let mut bytes = Vec::new(alloc);
    for string in strings {
        bytes.extend_from_slice(string.as_slice())?;
        bytes.push(0)?;
    }
    bytes.push(0)?;
    Ok(bytes)
}

// The bytes of a process's environment segment.
fn environment_of(alloc: Global, process: &Process) -> Result<Bytes, NoMemory>
    ensures { IfOk result (λ b. b ≡ environment_bytes process.now) }
{
    let mut bytes = front_of(alloc, process.environment.as_slice())?;
    bytes.extend_from_slice(process.module.as_slice())?;
    bytes.push(0)?;
    bytes.extend_from_slice(process.arguments.as_slice())?;
    bytes.push(0)?;
    bytes.push(0)?;
    Ok(Bytes::new(bytes))
}

// Those of all processes.
pub(crate) fn environments_of(alloc: Global, processes: &[Process]) -> Result<Vec<Bytes>, NoMemory>
    ensures { IfOk result (λ v. v.items ≡ map environment_bytes processes.now) }
{
    let mut environments = Vec::new(alloc);
    for process in processes {
        environments.push(environment_of(alloc, process)?)?;
    }
    Ok(environments)
}
