// Core images as a line.

use o2_base::{Fail, NoMemory};
use o2_dump::{Core, CoreFault, Place, State};
use std::alloc::Global;

/// How many blocks the segments of an image have in swap.
fn block_count(core: &Core) -> u64 {
    let mut count = 0u64;
    for entry in core.segments.as_slice() {
        if let Place::Swap(blocks) = &entry.place {
            count = count.saturating_add(blocks.as_slice().len() as u64);
        }
    }
    count
}

fn state_name(state: State) -> &'static str {
    match state {
        State::Live => "live",
        State::Exited => "exit",
        State::Trapped => "trap",
    }
}

/// Writes the processes of an image: the number of each, its state and its code.
fn write_processes(alloc: Global, line: &mut String, core: &Core) -> Result<(), NoMemory> {
    for process in core.processes.as_slice() {
        let (number, state, code) = (process.number, state_name(process.state), process.code);
        let told = format!(in alloc; ", {number} {state} {code}")?;
        line.push_str(told.as_str())?;
    }
    Ok(())
}

/// Writes how many bytes each discarded segment of an image will have again.
fn write_discarded(alloc: Global, line: &mut String, core: &Core) -> Result<(), NoMemory> {
    for entry in core.segments.as_slice() {
        if entry.gone {
            let size = entry.size;
            let told = format!(in alloc; ", {size} discarded")?;
            line.push_str(told.as_str())?;
        }
    }
    Ok(())
}

/// What an image tells.
fn core_line(alloc: Global, core: &Core) -> Result<String, NoMemory> {
    let (memory, steps, console) = (core.memory.as_slice().len(), core.steps, core.console);
    let (segments, blocks) = (core.segments.as_slice().len(), block_count(core));
    let mut line = format!(in alloc;
        "memory {memory}, {steps} steps, console {console}, {segments} segments, {blocks} blocks"
    )?;
    write_discarded(alloc, &mut line, core)?;
    write_processes(alloc, &mut line, core)?;
    line.push('.')?;
    Ok(line)
}

/// Why something is no image.
fn fault_line(alloc: Global, fault: CoreFault) -> Result<String, NoMemory> {
    match fault {
        CoreFault::NotCore => Ok(String::from_str(alloc, "no image.")?),
        CoreFault::Truncated(place) => Ok(format!(in alloc; "ends early at {place}.")?),
        CoreFault::BadEntry(place) => Ok(format!(in alloc; "bad at {place}.")?),
        CoreFault::TooLong(place) => Ok(format!(in alloc; "goes on at {place}.")?),
    }
}

/// What some bytes are as an image.
pub fn image_line(alloc: Global, bytes: &[u8]) -> Result<String, NoMemory> {
    match Core::read(alloc, bytes) {
        Ok(core) => core_line(alloc, &core),
        Err(Fail::Bad(fault)) => fault_line(alloc, fault),
        Err(_) => Err(NoMemory),
    }
}
