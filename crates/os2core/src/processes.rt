// The processes, as text.

use crate::facts::Told;
use o2_dump::{Core, Process};
use std::io;

/// A line of a process.
fn list_line(rt: &HostRuntime, told: Told<'_>) -> io::Result<()> {
    println!(rt; "  {told}")
}

/// What a process holds.
fn list_held(rt: &HostRuntime, process: &Process) -> io::Result<()> {
    for held in process.held.as_slice() {
        list_line(rt, Told::Held(held))?;
    }
    Ok(())
}

/// A process: what became of it, its registers, and what it holds.
fn list_process(rt: &HostRuntime, process: &Process) -> io::Result<()> {
    println!(rt; "\nprocess {} {}", process.number, Told::State(process))?;
    list_line(rt, Told::Words(process))?;
    list_line(rt, Told::Pointers(process))?;
    list_held(rt, process)
}

/// The processes by their numbers.
pub fn list_processes(rt: &HostRuntime, core: &Core) -> io::Result<()> {
    for process in core.processes.as_slice() {
        list_process(rt, process)?;
    }
    Ok(())
}
