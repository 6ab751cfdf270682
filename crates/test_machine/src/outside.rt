// What a machine goes to.

use crate::trials::Plan;
use o2_base::{Bytes, NoMemory};
use o2_outer::{MemSink, MemSource};
use std::alloc::Global;

/// What a machine goes to beside its swap device.
#[derive(Drop)]
pub struct Outside {
    pub input: MemSource,
    pub console: MemSink,
    pub report: MemSink,
}

/// An input of three bytes, of which these takes fail.
fn source(alloc: Global, fails: &[u64]) -> Result<MemSource, NoMemory> {
    let fails = fails.to_vec(alloc)?;
    Ok(MemSource::new(Bytes::from_slice(alloc, b"abc")?, fails))
}

/// An empty sink, of which these puts fail.
fn sink(alloc: Global, fails: &[(u64, usize)]) -> Result<MemSink, NoMemory> {
    MemSink::new(alloc, 4096, fails.to_vec(alloc)?)
}

/// An input of three bytes and empty sinks, which fail at the calls of a plan.
pub fn made_outside(alloc: Global, plan: &Plan) -> Result<Outside, NoMemory> {
    Ok(Outside {
        input: source(alloc, plan.takes)?,
        console: sink(alloc, plan.console)?,
        report: sink(alloc, plan.report)?,
    })
}

/// Whether nothing of it was taken or written.
pub fn is_untouched(outside: &Outside) -> bool {
    outside.input.left().len() == 3
        && outside.console.taken().is_empty()
        && outside.report.taken().is_empty()
}
