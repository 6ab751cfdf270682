//! The core image of a machine: how its memory, its segments and its processes are told in a file, and its reader.
#![tactic(auto)]

mod blocks;
mod content;
mod fault;
mod fields;
mod found;
mod held;
mod parts;
mod places;
mod processes;
mod reader;
mod segments;

pub use fault::CoreFault;
pub use o2_base::{Bytes, Fail, NoMemory};
pub use parts::{
    Block, Blocks, Held, HeldList, Place, Process, Processes, SegmentEntry, Segments, State,
};
pub use reader::Core;
