//! Writes the core image of a machine over a store, in pieces and without taking memory. `o2_dump` has the format and its reader.
#![tactic(auto)]

mod blocks;
mod parts;
mod piece;
mod places;
mod processes;
mod segments;
mod shown;
mod writer;

pub use parts::{Parts, Wrote};
pub use writer::write;
