//! The processor's bus over a store of segments and the descriptor tables of the processes that hold them.
#![tactic(auto)]

mod access;
mod bus;
mod laws;
mod marking;
mod opening;
mod ranges;
mod registers;
mod rules;
mod seg_bus;
mod step;

pub use laws::{ages_are_names, calls_keep, frames_keep};
pub use opening::{are_shown, registers_for};
pub use registers::{SegmentRegister, SegmentRegisters};
pub use seg_bus::SegBus;
pub use step::attempt;
