//! The flow instructions over any bus.
#![tactic(auto)]

mod calls;
mod flow;
mod frames;
mod interrupts;
mod jumps;
mod operands;
mod protection;
mod returns;

pub use flow::execute;
