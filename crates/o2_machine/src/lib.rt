//! The machine: processes over a store that moves and swaps their segments, one step a turn, as the boundless machine does them.
#![tactic(auto)]

mod begin;
mod counts;
mod fault;
mod last;
mod laws;
mod machine;
mod slice;
mod starts;
mod turn;

pub use fault::BeginFault;
pub use last::{Last, answer};
pub use laws::what_is_held_is_the_reach_of_the_report;
pub use machine::Machine;
pub use o2_run::{Fault, Steps, Stop, Turn};
pub use o2_space::{Proc, Space};
