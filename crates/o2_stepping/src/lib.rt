//! One step of a process, all but what an end takes from it: over any bus, and over a store that moves and swaps its segments.
#![tactic(auto)]

mod in_store;
mod laws;
mod one_step;
mod replying;
mod seats;
mod tally;
mod trying;

pub use in_store::step_in_store;
pub use laws::{rooms_are_those_of_the_world, steps_start_alike};
pub use one_step::{Attempt, Ran, Stepped, absent, has_trap_flag, run_one};
pub use replying::reply;
pub use seats::{are_here, call_need, named_segment};
pub use tally::Tally;
