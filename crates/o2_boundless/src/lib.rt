//! The boundless machine's world as a value, and the calls of DOSCALLS on it, each run by its row.
#![tactic(auto)]

mod call;
mod changing;
mod choosing;
mod huge;
mod laws;
mod outcome;
mod pointing;
mod rows;
mod rulings;
mod semaphores;
mod sharing;
mod working;
mod world;

pub use laws::a_call_is_that_of_a_step;
pub use o2_world_parts::{Held, How, Process, Reserve, Segment};
pub use world::World;
