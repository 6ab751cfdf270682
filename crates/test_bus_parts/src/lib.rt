//! A small store in which one process holds segments, for tests and measurements of what runs over it.
#![tactic(auto)]

mod bench;
mod running;
mod seats;

pub use bench::Bench;
pub use running::count_done;
