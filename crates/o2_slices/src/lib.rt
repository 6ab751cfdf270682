//! Steps of a process over a store that are done at once, one behind another: from what is in memory, with nothing put or taken.
#![tactic(auto)]

mod slicing;
mod steps;

pub use slicing::slice_of;
pub use steps::slice_in_store;
