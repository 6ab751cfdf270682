//! The end of a process over a store and the maps of what processes hold.
#![tactic(auto)]

mod drops;
mod ending;

pub use ending::{end, let_go};
