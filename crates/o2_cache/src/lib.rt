//! Instructions that were decoded before, and steps by them.
#![tactic(auto)]

mod cache;
mod step;

pub use cache::DecodeCache;
pub use step::step_cached;
