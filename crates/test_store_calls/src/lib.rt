//! The calls of a store as tests make them, each with what it asks and keeps, and what is needed together.
#![tactic(auto)]

mod calls;
mod needs;

pub use calls::{add, add_environment, bring, evict, lock, remove, resize, touch, write};
pub use needs::live_need;
