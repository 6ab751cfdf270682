//! The calls of DOSCALLS that lock and unlock segments, over a store and the tables of what processes hold.
#![tactic(auto)]

mod locking;
mod unlocking;

pub use locking::lock_seg;
pub use unlocking::{NOT_LOCKED, unlock_seg};
