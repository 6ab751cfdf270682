//! What a step of a process needs in memory, how it comes there, and the descriptors that say so.
#![tactic(auto)]

mod amount;
mod bringing;
mod learning;
mod need;
mod serving;
mod settling;

pub use bringing::bring;
pub use learning::learn;
pub use need::Need;
pub use o2_segbus::SegBus;
pub use serving::{Served, serve};
pub use settling::{settle, settle_moved, settle_one};
