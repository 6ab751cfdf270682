//! The calls of DOSCALLS on huge allocations, over a store and the tables of what processes hold.
#![tactic(auto)]

mod allocating;
mod losing;
mod members;
mod reallocating;
mod sharing;
mod shift;

pub use allocating::{alloc_huge, segments_of};
pub use reallocating::realloc_huge;
pub use sharing::is_of_run;
pub use shift::huge_shift;
