//! A heap inside a segment: three calls over the segment's bytes, which read and write its control words alone.
//!
//! The layout, in words: at 0 the number 4253h; at 2 the heap's size; at 4 the offset of the first free block or 0; at 6
//! zero. A free block has at its offset the offset of the next one or 0, and then its length.
#![tactic(auto)]

mod block;
mod bytes;
mod calls;
mod laws;
mod plan;
mod plans;
mod scan;

pub use calls::{sub_alloc, sub_free, sub_set};
pub use laws::{
    calls_change_units, forms_are_unique, nothing_is_taken_twice, refusals_change_nothing,
    takes_the_lowest,
};
pub use plan::Plan;
pub use plans::{plan_alloc, plan_free, plan_set};
