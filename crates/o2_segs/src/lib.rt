//! The calls of DOSCALLS that make, size, free and alias segments, over a store and the tables of what processes hold.
#![tactic(auto)]

mod aliasing;
mod allocating;
mod asking;
mod freeing;
mod reallocating;
mod remaking;
mod sizing;

pub use aliasing::create_cs_alias;
pub use allocating::alloc_seg;
pub use asking::{
    ACCESS_DENIED, INVALID_PARAMETER, NOT_ENOUGH_MEMORY, done, held_under, refusal, stop_of,
};
pub use freeing::{end_of_run, free_seg, is_later};
pub use reallocating::realloc_seg;
pub use remaking::is_discarded;
pub use sizing::size_seg;
