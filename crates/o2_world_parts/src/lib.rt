//! What the boundless machine's world consists of, as values: segments, holds and processes, how they are looked up and changed, the ranges and
//! texts behind the pointers of a call, its words by slots, and what it does, with its lines.
#![tactic(auto)]

mod changing;
mod discarding;
mod effect;
mod look;
mod naming;
mod parts;
mod pointing;
mod slots;

pub use changing::{
    Edit, any_takes, drop_at, end_at, hold_at, keep_held, keep_told, keep_used, lock_in, put_first,
    resize_in, revive_in,
};
pub use discarding::discard_all;
pub use effect::{Done, Effect, comes_back, leaves, returned, trapped, waits};
pub use look::{
    held_by, holds_index, is_alive, is_held_under, live_below, process_of, reserves, segment_of,
};
pub use naming::{name_at, name_of};
pub use parts::{Held, How, Process, Reserve, Segment};
pub use pointing::{first, front, is_local, is_null, may_have_heap, range, registers, with_parts};
pub use slots::{Layout, are_good, from_top, layout_of, long_bytes, put_value, word_bytes};
