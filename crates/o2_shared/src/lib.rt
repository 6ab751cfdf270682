//! The calls of DOSCALLS by which processes share segments, over a store and the tables of what processes hold.
#![tactic(auto)]

mod allocating;
mod getting;
mod giving;
mod laws;
mod named;
mod names;
mod naming;
mod sharing;
mod text;

pub use allocating::alloc_shr_seg;
pub use getting::get_seg;
pub use giving::give_seg;
pub use laws::{a_tied_world_shares_one, names_stay_in_place, texts_die_with_their_segments};
pub use named::get_shr_seg;
pub use names::Shared;
