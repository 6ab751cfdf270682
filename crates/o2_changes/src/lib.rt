//! Single changes of what processes hold and of segments, over the descriptor tables and a store that agree.
#![tactic(auto)]

mod dropping;
mod holding;
mod laws;
mod members;
mod segments;

pub use dropping::{drop_hold, free_index, free_run, is_shared_held, is_unheld, let_go, sweep};
pub use holding::{hold_more, hold_new, region_of};
pub use laws::a_tidy_world_may_lose_a_hold;
pub use members::lose;
pub use segments::{bring_in, discard, make, resize, resize_out, revive, set_lock, unmake};
