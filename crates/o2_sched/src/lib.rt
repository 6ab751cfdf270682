//! Whose step is next: the script's slices first, and then turns in rising number.
#![tactic(auto)]

mod place;
mod sched;

pub use sched::{Ahead, Pick, Sched};
