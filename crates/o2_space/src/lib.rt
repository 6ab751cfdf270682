//! Processes over a store that moves and swaps their segments, and one step of a process: that of the boundless machine, or none.
#![tactic(auto)]

mod acting;
mod calling;
mod discarding;
mod space;

pub use acting::is_live;
pub use space::{Proc, Space};
