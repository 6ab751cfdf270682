//! The lines of the report, made in one buffer.
#![tactic(auto)]

mod line;
mod lines;

pub use line::LineBuffer;
pub use lines::{set_calls, set_drops, set_ends, set_exits, set_holds, set_starts, set_traps};
