//! The services: calls of the module DOSCALLS through their gates.
#![tactic(auto)]

mod arguments;
mod ask;
mod called;
mod exit;
mod gate;
mod given;
mod heap;
mod line;
mod listed;
mod moves;
mod pointer;
mod read;
mod requests;
mod row;
mod selectors;
mod semaphore;
mod stack;
mod state;
mod table;
mod text;
mod told;
mod value;
mod write;

pub use arguments::Arguments;
pub use called::Called;
pub use gate::call;
pub use line::put_reply;
pub use moves::{Block, Moves};
pub use requests::{HugeArguments, SegmentArguments, SharedArguments};
pub use selectors::{Selectors, selectors_of};
pub use semaphore::waits;
pub use state::State;
pub use text::TextArgument;
pub use value::{come_back, give_value};
