//! Programs that call one service after another, chosen at random, with the boundless machine's world behind each call, and the files
//! and the report of a run of them.
#![tactic(auto)]

mod choices;
mod dice;
mod files;
mod opening;
mod random;
mod reports;
mod sequence;

pub use dice::Dice;
pub use files::add_files;
pub use opening::{AVAIL, CODE, NAMES, process, segment};
pub use random::random_sequence;
pub use reports::{is_told, write_report};
pub use sequence::Sequence;
