//! Where segments lie in a memory, and which of them goes next: disjoint ranges by rising place, and a clock of the ids
//! that are present. Both take all their memory when they are made.
#![tactic(auto)]

mod clock;
mod places;
mod ranges;
mod seg_id;

pub use clock::{Clock, Mark};
pub use places::Places;
pub use ranges::Range;
pub use seg_id::SegId;
