//! The header, the names and the entries of a segmented executable (NE) file.
#![tactic(auto)]

mod bytes;
mod entries;
mod folded;
mod head;
mod names;
mod order;
mod slots;
mod sorting;
mod table;
mod walking;

pub use bytes::{Missing, lies_in, need, u16_at, u32_at};
pub use entries::{Entries, Entry};
pub use head::Head;
pub use names::{Name, Names, is_same_name};
pub use o2_base::{Bytes, Fail, NeFault, NoMemory, Which};
