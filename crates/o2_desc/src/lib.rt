//! Descriptors of the 80286: the access byte, the flags word, a descriptor and its eight bytes, a table of them, and
//! which index of a table is chosen for new ones.
#![tactic(auto)]

mod access;
mod choice;
mod descriptor;
mod kinds;
mod table;
mod word;

pub use access::Access;
pub use choice::choice_is_exact;
pub use descriptor::Descriptor;
pub use kinds::kinds_by_bits;
pub use o2_base::Selector;
pub use table::Table;
pub use word::FlagsWord;
