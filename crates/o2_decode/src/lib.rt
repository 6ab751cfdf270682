//! Decoding of 80286 instructions.
#![tactic(auto)]

mod heads;
mod operands;
mod reading;
mod table;

pub use o2_isa::Decoded;
pub use reading::{decode, one_spelling};
