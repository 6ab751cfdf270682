//! The text of an instruction of the 80286, as the Intel manual and the assembler nasm write it.
#![tactic(auto)]

mod laws;
mod names;
mod operands;
mod text;

pub use laws::texts_tell_instructions;
pub use names::mnemonic;
pub use text::line;
