//! The words after the program's name, as a command.
#![tactic(auto)]

mod laws;
mod parser;
mod words;

pub use laws::one_command;
pub use parser::command;
pub use words::{Command, Verb, is_command};
