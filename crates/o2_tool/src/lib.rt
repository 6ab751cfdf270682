//! What the programs beside `os2run` share: their words, what these ask for, their exit statuses, and bytes as texts that any terminal shows.
#![tactic(auto)]

mod arguments;
mod commands;
mod cores;
mod end;
mod hex;
mod lines;
mod list;
mod memory;
mod shown;
mod why;

pub use arguments::{answered, file_name, words};
pub use cores::{CoreWords, core_words};
pub use end::{FAILED, MISUSED, REFUSED, ended};
pub use hex::{Hex, blanks, filling};
pub use lines::print_lines;
pub use list::{ListWords, list_words};
pub use memory::{no_memory, unallocated};
pub use shown::Shown;
pub use why::{WhyWords, why_words};
