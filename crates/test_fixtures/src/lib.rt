//! What the tests share, whatever they test: the bytes of a text, numbers that look random, an executable, the files of a run, and how a
//! test is told.
#![tactic(auto)]

mod files;
pub mod hello;
mod numbers;
mod texts;
mod wrong;

pub use files::{Files, add_file, add_text};
pub use numbers::{below, next, word_below};
pub use texts::{add_bytes, bytes_in, hex};
pub use wrong::{Wrong, tell, want, want_line};
