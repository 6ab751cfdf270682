//! The top call: the words of a command, the files that it names, and the run.
#![tactic(auto)]

mod begun;
mod bench;
mod dump;
mod in_memory;
mod lines;
mod messages;
mod on_system;
mod program;
mod status;
mod top;
mod unseen;

pub use in_memory::os2run_in_memory;
pub use messages::{number, text};
pub use on_system::os2run_on_system;
pub use program::{perform, tell};
pub use status::Status;
pub use top::os2run;
