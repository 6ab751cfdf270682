//! What a command opens: the machine file, the modules that it names, and what links them; or why it opens nothing.
#![tactic(auto)]

mod bench;
mod fault;
mod files;
mod opening;
mod session;

pub use fault::OpenFault;
pub use opening::{open, program_places, refused_start};
pub use session::Session;
