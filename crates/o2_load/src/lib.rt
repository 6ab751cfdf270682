//! The start of processes: what each holds, its first registers, and why one is refused.
#![tactic(auto)]

mod begun;
mod build;
mod first;
mod holdings;
mod laws;
mod made_names;
mod module_segments;
mod process;
mod progress;
mod starting;
mod starting_memory;
mod vectors;

pub use begun::{Begun, begin};
pub use build::Build;
pub use laws::{libraries_are_reserved_for_the_run, linked_modules_open_soundly};
pub use made_names::MadeNames;
pub use process::start;
pub use progress::Progress;
pub use starting::{StartFault, start_each};
pub use starting_memory::{Grip, Segments};
pub use vectors::Vectors;
