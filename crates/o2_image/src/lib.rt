//! Modules: segmented executables (NE) that pass every check, and the images of their segments.
#![tactic(auto)]

mod chain;
mod faults;
mod fill;
mod images;
mod module;
mod packed;
mod records;
mod references;
mod same_bytes;
mod sharing;
mod targets;

pub use images::{Images, Resolved};
pub use module::Module;
pub use o2_base::ModuleFault;
pub use sharing::SharedTargets;
