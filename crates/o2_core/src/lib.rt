//! One step of the processor.
#![tactic(auto)]

mod plain_step;
mod step;

pub use o2_bus::{Bus, Cpu, Outcome, Plain};
pub use plain_step::step_plain;
pub use step::{step_decoded, step_one};
