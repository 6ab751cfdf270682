//! The string instructions over any bus, one repetition a step.
#![tactic(auto)]

mod comparisons;
mod moves;
mod parts;
mod strings;

pub use strings::execute;
