//! The data instructions over any bus.
#![tactic(auto)]

mod arithmetic;
mod data;
mod decimal;
mod flags;
mod moves;
mod pointers;
mod products;
mod shifts;
mod stack;

pub use data::execute;
