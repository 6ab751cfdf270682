//! The start of processes over a store and the maps of processes.
#![tactic(auto)]

mod loading;
mod opening;
mod reserving;
mod stored;

pub use opening::{Opened, open};
