//! Segments under keys: in memory, out of memory and back. A store takes all its memory when it is made.
#![tactic(auto)]

mod adding;
mod blocks;
mod bringing;
mod brought;
mod evicting;
mod fitting;
mod keys;
mod moving;
mod present;
mod showing;
mod sizing;
mod steps;
mod store;
mod windows;

pub use brought::{Brought, Place};
pub use o2_entries::Attr;
pub use store::Store;
