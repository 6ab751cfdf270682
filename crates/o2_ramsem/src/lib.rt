//! A RAM semaphore: four bytes that processes share, low byte first, whose number is 0 where it is clear.
#![tactic(auto)]

mod laws;
mod semaphore;

pub use laws::{
    clears_stay, numbers_are_owners, requests_are_cleared_between, waits_are_for_owners,
};
pub use semaphore::{Sem, clear, request, set, wait};
