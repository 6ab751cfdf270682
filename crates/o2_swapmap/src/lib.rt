//! Which blocks of the swap device belong to which segment, in order, and which are free. All memory is taken when the map
//! is made, and a block changes its owner in constant time.
#![tactic(auto)]

mod piles;
mod swap_map;

pub use swap_map::SwapMap;
