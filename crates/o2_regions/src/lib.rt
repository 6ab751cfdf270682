//! Who holds which selector, how often, and what its descriptor says; and which processes live.
#![tactic(auto)]

mod accessed;
mod answer;
mod bits;
mod describing;
mod ends;
mod held;
mod laws;
mod links;
mod listed;
mod regions;

pub use answer::{Answer, Roomed};
pub use ends::{Ends, MOST_PROCESSES};
pub use held::{Cause, Held, Region};
pub use laws::{drops_are_exact, grants_are_exact, reservations_are_exact};
pub use regions::{Regions, Used};
