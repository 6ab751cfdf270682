//! The calls of DOSCALLS on segments over a machine that stands for a world: each is its row.
#![tactic(auto)]

mod acting;
mod laws;
mod noting;
mod runs;
mod sharing;

pub use acting::act;
pub use laws::{
    an_end_sweeps_once, calls_come_back_by_their_rulings, what_a_call_gives_is_seen,
    what_is_noted_is_told,
};
pub use noting::{Counted, count, note};
pub use runs::act_on_run;
pub use sharing::share;
