//! When a machine whose segments lie in a store stands for a world of the boundless machine, and what keeps that.
#![tactic(auto)]

mod always;
mod laws;

pub use always::lawful;
pub use laws::{
    changes_keep_a_world_tidy, each_step_keeps_a_world_tidy, moves_are_unseen, names_are_segments,
    names_stand_once, openings_are_tidy, processes_go_on, rulings_go_by_what_is_known,
    runs_are_seen, standing_is_matching, steps_are_seen, views_are_filled,
    what_a_call_writes_is_seen, worlds_are_known,
};
