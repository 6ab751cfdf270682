//! The boundless machine: its world, the rows of the calls, steps, dispatch, runs and the texts of a run.
#![tactic(auto)]

mod laws;
mod types;

pub use laws::{
    a_run_that_is_over_stays, an_end_frees_what_nobody_holds, an_end_leaves_what_another_holds,
    changes_go_by_no_bytes, common_data_is_marked_as_shared, each_service_that_is_built_has_a_row,
    each_step_keeps_a_sound_world_sound, fit_changes_keep_a_world_tied,
    heap_calls_answer_by_their_rows, hello_runs_in_ten_steps, huge_calls_answer_by_their_rows,
    no_call_takes_from_another_process, no_name_is_used_twice, no_run_is_longer_than_its_budget,
    number_0_is_no_process, opening_worlds_are_sound, opening_worlds_are_told,
    other_processes_stay, reach_holds_along_the_run, segment_calls_answer_by_their_rows,
    segment_calls_tell_their_holds, shared_calls_answer_by_their_rows, the_budget_counts_the_steps,
    what_calls_change_is_fit, what_huge_calls_change_is_fit,
    what_is_held_is_the_reach_of_the_report, what_is_held_is_told,
    what_is_reserved_for_the_run_stays,
};
pub use types::{Argument, Made, Slot, State};
