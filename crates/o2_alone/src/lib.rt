//! What a process does among others, and alone: a step doesn't depend on the numbers of segments (`specs/Renaming`); and a process that keeps
//! to itself (`Keeping`) does among others what it does in its run alone (`Alone`), as the events of both runs (`Events`) tell (`Isolation`).
#![tactic(auto)]

mod laws;

pub use laws::{
    calls_depend_on_no_name, instructions_depend_on_no_name, steps_depend_on_no_name,
    strangers_do_not_feel_one_another, the_only_process_runs_alone, two_hellos_run_as_alone,
    who_keeps_to_itself_runs_as_alone,
};
