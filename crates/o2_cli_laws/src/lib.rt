//! Isolation from the files on: each process of what a command opens that keeps to itself does among others what it does alone, with no
//! premise on what was loaded.
#![tactic(auto)]

mod laws;

pub use laws::{
    commands_isolate_processes, events_tell_what_a_run_writes,
    opened_processes_do_not_feel_one_another, the_first_process_runs_as_its_own_machine_file,
};
