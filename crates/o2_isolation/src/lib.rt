//! Isolation over the modules of a machine file: each process of it that keeps to itself (`Keeping` of `o2_alone`) does in the run of all what
//! it does in its run alone, whatever the others are.
#![tactic(auto)]

mod laws;

pub use laws::{
    a_process_apart_resizes_its_own_runs_alone, linked_processes_do_not_feel_one_another,
};
