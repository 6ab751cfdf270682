//! Laws of the report's text: its bytes determine its lines, so that what each process reaches is read off the report,
//! and what a load finds agrees with that.
#![tactic(auto)]

mod laws;

pub use laws::{
    a_text_is_of_one_list_of_lines, lines_of_runs_are_plain, loads_find_what_is_reached,
    reach_is_read_off_the_report,
};
