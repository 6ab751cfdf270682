//! Laws of RAM semaphores over a run, read off its report: the number at a semaphore's place is the owner that the lines tell, between
//! two requests that answer 0 stands a clear, who wants a semaphore gets it exactly where nobody owns it, and a clear stays.
#![tactic(auto)]

mod laws;

pub use laws::{
    numbers_are_the_owners_that_lines_tell, owners_are_told_by_the_rows,
    semaphores_are_read_off_the_report, shared_selectors_name_one_segment, told_clears_stay,
    told_requests_are_cleared_between, who_wants_a_semaphore_gets_it_of_nobody,
};
