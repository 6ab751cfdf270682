//! What a trace tells of a step, as a text and as JSON: the registers and bytes that it changed, what it called, its exception, and whether it waits.
#![tactic(auto)]

mod changes;
mod exception;
mod json;
mod step;
mod told;
mod waiter;

pub use changes::{Change, add_changes, change_text};
pub use exception::{Exception, Place, exception_of, exception_text};
pub use json::{report_json, step_json, waiter_json};
pub use step::{Before, step_text, wait_text};
pub use told::Told;
pub use waiter::{Waiter, waiter_text};
