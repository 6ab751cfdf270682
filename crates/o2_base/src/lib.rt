//! What every layer names: want of memory, owned bytes, selectors, the refusals, and the table of services.
#![tactic(auto)]

mod bytes;
mod faults;
mod memory;
mod selector;
mod services;

pub use bytes::Bytes;
pub use faults::{Key, MachineFault, ModuleFault, NeFault, Part, SegFault, Which};
pub use memory::{Fail, NoMemory};
pub use selector::Selector;
pub use services::{SERVICE_COUNT, Service, gate_selector, is_built, service_at};

#[cfg(test)]
mod tests;
