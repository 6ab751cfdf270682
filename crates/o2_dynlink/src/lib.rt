//! Linking: which modules and services the imports of each module lead to.
#![tactic(auto)]

mod checks;
mod environments;
mod fault;
mod gathering;
mod imports;
mod laws;
mod leads;
mod linked;
mod listed;
mod memo;
mod order;
mod reached;
mod refusals;
mod selectors;
mod services;

pub use checks::link;
pub use fault::LinkFault;
pub use laws::{
    a_built_service_comes_first, the_shim_is_linked_as_by_its_name,
    what_links_without_a_shim_links_with_one, without_a_shim_linking_is_plain,
};
pub use linked::Linked;
pub use reached::answers;
