// Why linking is refused.

use o2_base::ModuleFault;

/// A refusal of linking, and the module that it is about.
#[derive(Debug, Drop)]
pub struct LinkFault {
    /// The place of the module in the machine file, from 1, or 0 where a process asks for a module that isn't listed.
    pub file: u16,
    /// Why it is refused.
    pub fault: ModuleFault,
}
