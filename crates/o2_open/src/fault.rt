// Why a command opens nothing.

use o2_base::{Bytes, MachineFault, ModuleFault};

/// Why a command opens nothing.
#[derive(Debug, Drop)]
pub enum OpenFault {
    /// There is no file of this name.
    NoFile(Bytes),
    /// The machine file has no reading.
    BadMachine(MachineFault),
    /// The module in this file is refused.
    BadModule(Bytes, ModuleFault),
    /// The files failed.
    FileFault,
    /// Memory was wanted and not given.
    NoMemory,
}
