// Why a machine doesn't begin.

use o2_base::ModuleFault;

/// Why a machine doesn't begin.
#[derive(Debug, Drop)]
pub enum BeginFault {
    /// The start of this process is refused; nothing is put.
    Start(u16, ModuleFault),
    /// A sink failed among the lines of the starts.
    SinkFault,
    /// Memory was wanted and not given; nothing is put.
    NoMemory,
}
