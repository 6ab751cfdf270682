// How much a step puts.

/// How much a step puts: bytes to the console, and lines to the report.
#[derive(Clone, Copy, Debug, PartialEq, Eq)]
pub struct Tally {
    /// Bytes to the console.
    pub bytes: u16,
    /// Lines to the report.
    pub lines: u64,
}
