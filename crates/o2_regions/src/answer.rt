// What the calls on segments answer.

/// What a call of the system answers to the program.
#[derive(Clone, Copy, Debug, PartialEq, Eq)]
pub struct Answer {
    /// The error number of the OS/2 1.3 Programmer's Reference; 0 where the call was done.
    pub error: u16,
    /// What is written through the call's last pointer, a far pointer as selector times 65,536 plus offset; 0 where
    /// nothing is written, and where `error` isn't 0.
    pub value: u32,
}

/// The answer of a call that may bring segments into memory, or what kept it from that.
#[derive(Clone, Copy, Debug, PartialEq, Eq)]
pub enum Roomed {
    /// The call was answered.
    Done(Answer),
    /// The segments that have to be in memory together don't fit into it.
    NoRoom,
    /// The swap device has no block left.
    SwapFull,
    /// The swap device failed.
    SwapFault,
}
