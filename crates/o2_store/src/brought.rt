// What calls of the store answer.

/// What a call that brings a segment in, takes it out or sizes it came to.
#[derive(Clone, Copy, Debug, PartialEq, Eq)]
pub enum Brought {
    /// It was done.
    Here,
    /// What must be in memory together is more than the memory.
    NoRoom,
    /// A segment that would have to leave the memory lacks more swap blocks than are free.
    SwapFull,
    /// The swap device failed.
    SwapFault,
    /// There is no such segment any more.
    Stale,
}

/// Where a segment's bytes are.
#[derive(Clone, Copy, Debug, PartialEq, Eq)]
pub enum Place {
    /// It is out of memory, and all its bytes are zero.
    Zeros,
    /// It is out of memory, and its first bytes are those of this image: a module's place and a segment.
    Image(u16, u16),
    /// It is in memory, from this address on.
    Memory(u32),
    /// It is out of memory, and its first bytes are in swap blocks.
    Blocks,
}
