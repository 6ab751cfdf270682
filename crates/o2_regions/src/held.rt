// What a process holds at a selector.

use o2_place::SegId;

/// The indexes that are given out together: those of one process's own, or those that are the same for all processes.
#[derive(Clone, Copy, Debug, PartialEq, Eq)]
pub enum Region {
    /// The indexes from 1 to 4,095 of the process of this number.
    Private(u16),
    /// The indexes from 4,096 to 8,191, which name the same segment for each process that holds them.
    Shared,
}

/// Why a process holds a segment.
#[derive(Clone, Copy, Debug, PartialEq, Eq)]
pub enum Cause {
    /// The segment came with a module, as the process started.
    Loaded,
    /// A call of the system gave it.
    Called,
    /// It is named a second time, as code.
    Alias,
}

/// What a process holds at an index.
#[derive(Clone, Copy, Debug, PartialEq, Eq)]
pub struct Held {
    /// The segment.
    pub id: SegId,
    /// How often the process holds it.
    pub holds: u32,
    /// Why it does.
    pub cause: Cause,
    /// The first index of the run that the index belongs to; 0 outside a run.
    pub first: u16,
    /// How many indexes are reserved for that run; 0 outside a run.
    pub reserved: u16,
}
