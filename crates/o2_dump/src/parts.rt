// What a core image tells of a machine.

use o2_base::Bytes;
use o2_desc::Descriptor;
use o2_isa::Cpu;
use std::marker::Model;

/// A block of the swap device that holds bytes of a segment.
#[derive(Debug, Drop)]
pub struct Block {
    /// Its number on the device, from 0.
    pub number: u32,
    /// Its 512 bytes.
    pub bytes: Bytes,
}

/// The swap blocks of a segment, in the order of its bytes.
#[derive(Debug, Drop)]
pub struct Blocks {
    items: Vec<Block>,
}

impl Model for Blocks {
    ghost use Rattle.std.specs.Prelude.{List};
    ghost use Rattle.o2_dump.specs.declared.parts.Block.{Block};

    ghost Value = { List Block };

    ghost view = { λ a. a.items.items };
}

impl Blocks {
    ghost use Rattle.std.specs.Prelude.{◌≡◌};

    pub(crate) fn new(items: Vec<Block>) -> Blocks
        ensures { result ≡ items.items }
    {
        Blocks { items }
    }

    /// The blocks, in the order of the segment's bytes.
    pub fn as_slice(&self) -> &[Block]
        ensures { result.now ≡ self.now }
    {
        self.items.as_slice()
    }
}

/// Where the kept bytes of a segment are.
#[derive(Debug, Drop)]
pub enum Place {
    /// Nowhere: none are kept.
    Zeros,
    /// In a segment of a module's image, by the numbers of both; module 0 is the environment of the process whose number
    /// follows.
    Image(u16, u16),
    /// In memory, from this base on.
    Memory(u32),
    /// In blocks of the swap device.
    Swap(Blocks),
}

/// A segment of the machine.
#[derive(Debug, Drop)]
pub struct SegmentEntry {
    /// Its size, 1 to 65,536 bytes.
    pub size: u32,
    /// How many of its first bytes are kept at its place; the others are zeros.
    pub kept: u32,
    /// Its flags.
    pub flags: u8,
    /// How many times it is locked.
    pub lock: u8,
    /// Whether its bytes are those of its image.
    pub clean: bool,
    /// Whether it was discarded, so that all its bytes are zeros.
    pub gone: bool,
    /// Where its kept bytes are.
    pub place: Place,
}

/// The segments of an image, by their numbers from 0.
#[derive(Debug, Drop)]
pub struct Segments {
    items: Vec<SegmentEntry>,
}

impl Model for Segments {
    ghost use Rattle.std.specs.Prelude.{List};
    ghost use Rattle.o2_dump.specs.declared.parts.SegmentEntry.{SegmentEntry};

    ghost Value = { List SegmentEntry };

    ghost view = { λ a. a.items.items };
}

impl Segments {
    ghost use Rattle.std.specs.Prelude.{◌≡◌};

    pub(crate) fn new(items: Vec<SegmentEntry>) -> Segments
        ensures { result ≡ items.items }
    {
        Segments { items }
    }

    /// The segments, by their numbers from 0.
    pub fn as_slice(&self) -> &[SegmentEntry]
        ensures { result.now ≡ self.now }
    {
        self.items.as_slice()
    }
}

/// What a process holds at an index of its descriptor table.
#[derive(Clone, Copy, Debug, PartialEq, Eq)]
pub struct Held {
    /// The index.
    pub index: u16,
    /// The descriptor there.
    pub descriptor: Descriptor,
    /// The number of the segment, from 0.
    pub segment: u32,
    /// How many times it is held there, at least once.
    pub holds: u32,
}

/// What a process holds, by rising index.
#[derive(Debug, Drop)]
pub struct HeldList {
    items: Vec<Held>,
}

impl Model for HeldList {
    ghost use Rattle.std.specs.Prelude.{List};
    ghost use Rattle.o2_dump.specs.declared.parts.Held.{Held};

    ghost Value = { List Held };

    ghost view = { λ a. a.items.items };
}

impl HeldList {
    ghost use Rattle.std.specs.Prelude.{◌≡◌};

    pub(crate) fn new(items: Vec<Held>) -> HeldList
        ensures { result ≡ items.items }
    {
        HeldList { items }
    }

    /// What is held, by rising index.
    pub fn as_slice(&self) -> &[Held]
        ensures { result.now ≡ self.now }
    {
        self.items.as_slice()
    }
}

/// Whether a process lives, or how it ended.
#[derive(Clone, Copy, Debug, PartialEq, Eq)]
pub enum State {
    /// It lives.
    Live,
    /// It ended by DosExit.
    Exited,
    /// An exception ended it.
    Trapped,
}

/// A process of the machine.
#[derive(Debug, Drop)]
pub struct Process {
    /// Its number.
    pub number: u16,
    /// Whether it lives, or how it ended.
    pub state: State,
    /// The exit code, or the number of the exception that ended it.
    pub code: u16,
    /// Its registers.
    pub registers: Cpu,
    /// What it holds.
    pub held: HeldList,
}

/// The processes of an image, by rising number.
#[derive(Debug, Drop)]
pub struct Processes {
    items: Vec<Process>,
}

impl Model for Processes {
    ghost use Rattle.std.specs.Prelude.{List};
    ghost use Rattle.o2_dump.specs.declared.parts.Process.{Process};

    ghost Value = { List Process };

    ghost view = { λ a. a.items.items };
}

impl Processes {
    ghost use Rattle.std.specs.Prelude.{◌≡◌};

    pub(crate) fn new(items: Vec<Process>) -> Processes
        ensures { result ≡ items.items }
    {
        Processes { items }
    }

    /// The processes, by rising number.
    pub fn as_slice(&self) -> &[Process]
        ensures { result.now ≡ self.now }
    {
        self.items.as_slice()
    }
}
