// What a call on segments asks for.
use crate::text::TextArgument;

/// What a call on segments asks for. Behind which pointer a value goes is told by its words.
#[derive(Clone, Copy, Debug, PartialEq, Eq)]
pub enum SegmentArguments {
    /// DosAllocSeg.
    Alloc { size: u16, flags: u16 },
    /// DosReallocSeg.
    Realloc { size: u16, selector: u16 },
    /// DosFreeSeg.
    Free(u16),
    /// DosSizeSeg.
    Size(u16),
    /// DosLockSeg.
    Lock(u16),
    /// DosUnlockSeg.
    Unlock(u16),
    /// DosCreateCSAlias.
    Alias(u16),
    /// By which processes share segments.
    Shared(SharedArguments),
    /// On a huge allocation.
    Huge(HugeArguments),
}

/// What a call asks for by which processes share segments.
#[derive(Clone, Copy, Debug, PartialEq, Eq)]
pub enum SharedArguments {
    /// DosAllocShrSeg.
    Name { size: u16, text: TextArgument },
    /// DosGetShrSeg.
    Share(TextArgument),
    /// DosGiveSeg.
    Give { selector: u16, to: u16 },
    /// DosGetSeg.
    Get(u16),
}

/// What a call on a huge allocation asks for.
#[derive(Clone, Copy, Debug, PartialEq, Eq)]
pub enum HugeArguments {
    /// DosAllocHuge.
    Alloc {
        segs: u16,
        part: u16,
        most: u16,
        flags: u16,
    },
    /// DosReallocHuge.
    Realloc {
        segs: u16,
        part: u16,
        selector: u16,
    },
    /// DosGetHugeShift.
    Shift,
}
