// What a store shows of a segment.

use o2_store::{Attr, Place};

/// A segment as the store shows it.
#[derive(Clone, Copy)]
pub(crate) struct Shown {
    pub(crate) size: u32,
    // how many of its first bytes are kept at its place
    pub(crate) kept: u32,
    pub(crate) attr: Attr,
    pub(crate) place: Place,
}
