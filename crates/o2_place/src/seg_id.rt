// The name of a segment in the store.

/// A segment of the store: its number, and an age that no other segment of that number has.
#[derive(Clone, Copy, Debug, PartialEq, Eq)]
pub struct SegId {
    /// The number, below the most segments that the store can hold.
    pub key: u32,
    /// How many segments the store had made before this one.
    pub age: u64,
}
