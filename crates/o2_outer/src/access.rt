// What is done with a block.

/// What was done with a block.
pub(crate) enum Access {
    Read,
    Written,
    /// A write failed, so nobody knows what it holds.
    Lost,
}
