// A free block.
ghost use Rattle.std.specs.Prelude.{◌≡◌, ◌+◌, ◌<◌};

/// A free block of a heap.
#[derive(Clone, Copy)]
pub(crate) struct Block {
    /// Its first byte's offset, a multiple of 4.
    pub offset: u16,
    /// How many bytes it has, a multiple of 4.
    pub length: u16,
}

impl Block {
    /// The offset behind its last byte.
    pub fn end(self) -> u32
        ensures { result ≡ self.offset + self.length }
    {
        u32::from(self.offset) + u32::from(self.length)
    }
}
