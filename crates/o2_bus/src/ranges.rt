// Ranges of bytes behind the pointers that a program hands to a call.
ghost use Rattle.std.specs.Prelude.{◌≡◌, ◌<◌, true, length};
ghost use Rattle.o2_isa.specs.View.{is_readable, is_writable};
ghost use Rattle.o2_isa.specs.Pointers.{is_ready, range_of, with_part};

use crate::Bus;
use o2_base::Selector;

/// A bus that gives ranges of its segments as slices. Who calls it has tested the range: by `probe` its selector, by `size_of`
/// its place, and by `rights_of` its rights.
pub trait Ranges: Bus {
    /// The bytes of a range, at least one, in a segment that is present and may be read.
    fn range(&self, sel: Selector, offset: u16, count: u16) -> &[u8]
        requires some { 0 < count }
        requires ready { is_ready is_readable (Self.view self.now) sel.0 offset count ≡ true }
        ensures value { result.now ≡ range_of (Self.view self.now).held (Self.view self.now).bytes sel.0 offset count }
        ensures len { length result.now ≡ count };

    /// Writes some bytes into a segment that is present and may be written, and changes nothing else.
    fn put(&mut self, sel: Selector, offset: u16, part: &[u8])
        requires some { 0 < length part.now }
        requires ready { is_ready is_writable (Self.view self.old) sel.0 offset (length part.now) ≡ true }
        ensures { Self.view self.new ≡ with_part (Self.view self.old) sel.0 offset part.now };
}
