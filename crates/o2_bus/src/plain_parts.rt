// Bytes written into a name.
ghost use Rattle.std.specs.Prelude.{◌≡◌, ◌+◌, ◌≤◌, ◌<◌, ◌==◌, ℕ, length, slice_get, if◌then◌else◌};
ghost use Rattle.o2_isa.specs.Parts.{put_part};
ghost use Rattle.o2_bus.specs.Plain.{bytes_in, segment_bytes, PutsBytes};
ghost use Rattle.o2_bus.specs.Frames.{KeepsSegments};

use crate::Plain;
use crate::segment::Segment;

/// Copies a part over the bytes from a place on.
fn put_bytes(bytes: &mut [u8], at: usize, part: &[u8])
    requires { at + length part.now ≤ length bytes.old }
    ensures { bytes.new ≡ put_part bytes.old at part.now }
{
    bytes[at..at + part.len()].copy_from_slice(part);
}

fn put_in_segment(segments: &mut Vec<Segment>, name: usize, at: usize, part: &[u8])
    requires named { name < length segments.old.items }
    requires room { at + length part.now ≤ length (segment_bytes (slice_get segments.old.items name)) }
    ensures { PutsBytes segments.old.items segments.new.items name (put_part (segment_bytes (slice_get segments.old.items name)) at part.now) }
{
    let segment = &mut segments[name];
    put_bytes(&mut segment.bytes, at, part);
}

impl Plain {
    /// Writes some bytes into a name from a place on.
    pub fn put(&mut self, name: u32, at: u16, part: &[u8])
        requires some { 0 < length part.now }
        requires there { at + length part.now ≤ length (bytes_in self.old name) }
        ensures bytes { (n : ℕ) → bytes_in self.new n
            ≡ (if n == name then put_part (bytes_in self.old name) at part.now else bytes_in self.old n) }
        ensures frame { KeepsSegments self.old self.new }
    {
        put_in_segment(&mut self.segments, name as usize, at as usize, part);
    }
}
