// Decoded instructions, each kept with the bytes that it was decoded from.
ghost use Rattle.std.specs.Prelude.{◌≡◌, ◌<◌, ◌≤◌, length, take};
ghost use Rattle.std.proofs.Props.{props};
ghost use Rattle.o2_bus.specs.Tens.{ten_of};
ghost use Rattle.o2_isa.specs.Reading.{decoded};

use o2_base::NoMemory;
use o2_bus::TenBytes;
use o2_decode::{Decoded, decode};
use std::alloc::Global;

/// Some bytes, and what they spell. Behind them anything may stand. What is compared stands first.
#[derive(Clone, Copy)]
struct Line {
    bytes: TenBytes,
    count: u8,
    spelled: Decoded,
    ghost is_decoded: { spelled ≡ decoded (take count (ten_of bytes)) } by { Prim.hlevel props },
}

/// The line of the first bytes of these, so many.
fn line_of(bytes: TenBytes, count: u8) -> Line
    requires { count ≤ 10 }
    ensures bytes { result.bytes ≡ bytes }
    ensures count { result.count ≡ count }
{
    Line {
        bytes,
        count,
        spelled: decode(&bytes.to_bytes()[..count as usize]),
    }
}

/// How many lines there are.
const LINES: usize = 4096;

/// The line for the instruction at an offset of the segment of a selector. Segments behind one another are 1,021 lines apart.
#[inline(always)]
fn place_of(selector: u16, ip: u16) -> usize
    ensures { result < 4096 }
{
    (ip.wrapping_add((selector / 8).wrapping_mul(1021)) % 4096) as usize
}

/// Instructions that were decoded before, in 4,096 lines. A line has up to ten bytes and what they spell, until it is filled
/// again. The bytes are compared whenever a line is asked for, so it doesn't matter what was written, moved or swapped since.
#[derive(Drop)]
pub struct DecodeCache {
    lines: Vec<Line>,
    ghost count: { length lines.items ≡ 4096 },
}

impl DecodeCache {
    /// A cache, all of whose lines are of ten zeros. It takes no memory later on.
    pub fn new(alloc: Global) -> Result<DecodeCache, NoMemory> {
        let zeros = line_of(TenBytes { first: 0, last: 0 }, 10);
        let lines = vec![in alloc; zeros; LINES]?;
        Ok(DecodeCache { lines })
    }

    /// What the first bytes of these spell, so many. The line at this place has it from now on.
    // On its own, since a function pays as it begins for the room of a line that it may have to make.
    #[cold]
    #[inline(never)]
    fn filled_anew(&mut self, place: usize, bytes: TenBytes, count: u8) -> &Decoded
        requires place { place < 4096 }
        requires count { count ≤ 10 }
        ensures { result.now ≡ decoded (take count (ten_of bytes)) }
    {
        self.lines[place] = line_of(bytes, count);
        &self.lines[place].spelled
    }

    /// What the first bytes of these spell, so many, which stand at an offset of the segment of a selector.
    #[inline(always)]
    #[tactic(auto, unfolding(o2_bus::specs::Tens::ten_of))]
    fn looked_up(&mut self, selector: u16, ip: u16, bytes: TenBytes, count: u8) -> &Decoded
        requires { count ≤ 10 }
        ensures { result.now ≡ decoded (take count (ten_of bytes)) }
    {
        let place = place_of(selector, ip);
        let line = &self.lines[place];
        if line.bytes.first == bytes.first && line.bytes.last == bytes.last && line.count == count {
            return &self.lines[place].spelled;
        }
        self.filled_anew(place, bytes, count)
    }

    /// What ten bytes spell, which stand at an offset of the segment of a selector.
    #[inline(always)]
    #[tactic(auto, unfolding(o2_bus::specs::Tens::ten_of))]
    pub fn ten(&mut self, selector: u16, ip: u16, bytes: TenBytes) -> &Decoded
        ensures { result.now ≡ decoded (ten_of bytes) }
    {
        self.looked_up(selector, ip, bytes, 10)
    }

    /// What the first bytes of these spell, so many, which stand at an offset of the segment of a selector, at its end.
    #[cold]
    pub fn fewer(&mut self, selector: u16, ip: u16, bytes: TenBytes, count: u8) -> &Decoded
        requires { count ≤ 10 }
        ensures { result.now ≡ decoded (take count (ten_of bytes)) }
    {
        self.looked_up(selector, ip, bytes, count)
    }
}
