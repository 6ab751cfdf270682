ghost use Rattle.std.specs.Prelude.{◌≡◌};

use o2_phys::Phys;
use std::alloc::Global;
use test_fixtures::{Wrong, want};

pub fn each_call_once(alloc: Global) -> Result<(), Wrong> {
    let mut phys = Phys::new(alloc, small_size())?;
    phys.write(1, b"abcdef");
    phys.clear(2, 2);
    for byte in phys.bytes_mut(5, 2).iter_mut() {
        *byte = b'z';
    }
    want(phys.bytes(0, 8) == b"\0a\0\0dzz\0".as_slice(), 0)?;
    Ok(())
}

// A size that the proof of a test knows by its bounds alone.
fn small_size() -> u32
    ensures { result ≡ 8 }
{
    8
}

// Slides of abcdefgh: from, to, length, and what is left.
static SLIDES: [(u32, u32, u32, &[u8; 8]); 8] = [
    (0, 2, 4, b"ababcdgh"),
    (2, 0, 4, b"cdefefgh"),
    (0, 1, 7, b"aabcdefg"),
    (1, 0, 7, b"bcdefghh"),
    (0, 4, 4, b"abcdabcd"),
    (4, 0, 4, b"efghefgh"),
    (3, 3, 5, b"abcdefgh"),
    (5, 2, 0, b"abcdefgh"),
];

pub fn slides_both_ways(alloc: Global) -> Result<(), Wrong> {
    for (from, to, len, left) in &SLIDES {
        let mut phys = Phys::new(alloc, small_size())?;
        phys.write(0, b"abcdefgh");
        if *from <= 8 - *len && *to <= 8 - *len {
            phys.slide(*from, *to, *len);
        }
        want(phys.bytes(0, 8) == left.as_slice(), 0)?;
    }
    Ok(())
}
