// The program that writes `hello`, as a text.

use crate::texts::bytes_in;
use o2_base::NoMemory;
use std::alloc::Global;

// All numbers in this text are hexadecimal, and `00*3A` is so many bytes in a row. `tools/ne.py` makes the file of the listing in `examples/`.

/// 240 bytes, all of which are needed.
static HELLO: &str = "
4D 5A 00*3A 40 00*3 4E 45 05 00 65 00*7 02 00 02 00*4 02 00 00 01 00*3 02 00 02 00 01 00*3 40 00
50 00 50 00 59 00 5B 00*7 04 00*3 01 00*9 0B 00 19 00 00 0D 19 00 0E 00 10 00 01 0C 10 00 05 48 45
4C 4C 4F 00*3 01 00 00 08 44 4F 53 43 41 4C 4C 53 00*B 6A 01 1E 68 00 00 6A 05 1E 6A 06 9A FF FF
00 00 6A 01 6A 00 9A FF FF 00 00 02 00 03 01 0C 00 01 00 8A 00 03 01 15 00 01 00 05 00*6 68 65 6C
6C 6F 00*B
";

/// The program with some bytes changed; its code begins at B0h, and the ordinals of its two imports stand at D1h and D9h.
pub fn changed(alloc: Global, changes: &[(usize, u8)]) -> Result<Vec<u8>, NoMemory> {
    let mut file = bytes_in(alloc, HELLO)?;
    for (at, byte) in changes {
        if let Some(place) = file.get_mut(*at) {
            *place = *byte;
        }
    }
    Ok(file)
}
