// The module of all rows as a text, and machine files over it.

use o2_base::NoMemory;
use std::alloc::{AllocError, Global};
use test_fixtures::{Files, add_file, bytes_in};

/// Puts a 1 into the first of two segments of 16,384 bytes, loads the second one, which takes its place, and reads the byte again: headers,
/// with a stack of 512 bytes and a start at 1:0000, the tables without entries and with DOSCALLS as the only other module, the segment
/// table at A0h, and the code behind it.
static READ_AGAIN: &str = "
4D 5A 00*3A 40 00 00 00
4E 45 00 00 47 00 00*6 02 00 02 00 00 00 00 02 00 00 01 00 00 00 00 00 04
00 01 00 00 00 60 00 40 00 40 00 48 00 4A 00 00*6 04 00 00 00 01 00*9
03 4D 45 4D 00 00 00 00 01 00 00 08 44 4F 53 43 41 4C 4C 53 00*C
0D 00 21 00 00 0C 21 00  00 00 00 00 01 0C 10 00  00 00 00 00 01 0C 00 40  00 00 00 00 01 0C 00 40  00*10
B8 1F 00 8E C0 26 C6 06 00 00 01 31 C0 8E C0 B8 27 00 8E C0 31 C0 8E C0 B8 1F 00 8E C0 26 A0 00 00
";

/// The machine file of one process of the module, with these keys.
fn machine_file(alloc: Global, keys: &str) -> Result<String, AllocError> {
    format!(in alloc;
        "{keys}\nsegments = 100\nquantum = 1\nmodules = [\"a.exe\"]\n[[process]]\nmodule = \"MEM\"\n"
    )
}

/// The machine file, and the module in `a.exe`.
pub fn add_files(alloc: Global, files: &mut Files, keys: &str) -> Result<(), NoMemory> {
    let machine = machine_file(alloc, keys)?.into_bytes();
    add_file(alloc, files, "a.toml", machine)?;
    add_file(alloc, files, "a.exe", bytes_in(alloc, READ_AGAIN)?)
}
