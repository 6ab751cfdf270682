// Blocks at their places in a file.
ghost use Rattle.std.specs.Prelude.{◌≡◌, ◌*◌, true, false};
ghost use Rattle.o2_outer.specs.Placed.{IsSought, WritesAt};

use crate::Put;
use crate::streams::write_whole;
use std::io::{Seek, SeekFrom, Write};

/// How many bytes a block has.
const BLOCK: u64 = 512;

/// Has a file stand before a block, and tells whether it does.
pub fn seek_to<F: Seek>(file: &mut F, i: u32) -> bool
    ensures place { result ≡ true → IsSought F.stream_position (512 * i) file.old file.new }
{
    file.seek(SeekFrom::Start(i as u64 * BLOCK)).is_ok()
}

/// Writes bytes from a block's place on, and tells whether the file took them whole.
pub fn write_at<F: Write + Seek>(file: &mut F, i: u32, bytes: &[u8]) -> bool
    ensures written { result ≡ true → WritesAt F.stream_position F.contents (512 * i) bytes.now file.old file.new }
{
    seek_to(file, i) && write_whole(file, bytes) == Put::Done
}
