// Bytes in hexadecimal digits.
ghost use Rattle.std.specs.Prelude.{◌≡◌, ◌-◌, ◌*◌, ◌≤◌, Some, min, replicate};
ghost use Rattle.std.specs.Fmt.{WritesOnOk};
ghost use Rattle.o2_tool.specs.Text.{pair_text, hex_text};

use crate::shown::{Shown, digit};
use std::fmt;

/// Bytes as hexadecimal digits, two of each.
#[derive(Clone, Copy)]
pub struct Hex<'a>(pub &'a [u8]);

/// Writes the digits of a byte.
fn put_pair<W: fmt::Write>(f: &mut fmt::Formatter<W>, code: u8) -> fmt::Result
    ensures { WritesOnOk W.write_str_gives f.old result (pair_text code) f.new }
{
    f.write_char(digit(code / 16))?;
    f.write_char(digit(code % 16))
}

impl fmt::Display for Hex<'_> {
    ghost output = { λ s. Some (hex_text s.0.now) };

    fn fmt<W: fmt::Write>(&self, f: &mut fmt::Formatter<W>) -> fmt::Result {
        for byte in self.0 {
            put_pair(f, *byte)?;
        }
        Ok(())
    }
}

/// A text of 32 blanks.
const BLANKS: &[u8] = b"                                ";

/// This many blanks.
pub fn blanks(count: usize) -> Shown<'static>
    requires { count ≤ 32 }
    ensures { result.0.now ≡ replicate count 32 }
{
    Shown(&BLANKS[..count])
}

/// What fills a column of ten bytes' digits behind those of this many.
pub fn filling(count: usize) -> Shown<'static>
    ensures { result.0.now ≡ replicate (20 - 2 * min count 10) 32 }
{
    blanks(20 - 2 * count.min(10))
}
