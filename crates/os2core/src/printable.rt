// Bytes as letters in a column.
ghost use Rattle.std.specs.Prelude.{◌≡◌, ◌<◌, ◌∷◌, [], Some};
ghost use Rattle.std.specs.Fmt.{WritesOnOk};
ghost use Rattle.os2core.specs.Columns.{letter, letters};

use std::fmt;

/// Bytes as letters, one of each: a dot for one that isn't printable ASCII.
#[derive(Clone, Copy)]
pub struct Letters<'a>(pub &'a [u8]);

/// The letter of a byte.
fn letter(byte: u8) -> char
    ensures exact { result ≡ letter byte }
    ensures ascii { result < 128 }
{
    if (32..127).contains(&byte) {
        byte as char
    } else {
        '.'
    }
}

/// Writes the letter of a byte.
fn put_letter<W: fmt::Write>(f: &mut fmt::Formatter<W>, byte: u8) -> fmt::Result
    ensures { WritesOnOk W.write_str_gives f.old result (letter byte ∷ []) f.new }
{
    f.write_char(letter(byte))
}

impl fmt::Display for Letters<'_> {
    ghost output = { λ s. Some (letters s.0.now) };

    fn fmt<W: fmt::Write>(&self, f: &mut fmt::Formatter<W>) -> fmt::Result {
        for byte in self.0 {
            put_letter(f, *byte)?;
        }
        Ok(())
    }
}
