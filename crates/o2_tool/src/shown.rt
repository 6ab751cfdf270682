// Bytes as text.
ghost use Rattle.std.specs.Prelude.{◌≡◌, ◌<◌, true, Some};
ghost use Rattle.std.specs.Fmt.{WritesOnOk, digit_glyph};
ghost use Rattle.o2_tool.specs.Text.{byte_text, shown_text};

use std::fmt;

/// Bytes as a text of printable ASCII: any other byte is written `\x` with two hexadecimal digits.
#[derive(Clone, Copy)]
pub struct Shown<'a>(pub &'a [u8]);

/// A hexadecimal digit.
pub(crate) fn digit(value: u8) -> char
    requires { value < 16 }
    ensures { result ≡ digit_glyph true value }
{
    if value < 10 {
        (b'0' + value) as char
    } else {
        (b'A' + (value - 10)) as char
    }
}

/// Writes a byte.
fn put_byte<W: fmt::Write>(f: &mut fmt::Formatter<W>, code: u8) -> fmt::Result
    ensures { WritesOnOk W.write_str_gives f.old result (byte_text code) f.new }
{
    if (32..127).contains(&code) {
        return f.write_char(code as char);
    }
    f.write_str("\\x")?;
    f.write_char(digit(code / 16))?;
    f.write_char(digit(code % 16))
}

impl fmt::Display for Shown<'_> {
    ghost output = { λ s. Some (shown_text s.0.now) };

    fn fmt<W: fmt::Write>(&self, f: &mut fmt::Formatter<W>) -> fmt::Result {
        for byte in self.0 {
            put_byte(f, *byte)?;
        }
        Ok(())
    }
}
