// What the name of a shared segment is.
ghost use Rattle.std.specs.Prelude.{◌≡◌, ◌≤◌, length, take};
ghost use Rattle.std.specs.List.{list_all};
ghost use Rattle.o2_world.specs.Known.{same_text};
ghost use Rattle.o2_world.specs.SharedNames.{folded, is_name, is_name_byte, name_front};

use crate::text::{NAME_MOST, Text};

/// How each name begins, in letters of either case.
const FRONT: [u8; 10] = *b"\\SHAREMEM\\";

/// Whether a text is a name: \SHAREMEM\ with letters of either case, and 1 to 118 bytes of 21h to 7Eh behind it.
pub(crate) fn is_name(text: &[u8]) -> bool
    ensures { result ≡ is_name text.now }
{
    if text.len() <= FRONT.len() || NAME_MOST < text.len() {
        return false;
    }
    has_front(text) && are_name_bytes(&text[FRONT.len()..])
}

// Whether a text of ten bytes at least begins as each name does.
fn has_front(text: &[u8]) -> bool
    requires { 10 ≤ length text.now }
    ensures { result ≡ same_text (take 10 (folded text.now)) name_front }
{
    Text::folded(&FRONT).is(&text[..FRONT.len()])
}

// Whether each byte may stand in a name.
fn are_name_bytes(bytes: &[u8]) -> bool
    ensures { result ≡ list_all is_name_byte bytes.now }
{
    bytes.iter().all(|x| 0x21 <= *x && *x <= 0x7E)
}
