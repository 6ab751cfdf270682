// A text of at most 128 bytes.
ghost use Rattle.std.specs.Prelude.{◌≡◌, ◌≤◌, length};
ghost use Rattle.std.specs.Ordering.{nat_cmp};
ghost use Rattle.std.specs.Cmp.Lexicographic.{slice_cmp};
ghost use Rattle.o2_world.specs.Known.{same_text};
ghost use Rattle.o2_world.specs.SharedNames.{folded};

use std::cmp::Ordering;
use std::marker::Model;

/// The most bytes of a name, without its zero.
pub(crate) const NAME_MOST: usize = 128;

/// A text with folded ASCII letters, of at most 128 bytes.
#[derive(Debug, Drop)]
pub(crate) struct Text {
    bytes: [u8; 128],
    len: usize,
}

impl Model for Text {
    ghost use Rattle.std.specs.Prelude.{◌≤◌, ℕ, List, take};

    ghost Value = { List ℕ };

    ghost view = { λ t. take t.len t.bytes };

    ghost invariant = { λ t. t.len ≤ 128 };
}

impl Text {
    /// A text of at most 128 bytes, with its ASCII letters folded.
    pub(crate) fn folded(text: &[u8]) -> Text
        requires { length text.now ≤ 128 }
        ensures { result ≡ folded text.now }
    {
        let mut bytes = [0; NAME_MOST];
        for k in 0..text.len() {
            bytes[k] = text[k].to_ascii_lowercase();
        }
        Text {
            bytes,
            len: text.len(),
        }
    }

    /// How it compares with another text, byte by byte.
    pub(crate) fn compare(&self, other: &Text) -> Ordering
        ensures { result ≡ slice_cmp nat_cmp self.now other.now }
    {
        let own = &self.bytes[..self.len];
        let others = &other.bytes[..other.len];
        own.cmp(&others)
    }

    /// Whether it is a text whose ASCII letters may be of either case.
    pub(crate) fn is(&self, text: &[u8]) -> bool
        ensures { result ≡ same_text self.now (folded text.now) }
    {
        if self.len != text.len() {
            return false;
        }
        for k in 0..text.len() {
            if self.bytes[k] != text[k].to_ascii_lowercase() {
                return false;
            }
        }
        true
    }
}
