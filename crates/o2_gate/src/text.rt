// A text behind a pointer.
ghost use Rattle.std.specs.Prelude.{◌≡◌, ◌-◌, ◌<◌, ◌≤◌, ◌++◌, ℕ, Bool, length, replicate, IfSome, Some, position, ◌==◌};
ghost use Rattle.std.specs.Option.{IfNone};
ghost use Rattle.o2_isa.specs.View.{size_at};
ghost use Rattle.o2_world.specs.SharedNames.{before_zero, name_by};
ghost use Rattle.o2_gate.specs.Given.{ReadsText};
ghost use Rattle.o2_gate.specs.Texts.{IsCutOff, IsTextOf, counted, text_of};

use crate::pointer::{Pointed, range, test};
use o2_base::Selector;
use o2_bus::{Bus, Ranges};

/// The most bytes of a text that are looked at.
const LOOKED_AT: u32 = 129;

/// A text behind a pointer, which is good: the bytes up to the first zero, with zeros from there on; where none of the first 129
/// is one, these.
#[derive(Clone, Copy, Debug, PartialEq, Eq)]
pub struct TextArgument {
    pub bytes: [u8; 129],
}

/// What a pointer to a text came to.
#[derive(Clone, Copy, Debug, PartialEq, Eq)]
pub(crate) enum ReadText {
    /// It is good.
    Good(TextArgument),
    /// It is bad: its selector doesn't pass, or its segment ends before a zero and before the 129th byte.
    Bad,
    /// The segment behind this selector, which passes, isn't present.
    Missed(Selector),
}

/// The bytes of a text, with zeros behind.
fn padded(text: &[u8]) -> [u8; 129]
    requires { length text.now ≤ 129 }
    ensures { result ≡ text.now ++ replicate (129 - length text.now) 0 }
{
    let mut bytes = [0; 129];
    for k in 0..text.len() {
        bytes[k] = text[k];
    }
    bytes
}

/// Where the first zero is among bytes.
fn first_zero(bytes: &[u8]) -> Option<usize>
    ensures value { result ≡ position (λ byte. byte == 0) bytes.now }
    ensures bound { IfSome result (λ end. end < length bytes.now) }
{
    bytes.iter().position(|byte| *byte == 0)
}

/// The bytes before the first zero; all of them where none is one.
fn front(bytes: &[u8]) -> &[u8]
    requires { length bytes.now ≡ 129 }
    ensures { name_by (Some result.now) ≡ name_by (before_zero bytes.now) }
{
    match first_zero(bytes) {
        Some(end) => &bytes[..end],
        None => bytes,
    }
}

impl TextArgument {
    /// The bytes before the first zero; all of them where none is one, which are no name.
    pub fn text(&self) -> &[u8]
        ensures { name_by (Some result.now) ≡ name_by (text_of self.now) }
    {
        front(&self.bytes)
    }
}

/// The text at the front of bytes, 129 at most. None exactly where there are fewer, of which none is a zero.
fn text_in(bytes: &[u8]) -> Option<[u8; 129]>
    requires { length bytes.now ≤ 129 }
    ensures some { IfSome result (λ t. IsTextOf bytes.now t) }
    ensures none { IfNone result (IsCutOff bytes.now) }
{
    match first_zero(bytes) {
        Some(end) => Some(padded(&bytes[..end])),
        None => {
            if bytes.len() < 129 {
                return None;
            }
            Some(padded(bytes))
        }
    }
}

/// How many bytes of a segment are looked at from an offset on.
#[tactic(auto, unfolding(o2_isa::specs::View::size_at))]
fn count_from<B: Bus>(bus: &B, sel: Selector, offset: u16) -> u16
    ensures count { result ≡ counted (size_at (B.view bus.now) sel.0) offset }
    ensures most { result ≤ 129 }
{
    match bus.size_of(sel) {
        Some(size) => size.saturating_sub(u32::from(offset)).min(LOOKED_AT) as u16,
        None => 1,
    }
}

/// Reads the text behind a pointer.
pub(crate) fn read_text<B: Ranges>(bus: &mut B, selector: u16, offset: u16) -> ReadText
    ensures reads { ReadsText (B.view bus.old) selector offset result }
    ensures same { B.view bus.new ≡ B.view bus.old }
{
    match test(bus, false, selector, offset, 1) {
        Pointed::Good => {
            let count = count_from(bus, Selector(selector), offset);
            match text_in(range(bus, selector, offset, count)) {
                Some(bytes) => ReadText::Good(TextArgument { bytes }),
                None => ReadText::Bad,
            }
        }
        Pointed::Bad => ReadText::Bad,
        Pointed::Missed(sel) => ReadText::Missed(sel),
    }
}
