// The arguments of a call: its words off the caller's stack, and its pointers, which are tested.
ghost use Rattle.std.specs.Prelude.{◌≡◌, ◌+◌, ◌-◌, ◌≤◌};
ghost use Rattle.o2_world.specs.Slots.{pointers_at, words_in, words_of};
ghost use Rattle.o2_gate.specs.Given.{Gathers, IsRead, IsTextAt, IsTextIn, pointers_by, word_in};
ghost use Rattle.o2_gate.specs.Pointed.{Tells, text_pointer};
ghost use Rattle.o2_gate.specs.Small.{texts_at, texts_in};

use crate::pointer::{Pointed, test};
use crate::stack::words;
use crate::table::{word_count, words_of};
use crate::text::{ReadText, TextArgument, read_text};
use o2_base::Selector;
use o2_bus::Ranges;
use o2_isa::Cpu;
use o2_world::Slot;

/// The words of a call's arguments, and the text behind its pointer to one, each with zeros in place of what there isn't.
#[derive(Clone, Copy, Debug, PartialEq, Eq)]
pub(crate) struct Given {
    pub words: [u16; 6],
    pub text: TextArgument,
}

/// What the arguments of a call come to.
#[derive(Clone, Copy, Debug, PartialEq, Eq)]
pub(crate) enum Gathered {
    /// They lie in SS, and the pointers are good.
    Good(Given),
    /// The call ends its process by this exception.
    Trap(u8),
    /// The segment behind this selector, which passes, isn't present.
    Missed(Selector),
}

/// Tests a pointer to a text, and reads it.
fn test_text<B: Ranges>(bus: &mut B, selector: u16, offset: u16, text: &mut TextArgument) -> Pointed
    ensures tells { Tells (B.view bus.old) (text_pointer selector offset) result }
    ensures text { result ≡ Pointed.Good → IsRead (B.view bus.old) selector offset text.new }
    ensures same { B.view bus.new ≡ B.view bus.old }
{
    match read_text(bus, selector, offset) {
        ReadText::Good(read) => {
            *text = read;
            Pointed::Good
        }
        ReadText::Bad => Pointed::Bad,
        ReadText::Missed(sel) => Pointed::Missed(sel),
    }
}

/// The word behind the pointer at a place: how many bytes it is for, where it is for as many.
fn count_at(words: &[u16; 6], place: usize) -> u32
    requires inside { place ≤ 6 }
    ensures value { result ≡ word_in words.now (place - 1) }
    ensures few { result ≤ 65535 }
{
    u32::from(words[place.saturating_sub(1)])
}

/// Tests the pointer that an argument is, whose last word is the one at `place` from the top of the stack.
fn test_slot<B: Ranges>(
    bus: &mut B,
    slot: Slot,
    words: &[u16; 6],
    place: usize,
    text: &mut TextArgument,
) -> Pointed
    requires inside { place + words_of slot ≤ 6 }
    ensures tells { Tells (B.view bus.old) (λ v. pointers_at slot v (word_in words.now) place) result }
    ensures text { result ≡ Pointed.Good → IsTextAt (B.view bus.old) (word_in words.now) text.new slot place }
    ensures kept { texts_at slot ≡ 0 → text.new ≡ text.old }
    ensures same { B.view bus.new ≡ B.view bus.old }
{
    let count = count_at(words, place);
    match slot {
        Slot::Word | Slot::Long | Slot::Heap => Pointed::Good,
        Slot::Reads => test(bus, false, words[place + 1], words[place], count),
        Slot::Writes => test(bus, true, words[place + 1], words[place], count),
        Slot::Text => test_text(bus, words[place + 1], words[place], text),
        Slot::ToWord => test(bus, true, words[place + 1], words[place], 2),
        Slot::ToLong => test(bus, true, words[place + 1], words[place], 4),
        Slot::ToWords(all) => {
            let count = 2 * u32::from(all);
            test(bus, true, words[place + 1], words[place], count)
        }
    }
}

/// Tests all pointers of a call in order, from the left, and reads the text behind one to a text.
fn test_all<B: Ranges>(
    bus: &mut B,
    slots: &[Slot],
    words: &[u16; 6],
    text: &mut TextArgument,
) -> Pointed
    requires few { words_in slots.now ≤ 6 }
    requires one { texts_in slots.now ≤ 1 }
    ensures tells { Tells (B.view bus.old) (pointers_by slots.now (word_in words.now)) result }
    ensures text { result ≡ Pointed.Good → IsTextIn (B.view bus.old) (word_in words.now) text.new slots.now }
    ensures same { B.view bus.new ≡ B.view bus.old }
{
    let mut place = word_count(slots);
    for slot in slots {
        place -= words_of(*slot);
        match test_slot(bus, *slot, words, place, text) {
            Pointed::Good => {}
            Pointed::Bad => return Pointed::Bad,
            Pointed::Missed(sel) => return Pointed::Missed(sel),
        }
    }
    Pointed::Good
}

/// The arguments of a call by the process whose segments the bus shows, as far as it can go without a change.
pub(crate) fn gather<B: Ranges>(slots: &[Slot], cpu: &Cpu, bus: &mut B) -> Gathered
    requires few { words_in slots.now ≤ 6 }
    requires one { texts_in slots.now ≤ 1 }
    ensures gathers { Gathers (B.view bus.old) cpu.now slots.now result }
    ensures same { B.view bus.new ≡ B.view bus.old }
{
    let Some(words) = words(bus, cpu, word_count(slots)) else {
        return Gathered::Trap(12);
    };
    let mut text = TextArgument { bytes: [0; 129] };
    match test_all(bus, slots, &words, &mut text) {
        Pointed::Good => Gathered::Good(Given { words, text }),
        Pointed::Bad => Gathered::Trap(13),
        Pointed::Missed(sel) => Gathered::Missed(sel),
    }
}
