// How a call on segments comes back: its value, and its registers.
ghost use Rattle.std.specs.Prelude.{◌≡◌, ◌≤◌, ◌+◌, ◌==◌, true, ℕ, Bool};
ghost use Rattle.o2_isa.specs.View.{Filling, is_writable, whole};
ghost use Rattle.o2_isa.specs.Pointers.{is_ready, put_at_pointer, KeepsAllButBytes};
ghost use Rattle.o2_world.specs.Calls.{long_bytes, returned, word_bytes};
ghost use Rattle.o2_world.specs.Slots.{parts_at, parts_in, put_all, targets_at, targets_in, words_in, words_of};
ghost use Rattle.o2_gate.specs.Given.{word_in};
ghost use Rattle.o2_gate.specs.Pointed.{are_ready};
ghost use Rattle.o2_gate.specs.Replies.{FitsAt, FitsIn, IsValue, bytes_of, words_of as words_of_all};
ghost use Rattle.o2_gate.specs.Targets.{targets};
ghost use Rattle.o2_bus.specs.Writes.{WritesHeld};

use crate::arguments::Arguments;
use crate::pointer::store;
use crate::stack::give_back;
use crate::table::{row_for, word_count, words_of};
use o2_bus::Ranges;
use o2_isa::Cpu;
use o2_world::Slot;

/// Writes a word behind the pointer at a place.
pub(crate) fn store_word<B: Ranges>(bus: &mut B, words: &[u16; 6], place: usize, word: u16)
    requires inside { place + 2 ≤ 6 }
    requires ready { is_ready is_writable (B.view bus.old) (word_in words.now (place + 1)) (word_in words.now place) 2 ≡ true }
    ensures bytes { (f : Filling) (n : ℕ) → (whole f (B.view bus.new)).bytes n
        ≡ put_at_pointer (B.view bus.old).held (whole f (B.view bus.old)).bytes
        (word_in words.now (place + 1)) (word_in words.now place) (word_bytes word) n }
    ensures frame { KeepsAllButBytes (B.view bus.old) (B.view bus.new) }
    ensures writes { WritesHeld (B.view bus.old) (B.view bus.new) }
    ensures ready { (ok : ℕ → Bool) (s o n : ℕ) → is_ready ok (B.view bus.new) s o n ≡ is_ready ok (B.view bus.old) s o n }
{
    let part = [(word % 256) as u8, (word / 256) as u8];
    store(bus, words[place + 1], words[place], &part);
}

/// Writes four bytes behind the pointer at a place, the low word first.
pub(crate) fn store_long<B: Ranges>(bus: &mut B, words: &[u16; 6], place: usize, value: u32)
    requires inside { place + 2 ≤ 6 }
    requires ready { is_ready is_writable (B.view bus.old) (word_in words.now (place + 1)) (word_in words.now place) 4 ≡ true }
    ensures bytes { (f : Filling) (n : ℕ) → (whole f (B.view bus.new)).bytes n
        ≡ put_at_pointer (B.view bus.old).held (whole f (B.view bus.old)).bytes
        (word_in words.now (place + 1)) (word_in words.now place) (long_bytes value) n }
    ensures frame { KeepsAllButBytes (B.view bus.old) (B.view bus.new) }
    ensures writes { WritesHeld (B.view bus.old) (B.view bus.new) }
    ensures ready { (ok : ℕ → Bool) (s o n : ℕ) → is_ready ok (B.view bus.new) s o n ≡ is_ready ok (B.view bus.old) s o n }
{
    let low = (value % 65536) as u16;
    let high = (value / 65536) as u16;
    let part = [
        (low % 256) as u8,
        (low / 256) as u8,
        (high % 256) as u8,
        (high / 256) as u8,
    ];
    store(bus, words[place + 1], words[place], &part);
}

/// Writes a value behind the pointer that an argument is, where it is for one.
fn store_at<B: Ranges>(bus: &mut B, slot: Slot, words: &[u16; 6], place: usize, value: u32)
    requires inside { place + words_of slot ≤ 6 }
    requires ready { are_ready (B.view bus.old) (targets_at slot (word_in words.now) place) ≡ true }
    requires value { FitsAt slot value }
    ensures bytes { (f : Filling) (n : ℕ) → (whole f (B.view bus.new)).bytes n
        ≡ put_all (B.view bus.old).held (targets_at slot (word_in words.now) place) (parts_at slot value) (whole f (B.view bus.old)).bytes n }
    ensures frame { KeepsAllButBytes (B.view bus.old) (B.view bus.new) }
    ensures writes { WritesHeld (B.view bus.old) (B.view bus.new) }
    ensures ready { (ok : ℕ → Bool) (s o n : ℕ) → is_ready ok (B.view bus.new) s o n ≡ is_ready ok (B.view bus.old) s o n }
{
    match slot {
        Slot::ToWord => store_word(bus, words, place, value as u16),
        Slot::ToLong => store_long(bus, words, place, value),
        Slot::Word => {}
        Slot::Long => {}
        Slot::Reads => {}
        Slot::Text => {}
        Slot::Writes => {}
        Slot::ToWords(_) => {}
        Slot::Heap => {}
    }
}

/// Writes a value where it goes.
pub(crate) fn store_value<B: Ranges>(bus: &mut B, slots: &[Slot], words: &[u16; 6], value: u32)
    requires few { words_in slots.now ≤ 6 }
    requires ready { are_ready (B.view bus.old) (targets_in slots.now (word_in words.now)) ≡ true }
    requires value { FitsIn slots.now value }
    ensures bytes { (f : Filling) (n : ℕ) → (whole f (B.view bus.new)).bytes n
        ≡ put_all (B.view bus.old).held (targets_in slots.now (word_in words.now)) (parts_in slots.now value) (whole f (B.view bus.old)).bytes n }
    ensures frame { KeepsAllButBytes (B.view bus.old) (B.view bus.new) }
    ensures writes { WritesHeld (B.view bus.old) (B.view bus.new) }
{
    let mut place = word_count(slots);
    for slot in slots {
        place -= words_of(*slot);
        store_at(bus, *slot, words, place, value);
    }
}

/// Writes the value of a call on segments behind its pointer, which was found good, where it has one and came to no error.
pub fn give_value<B: Ranges>(bus: &mut B, arguments: Arguments, error: u16, value: u32)
    requires ready { are_ready (B.view bus.old) (targets arguments) ≡ true }
    requires value { IsValue arguments value }
    ensures bytes { (f : Filling) (n : ℕ) → (whole f (B.view bus.new)).bytes n
        ≡ bytes_of arguments error value (B.view bus.old).held (whole f (B.view bus.old)).bytes n }
    ensures frame { KeepsAllButBytes (B.view bus.old) (B.view bus.new) }
    ensures writes { WritesHeld (B.view bus.old) (B.view bus.new) }
{
    if error == 0 {
        store_value(bus, row_for(&arguments).slots, &arguments.words, value);
    }
}

/// The registers of a call with such arguments that comes back to `next` with this error number: they are gone from the stack.
pub(crate) fn return_from(cpu: &mut Cpu, slots: &[Slot], error: u16, next: u16)
    requires { words_in slots.now ≤ 6 }
    ensures { cpu.new ≡ returned cpu.old next (words_in slots.now) error }
{
    let words = word_count(slots);
    give_back(cpu, next, words as u16, error);
}

/// The registers of a call on segments that comes back to `next` with this error number: its arguments are gone from the stack.
pub fn come_back(cpu: &mut Cpu, arguments: Arguments, error: u16, next: u16)
    ensures { cpu.new ≡ returned cpu.old next (words_of_all arguments) error }
{
    return_from(cpu, row_for(&arguments).slots, error, next);
}
