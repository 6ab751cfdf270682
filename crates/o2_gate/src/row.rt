// A row of the table of calls.
ghost use Rattle.std.specs.Prelude.{◌≡◌, ◌≤◌, length};
ghost use Rattle.o2_world.specs.Slots.{words_in};
ghost use Rattle.o2_gate.specs.Small.{IsSmall, texts_in};

use o2_world::Slot;

/// A call's name, and its arguments from left to right.
#[derive(Clone, Copy, Debug, PartialEq, Eq)]
pub struct Row {
    pub name: &'static [u8],
    pub slots: &'static [Slot],
    ghost small: { IsSmall name.now slots.now },
}

pub(crate) fn made(name: &'static [u8], slots: &'static [Slot]) -> Row
    requires name { length name.now ≤ 20 }
    requires words { words_in slots.now ≤ 6 }
    requires text { texts_in slots.now ≤ 1 }
    ensures { (result.name.now ≡ name.now) × (result.slots.now ≡ slots.now) }
{
    Row { name, slots }
}
