// The selectors of a call's pointers.
ghost use Rattle.std.specs.Prelude.{◌≡◌, ◌<◌, ◌≤◌, ◌++◌, ◌∷◌, [], length, map};
ghost use Rattle.o2_gate.specs.Targets.{targets};

use crate::arguments::Arguments;
use crate::table::{row_for, word_count, words_of};
use o2_world::Slot;
use std::marker::Model;

/// Selectors, three at most: a pointer has two words of six. Contracts see their list.
#[derive(Drop)]
pub struct Selectors {
    all: [u16; 3],
    count: usize,
}

impl Model for Selectors {
    ghost use Rattle.std.specs.Prelude.{ℕ, ◌≤◌, List, take};

    ghost Value = { List ℕ };

    ghost view = { λ s. take s.count s.all };

    ghost invariant = { λ s. s.count ≤ 3 };
}

impl Selectors {
    fn none() -> Selectors
        ensures { result ≡ [] }
    {
        Selectors {
            all: [0; 3],
            count: 0,
        }
    }

    fn push(&mut self, selector: u16)
        requires { length self.old < 3 }
        ensures { self.new ≡ self.old ++ selector ∷ [] }
    {
        self.all[self.count] = selector;
        self.count += 1;
    }

    /// All, from the left.
    pub fn as_slice(&self) -> &[u16]
        ensures all { result.now ≡ self.now }
        ensures few { length result.now ≤ 3 }
    {
        &self.all[..self.count]
    }
}

/// The selectors of the pointers of a call on segments, in the order in which they are tested.
pub fn selectors_of(arguments: Arguments) -> Selectors
    ensures { result ≡ map (λ p. p.selector) (targets arguments) }
{
    let slots = row_for(&arguments).slots;
    let mut place = word_count(slots);
    let mut all = Selectors::none();
    for slot in slots {
        place -= words_of(*slot);
        match slot {
            Slot::Word | Slot::Long | Slot::Heap => {}
            _ => all.push(arguments.words[place + 1]),
        }
    }
    all
}
