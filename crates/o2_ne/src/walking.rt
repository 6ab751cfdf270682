// The walk through a name table.
ghost use Rattle.std.specs.Prelude.{◌≡◌, ◌≤◌, ◌<◌, ◌+◌, ℕ, [], length, false, IfOk, OnOk};
ghost use Rattle.o2_ne.specs.NameTable.{name_step, named};
ghost use Rattle.o2_ne.specs.NameViews.{Walks, walk};
ghost use Rattle.o2_ne.specs.Steps.{Gives, steps};
ghost use Rattle.o2_ne.specs.Words.{byte_at};

use crate::bytes::need;
use o2_base::{Fail, NeFault};
use std::alloc::Global;

// The reading of a name table so far: the places of its names, and the place of the next.
#[derive(Drop)]
pub(crate) struct Walking {
    pub(crate) places: Vec<u32>,
    place: u32,
    ended: bool,
}

impl Walking {
    // A name of this many bytes.
    fn name(&mut self, file: &[u8], len: u8) -> Result<(), Fail<NeFault>>
        requires small { length file.now ≤ 4194304 }
        requires place { self.old.place < length file.now }
        requires len { len ≡ byte_at file.now self.old.place }
        requires goes_on { self.old.ended ≡ false }
        ensures exact { Gives (λ _. walk file.now self.new) result (named file.now len (walk file.now self.old)) }
        ensures walks { (at : ℕ) → Walks file.now at self.old → OnOk result (Walks file.now at self.new) }
        ensures one { OnOk result (length self.new.places.items ≤ length self.old.places.items + 1) }
    {
        if len == 0 {
            self.ended = true;
            return Ok(());
        }
        let start = self.place + 1;
        need(file, start, u32::from(len) + 2)?;
        self.places.push(self.place)?;
        self.place = start + u32::from(len) + 2;
        Ok(())
    }

    // The next name, where the table has not ended.
    #[tactic(auto, unfolding(crate::specs::NameTable::name_step))]
    fn step(&mut self, file: &[u8]) -> Result<(), Fail<NeFault>>
        requires small { length file.now ≤ 4194304 }
        requires goes_on { self.old.ended ≡ false }
        ensures exact { Gives (λ _. walk file.now self.new) result (name_step file.now (walk file.now self.old)) }
        ensures walks { (at : ℕ) → Walks file.now at self.old → OnOk result (Walks file.now at self.new) }
        ensures one { OnOk result (length self.new.places.items ≤ length self.old.places.items + 1) }
    {
        need(file, self.place, 1)?;
        let len = file[self.place as usize];
        self.name(file, len)
    }
}

// The walk to the end of a table.
pub(crate) fn walk_on(alloc: Global, file: &[u8], at: u32) -> Result<Walking, Fail<NeFault>>
    requires { length file.now ≤ 4194304 }
    ensures exact { Gives (walk file.now) result (steps (name_step file.now) (length file.now) (record { found = []; place = at; ended = false })) }
    ensures walks { IfOk result (Walks file.now at) }
    ensures few { IfOk result (λ w. length w.places.items ≤ length file.now) }
{
    let mut walking = Walking {
        places: Vec::new(alloc),
        place: at,
        ended: false,
    };
    for _ in 0..file.len() {
        if walking.ended {
            return Ok(walking);
        }
        walking.step(file)?;
    }
    Ok(walking)
}
