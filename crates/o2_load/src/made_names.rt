// The names that are common to all processes.
ghost use Rattle.std.specs.Prelude.{◌≡◌, ◌≤◌, ◌<◌, ◌+◌, ◌*◌, ◌++◌, ◌∷◌, [], ℕ, Some, None, get_or, set, length, unwrap_or, OnOk};
ghost use Rattle.o2_world.specs.Starts.{name_in};
ghost use Rattle.o2_load.specs.MadeIndex.{slot_of};

use o2_base::NoMemory;
use o2_world::Made;
use std::alloc::Global;
use std::marker::Model;

/// The common names in the order in which they were made, each found by its module's place and its segment's number in constant
/// time. Contracts see the list.
#[derive(Drop)]
pub struct MadeNames {
    made: Vec<Made>,
    // by place and number the name that was made first, with room for the places so far
    index: Vec<Option<u32>>,
}

impl Model for MadeNames {
    ghost use Rattle.std.specs.Prelude.{List};
    ghost use Rattle.o2_world.specs.declared.types.Made.{Made};
    ghost use Rattle.o2_load.specs.MadeIndex.{IsIndexed};

    ghost Value = { List Made };

    ghost view = { λ m. m.made.items };

    ghost invariant = { λ m. IsIndexed m.made.items m.index.items };
}

// Where the index has a segment's name.
fn slot_of(place: u16, number: u16) -> usize
    ensures { result ≡ slot_of place number }
{
    usize::from(place) * 256 + usize::from(number)
}

// Room for the segments of the module at a place.
fn widen(index: &mut Vec<Option<u32>>, place: u16) -> Result<(), NoMemory>
    ensures same { (k : ℕ) → get_or index.new.items k None ≡ get_or index.old.items k None }
    ensures room { OnOk result (place * 256 + 256 ≤ length index.new.items) }
{
    let size = usize::from(place) * 256 + 256;
    if index.len() < size {
        index.resize(size, None)?;
    }
    Ok(())
}

// A name at a place of the index, where it has none.
fn note(index: &mut Vec<Option<u32>>, slot: usize, name: u32)
    requires { slot < length index.old.items }
    ensures { index.new.items ≡ set index.old.items slot (Some (unwrap_or (get_or index.old.items slot None) name)) }
{
    let first = index[slot].unwrap_or(name);
    index[slot] = Some(first);
}

impl MadeNames {
    /// No names.
    pub(crate) fn new(alloc: Global) -> MadeNames
        ensures { result ≡ [] }
    {
        MadeNames {
            made: Vec::new(alloc),
            index: Vec::new(alloc),
        }
    }

    /// The name of the segment of a number below 256, of the module at a place, where one is made.
    pub(crate) fn name(&self, place: u16, number: u16) -> Option<u32>
        requires { number < 256 }
        ensures { result ≡ name_in self.now place number }
    {
        match self.index.get(slot_of(place, number)) {
            Some(held) => *held,
            None => None,
        }
    }

    /// One name more, of a segment of a number below 256.
    pub(crate) fn push(&mut self, made: Made) -> Result<(), NoMemory>
        requires { made.number < 256 }
        ensures { OnOk result (self.new ≡ self.old ++ made ∷ []) }
    {
        widen(&mut self.index, made.place)?;
        self.made.push(made)?;
        note(&mut self.index, slot_of(made.place, made.number), made.name);
        Ok(())
    }
}
