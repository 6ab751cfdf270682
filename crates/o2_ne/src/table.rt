// A table of names, as their places in the file in the order of the folded names.
ghost use Rattle.std.specs.Prelude.{◌≡◌, ◌≤◌, ◌<◌, [], ℕ, List, length, IfOk};
ghost use Rattle.o2_ne.specs.NamePlaces.{NamesStand};
ghost use Rattle.o2_ne.specs.NameOrder.{IsTable, names_of};
ghost use Rattle.o2_ne.specs.NameTable.{names_at, ordinal_of};
ghost use Rattle.o2_ne.specs.Steps.{Gives};

use crate::names::is_same_name;
use crate::order::{first_of, index_of, ordinal_at, place_at, text_at};
use crate::walking::{Walking, walk_on};
use o2_base::{Fail, NeFault};
use std::alloc::Global;

// The place of a table's first name, and the places of all its names in the order of the folded names: 4 bytes a name.
#[derive(Drop)]
pub(crate) struct Table {
    at: u32,
    order: Vec<u32>,
}

impl Table {
    // The names of the table from a place on.
    #[tactic(auto, unfolding(crate::specs::NameTable::names_at))]
    pub(crate) fn read(alloc: Global, file: &[u8], at: u32) -> Result<Table, Fail<NeFault>>
        requires small { length file.now ≤ 4194304 }
        requires some { 0 < length file.now }
        ensures exact { Gives (names_of file.now) result (names_at file.now at) }
        ensures index { IfOk result (IsTable file.now) }
        ensures stand { IfOk result (λ t. NamesStand file.now at (names_of file.now t)) }
    {
        let walking = walk_on(alloc, file, at)?;
        let Walking { places, .. } = walking;
        let order = index_of(alloc, file, places)?;
        Ok(Table { at, order })
    }

    // No name.
    pub(crate) fn empty(alloc: Global) -> Table
        ensures none { (file : List ℕ) → names_of file result ≡ [] }
        ensures index { (file : List ℕ) → IsTable file result }
    {
        Table {
            at: 0,
            order: Vec::new(alloc),
        }
    }

    // The ordinal of a name; the first match counts.
    pub(crate) fn ordinal(&self, file: &[u8], name: &[u8]) -> Option<u16>
        requires { IsTable file.now self.now }
        ensures { result ≡ ordinal_of name.now (names_of file.now self.now) }
    {
        let order = self.order.as_slice();
        let Some(place) = place_at(order, first_of(file, order, name)) else {
            return None;
        };
        if !is_same_name(text_at(file, place), name) {
            return None;
        }
        Some(ordinal_at(file, place))
    }
}
