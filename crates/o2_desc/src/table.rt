// A table of descriptors.
ghost use Rattle.std.specs.Prelude.{◌≡◌, ◌<◌, length, IfOk, replicate, slice_get, slice_set};
ghost use Rattle.o2_desc.specs.Bytes.{empty, mark_at};

use crate::{Access, Descriptor};
use o2_base::NoMemory;
use std::alloc::Global;
use std::marker::Model;

/// A descriptor table. Contracts see it as the list of its entries. It takes all its memory when it is made.
#[derive(Debug, Drop)]
pub struct Table {
    entries: Vec<Descriptor>,
}

impl Model for Table {
    ghost use Rattle.std.specs.Prelude.{List};
    ghost use Rattle.o2_desc.specs.declared.descriptor.Descriptor.{Descriptor};

    ghost Value = { List Descriptor };

    ghost view = { λ t. t.entries.items };
}

impl Table {
    /// A table of so many entries, each of which names nothing.
    pub fn new(alloc: Global, entries: u16) -> Result<Table, NoMemory>
        ensures { IfOk result (λ t. t ≡ replicate entries empty) }
    {
        let entries = Vec::from_elem(alloc, Descriptor::EMPTY, entries as usize)?;
        Ok(Table { entries })
    }

    /// How many entries the table has.
    pub fn len(&self) -> usize
        ensures { result ≡ length self.now }
    {
        self.entries.len()
    }

    /// The entry of an index, and none exactly outside the table.
    pub fn get(&self, i: u16) -> Option<Descriptor>
        ensures { result ≡ slice_get self.now i }
    {
        self.entries.get(i as usize).copied()
    }

    /// Writes the entry of an index that lies inside the table.
    pub fn set(&mut self, i: u16, d: Descriptor)
        requires { i < length self.old }
        ensures { self.new ≡ slice_set self.old i d }
    {
        self.entries[i as usize] = d;
    }

    /// Sets the accessed bit of the entry of an index that lies inside the table.
    pub fn mark(&mut self, i: u16)
        requires { i < length self.old }
        ensures { self.new ≡ mark_at self.old i }
    {
        let entry = &mut self.entries[i as usize];
        entry.access = Access(entry.access).marked().0;
    }
}
