// The tables of descriptors, with a list of the indexes whose accessed bit was set.
ghost use Rattle.std.specs.Prelude.{◌≡◌, ℕ, ◌+◌, ◌*◌, ◌/◌, ◌%◌, ◌<◌, ◌≤◌, ◌∷◌, [], length, replicate, true, false, IfOk, slice_index_or, slice_set};
ghost use Rattle.std.specs.Borrow.{sem};
ghost use Rattle.o2_desc.specs.Bits.{is_accessed};
ghost use Rattle.o2_desc.specs.Bytes.{empty, mark_at};
ghost use Rattle.o2_regions.specs.Accessed.{ClearsPlace, Lists, NoneAccessed, is_used, unmark_at};
ghost use Rattle.o2_regions.specs.Lending.{LendsEntry};

use crate::listed::Listed;
use crate::regions::pair_of;
use o2_base::NoMemory;
use o2_desc::{Access, Descriptor, Table};
use std::alloc::Global;
use std::marker::Model;

/// How many indexes a table has.
const INDEXES: u16 = 8192;

/// What the list of accessed bits has to say next.
#[derive(Clone, Copy, Debug, PartialEq, Eq)]
pub(crate) enum Next {
    /// The accessed bit of this place was set, and is clear now.
    Place(u32),
    /// A place was listed whose bit isn't set.
    Stale,
    /// No accessed bit is set.
    Clear,
    /// The list is at its end, and had no room for all that were set.
    More,
}

/// The tables of descriptors by process. Contracts see their entries.
#[derive(Debug, Drop)]
pub(crate) struct Tables {
    tables: Vec<Table>,
    // the places by process and index whose accessed bit is set
    listed: Listed,
}

impl Model for Tables {
    ghost use Rattle.std.specs.Prelude.{List};
    ghost use Rattle.o2_desc.specs.declared.descriptor.Descriptor.{Descriptor};
    ghost use Rattle.o2_regions.specs.Accessed.{AreListed};

    ghost Value = { List (List Descriptor) };

    ghost view = { λ t. t.tables.items };

    ghost invariant = { λ t. AreListed t.tables.items t.listed };
}

// The tables of so many processes, with an empty one before them.
fn new_tables(alloc: Global, processes: u16) -> Result<Vec<Table>, NoMemory>
    ensures { IfOk result (λ v. v.items ≡ [] ∷ replicate processes (replicate 8192 empty)) }
{
    let mut tables = Vec::new(alloc);
    tables.push(Table::new(alloc, 0)?)?;
    for _pid in 0..processes {
        tables.push(Table::new(alloc, INDEXES)?)?;
    }
    Ok(tables)
}

// Writes the descriptor of an index where the process's table has one.
fn set_entry(tables: &mut Vec<Table>, pid: u16, index: u16, d: Descriptor)
    requires { pid < length tables.old.items }
    ensures { tables.new.items ≡ slice_set tables.old.items pid
        (slice_set (slice_index_or tables.old.items pid []) index d) }
{
    let table = &mut tables[pid as usize];
    if (index as usize) < table.len() {
        table.set(index, d);
    }
}

// The descriptor of an index, and the empty one where the process's table has none.
fn entry_of(tables: &[Table], pid: u16, index: u16) -> Descriptor
    requires { pid < length tables.now }
    ensures { result ≡ slice_index_or (slice_index_or tables.now pid []) index empty }
{
    match tables[pid as usize].get(index) {
        Some(d) => d,
        None => Descriptor::EMPTY,
    }
}

// Sets the accessed bit of an index where the process's table has one.
fn mark_entry(tables: &mut Vec<Table>, pid: u16, index: u16)
    requires { pid < length tables.old.items }
    ensures { tables.new.items ≡ slice_set tables.old.items pid
        (mark_at (slice_index_or tables.old.items pid []) index) }
{
    let table = &mut tables[pid as usize];
    if (index as usize) < table.len() {
        table.mark(index);
    }
}

// Clears the accessed bit of an index where the process's table has one.
fn unmark_entry(tables: &mut Vec<Table>, pid: u16, index: u16)
    requires { pid < length tables.old.items }
    ensures { tables.new.items ≡ slice_set tables.old.items pid
        (unmark_at (slice_index_or tables.old.items pid []) index) }
{
    let d = entry_of(tables, pid, index);
    let cleared = Descriptor {
        access: Access(d.access).unmarked().0,
        ..d
    };
    set_entry(tables, pid, index, cleared);
}

// Whether the accessed bit of a place is set.
fn is_used(tables: &[Table], place: u32) -> bool
    ensures value { result ≡ is_used tables.now place }
    ensures inside { result ≡ true → place / 8192 < length tables.now }
{
    let pid = (place / INDEXES as u32) as usize;
    if pid >= tables.len() {
        return false;
    }
    let index = (place % INDEXES as u32) as u16;
    match tables[pid].get(index) {
        Some(d) => Access(d.access).is_accessed(),
        None => false,
    }
}

// Lists an index whose accessed bit goes from 0 to 1.
fn note(listed: &mut Listed, pid: u16, index: u16, before: u8, after: u8)
    requires few { listed.old.count ≤ 256 }
    requires index { index < 8192 }
    ensures few { listed.new.count ≤ 256 }
    ensures keeps { (p : ℕ) → Lists listed.old p → Lists listed.new p }
    ensures has { is_accessed before ≡ false → is_accessed after ≡ true
        → Lists listed.new (pid * 8192 + index) }
{
    if !Access(before).is_accessed() && Access(after).is_accessed() {
        listed.add(pid as u32 * INDEXES as u32 + index as u32);
    }
}

impl Tables {
    /// The tables of so many processes, with an empty one before them.
    pub(crate) fn new(alloc: Global, processes: u16) -> Result<Tables, NoMemory>
        ensures { IfOk result (λ t. t ≡ [] ∷ replicate processes (replicate 8192 empty)) }
    {
        let tables = new_tables(alloc, processes)?;
        Ok(Tables {
            tables,
            listed: Listed::new(),
        })
    }

    /// The descriptor of an index, and the empty one where the process's table has none.
    pub(crate) fn entry(&self, pid: u16, index: u16) -> Descriptor
        requires { pid < length self.now }
        ensures { result ≡ slice_index_or (slice_index_or self.now pid []) index empty }
    {
        entry_of(&self.tables, pid, index)
    }

    /// Writes the descriptor of an index where the process's table has one.
    pub(crate) fn set_entry(&mut self, pid: u16, index: u16, d: Descriptor)
        requires pid { pid < length self.old }
        requires few { length self.old ≤ 65536 }
        requires index { index < 8192 }
        ensures { self.new ≡ slice_set self.old pid
            (slice_set (slice_index_or self.old pid []) index d) }
    {
        let was = self.entry(pid, index);
        note(&mut self.listed, pid, index, was.access, d.access);
        set_entry(&mut self.tables, pid, index, d);
    }

    /// Sets the accessed bit of an index where the process's table has one.
    pub(crate) fn mark(&mut self, pid: u16, index: u16)
        requires pid { pid < length self.old }
        requires index { index < 8192 }
        ensures { self.new ≡ slice_set self.old pid (mark_at (slice_index_or self.old pid []) index) }
    {
        let was = self.entry(pid, index);
        note(&mut self.listed, pid, index, was.access, 1);
        mark_entry(&mut self.tables, pid, index);
    }

    /// Clears the accessed bit of an index where the process's table has one.
    pub(crate) fn unmark(&mut self, pid: u16, index: u16)
        requires pid { pid < length self.old }
        ensures { self.new ≡ slice_set self.old pid (unmark_at (slice_index_or self.old pid []) index) }
    {
        unmark_entry(&mut self.tables, pid, index);
    }

    /// Takes the next place out of the list of accessed bits, and clears the bit.
    pub(crate) fn next_used(&mut self) -> Next
        requires few { length self.old ≤ 65536 }
        ensures place { (p : ℕ) → result ≡ Next.Place p → ClearsPlace self.old self.new p }
        ensures stays { ((p : ℕ) → result ≡ Next.Place p → ⊥) → self.new ≡ self.old }
        ensures clear { result ≡ Next.Clear → NoneAccessed self.old }
        ensures count { length self.new ≡ length self.old }
    {
        let Some(place) = self.listed.take() else {
            return if self.listed.more {
                Next::More
            } else {
                Next::Clear
            };
        };
        if is_used(&self.tables, place) {
            let (pid, index) = pair_of(place as usize);
            unmark_entry(&mut self.tables, pid, index);
            return Next::Place(place);
        }
        Next::Stale
    }

    /// Begins the list anew, where no accessed bit is set.
    pub(crate) fn list_anew(&mut self)
        requires { NoneAccessed self.old }
        ensures { self.new ≡ self.old }
    {
        self.listed = Listed::new();
    }

    /// The table of a process, to be written.
    pub(crate) fn lend(&mut self, pid: u16) -> &mut Table
        requires { pid < length self.old }
        ensures* lends { sem 𝓛 (LendsEntry self.entry pid result) }
        ensures value { result.now ≡ slice_index_or self.old pid [] }
    {
        self.listed.more = true;
        &mut self.tables[pid as usize]
    }
}
