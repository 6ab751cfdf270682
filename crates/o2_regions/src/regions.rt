// Who holds which index, how often, and what its descriptor says.
ghost use Rattle.std.specs.Prelude.{None, Some, ◌≡◌, Option, ℕ, ◌+◌, ◌*◌, ◌<◌, ◌≤◌, ◌^◌, true, false, not, length, IfOk, IfSome, slice_get};
ghost use Rattle.std.specs.Borrow.{sem};
ghost use Rattle.std.specs.Option.{is_some};
ghost use Rattle.o2_desc.specs.Bytes.{mark_at};
ghost use Rattle.o2_desc.specs.Choice.{IsRun, chosen};
ghost use Rattle.o2_regions.specs.declared.held.Region.{Region as RegionThere};
ghost use Rattle.o2_regions.specs.Accessed.{ClearsUse, NoneAccessed, with_unused};
ghost use Rattle.o2_regions.specs.Described.{Describes};
ghost use Rattle.o2_regions.specs.declared.accessed.Next.TheVariants as NextThere;
ghost use Rattle.o2_regions.specs.declared.regions.Used.TheVariants as UsedThere;
ghost use Rattle.o2_regions.specs.Uses.{segment_in, used_of};
ghost use Rattle.o2_place.specs.declared.seg_id.SegId.{SegId as SegIdThere};
ghost use Rattle.o2_regions.specs.Kept.{AreKept};
ghost use Rattle.o2_regions.specs.Lending.{LendsTable, with_table};
ghost use Rattle.o2_regions.specs.Links.{holders, pair_at};
ghost use Rattle.o2_regions.specs.Maps.{IsProcess, IsRegion, base_of, descriptor_of, dropped, end_of, first_of, granted, held_at, holds_of, is_held, is_reserved, is_taken, left_of, nothing, place, region_of, table_of, with_reserved};

use crate::accessed::{Next, Tables};
use crate::bits::Bits;
use crate::describing::describe;
use crate::links::{kth_place, link, unlink, unlinked};
use crate::{Held, Region};
use o2_base::NoMemory;
use o2_desc::{Descriptor, Table};
use o2_place::SegId;
use std::alloc::Global;
use std::marker::Model;

/// How many indexes a table has.
const INDEXES: u16 = 8192;

/// How many indexes a region has, those of the private ones from 0 on.
const REGION: u16 = 4096;

/// What the list of accessed bits has to say next.
#[derive(Clone, Copy, Debug, PartialEq, Eq)]
pub enum Used {
    /// The accessed bit of an index was set at which this segment is held, and is clear now.
    Segment(SegId),
    /// The accessed bit of an index was set at which nothing is held, and is clear now.
    Free,
    /// An index was listed whose bit isn't set.
    Stale,
    /// No accessed bit is set.
    Clear,
    /// The list is at its end, and had no room for all whose bits were set.
    More,
}

/// What each process holds at which index, which indexes are reserved, and the tables of descriptors. Contracts see it as
/// finite maps. It takes all its memory when it is made.
#[derive(Debug, Drop)]
pub struct Regions {
    processes: u16,
    // by process and index; there is no process 0
    held: Vec<Option<Held>>,
    // by region and index
    reserved: Bits,
    // by process
    tables: Tables,
    // where something is held, by process and index
    marks: Bits,
    // the holders of each segment, in lists by its key
    next: Vec<u32>,
    prev: Vec<u32>,
}

impl Model for Regions {
    ghost use Rattle.o2_regions.specs.Maps.{Maps};
    ghost use Rattle.o2_regions.specs.Kept.{AreWhole};

    ghost Value = { Maps };

    ghost view = { λ r. record { processes = r.processes; held = r.held.items; reserved = r.reserved; tables = r.tables } };

    ghost invariant = { λ r. AreWhole (record { processes = r.processes; held = r.held.items; reserved = r.reserved; tables = r.tables }) r.marks r.next.items r.prev.items };
}

// Where a process's index stands.
fn place_of(pid: u16, index: u16) -> usize
    ensures { result ≡ place pid index }
{
    pid as usize * INDEXES as usize + index as usize
}

/// The process and the index of a place.
pub(crate) fn pair_of(place: usize) -> (u16, u16)
    requires { place < 2 ^ 29 }
    ensures { result ≡ pair_at place }
{
    (
        (place / INDEXES as usize) as u16,
        (place % INDEXES as usize) as u16,
    )
}

// Where the marks of a region begin.
fn base(region: Region) -> usize
    ensures { result ≡ base_of region }
{
    match region {
        Region::Private(pid) => (pid as usize + 1) * REGION as usize,
        Region::Shared => 0,
    }
}

// The first index of a region.
fn first_index(region: Region) -> u16
    ensures { result ≡ first_of region }
{
    match region {
        Region::Private(_) => 1,
        Region::Shared => REGION,
    }
}

// The index behind the last one of a region.
fn end_index(region: Region) -> u16
    ensures { result ≡ end_of region }
{
    match region {
        Region::Private(_) => REGION,
        Region::Shared => INDEXES,
    }
}

// What is used at a place that the list says.
fn used_of(held: &[Option<Held>], next: Next) -> Used
    requires { (p : ℕ) → next ≡ NextThere.Place p → p < length held.now }
    ensures { result ≡ used_of held.now next }
{
    match next {
        Next::Place(place) => match held[place as usize] {
            Some(held) => Used::Segment(held.id),
            None => Used::Free,
        },
        Next::Stale => Used::Stale,
        Next::Clear => Used::Clear,
        Next::More => Used::More,
    }
}

impl Regions {
    /// Nothing is held and nothing reserved, for the processes from 1 to `processes`, at most 64.
    pub fn new(alloc: Global, processes: u16) -> Result<Regions, NoMemory>
        requires some { 1 ≤ processes }
        requires most { processes ≤ 64 }
        ensures nothing { IfOk result (λ r. r ≡ nothing processes) }
        ensures processes { IfOk result (λ r. r.processes ≡ processes) }
        ensures unheld { IfOk result (λ r. (pid i : ℕ) → held_at r pid i ≡ None) }
        ensures unreserved { IfOk result (λ r. (g : RegionThere) (i : ℕ) → is_reserved r g i ≡ false) }
    {
        let rows = processes as usize + 1;
        let held = Vec::from_elem(alloc, None, rows * INDEXES as usize)?;
        let reserved = Bits::new(alloc, (rows + 1) * (REGION as usize / 64))?;
        let tables = Tables::new(alloc, processes)?;
        let marks = Bits::new(alloc, rows * (INDEXES as usize / 64))?;
        let next = unlinked(alloc, rows * INDEXES as usize)?;
        let prev = unlinked(alloc, rows * INDEXES as usize)?;
        Ok(Regions {
            processes,
            held,
            reserved,
            tables,
            marks,
            next,
            prev,
        })
    }

    /// What is true of every value: what is held is reserved, and held at least once by one of the processes.
    pub fn law(&self)
        ensures { AreKept self.now }
    {
        let _processes = &self.processes;
    }

    /// The number of processes that there may be.
    pub fn processes(&self) -> u16
        ensures { result ≡ self.now.processes }
    {
        self.processes
    }

    /// The lowest index of a region from which `count` indexes are neither held nor reserved, and none exactly where there
    /// is no such index. A shared index is held where any process holds it.
    pub fn lowest(&self, region: Region, count: u16) -> Option<u16>
        requires region { IsRegion self.now region }
        requires some { 0 < count }
        ensures lowest { result ≡ chosen (is_taken self.now region) (first_of region) (end_of region) count }
        ensures free { IfSome result (λ i. IsRun (is_taken self.now region) (first_of region) (end_of region) count i) }
    {
        self.reserved.lowest_clear(base(region), first_index(region), end_index(region), count)
    }

    /// Whether an index of a region is reserved.
    pub fn is_reserved(&self, region: Region, index: u16) -> bool
        requires { IsRegion self.now region }
        ensures { result ≡ is_reserved self.now region index }
    {
        index < end_index(region) && self.reserved.get(base(region) + index as usize)
    }

    /// Reserves `count` indexes of a region from `first` on, which are neither held nor reserved.
    pub fn reserve(&mut self, region: Region, first: u16, count: u16)
        requires region { IsRegion self.old region }
        requires free { IsRun (is_taken self.old region) (first_of region) (end_of region) count first }
        ensures exact { self.new ≡ with_reserved self.old region first count true }
        ensures reserved { (i : ℕ) → first ≤ i → i < first + count → is_reserved self.new region i ≡ true }
    {
        self.reserved
            .fill(base(region) + first as usize, count as usize, true);
    }

    /// `count` indexes of a region from `first` on, which nobody holds, are no longer reserved.
    pub fn release(&mut self, region: Region, first: u16, count: u16)
        requires region { IsRegion self.old region }
        requires from { first_of region ≤ first }
        requires to { first + count ≤ end_of region }
        requires unheld { (i : ℕ) → first ≤ i → i < first + count → is_held self.old region i ≡ false }
        ensures { self.new ≡ with_reserved self.old region first count false }
    {
        self.reserved
            .fill(base(region) + first as usize, count as usize, false);
    }

    /// A process holds a segment `held.holds` times more at an index, which is reserved. Where it holds nothing there, it
    /// has what `held` says, and a descriptor with this access byte; otherwise cause, run and descriptor stay. No holds at
    /// an index that isn't held change nothing.
    pub fn grant(&mut self, pid: u16, index: u16, held: Held, access: u8)
        requires process { IsProcess self.old pid }
        requires index { index < 8192 }
        requires reserved { is_reserved self.old (region_of pid index) index ≡ true }
        requires same { IfSome (held_at self.old pid index) (λ h. h.id ≡ held.id) }
        requires few { holds_of (held_at self.old pid index) + held.holds < 2 ^ 32 }
        ensures granted { self.new ≡ granted self.old pid index held access }
        ensures processes { self.new.processes ≡ self.old.processes }
        ensures reserved { self.new.reserved ≡ self.old.reserved }
    {
        let place = place_of(pid, index);
        match self.held[place] {
            Some(was) => {
                self.held[place] = Some(Held {
                    holds: was.holds + held.holds,
                    ..was
                });
            }
            None => {
                if held.holds != 0 {
                    link(
                        &self.held,
                        &mut self.next,
                        &mut self.prev,
                        held.id.key,
                        place,
                    );
                    self.held[place] = Some(held);
                    self.marks.set(place, true);
                    let entry = Descriptor {
                        base: 0,
                        limit: 0,
                        access,
                    };
                    self.tables.set_entry(pid, index, entry);
                }
            }
        }
    }

    /// Takes one of a process's holds at an index, and answers how many are left; none exactly where it holds nothing
    /// there. With the last one its descriptor is empty.
    pub fn drop_one(&mut self, pid: u16, index: u16) -> Option<u32>
        requires process { IsProcess self.old pid }
        requires index { index < 8192 }
        ensures left { result ≡ left_of (held_at self.old pid index) }
        ensures dropped { self.new ≡ dropped self.old pid index }
        ensures processes { self.new.processes ≡ self.old.processes }
        ensures reserved { self.new.reserved ≡ self.old.reserved }
    {
        let place = place_of(pid, index);
        match self.held[place] {
            Some(was) => {
                let left = was.holds - 1;
                if left == 0 {
                    unlink(&self.held, &mut self.next, &mut self.prev, place);
                    self.held[place] = None;
                    self.marks.set(place, false);
                    self.tables.set_entry(pid, index, Descriptor::EMPTY);
                } else {
                    self.held[place] = Some(Held { holds: left, ..was });
                }
                Some(left)
            }
            None => None,
        }
    }

    /// What a process holds at an index, and none exactly where it holds nothing there.
    pub fn held(&self, pid: u16, index: u16) -> Option<Held>
        requires process { IsProcess self.now pid }
        requires index { index < 8192 }
        ensures held { result ≡ held_at self.now pid index }
        ensures counted { IfSome result (λ h. 0 < h.holds) }
    {
        self.held[place_of(pid, index)]
    }

    /// The k-th process and index from 0 that hold a segment, by process, then by index, and none exactly past the last.
    pub fn holder(&self, id: SegId, k: u32) -> Option<(u16, u16)>
        ensures { result ≡ slice_get (holders self.now id) k }
    {
        match kth_place(&self.held, &self.next, id, k) {
            Some(place) => Some(pair_of(place)),
            None => None,
        }
    }

    /// The descriptor of an index in a process's table, and none exactly where the process holds nothing there.
    pub fn descriptor(&self, pid: u16, index: u16) -> Option<Descriptor>
        requires process { IsProcess self.now pid }
        requires index { index < 8192 }
        ensures { result ≡ descriptor_of (held_at self.now pid index) (table_of self.now pid) index }
    {
        match self.held[place_of(pid, index)] {
            Some(_) => Some(self.tables.entry(pid, index)),
            None => None,
        }
    }

    /// The lowest index from `from` on at which a process holds something, and none exactly where there is none.
    pub fn next_held(&self, pid: u16, from: u16) -> Option<u16>
        requires process { IsProcess self.now pid }
        ensures { result ≡ chosen (λ i. not (is_some (held_at self.now pid i))) from 8192 1 }
    {
        self.marks
            .lowest_marked(pid as usize * INDEXES as usize, from, INDEXES)
    }

    /// Says in each descriptor under which a segment is held that it has this limit and is in memory from this base on, or
    /// that it isn't in memory. The rights to it, and whether it was accessed, stay; so do all other descriptors. The work
    /// is that of going over those who hold the segment.
    pub fn describe(&mut self, id: SegId, base: Option<u32>, limit: u16)
        ensures { Describes self.old self.new id base limit }
    {
        describe(&self.held, &self.next, &mut self.tables, id, base, limit);
    }

    /// The table of a process's descriptors. What is written there is the caller's, and nothing else changes.
    pub fn table(&mut self, pid: u16) -> &mut Table
        requires process { IsProcess self.old pid }
        ensures* lends { sem 𝓛 (LendsTable self.entry pid result) }
        ensures value { result.now ≡ table_of self.old pid }
    {
        self.tables.lend(pid)
    }

    /// Sets the accessed bit of an index in a process's table.
    pub fn mark(&mut self, pid: u16, index: u16)
        requires process { IsProcess self.old pid }
        requires index { index < 8192 }
        ensures { self.new ≡ with_table self.old pid (mark_at (table_of self.old pid) index) }
    {
        self.tables.mark(pid, index);
    }

    /// Clears the accessed bit of an index in a process's table.
    pub fn unmark(&mut self, pid: u16, index: u16)
        requires process { IsProcess self.old pid }
        requires index { index < 8192 }
        ensures { self.new ≡ with_unused self.old pid index }
    {
        self.tables.unmark(pid, index);
    }

    /// Takes the next index out of the list of those whose accessed bit was set, and clears the bit. A list of fixed size
    /// gets an index as its bit goes from 0 to 1; the work is that of one index.
    pub fn next_used(&mut self) -> Used
        ensures clears { (o : Option SegIdThere)
            → segment_in result ≡ Some o → ClearsUse self.old self.new o }
        ensures stays { segment_in result ≡ None → self.new ≡ self.old }
        ensures clear { result ≡ UsedThere.Clear → NoneAccessed self.old.tables }
    {
        let next = self.tables.next_used();
        used_of(&self.held, next)
    }

    /// Begins the list of accessed bits anew, where none is set.
    pub fn list_anew(&mut self)
        requires { NoneAccessed self.old.tables }
        ensures { self.new ≡ self.old }
    {
        self.tables.list_anew();
    }
}
