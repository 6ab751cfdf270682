// What lies behind the pointers of a process's call.
ghost use Rattle.std.specs.Prelude.{◌≡◌, IfOk, slice_index};
ghost use Rattle.std.specs.List.{list_all};
ghost use Rattle.o2_isa.specs.Pointers.{range_of};
ghost use Rattle.o2_world.specs.SharedNames.{name_by, text_at};
ghost use Rattle.o2_world.specs.Slots.{may_have_heap};
ghost use Rattle.o2_world.specs.Views.{bytes_in, holds_in, view_of};
ghost use Rattle.o2_world_parts.specs.Layouts.{good_by};

use crate::World;
use o2_base::{Bytes, NoMemory};
use o2_world::Slot;
use o2_world_parts::{Process, are_good, front, may_have_heap, name_at, range};
use std::alloc::Global;

impl World {
    /// Whether a heap may lie behind a selector of a process.
    pub(crate) fn may_have_heap(&self, process: &Process, selector: u16) -> bool
        ensures { result ≡ may_have_heap (view_of self.now.world.names process.now) selector }
    {
        may_have_heap(&self.names, process, selector)
    }

    /// The first bytes of a segment of a process, so many at most.
    pub(crate) fn front(
        &self,
        alloc: Global,
        process: &Process,
        selector: u16,
        most: u16,
    ) -> Result<Vec<u8>, NoMemory>
        ensures { IfOk result (λ v. v.items ≡ range_of (holds_in process.now.held) (bytes_in self.now.world.names) selector 0 most) }
    {
        front(alloc, &self.names, process, selector, most)
    }

    /// The bytes of a range of a process, which lies in its segment.
    pub(crate) fn range(
        &self,
        alloc: Global,
        process: &Process,
        selector: u16,
        offset: u16,
        count: u16,
    ) -> Result<Vec<u8>, NoMemory>
        ensures { IfOk result (λ v. v.items ≡ range_of (holds_in process.now.held) (bytes_in self.now.world.names) selector offset count) }
    {
        range(alloc, &self.names, process, selector, offset, count)
    }

    /// Whether all pointers of a call are good.
    pub(crate) fn are_good(
        &self,
        alloc: Global,
        process: &Process,
        slots: &[(Slot, u16)],
        words: &[u16],
    ) -> Result<bool, NoMemory>
        ensures { IfOk result (λ g. g ≡ list_all (good_by (view_of self.now.world.names process.now) (slice_index words.now)) slots.now) }
    {
        are_good(alloc, &self.names, process, slots, words)
    }

    /// The name that the text behind a pointer gives, folded, where it is one.
    pub(crate) fn name_at(
        &self,
        alloc: Global,
        process: &Process,
        selector: u16,
        offset: u16,
    ) -> Result<Option<Bytes>, NoMemory>
        ensures { IfOk result (λ n. n ≡ name_by (text_at (view_of self.now.world.names process.now) selector offset)) }
    {
        name_at(alloc, &self.names, process, selector, offset)
    }
}
