// What is added to a plain memory of segments, and changed in it.
ghost use Rattle.std.specs.Prelude.{◌≡◌, ◌≢◌, ◌==◌, ◌&&◌, ◌<◌, ◌≤◌, ◌+◌, ℕ, false, length, slice_get, IfOk, OnOk, OnErr, is_ok, if◌then◌else◌, Some, None};
ghost use Rattle.o2_bus.specs.Frames.{IsSeenAs, memory, no_memory};
ghost use Rattle.o2_bus.specs.Plain.{hold_of, held_in, bytes_in, shown_in, count_in, granted, in_map, segment_bytes, is_shown};

use crate::plain::Map;
use crate::segment::Segment;
use crate::{Grant, Plain};
use o2_base::NoMemory;
use std::alloc::Global;

/// Room for an index; what is held stays.
fn reach_index(grants: &mut Vec<Option<Grant>>, index: usize) -> Result<(), NoMemory>
    ensures same { (i : ℕ) → granted (slice_get grants.new.items i) ≡ granted (slice_get grants.old.items i) }
    ensures reached { OnOk result (index < length grants.new.items) }
{
    'growing: while grants.len() <= index {
        grants.push(None)?;
    }
    Ok(())
}

/// Room for a process; what is held stays.
fn reach_process(alloc: Global, maps: &mut Vec<Map>, pid: usize) -> Result<(), NoMemory>
    ensures same { (p i : ℕ) → in_map (slice_get maps.new.items p) i ≡ in_map (slice_get maps.old.items p) i }
    ensures reached { OnOk result (pid < length maps.new.items) }
{
    'growing: while maps.len() <= pid {
        maps.push(Map {
            grants: Vec::new(alloc),
        })?;
    }
    Ok(())
}

fn put_grant(grants: &mut [Option<Grant>], index: usize, grant: Grant)
    requires { index < length grants.old }
    ensures at { slice_get grants.new index ≡ Some (Some grant) }
    ensures others { (i : ℕ) → i ≢ index → slice_get grants.new i ≡ slice_get grants.old i }
{
    grants[index] = Some(grant);
}

fn grant_in(map: &mut Map, index: usize, grant: Grant) -> Result<(), NoMemory>
    ensures at { OnOk result (in_map (Some map.new) index ≡ Some (hold_of grant)) }
    ensures others { (i : ℕ) → i ≢ index → in_map (Some map.new) i ≡ in_map (Some map.old) i }
    ensures unchanged { OnErr result ((i : ℕ) → in_map (Some map.new) i ≡ in_map (Some map.old) i) }
{
    reach_index(&mut map.grants, index)?;
    put_grant(&mut map.grants, index, grant);
    Ok(())
}

fn grant_at(maps: &mut Vec<Map>, pid: usize, index: usize, grant: Grant) -> Result<(), NoMemory>
    requires { pid < length maps.old.items }
    ensures at { OnOk result (in_map (slice_get maps.new.items pid) index ≡ Some (hold_of grant)) }
    ensures others { (i : ℕ) → i ≢ index → in_map (slice_get maps.new.items pid) i ≡ in_map (slice_get maps.old.items pid) i }
    ensures unchanged { OnErr result ((i : ℕ) → in_map (slice_get maps.new.items pid) i ≡ in_map (slice_get maps.old.items pid) i) }
    ensures elsewhere { (p : ℕ) → p ≢ pid → slice_get maps.new.items p ≡ slice_get maps.old.items p }
{
    let map = &mut maps[pid];
    grant_in(map, index, grant)
}

fn show_segment(segments: &mut Vec<Segment>, name: usize, present: bool)
    requires { name < length segments.old.items }
    ensures at { is_shown (slice_get segments.new.items name) ≡ present }
    ensures same { segment_bytes (slice_get segments.new.items name) ≡ segment_bytes (slice_get segments.old.items name) }
    ensures others { (n : ℕ) → n ≢ name → slice_get segments.new.items n ≡ slice_get segments.old.items n }
    ensures count { length segments.new.items ≡ length segments.old.items }
{
    let segment = &mut segments[name];
    segment.hidden = !present;
}

/// One segment more, present.
fn push_segment(segments: &mut Vec<Segment>, bytes: Vec<u8>) -> Result<(), NoMemory>
    requires { length bytes.items ≤ 65536 }
    ensures bytes { (n : ℕ) → segment_bytes (slice_get segments.new.items n) ≡ (if is_ok result && n == length segments.old.items then bytes.items else segment_bytes (slice_get segments.old.items n)) }
    ensures kept { (n : ℕ) → n < length segments.old.items → segment_bytes (slice_get segments.new.items n) ≡ segment_bytes (slice_get segments.old.items n) }
    ensures shown { (n : ℕ) → is_shown (slice_get segments.new.items n) ≡ is_shown (slice_get segments.old.items n) }
    ensures count { length segments.new.items ≡ (if is_ok result then length segments.old.items + 1 else length segments.old.items) }
{
    segments.push(Segment {
        bytes,
        hidden: false,
    })?;
    Ok(())
}

impl Plain {
    /// A memory without names, whose processes hold nothing.
    #[tactic(auto, unfolding(crate::specs::Plain::held_in, crate::specs::Plain::bytes_in, crate::specs::Plain::shown_in, crate::specs::Plain::count_in))]
    pub fn new(alloc: Global) -> Result<Plain, NoMemory>
        ensures { IfOk result (λ p. IsSeenAs p no_memory) }
    {
        Ok(Plain {
            segments: Vec::new(alloc),
            maps: Vec::new(alloc),
        })
    }

    /// One more name, with these bytes, present; the answer is its number. The first is 0.
    #[tactic(auto, unfolding(crate::specs::Plain::held_in, crate::specs::Plain::bytes_in, crate::specs::Plain::shown_in, crate::specs::Plain::count_in))]
    pub fn add(&mut self, bytes: Vec<u8>) -> Result<u32, NoMemory>
        requires { length bytes.items ≤ 65536 }
        ensures name { IfOk result (λ n. n ≡ count_in self.old) }
        ensures becomes { IsSeenAs self.new (record (memory self.old) {
          bytes = λ n. if is_ok result && n == count_in self.old then bytes.items else bytes_in self.old n;
          count = if is_ok result then count_in self.old + 1 else count_in self.old;
        }) }
    {
        let name = self.segments.len();
        if name >= u32::MAX as usize {
            return Err(NoMemory);
        }
        push_segment(&mut self.segments, bytes)?;
        Ok(name as u32)
    }

    /// An index of a process's map holds a name of at least one byte, with this access byte.
    #[tactic(auto, unfolding(crate::specs::Plain::held_in, crate::specs::Plain::bytes_in, crate::specs::Plain::shown_in, crate::specs::Plain::count_in))]
    pub fn hold(
        &mut self,
        alloc: Global,
        pid: u16,
        index: u16,
        name: u32,
        access: u8,
    ) -> Result<(), NoMemory>
        requires some { 0 < length (bytes_in self.old name) }
        ensures { IsSeenAs self.new (record (memory self.old) {
          held = λ p i. if is_ok result && p == pid && i == index
              then Some (record { name = name; rights = access }) else held_in self.old p i;
        }) }
    {
        reach_process(alloc, &mut self.maps, pid as usize)?;
        grant_at(
            &mut self.maps,
            pid as usize,
            index as usize,
            Grant { name, access },
        )
    }

    /// Whether a name is taken for present.
    #[tactic(auto, unfolding(crate::specs::Plain::held_in, crate::specs::Plain::bytes_in, crate::specs::Plain::shown_in, crate::specs::Plain::count_in))]
    pub fn show(&mut self, name: u32, present: bool)
        requires { name < count_in self.old }
        ensures { IsSeenAs self.new (record (memory self.old) {
          shown = λ n. if n == name then present else shown_in self.old n;
        }) }
    {
        show_segment(&mut self.segments, name as usize, present);
    }
}
