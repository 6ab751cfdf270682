// The ranges of a memory, with an index by id.
ghost use Rattle.std.specs.Prelude.{◌≡◌, ◌≢◌, ℕ, ◌+◌, ◌<◌, ◌≤◌, ◌^◌, [], length, IfOk, None, Some, IfSome, slice_get, option_map, ◌⊎◌, if◌then◌else◌};
ghost use Rattle.std.specs.Option.{is_some, IfNone};
ghost use Rattle.o2_place.specs.Layout.{find_in, IsLayout, IsFree, IsLowestFree, used, Changes, len_of, one_of, over, end_before, start_of, reshaped, range_at, ids_of, without};

use crate::ranges::{Range, insert_at, lowest_free, slot_for};
use o2_base::NoMemory;
use std::alloc::Global;
use std::marker::Model;

/// Where the range of an id lies; the length is 0 where it has none.
#[derive(Clone, Copy, Debug)]
pub(crate) struct Spot {
    pub at: u32,
    pub len: u32,
}

/// Disjoint ranges of a memory, each of an id. Contracts see them as the list of the ranges by rising place, with the
/// memory's size and the number that ids are below.
#[derive(Debug, Drop)]
pub struct Places {
    ranges: Vec<Range>,
    spots: Vec<Spot>,
    size: u32,
    taken: u32,
}

impl Model for Places {
    ghost use Rattle.o2_place.specs.Layout.{Layout};
    ghost use Rattle.o2_place.specs.Spots.{IsPlaces, layout_of};
    ghost use Rattle.std.specs.Prelude.{◌≤◌, ◌^◌, ◌<◌, length};
    ghost use Rattle.std.specs.Vec.{vec_capacity};

    ghost Value = { Layout };

    ghost view = { λ p. layout_of p.ranges.items p.spots.items p.size };

    ghost invariant = { λ p. IsPlaces p.ranges.items p.spots.items p.size p.taken × (length p.spots.items ≤ vec_capacity p.ranges) × (length p.spots.items < 2 ^ 32) };
}

impl Places {
    /// No ranges, in a memory of `size` bytes, with room for the ids below `most`.
    pub fn new(alloc: Global, most: u32, size: u32) -> Result<Places, NoMemory>
        ensures { IfOk result (λ p. p ≡ record { ranges = []; size = size; most = most }) }
    {
        let ranges = Vec::with_capacity(alloc, most as usize)?;
        let spots = Vec::from_elem(alloc, Spot { at: 0, len: 0 }, most as usize)?;
        Ok(Places {
            ranges,
            spots,
            size,
            taken: 0,
        })
    }

    /// The lowest place with `len` bytes that are in no range, and none exactly where no place has. A gap of length 0
    /// is at place 0.
    pub fn fit(&self, len: u32) -> Option<u32>
        ensures lowest { IsLowestFree self.now len result }
        ensures within { IfSome result (λ at. at + len ≤ self.now.size) }
    {
        self.law();
        lowest_free(&self.ranges, self.size, len)
    }

    /// Gives an id that has none the range of `len` bytes from `at` on, which is free and not empty.
    pub fn put(&mut self, id: u32, at: u32, len: u32)
        requires id { id < self.old.most }
        requires fresh { find_in self.old.ranges id ≡ None }
        requires some { 0 < len }
        requires free { IsFree self.old.size self.old.ranges at len }
        ensures put { Changes self.old self.new id (Some (at, len)) }
        ensures used { used self.new.ranges ≡ used self.old.ranges + len }
        ensures count { length self.new.ranges ≡ length self.old.ranges + 1 }
        ensures order { without id (ids_of self.new.ranges) ≡ ids_of self.old.ranges }
    {
        let i = slot_for(&self.ranges, self.size, at);
        insert_at(&mut self.ranges, i, Range { id, at, len });
        self.spots[id as usize] = Spot { at, len };
        self.taken += len;
    }

    /// Takes an id's range away: its place and length, and none exactly where it has none.
    pub fn take(&mut self, id: u32) -> Option<(u32, u32)>
        requires { id < self.old.most }
        ensures was { result ≡ find_in self.old.ranges id }
        ensures taken { Changes self.old self.new id None }
        ensures used { used self.new.ranges + len_of result ≡ used self.old.ranges }
        ensures count { length self.new.ranges + (if is_some result then 1 else 0) ≡ length self.old.ranges }
        ensures order { ids_of self.new.ranges ≡ without id (ids_of self.old.ranges) }
        ensures free { (at len : ℕ) → IsFree self.old.size self.old.ranges at len → IsFree self.new.size self.new.ranges at len }
    {
        let spot = self.spots[id as usize];
        if spot.len == 0 {
            return None;
        }
        let i = slot_for(&self.ranges, self.size, spot.at);
        let _ = self.ranges.remove(i);
        self.spots[id as usize] = Spot { at: 0, len: 0 };
        self.taken -= spot.len;
        Some((spot.at, spot.len))
    }

    /// The place and length of an id's range, and none exactly where it has none.
    pub fn find(&self, id: u32) -> Option<(u32, u32)>
        requires { id < self.now.most }
        ensures { result ≡ find_in self.now.ranges id }
    {
        let spot = self.spots[id as usize];
        if spot.len == 0 {
            return None;
        }
        Some((spot.at, spot.len))
    }

    /// The id, place and length of the k-th range from 0 by rising place, and none exactly past the last.
    pub fn range(&self, k: u32) -> Option<(u32, u32, u32)>
        ensures { result ≡ option_map (λ r. (r.id, r.at, r.len)) (slice_get self.now.ranges k) }
    {
        match self.ranges.get(k as usize) {
            Some(r) => Some((r.id, r.at, r.len)),
            None => None,
        }
    }

    /// The k-th range from 0 by rising place, where there are more than k.
    pub fn range_at(&self, k: u32) -> Range
        requires { k < length self.now.ranges }
        ensures { result ≡ range_at self.now.ranges k }
    {
        self.ranges[k as usize]
    }

    /// How many ranges lie below that of an id, and none exactly where it has none.
    pub fn rank(&self, id: u32) -> Option<u32>
        requires { id < self.now.most }
        ensures none { IfNone result (find_in self.now.ranges id ≡ None) }
        ensures some { IfSome result (λ k. (k < length self.now.ranges) × ((range_at self.now.ranges k).id ≡ id)) }
    {
        let spot = self.spots[id as usize];
        if spot.len == 0 {
            return None;
        }
        Some(slot_for(&self.ranges, self.size, spot.at) as u32)
    }

    /// How many bytes of the memory are in no range.
    pub fn free_bytes(&self) -> u32
        ensures { result + used self.now.ranges ≡ self.now.size }
    {
        self.size - self.taken
    }

    /// How many bytes the memory has.
    pub fn size(&self) -> u32
        ensures { result ≡ self.now.size }
    {
        self.size
    }

    /// How many ranges there are, at most as many as ids.
    pub fn count(&self) -> u32
        ensures count { result ≡ length self.now.ranges }
        ensures few { result ≤ self.now.most }
    {
        self.ranges.len() as u32
    }

    /// Gives the k-th range another place and length, between the ends of its neighbours. The answer is the range as it
    /// was.
    pub fn reshape(&mut self, k: u32, at: u32, len: u32) -> Range
        requires within { k < length self.old.ranges }
        requires some { 0 < len }
        requires above { end_before 0 self.old.ranges k ≤ at }
        requires below { at + len ≤ start_of self.old.size self.old.ranges (k + 1) }
        ensures was { result ≡ range_at self.old.ranges k }
        ensures reshaped { self.new ≡ reshaped self.old k (range_at self.old.ranges k).id at len }
    {
        let was = self.ranges[k as usize];
        self.ranges[k as usize] = Range {
            id: was.id,
            at,
            len,
        };
        self.spots[was.id as usize] = Spot { at, len };
        self.taken = self.taken - was.len + len;
        was
    }

    /// What holds of the ranges at any time: they lie in order within the memory, none is empty, no two meet, each id has
    /// one at most, and what is free meets none.
    pub fn law(&self)
        ensures layout { IsLayout self.now }
        ensures within { (k at len : ℕ) → find_in self.now.ranges k ≡ Some (at, len) → at + len ≤ self.now.size }
        ensures positive { (k at len : ℕ) → find_in self.now.ranges k ≡ Some (at, len) → 0 < len }
        ensures apart { (i j a l b m : ℕ) → i ≢ j → find_in self.now.ranges i ≡ Some (a, l) → find_in self.now.ranges j ≡ Some (b, m) → (a + l ≤ b) ⊎ (b + m ≤ a) }
        ensures free { (at len k b m : ℕ) → IsFree self.now.size self.now.ranges at len → find_in self.now.ranges k ≡ Some (b, m) → (at + len ≤ b) ⊎ (b + m ≤ at) }
        ensures end { (at len : ℕ) → IsFree self.now.size self.now.ranges at len → at + len ≤ self.now.size }
        ensures past { (at len : ℕ) → end_before 0 self.now.ranges (length self.now.ranges) ≤ at → at + len ≤ self.now.size → IsFree self.now.size self.now.ranges at len }
        ensures sum { (n : ℕ) → self.now.most ≤ n → over (λ k. len_of (find_in self.now.ranges k)) n ≡ used self.now.ranges }
        ensures number { (n : ℕ) → self.now.most ≤ n → over (λ k. one_of (find_in self.now.ranges k)) n ≡ length self.now.ranges }
        ensures room { used self.now.ranges ≤ self.now.size }
        ensures small { self.now.size < 2 ^ 32 }
    {
        let _size = self.size;
    }
}
