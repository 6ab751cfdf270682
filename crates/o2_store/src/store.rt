// The store: its tables, its memory and its swap blocks.
ghost use Rattle.std.specs.Prelude.{◌≡◌, ◌≢◌, ℕ, ◌+◌, ◌-◌, ◌<◌, ◌≤◌, ◌^◌, ◌⊎◌, length, Some, None, IfOk, slice_index, nat_lt, if◌then◌else◌};
ghost use Rattle.o2_entries.specs.Tables.{slot_at};
ghost use Rattle.o2_place.specs.Layout.{IsFree, used, len_of, over};
ghost use Rattle.o2_swapmap.specs.Piles.{NoneTwice, all_of, blocks_of, free};
ghost use Rattle.o2_store.specs.Shelf.{Shelf, IsShelf, place_of, entry_of, all_locked, rounded};
ghost use Rattle.o2_store.specs.Idle.{NoneTaken};

use o2_base::NoMemory;
use o2_entries::{Entries, Entry};
use o2_phys::Phys;
use o2_place::{Clock, Places, SegId};
use o2_swapmap::SwapMap;
use std::alloc::Global;
use std::marker::Model;

/// Segments under keys. Contracts see the memory and where things lie in it, the clock, the swap blocks, the segments by
/// number, and how many were ever made.
#[derive(Drop)]
pub struct Store {
    pub(crate) phys: Phys,
    pub(crate) places: Places,
    pub(crate) clock: Clock,
    pub(crate) swap: SwapMap,
    pub(crate) entries: Entries,
    pub(crate) made: u64,
    // the rounded sizes of the locked segments together
    pub(crate) locked: u64,
    // room for the numbers that a call keeps in memory
    pub(crate) keys: Vec<u32>,
}

impl Model for Store {
    ghost use Rattle.std.specs.Prelude.{◌≡◌, ◌≤◌, length};
    ghost use Rattle.std.specs.Vec.{vec_capacity};
    ghost use Rattle.o2_store.specs.Shelf.{Shelf, IsShelf, all_locked};

    ghost Value = { Shelf };

    ghost view = { λ s. record { memory = s.phys; places = s.places; turns = s.clock; swap = s.swap; entries = s.entries; made = s.made; keys = s.keys.items } };

    ghost invariant = { λ s. IsShelf (record { memory = s.phys; places = s.places; turns = s.clock; swap = s.swap; entries = s.entries; made = s.made; keys = s.keys.items }) × (s.locked ≡ all_locked s.entries) × (length s.entries ≤ vec_capacity s.keys) };
}

impl Store {
    /// A store without segments: a memory of so many bytes, a map of so many swap blocks, and room for so many segments.
    /// Nothing takes memory after this.
    pub fn make(alloc: Global, memory: u32, blocks: u32, segments: u32) -> Result<Store, NoMemory>
        requires memory { memory ≤ 2 ^ 24 }
        requires blocks { blocks ≤ 65536 }
        requires segments { segments < 2 ^ 32 - 1 }
        ensures empty { IfOk result (λ s. (k : ℕ) → slot_at s.entries k ≡ None) }
        ensures count { IfOk result (λ s. length s.entries ≡ segments) }
        ensures size { IfOk result (λ s. s.places.size ≡ memory) }
        ensures map { IfOk result (λ s. all_of s.swap ≡ blocks) }
        ensures unused { IfOk result (λ s. NoneTaken s.swap) }
        ensures out { IfOk result (λ s. (k : ℕ) → place_of s k ≡ None) }
        ensures made { IfOk result (λ s. s.made ≡ 0) }
    {
        let phys = Phys::new(alloc, memory)?;
        let places = Places::new(alloc, segments, memory)?;
        let clock = Clock::new(alloc, segments)?;
        let swap = SwapMap::new(alloc, blocks, segments)?;
        let entries = Entries::new(alloc, segments)?;
        let keys = Vec::with_capacity(alloc, segments as usize)?;
        Ok(Store {
            phys,
            places,
            clock,
            swap,
            entries,
            made: 0,
            locked: 0,
            keys,
        })
    }

    /// What holds of every store.
    pub fn law(&self)
        ensures shelf { IsShelf self.now }
        ensures once { NoneTwice self.now.swap }
        ensures below { (i k : ℕ) → k < length (blocks_of self.now.swap i)
            → slice_index (blocks_of self.now.swap i) k < all_of self.now.swap }
        ensures blocks { over (λ k. length (blocks_of self.now.swap k)) (length self.now.entries)
            + length (free self.now.swap) ≡ all_of self.now.swap }
        ensures within { (k at len : ℕ) → place_of self.now k ≡ Some (at, len) → at + len ≤ self.now.places.size }
        ensures positive { (k at len : ℕ) → place_of self.now k ≡ Some (at, len) → 0 < len }
        ensures apart { (i j a l b m : ℕ) → i ≢ j → place_of self.now i ≡ Some (a, l) → place_of self.now j ≡ Some (b, m) → (a + l ≤ b) ⊎ (b + m ≤ a) }
        ensures free { (at len k b m : ℕ) → IsFree self.now.places.size self.now.places.ranges at len → place_of self.now k ≡ Some (b, m) → (at + len ≤ b) ⊎ (b + m ≤ at) }
        ensures room { used self.now.places.ranges ≤ self.now.places.size }
        ensures sum { over (λ k. len_of (place_of self.now k)) (length self.now.entries) ≡ used self.now.places.ranges }
    {
        self.swap.none_twice();
        self.places.law();
    }

    // The entry of a segment, and none exactly where it is stale.
    pub(crate) fn find(&self, id: SegId) -> Option<Entry>
        ensures { result ≡ entry_of self.now id }
    {
        match self.entries.get(id.key) {
            Some(entry) => {
                if entry.age == id.age {
                    return Some(entry);
                }
                None
            }
            None => None,
        }
    }
}

// What a locked segment takes of the memory; one that isn't locked takes nothing for sure.
pub(crate) fn locked_part(entry: Entry) -> u64
    requires { entry.size ≤ 65536 }
    ensures value { result ≡ (if nat_lt 0 entry.attr.lock then rounded entry.size else 0) }
    ensures small { result ≤ 65536 }
{
    if entry.attr.lock > 0 {
        return u64::from((entry.size + 15) / 16 * 16);
    }
    0
}
