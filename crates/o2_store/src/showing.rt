// What a store shows of its segments.
ghost use Rattle.std.specs.Prelude.{◌≡◌, ◌<◌, length, Some, None, option_map, slice_get};
ghost use Rattle.o2_entries.specs.Tables.{live_numbers};
ghost use Rattle.o2_store.specs.Shelf.{place_of, entry_of, entry, shown_at, kept_of, block_of, numbered};

use crate::brought::Place;
use crate::store::Store;
use o2_entries::Attr;
use o2_place::SegId;

impl Store {
    /// A segment's attributes, and none exactly where it is stale.
    pub fn attr(&self, id: SegId) -> Option<Attr>
        ensures { result ≡ option_map (λ e. e.attr) (entry_of self.now id) }
    {
        match self.find(id) {
            Some(entry) => Some(entry.attr),
            None => None,
        }
    }

    /// A segment's size in bytes, and none exactly where it is stale.
    pub fn size(&self, id: SegId) -> Option<u32>
        ensures { result ≡ option_map (λ e. e.size) (entry_of self.now id) }
    {
        match self.find(id) {
            Some(entry) => Some(entry.size),
            None => None,
        }
    }

    /// How many segments are live.
    pub fn live(&self) -> u32
        ensures { result ≡ length (live_numbers 0 self.now.entries) }
    {
        self.entries.count()
    }

    /// How many segments there is room for.
    pub fn segments(&self) -> u32
        ensures { result ≡ length self.now.entries }
    {
        self.entries.most()
    }

    /// How many segments were ever added.
    pub fn made(&self) -> u64
        ensures { result ≡ self.now.made }
    {
        self.made
    }

    /// The k-th live segment from 0 by rising key, and none exactly past the last.
    pub fn entry(&self, k: u32) -> Option<SegId>
        ensures { result ≡ option_map (numbered self.now) (slice_get (live_numbers 0 self.now.entries) k) }
    {
        match self.entries.nth(k) {
            Some(key) => Some(SegId {
                key,
                age: self.age_of(key),
            }),
            None => None,
        }
    }

    // The age of a number's segment, and 0 where it has none.
    pub(crate) fn age_of(&self, key: u32) -> u64
        ensures { result ≡ (entry self.now key).age }
    {
        match self.entries.get(key) {
            Some(entry) => entry.age,
            None => 0,
        }
    }

    // Where the segment of a number is in memory.
    pub(crate) fn range_of(&self, key: u32) -> Option<(u32, u32)>
        requires { key < length self.now.entries }
        ensures { result ≡ place_of self.now key }
    {
        self.places.find(key)
    }

    /// Where a segment's bytes are, and none exactly where it is stale.
    pub fn place(&self, id: SegId) -> Option<Place>
        ensures { result ≡ option_map (shown_at (place_of self.now id.key)) (entry_of self.now id) }
    {
        let entry = self.find(id)?;
        if let Some((at, _)) = self.range_of(id.key) {
            return Some(Place::Memory(at));
        }
        if let Some((module, seg)) = entry.image {
            return Some(Place::Image(module, seg));
        }
        if entry.kept == 0 {
            return Some(Place::Zeros);
        }
        Some(Place::Blocks)
    }

    /// How many of a segment's bytes lie in its image or in its blocks, with zeros behind them; in memory, its size. None
    /// exactly where it is stale.
    pub fn kept(&self, id: SegId) -> Option<u32>
        ensures { result ≡ option_map (kept_of (place_of self.now id.key)) (entry_of self.now id) }
    {
        let entry = self.find(id)?;
        if self.range_of(id.key).is_some() {
            return Some(entry.size);
        }
        Some(entry.kept)
    }

    /// The k-th swap block of a segment from 0, and none exactly where it has at most k or is stale.
    pub fn block(&self, id: SegId, k: u32) -> Option<u32>
        ensures { result ≡ block_of self.now.swap id.key k (entry_of self.now id) }
    {
        self.find(id)?;
        self.swap.nth(id.key, k)
    }

    /// The memory.
    pub fn memory(&self) -> &[u8]
        ensures { result.now ≡ self.now.memory }
    {
        self.phys.whole()
    }
}
