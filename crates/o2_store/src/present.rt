// What is in memory, and what can't leave it.
ghost use Rattle.std.specs.Prelude.{◌≡◌, ◌+◌, ◌*◌, ◌<◌, ◌≤◌, length, drop, option_map, None, Some, IsSome};
ghost use Rattle.o2_entries.specs.Tables.{slot_at};
ghost use Rattle.o2_place.specs.Layout.{find_in, range_at};
ghost use Rattle.o2_store.specs.Shelf.{all_locked, entry_of, numbered, place_of};

use crate::store::Store;
use o2_place::SegId;

impl Store {
    /// How many segments are in memory.
    pub fn present_count(&self) -> u32
        ensures { result ≡ length self.now.places.ranges }
    {
        self.places.count()
    }

    /// The k-th segment in memory from 0 by rising place. No range behind the k-th is its.
    pub fn present_at(&self, k: u32) -> SegId
        requires { k < length self.now.places.ranges }
        ensures id { result ≡ numbered self.now (range_at self.now.places.ranges k).id }
        ensures live { IsSome (entry_of self.now result) }
        ensures place { place_of self.now result.key
            ≡ Some ((range_at self.now.places.ranges k).at, (range_at self.now.places.ranges k).len) }
        ensures once { find_in (drop (k + 1) self.now.places.ranges) result.key ≡ None }
    {
        self.law();
        self.places.law();
        let key = self.places.range_at(k).id;
        SegId {
            key,
            age: self.age_of(key),
        }
    }

    /// The segment of a number below `segments`, and none exactly where it has none.
    pub fn numbered(&self, key: u32) -> Option<SegId>
        ensures { result ≡ option_map (λ e. numbered self.now key) (slot_at self.now.entries key) }
    {
        match self.entries.get(key) {
            Some(entry) => Some(SegId {
                key,
                age: entry.age,
            }),
            None => None,
        }
    }

    /// How many bytes of the memory the locked segments take together, each at its size rounded up to a multiple of 16.
    pub fn locked_size(&self) -> u64
        ensures value { result ≡ all_locked self.now.entries }
        ensures small { result ≤ 65536 * length self.now.entries }
    {
        self.law();
        self.locked
    }
}
