// What a step's segments take of the memory together.
ghost use Rattle.std.specs.Prelude.{◌≡◌, ◌+◌, ◌<◌, ◌≤◌, ◌^◌, length, IsSome, max, nat_lt, true, false};
ghost use Rattle.o2_store.specs.Shelf.{entry, entry_of, place_of};
ghost use Rattle.o2_service.specs.Needs.{AreLive, ArePresent, AreServed, all_needed, needed, needs, size_in};

use o2_place::SegId;
use o2_store::Store;

// Whether a live segment is locked.
fn is_locked(store: &Store, id: SegId) -> bool
    requires { IsSome (entry_of store.now id) }
    ensures { result ≡ nat_lt 0 (entry store.now id.key).attr.lock }
{
    match store.attr(id) {
        Some(attr) => attr.lock > 0,
        None => false,
    }
}

/// A live segment's size.
pub(crate) fn size_of(store: &Store, id: SegId) -> u32
    requires { IsSome (entry_of store.now id) }
    ensures { result ≡ (entry store.now id.key).size }
{
    match store.size(id) {
        Some(size) => size,
        None => 0,
    }
}

// Whether a live segment is in memory and has so many bytes at least.
fn is_served(store: &Store, id: SegId, size: u32) -> bool
    requires { IsSome (entry_of store.now id) }
    ensures here { result ≡ true → IsSome (place_of store.now id.key) }
    ensures enough { result ≡ true → size ≤ (entry store.now id.key).size }
    ensures missing { result ≡ false → IsSome (place_of store.now id.key) → (entry store.now id.key).size < size }
{
    if !store.base(id).is_some() {
        return false;
    }
    size_of(store, id) >= size
}

/// Whether all that is needed is in memory and none gets a larger size.
pub(crate) fn are_here(need: &[(SegId, u32)], store: &Store) -> bool
    requires { AreLive store.now need.now }
    ensures here { result ≡ true → ArePresent store.now need.now (length need.now) }
    ensures fits { result ≡ true → all_needed store.now need.now ≤ store.now.places.size }
    ensures missing { result ≡ false → AreServed store.now need.now → ⊥ }
{
    store.law();
    for k in 0..need.len() {
        let (id, size) = need[k];
        if !is_served(store, id, size) {
            return false;
        }
    }
    true
}

// Whether a number's segment is needed.
fn is_needed(need: &[(SegId, u32)], key: u32) -> bool
    ensures { result ≡ needs need.now key }
{
    for pair in need {
        if pair.0.key == key {
            return true;
        }
    }
    false
}

// The largest size that a number's segment gets.
fn size_given(need: &[(SegId, u32)], key: u32) -> u32
    ensures { result ≡ size_in need.now key }
{
    let mut largest: u32 = 0;
    for pair in need {
        if pair.0.key == key {
            largest = largest.max(pair.1);
        }
    }
    largest
}

// What a live segment takes that is needed or locked.
fn part_of(need: &[(SegId, u32)], store: &Store, id: SegId) -> u64
    requires { IsSome (entry_of store.now id) }
    ensures value { result ≡ needed store.now need.now id.key }
    ensures small { result < 2 ^ 33 }
{
    if is_locked(store, id) || is_needed(need, id.key) {
        let size = size_of(store, id).max(size_given(need, id.key));
        return (u64::from(size) + 15) / 16 * 16;
    }
    0
}

/// What all take together that are needed or locked, each once, at the larger of its size and those that it gets.
pub(crate) fn amount(need: &[(SegId, u32)], store: &Store) -> u64
    requires live { AreLive store.now need.now }
    requires few { length need.now ≤ 16 }
    ensures { result ≡ all_needed store.now need.now }
{
    store.law();
    let mut total = store.locked_size();
    for k in 0..need.len() {
        let id = need[k].0;
        let before = part_of(&need[..k], store, id);
        let after = part_of(&need[..k + 1], store, id);
        total = total + after - before;
    }
    total
}
