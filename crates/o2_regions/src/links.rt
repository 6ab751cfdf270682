// The places that hold a segment, in lists by the segment's key.
//
// Behind the places of a table `held` stand the heads of 65,536 lists. `next` leads from a head to the lowest place whose
// segment's key is the list's number modulo 65,536, from there to the next one up, and from the highest back to the head;
// `prev` leads the other way.
ghost use Rattle.std.specs.Prelude.{◌≡◌, ◌≢◌, ℕ, ◌+◌, ◌<◌, ◌^◌, length, None, Some, IfOk, IfSome, slice_index, slice_index_or, slice_set, slice_get};
ghost use Rattle.o2_regions.specs.declared.held.Held.{Held as HeldThere};
ghost use Rattle.o2_regions.specs.Links.{AreNext, ArePrev, IsLast, list_of, places_from, stands_in};
ghost use Rattle.o2_regions.specs.Maps.{is_of};

use crate::Held;
use o2_place::SegId;
use std::alloc::{AllocError, Global};

/// How many lists there are.
pub(crate) const LISTS: u32 = 65536;

/// The head of a key's list.
pub(crate) fn head_of(places: usize, key: u32) -> usize
    requires { places < 2 ^ 31 }
    ensures { result ≡ places + list_of key }
{
    places + (key % LISTS) as usize
}

/// Links of so many places, none of which holds anything.
pub(crate) fn unlinked(alloc: Global, places: usize) -> Result<Vec<u32>, AllocError>
    requires { places < 2 ^ 31 }
    ensures long { IfOk result (λ v. length v.items ≡ places + 65536) }
    ensures own { IfOk result (λ v. (x : ℕ) → x < places + 65536 → slice_index v.items x ≡ x) }
{
    let end = places as u32 + LISTS;
    let mut links = Vec::with_capacity(alloc, end as usize)?;
    for x in 0..end {
        links.push_reserved(x);
    }
    Ok(links)
}

// The highest place below one, in a list; or the list's head.
fn last_before(held: &[Option<Held>], prev: &[u32], key: u32, place: usize) -> usize
    requires few { length held.now < 2 ^ 31 }
    requires within { place < length held.now }
    requires free { slice_index_or held.now place None ≡ None }
    requires prev { ArePrev (length held.now) held.now prev.now }
    ensures { IsLast (stands_in held.now (list_of key)) (length held.now) (length held.now + list_of key) place result }
{
    let mut at = prev[head_of(held.len(), key)] as usize;
    while at < held.len() && place < at {
        at = prev[at] as usize;
    }
    at
}

/// Brings a place that holds nothing into a key's list, behind the highest place below it.
pub(crate) fn link(
    held: &[Option<Held>],
    next: &mut Vec<u32>,
    prev: &mut Vec<u32>,
    key: u32,
    place: usize,
)
    requires few { length held.now < 2 ^ 31 }
    requires within { place < length held.now }
    requires free { slice_index_or held.now place None ≡ None }
    requires next { AreNext (length held.now) held.now next.old.items }
    requires prev { ArePrev (length held.now) held.now prev.old.items }
    ensures next { (h : HeldThere) → h.id.key ≡ key → AreNext (length held.now) (slice_set held.now place (Some h)) next.new.items }
    ensures prev { (h : HeldThere) → h.id.key ≡ key → ArePrev (length held.now) (slice_set held.now place (Some h)) prev.new.items }
{
    let before = last_before(held, prev, key, place);
    let after = next[before];
    next[before] = place as u32;
    next[place] = after;
    prev[place] = before as u32;
    prev[after as usize] = place as u32;
}

/// Takes a place that holds something out of its list.
pub(crate) fn unlink(held: &[Option<Held>], next: &mut Vec<u32>, prev: &mut Vec<u32>, place: usize)
    requires few { length held.now < 2 ^ 31 }
    requires within { place < length held.now }
    requires some { slice_index_or held.now place None ≢ None }
    requires next { AreNext (length held.now) held.now next.old.items }
    requires prev { ArePrev (length held.now) held.now prev.old.items }
    ensures next { AreNext (length held.now) (slice_set held.now place None) next.new.items }
    ensures prev { ArePrev (length held.now) (slice_set held.now place None) prev.new.items }
{
    let before = prev[place];
    let after = next[place];
    next[before as usize] = after;
    prev[after as usize] = before;
}

/// The k-th place from 0 that holds a segment, and none exactly past the last.
pub(crate) fn kth_place(held: &[Option<Held>], next: &[u32], id: SegId, k: u32) -> Option<usize>
    requires few { length held.now < 2 ^ 31 }
    requires next { AreNext (length held.now) held.now next.now }
    ensures place { result ≡ slice_get (places_from (is_of id) held.now 0) k }
    ensures within { IfSome result (λ p. p < length held.now) }
{
    let mut left = k;
    let mut at = next[head_of(held.len(), id.key)] as usize;
    while at < held.len() {
        if is_held_as(held[at], id) {
            if left == 0 {
                return Some(at);
            }
            left -= 1;
        }
        at = next[at] as usize;
    }
    None
}

/// Whether what is held is that segment.
pub(crate) fn is_held_as(held: Option<Held>, id: SegId) -> bool
    ensures { result ≡ is_of id held }
{
    match held {
        Some(h) => h.id.key == id.key && h.id.age == id.age,
        None => false,
    }
}
