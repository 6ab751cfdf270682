// A range of the memory gets another length.
ghost use Rattle.std.specs.Prelude.{◌≡◌, ◌⊎◌, ℕ, ◌+◌, ◌<◌, ◌≤◌, length, Some, None, IsSome, slice_index};
ghost use Rattle.o2_place.specs.Layout.{find_in, used};
ghost use Rattle.o2_compact.specs.Parts.{GrowsInPlace, StayBut};
ghost use Rattle.o2_store.specs.Shelf.{rounded};
ghost use Rattle.o2_store.specs.Sizes.{Refits, Relengths, KeepsStarts};

use o2_compact::open_gap;
use o2_phys::Phys;
use o2_place::Places;

/// Gives the range of a segment, if it has one, the length for another size. Its bytes below both sizes stay, and grown
/// ones are zero.
pub(crate) fn refit(phys: &mut Phys, places: &mut Places, key: u32, old: u32, new: u32)
    requires memory { places.old.size ≡ length phys.old }
    requires key { key < places.old.most }
    requires sizes { (old ≤ 65536) × (0 < new) × (new ≤ 65536) }
    requires long { (at len : ℕ) → find_in places.old.ranges key ≡ Some (at, len) → len ≡ rounded old }
    requires room { IsSome (find_in places.old.ranges key) → used places.old.ranges + rounded new ≤ places.old.size + rounded old }
    ensures refits { Refits phys.old places.old phys.new places.new key old new }
    ensures none { find_in places.old.ranges key ≡ None → places.new ≡ places.old }
    ensures in_place { rounded new ≤ rounded old → KeepsStarts places.old places.new }
    ensures grows { GrowsInPlace places.old places.new key (rounded new) }
{
    let Some((_, was)) = places.find(key) else {
        return;
    };
    relength(phys, places, key, was, (new + 15) / 16 * 16);
    places.law();
    wipe(phys, places, key, old, new);
}

// Gives a range another length, with its bytes, where there is room for it.
fn relength(phys: &mut Phys, places: &mut Places, key: u32, was: u32, len: u32)
    requires memory { places.old.size ≡ length phys.old }
    requires key { key < places.old.most }
    requires placed { (at : ℕ) × (find_in places.old.ranges key ≡ Some (at, was)) }
    requires some { 0 < len }
    requires room { used places.old.ranges + len ≤ places.old.size + was }
    ensures relengths { Relengths phys.old places.old phys.new places.new key len }
    ensures in_place { len ≤ was → KeepsStarts places.old places.new }
    ensures grows { GrowsInPlace places.old places.new key len }
{
    places.law();
    if len == was {
        return;
    }
    if len < was {
        shorten(places, key, len);
        return;
    }
    open_gap(phys, places, key, len);
    places.law();
}

// Gives a range a length that is less.
fn shorten(places: &mut Places, key: u32, len: u32)
    requires key { key < places.old.most }
    requires some { 0 < len }
    requires less { (at was : ℕ) → find_in places.old.ranges key ≡ Some (at, was) → len ≤ was }
    ensures here { (at was : ℕ) → find_in places.old.ranges key ≡ Some (at, was) → find_in places.new.ranges key ≡ Some (at, len) }
    ensures others { StayBut places.old places.new key }
    ensures size { (places.new.size ≡ places.old.size) × (places.new.most ≡ places.old.most) }
{
    let Some(k) = places.rank(key) else {
        return;
    };
    places.law();
    let was = places.range_at(k);
    places.reshape(k, was.at, len);
}

// Clears the bytes of a range from an old size on, up to a new one.
fn wipe(phys: &mut Phys, places: &Places, key: u32, old: u32, new: u32)
    requires memory { places.now.size ≡ length phys.old }
    requires key { key < places.now.most }
    requires long { (at len : ℕ) → find_in places.now.ranges key ≡ Some (at, len) → new ≤ len }
    ensures length { length phys.new ≡ length phys.old }
    ensures outside { (i at len : ℕ) → find_in places.now.ranges key ≡ Some (at, len) → (i < at + old) ⊎ (at + len ≤ i) → slice_index phys.new i ≡ slice_index phys.old i }
    ensures zeros { (at len j : ℕ) → find_in places.now.ranges key ≡ Some (at, len) → old ≤ j → j < new → slice_index phys.new (at + j) ≡ 0 }
{
    places.law();
    let Some((at, _)) = places.find(key) else {
        return;
    };
    if new <= old {
        return;
    }
    phys.clear(at + old, new - old);
}
