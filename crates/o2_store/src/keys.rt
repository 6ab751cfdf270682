// The numbers of the segments that a call keeps in memory, each once.
ghost use Rattle.std.specs.Prelude.{◌≡◌, ℕ, ◌+◌, ◌<◌, ◌≤◌, ◌^◌, ◌||◌, ◌&&◌, ◌==◌, length, IsSome, true, nat_lt, if◌then◌else◌};
ghost use Rattle.std.specs.Vec.{vec_capacity};
ghost use Rattle.o2_entries.specs.Tables.{slot_at};
ghost use Rattle.o2_store.specs.Needs.{AreKeys, all_need, has, named_in, is_named};
ghost use Rattle.o2_store.specs.Shelf.{entry_or, all_locked, rounded};

use o2_entries::Entries;
use o2_place::SegId;

// Adds a live segment's number where it isn't there yet, and answers what it takes of the memory beside the locked ones.
fn add_key(keys: &mut Vec<u32>, entries: &Entries, key: u32) -> u64
    requires room { length entries.now ≤ vec_capacity keys.old }
    requires keys { AreKeys (length entries.now) keys.old.items }
    requires live { IsSome (slot_at entries.now key) }
    requires sizes { (k : ℕ) → (entry_or (slot_at entries.now k)).size ≤ 65536 }
    ensures keys { AreKeys (length entries.now) keys.new.items }
    ensures capacity { vec_capacity keys.new ≡ vec_capacity keys.old }
    ensures need { all_need entries.now keys.old.items + result ≡ all_need entries.now keys.new.items }
    ensures any { (k : ℕ) → has keys.new.items k ≡ (has keys.old.items k || k == key) }
{
    if keys.contains(&key) {
        return 0;
    }
    keys.push_reserved(key);
    unlocked_part(entries, key)
}

// What a segment that isn't locked takes of the memory.
fn unlocked_part(entries: &Entries, key: u32) -> u64
    requires sizes { (k : ℕ) → (entry_or (slot_at entries.now k)).size ≤ 65536 }
    ensures value { result ≡ (if nat_lt 0 (entry_or (slot_at entries.now key)).attr.lock then 0 else rounded (entry_or (slot_at entries.now key)).size) }
    ensures small { result ≤ 65536 }
{
    match entries.get(key) {
        Some(entry) => {
            if entry.attr.lock > 0 {
                return 0;
            }
            u64::from((entry.size + 15) / 16 * 16)
        }
        None => 0,
    }
}

// Whether a name is that of a live segment.
fn is_live(entries: &Entries, id: SegId) -> bool
    ensures { result ≡ is_named entries.now id }
{
    match entries.get(id.key) {
        Some(entry) => entry.age == id.age,
        None => false,
    }
}

/// Whether a number's segment is among the live ones of a list.
pub(crate) fn names(keep: &[SegId], entries: &Entries, key: u32) -> bool
    ensures { result ≡ named_in entries.now keep.now key }
{
    for id in keep {
        if is_name_of(entries, *id, key) {
            return true;
        }
    }
    false
}

// Whether a name is that of a number's live segment.
fn is_name_of(entries: &Entries, id: SegId, key: u32) -> bool
    ensures { result ≡ (is_named entries.now id && key == id.key) }
{
    is_live(entries, id) && id.key == key
}

// Adds the number of a named segment, if it is live.
fn add_named(keys: &mut Vec<u32>, entries: &Entries, id: SegId) -> u64
    requires room { length entries.now ≤ vec_capacity keys.old }
    requires keys { AreKeys (length entries.now) keys.old.items }
    requires sizes { (k : ℕ) → (entry_or (slot_at entries.now k)).size ≤ 65536 }
    ensures keys { AreKeys (length entries.now) keys.new.items }
    ensures capacity { vec_capacity keys.new ≡ vec_capacity keys.old }
    ensures need { all_need entries.now keys.old.items + result ≡ all_need entries.now keys.new.items }
    ensures any { (k : ℕ) → has keys.new.items k ≡ (has keys.old.items k || is_named entries.now id && k == id.key) }
{
    if is_live(entries, id) {
        return add_key(keys, entries, id.key);
    }
    0
}

/// Lists the numbers of a live segment and of the live ones of a list, and answers what they and the locked ones take of the
/// memory together.
pub(crate) fn collect(
    keys: &mut Vec<u32>,
    entries: &Entries,
    locked: u64,
    key: u32,
    keep: &[SegId],
) -> u64
    requires room { length entries.now ≤ vec_capacity keys.old }
    requires live { IsSome (slot_at entries.now key) }
    requires few { length entries.now < 2 ^ 32 }
    requires sizes { (k : ℕ) → (entry_or (slot_at entries.now k)).size ≤ 65536 }
    requires locked { locked ≡ all_locked entries.now }
    ensures capacity { vec_capacity keys.new ≡ vec_capacity keys.old }
    ensures need { result ≡ all_need entries.now keys.new.items }
    ensures any { (k : ℕ) → has keys.new.items k ≡ (k == key || named_in entries.now keep.now k) }
{
    keys.clear();
    let mut total = locked + add_key(keys, entries, key);
    for id in keep {
        total += add_named(keys, entries, *id);
    }
    total
}
