// Places of names, sorted by four bytes of their texts at a time: a text of n bytes is looked at once for each four of them, whatever
// it shares with others.
ghost use Rattle.std.specs.Prelude.{◌≡◌, ◌≤◌, ◌<◌, ◌%◌, length, IfOk, OnOk};
ghost use Rattle.o2_ne.specs.NameOrder.{AreThose, place_by, places_by};

use crate::order::text_at;
use o2_base::NoMemory;
use std::alloc::Global;

// What places are sorted by: by how many parts of four bytes their texts have, or by one of these parts, from 0 on.
#[derive(Clone, Copy)]
enum By {
    Count,
    Part(u8),
}

// How many parts of four bytes the text at a place has, at most 64.
fn count_at(file: &[u8], at: u32) -> u8 {
    (text_at(file, at).len().div_ceil(4) % 256) as u8
}

// A part of a text, with ASCII letters folded and zeros behind its end, and how many bytes of the text it has. Of two parts the one
// that comes first has the lower number, and of two with one number the lower count.
fn part_of(text: &[u8], n: u8) -> (u32, u8) {
    let mut bytes = [0u8; 4];
    let mut count = 0u8;
    for i in 0..4usize {
        if let Some(byte) = text.get(4 * usize::from(n) + i) {
            bytes[i] = byte.to_ascii_lowercase();
            count = count.wrapping_add(1);
        }
    }
    (u32::from_be_bytes(bytes), count)
}

// What the place at an index is sorted by, and behind it the index.
fn key_of(front: (u32, u8), index: u32) -> u64
    requires { index < 536870912 }
    ensures { result % 536870912 ≡ index }
{
    let (number, count) = front;
    (u64::from(number) * 8 + u64::from(count % 8)) * 536_870_912 + u64::from(index)
}

// The key of the place at an index.
fn key_at(file: &[u8], at: u32, by: By, index: u32) -> u64
    requires { index < 536870912 }
    ensures { result % 536870912 ≡ index }
{
    match by {
        By::Count => key_of((u32::from(count_at(file, at)), 0), index),
        By::Part(n) => key_of(part_of(text_at(file, at), n), index),
    }
}

// The place whose index stands in a key.
fn place_by(places: &[u32], key: u64) -> u32
    ensures { result ≡ place_by places.now key }
{
    places
        .get((key % 536_870_912) as usize)
        .copied()
        .unwrap_or(0)
}

// The keys of places.
fn keys_of(alloc: Global, file: &[u8], places: &[u32], by: By) -> Result<Vec<u64>, NoMemory>
    requires { length places.now ≤ 4194304 }
    ensures { IfOk result (λ v. places_by places.now v.items ≡ places.now) }
{
    let mut keys = Vec::with_capacity(alloc, places.len())?;
    for i in 0..places.len() as u32 {
        keys.push(key_at(file, places[i as usize], by, i))?;
    }
    Ok(keys)
}

// The places of keys.
fn places_by(alloc: Global, places: &[u32], keys: &[u64]) -> Result<Vec<u32>, NoMemory>
    ensures { IfOk result (λ v. v.items ≡ places_by places.now keys.now) }
{
    let mut found = Vec::with_capacity(alloc, keys.len())?;
    for i in 0..keys.len() {
        found.push(place_by(places, keys[i]))?;
    }
    Ok(found)
}

// The places, sorted so; those that are the same stay in their order.
fn sorted_by(alloc: Global, file: &[u8], places: &[u32], by: By) -> Result<Vec<u32>, NoMemory>
    requires { length places.now ≤ 4194304 }
    ensures those { IfOk result (λ v. AreThose places.now v.items) }
    ensures many { IfOk result (λ v. length v.items ≡ length places.now) }
{
    let mut keys = keys_of(alloc, file, places, by)?;
    keys.sort_unstable();
    let found = places_by(alloc, places, keys.as_slice())?;
    Ok(found)
}

// Sorts the places from an index on, where they lie.
fn sort_behind(
    alloc: Global,
    file: &[u8],
    places: &mut Vec<u32>,
    from: usize,
    by: By,
) -> Result<(), NoMemory>
    requires few { length places.old.items ≤ 4194304 }
    requires from { from ≤ length places.old.items }
    ensures those { OnOk result (AreThose places.old.items places.new.items) }
    ensures many { OnOk result (length places.new.items ≡ length places.old.items) }
{
    let (_, rest) = places.as_slice().split_at(from);
    let mut behind = sorted_by(alloc, file, rest, by)?;
    places.truncate(from);
    places.append(&mut behind)?;
    Ok(())
}

/// The places in the order of their texts, with ASCII letters folded: by the last part that any text has, then by the one before it, and
/// so on. Those whose texts have the part stand behind the others. The places stay where they lie in memory: what else the sort takes
/// is given back.
pub(crate) fn sorted(alloc: Global, file: &[u8], places: Vec<u32>) -> Result<Vec<u32>, NoMemory>
    requires { length places.items ≤ 4194304 }
    ensures those { IfOk result (λ v. AreThose places.items v.items) }
    ensures many { IfOk result (λ v. length v.items ≡ length places.items) }
{
    let mut order = places;
    order.shrink_to_fit();
    sort_behind(alloc, file, &mut order, 0, By::Count)?;
    for k in 0..64u8 {
        let n = 63 - k;
        let from = order.partition_point(|at| count_at(file, *at) <= n);
        if from < order.len() {
            sort_behind(alloc, file, &mut order, from, By::Part(n))?;
        }
    }
    Ok(order)
}
