// Places of names in the order of the folded names.
ghost use Rattle.std.specs.Prelude.{◌≡◌, ◌+◌, ◌≤◌, ◌<◌, length, slice_get, true, false, IfOk};
ghost use Rattle.std.specs.Ordering.{is_lt};
ghost use Rattle.std.specs.List.Sorted.{IsPartitionPoint, IsSortedBy};
ghost use Rattle.o2_ne.specs.NameOrder.{IsIndex, by_name, is_before, ordinal_at, text_of};
ghost use Rattle.o2_ne.specs.Words.{byte_at, string_at};

use crate::folded::compare_folded;
use crate::sorting::sorted;
use o2_base::NoMemory;
use std::alloc::Global;
use std::cmp::Ordering;

// The byte at a place, 0 behind the end of the file.
fn byte_at(file: &[u8], at: usize) -> u8
    ensures { result ≡ byte_at file.now at }
{
    file.get(at).copied().unwrap_or(0)
}

// As many bytes from a place as there are, and no more than a name has.
fn bytes_from(file: &[u8], start: usize, len: usize) -> &[u8]
    ensures { result.now ≡ string_at file.now start len }
{
    let (_, rest) = file.split_at(start.min(file.len()));
    let (bytes, _) = rest.split_at(len.min(rest.len()));
    bytes
}

// The text of the name at a place.
pub(crate) fn text_at(file: &[u8], at: u32) -> &[u8]
    ensures { result.now ≡ text_of file.now at }
{
    let start = at as usize;
    bytes_from(file, start + 1, usize::from(byte_at(file, start)))
}

// The ordinal of the name at a place.
pub(crate) fn ordinal_at(file: &[u8], at: u32) -> u16
    ensures { result ≡ ordinal_at file.now at }
{
    let start = at as usize;
    let behind = start + 1 + usize::from(byte_at(file, start));
    u16::from(byte_at(file, behind)) + 256 * u16::from(byte_at(file, behind + 1))
}

// The order of two places: by their folded texts, and where these are the same by the places.
fn by_name(file: &[u8], a: u32, b: u32) -> Ordering
    ensures { result ≡ by_name file.now a b }
{
    let texts = compare_folded(text_at(file, a), text_at(file, b));
    if texts.is_eq() {
        return a.cmp(&b);
    }
    texts
}

// Whether the text at a place comes before a name.
fn is_before(file: &[u8], at: u32, name: &[u8]) -> bool
    ensures { result ≡ is_before file.now name.now at }
{
    compare_folded(text_at(file, at), name).is_lt()
}

/// The places in the order of their folded texts. The sort by whole texts finds its work done.
pub(crate) fn index_of(alloc: Global, file: &[u8], places: Vec<u32>) -> Result<Vec<u32>, NoMemory>
    requires { length places.items ≤ 4194304 }
    ensures index { IfOk result (λ v. IsIndex file.now places.items v.items) }
    ensures many { IfOk result (λ v. length v.items ≡ length places.items) }
{
    let mut order = sorted(alloc, file, places)?;
    order.sort_unstable_by(|a, b| by_name(file, *a, *b));
    Ok(order)
}

// Where in an order the first place stands whose text doesn't come before a name.
pub(crate) fn first_of(file: &[u8], order: &[u32], name: &[u8]) -> usize
    requires { IsSortedBy (λ a b. is_lt (by_name file.now a b)) order.now }
    ensures { IsPartitionPoint (λ p. is_before file.now name.now p ≡ true) (λ p. is_before file.now name.now p ≡ false) order.now result }
{
    order.partition_point(|p| is_before(file, *p, name))
}

// The place at an index.
pub(crate) fn place_at(order: &[u32], at: usize) -> Option<u32>
    ensures { result ≡ slice_get order.now at }
{
    order.get(at).copied()
}
