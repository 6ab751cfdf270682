// The order in which the records of a module's segments are gone through: as they lie in the file.
ghost use Rattle.std.specs.Prelude.{◌≡◌, ◌+◌, ◌≤◌, ◌<◌, get_or, length, IfOk, IfSome};
ghost use Rattle.o2_ne.specs.Steps.{tabulate};
ghost use Rattle.o2_dynlink.specs.Memo.{AreAt};

use o2_base::NoMemory;
use o2_image::Module;
use std::alloc::Global;
use std::cmp::Ordering;

/// The numbers from 1 on.
pub(crate) fn numbers(alloc: Global, count: u16) -> Result<Vec<u16>, NoMemory>
    requires { count < 65535 }
    ensures exact { IfOk result (λ v. v.items ≡ tabulate (λ k. k + 1) 0 count) }
    ensures count { IfOk result (λ v. length v.items ≡ count) }
{
    let mut found = Vec::new(alloc);
    for k in 0..count {
        found.push(k + 1)?;
    }
    Ok(found)
}

// The place of a segment's records in the file.
fn records_at(module: &Module, seg: u16) -> u64 {
    match module.segment(seg) {
        Some(segment) => u64::from(segment.file_at) + u64::from(segment.file_len),
        None => 0,
    }
}

// The order of two segments: first by where in eight bytes their rows begin, so that rows that meet are those of segments one behind
// the other.
fn by_records(module: &Module, a: u16, b: u16) -> Ordering {
    let first = records_at(module, a);
    let second = records_at(module, b);
    let rows = (first % 8).cmp(&(second % 8));
    if rows.is_eq() {
        return first.cmp(&second);
    }
    rows
}

/// The segments by their numbers, those behind one another whose records meet.
pub(crate) fn order_of(alloc: Global, module: &Module) -> Result<Vec<u16>, NoMemory>
    ensures many { IfOk result (λ v. length v.items ≡ length «module».now.segments) }
    ensures few { IfOk result (λ v. length v.items ≤ 254) }
{
    module.is_runnable();
    let mut order = numbers(alloc, module.segment_count())?;
    order.sort_unstable_by(|a, b| by_records(module, *a, *b));
    Ok(order)
}

// Where in an order a segment stands.
fn place_of(order: &[u16], seg: u16) -> Option<u16>
    requires { length order.now ≤ 254 }
    ensures { IfSome result (λ i. get_or order.now i 0 ≡ seg) }
{
    for i in 0..order.len() as u16 {
        if order[usize::from(i)] == seg {
            return Some(i);
        }
    }
    None
}

/// Where in an order so many segments stand, if all of them do.
pub(crate) fn places_of(
    alloc: Global,
    order: &[u16],
    count: u16,
) -> Result<Option<Vec<u16>>, NoMemory>
    requires short { length order.now ≤ 254 }
    requires few { count < 65535 }
    ensures count { IfOk result (λ o. IfSome o (λ v. length v.items ≡ count)) }
    ensures at { IfOk result (λ o. IfSome o (λ v. AreAt order.now v.items)) }
{
    let mut found = Vec::new(alloc);
    for k in 0..count {
        let Some(place) = place_of(order, k + 1) else {
            return Ok(None);
        };
        found.push(place)?;
    }
    Ok(Some(found))
}
