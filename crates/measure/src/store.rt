// Segments that share a memory and leave it for a swap device.
ghost use Rattle.std.specs.Prelude.{◌≡◌, ◌<◌, ◌≤◌, length};
ghost use Rattle.o2_outer.specs.Devices.{swap_blocks};
ghost use Rattle.o2_store.specs.Trials.{IsReady};

use o2_base::NoMemory;
use o2_image::Images;
use o2_outer::SureSwap;
use o2_place::SegId;
use o2_store::{Brought, Store};
use std::alloc::Global;
use test_store_calls::{add, bring};

/// The memory's size in bytes.
const MEMORY: u32 = 1_048_576;

/// How many blocks the device has.
const BLOCKS: u32 = 65_536;

/// A segment's size in bytes.
const SIZE: u32 = 65_536;

// Writes the first bytes of a segment in memory.
fn fill(store: &mut Store, images: &Images, swap: &SureSwap, id: SegId, bytes: &[u8])
    requires { IsReady store.old images.now (swap_blocks swap.now) }
    ensures ready { IsReady store.new images.now (swap_blocks swap.now) }
    ensures made { store.new.made ≡ store.old.made }
{
    store.law();
    let Some(_at) = store.base(id) else {
        return;
    };
    let Some(attr) = store.attr(id) else {
        return;
    };
    let Some(size) = store.size(id) else {
        return;
    };
    if attr.clean || bytes.len() > size as usize {
        return;
    }
    store.put(id, 0, bytes);
}

// Adds so many segments, with these first bytes each.
fn begin(
    store: &mut Store,
    images: &Images,
    swap: &mut SureSwap,
    ids: &mut Vec<SegId>,
    segments: u32,
    bytes: &[u8],
) -> Result<(), NoMemory>
    requires ready { IsReady store.old images.now (swap_blocks swap.old) }
    requires few { store.old.made ≡ 0 }
    ensures { IsReady store.new images.now (swap_blocks swap.new) }
{
    for _round in 0..segments {
        if let Some(id) = add(store, images, swap, SIZE) {
            let _ = bring(store, id, &[], images, swap);
            fill(store, images, swap, id, bytes);
            ids.push(id)?;
        }
    }
    Ok(())
}

// Brings segments in so many times, one after the other, and answers how often one came in.
fn bring_round(
    store: &mut Store,
    images: &Images,
    swap: &mut SureSwap,
    ids: &[SegId],
    rounds: u64,
) -> u64
    requires ready { IsReady store.old images.now (swap_blocks swap.old) }
    requires some { 0 < length ids.now }
{
    let mut done: u64 = 0;
    for round in 0..rounds {
        let id = ids[(round % ids.len() as u64) as usize];
        if bring(store, id, &[], images, swap) == Brought::Here {
            done = done.wrapping_add(1);
        }
    }
    done
}

// Adds segments and brings them in, one after the other.
fn swaps_in(
    store: &mut Store,
    images: &Images,
    swap: &mut SureSwap,
    bytes: &[u8],
    segments: u32,
    rounds: u64,
    ids: &mut Vec<SegId>,
) -> Result<u64, NoMemory>
    requires ready { IsReady store.old images.now (swap_blocks swap.old) }
    requires few { store.old.made ≡ 0 }
{
    begin(store, images, swap, ids, segments, bytes)?;
    if ids.is_empty() {
        return Ok(0);
    }
    Ok(bring_round(store, images, swap, ids, rounds).wrapping_mul(2))
}

/// Brings segments in so many times, one after the other, where each one drives another one out. Each has so many bytes that
/// aren't zero. The answer is how many were moved, in and out.
pub fn swap_many(alloc: Global, segments: u32, filled: usize, rounds: u64) -> Result<u64, NoMemory>
    requires { segments ≤ 65536 }
{
    let bytes = Vec::from_elem(alloc, 7u8, filled)?;
    let mut swap = SureSwap::new(alloc, BLOCKS)?;
    let mut store = Store::make(alloc, MEMORY, BLOCKS, segments)?;
    let images = Images::new(Vec::new(alloc), Vec::new(alloc));
    let mut ids = Vec::new(alloc);
    swaps_in(
        &mut store, &images, &mut swap, &bytes, segments, rounds, &mut ids,
    )
}

/// Copies so many pieces of this length out of a longer stretch, one after the other, to one place.
pub fn copy_many(
    alloc: Global,
    stretch: usize,
    piece: usize,
    rounds: u64,
) -> Result<u64, NoMemory> {
    let source = Vec::from_elem(alloc, 7u8, stretch)?;
    let mut target = Vec::from_elem(alloc, 0u8, piece)?;
    let mut done: u64 = 0;
    let mut at: usize = 0;
    for _ in 0..rounds {
        let end = at.saturating_add(piece);
        match source.get(at..end) {
            Some(from) => {
                if target.len() == from.len() {
                    target.copy_from_slice(from);
                    done = done.wrapping_add(1);
                }
                at = end;
            }
            None => at = 0,
        }
    }
    Ok(done)
}
