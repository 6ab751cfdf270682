// The swap blocks of a segment.
ghost use Rattle.std.specs.Prelude.{◌≡◌, ◌<◌, ◌≤◌, ◌++◌, length, flat_map, slice_index, IsSome, IsTrue, []};
ghost use Rattle.o2_outer.specs.Texts.{Rose};
ghost use Rattle.o2_outer.specs.Answers.{Takes, OnFailed};
ghost use Rattle.o2_swapmap.specs.Piles.{all_of, blocks_of};
ghost use Rattle.o2_store.specs.Shelf.{entry_of};
ghost use Rattle.o2_dump.specs.CoreBytes.{block_bytes, long};
ghost use Rattle.o2_dumping.specs.Fits.{AreLong};
ghost use Rattle.o2_dumping.specs.Puts.{HasCauses, IsRead, Writes};
ghost use Rattle.o2_dumping.specs.Told.{block_told, blocks_told};

use crate::parts::Wrote;
use o2_outer::{Dev, Put, Sink, SwapDevice, read_block};
use o2_place::SegId;
use o2_store::Store;

// Puts what a block holds, with its number in front.
fn put_numbered<C: Sink>(number: u32, block: &[u8; 512], console: &mut C) -> Put
    ensures text { Takes (C.taken console.old) (C.taken console.new)
        (long number ++ block.now) result }
    ensures count { C.faults console.old ≤ C.faults console.new }
    ensures cause { OnFailed result (Rose (C.faults console.old) (C.faults console.new)) }
{
    match console.put(&number.to_le_bytes()) {
        Put::Failed => Put::Failed,
        Put::Done => console.put(block),
    }
}

// Reads a block as far as the device knows it, and puts it with its number in front.
fn put_block<C: Sink, S: SwapDevice>(number: u32, console: &mut C, swap: &mut S) -> Wrote
    requires { number < S.blocks swap.old }
    ensures text { IsTrue (S.told swap.new) → Writes (C.taken console.old) (C.taken console.new)
        (block_bytes (block_told (S.block swap.old) number)) result }
    ensures long { IsTrue (S.told swap.new) → result ≡ Wrote.Done
        → length (S.block swap.old number) ≡ 512 }
    ensures read { IsRead (S.blocks swap.old) (S.blocks swap.new)
        (S.told swap.old) (S.told swap.new) (S.block swap.old) (S.block swap.new) }
    ensures causes { HasCauses (C.faults console.old) (C.faults console.new)
        (S.faults swap.old) (S.faults swap.new) result }
{
    let mut block = [0u8; 512];
    match read_block(number, &mut block, swap) {
        Dev::Failed => return Wrote::SwapFault,
        Dev::Done => {}
    }
    match put_numbered(number, &block, console) {
        Put::Done => Wrote::Done,
        Put::Failed => Wrote::SinkFault,
    }
}

// The number of a segment's k-th block, of which it has more.
fn block_number(store: &Store, id: SegId, k: u32) -> u32
    requires live { IsSome (entry_of store.now id) }
    requires more { k < length (blocks_of store.now.swap id.key) }
    ensures exact { result ≡ slice_index (blocks_of store.now.swap id.key) k }
    ensures there { result < all_of store.now.swap }
{
    store.law();
    match store.block(id, k) {
        Some(number) => number,
        None => unreachable!(),
    }
}

// Puts the blocks of a segment, which has so many.
pub(crate) fn put_blocks<C: Sink, S: SwapDevice>(
    store: &Store,
    id: SegId,
    count: u32,
    console: &mut C,
    swap: &mut S,
) -> Wrote
    requires live { IsSome (entry_of store.now id) }
    requires count { count ≡ length (blocks_of store.now.swap id.key) }
    requires device { all_of store.now.swap ≤ S.blocks swap.old }
    ensures text { IsTrue (S.told swap.new) → Writes (C.taken console.old) (C.taken console.new)
        (flat_map block_bytes (blocks_told store.now (S.block swap.old) id.key)) result }
    ensures long { IsTrue (S.told swap.new) → result ≡ Wrote.Done
        → AreLong (S.block swap.old) (blocks_of store.now.swap id.key) count }
    ensures read { IsRead (S.blocks swap.old) (S.blocks swap.new)
        (S.told swap.old) (S.told swap.new) (S.block swap.old) (S.block swap.new) }
    ensures unread { blocks_of store.now.swap id.key ≡ [] → swap.new ≡ swap.old }
    ensures causes { HasCauses (C.faults console.old) (C.faults console.new)
        (S.faults swap.old) (S.faults swap.new) result }
{
    for k in 0..count {
        match put_block(block_number(store, id, k), console, swap) {
            Wrote::Done => {}
            fault => return fault,
        }
    }
    Wrote::Done
}
