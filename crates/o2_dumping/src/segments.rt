// The segments of an image.
ghost use Rattle.std.specs.Prelude.{◌≡◌, ℕ, ◌+◌, ◌<◌, ◌≤◌, ◌/◌, ◌++◌, length, flat_map, IsTrue, IsSome, option_map, slice_index, slice_index_or};
ghost use Rattle.o2_swapmap.specs.Piles.{all_of};
ghost use Rattle.o2_store.specs.Shelf.{entry_of, place_of};
ghost use Rattle.o2_dump.specs.CoreBytes.{segment_bytes};
ghost use Rattle.o2_dumping.specs.Fits.{FitsAt, IsFitPlace};
ghost use Rattle.o2_dumping.specs.Fronts.{place_front, segment_front, shown_number, shown_of};
ghost use Rattle.o2_dumping.specs.Puts.{HasCauses, IsRead, Writes};
ghost use Rattle.o2_dumping.specs.Told.{numbers, segment_told, segments_told};
ghost use Rattle.o2_store.specs.Idle.{NoneTaken};

use crate::blocks::put_blocks;
use crate::parts::Wrote;
use crate::piece::Piece;
use crate::shown::Shown;
use o2_outer::{Put, Sink, SwapDevice};
use o2_place::SegId;
use o2_store::{Place, Store};

// What the store shows of a segment, and none exactly where it is stale.
fn shown(store: &Store, id: SegId) -> Option<Shown>
    ensures { result ≡ option_map (shown_of (place_of store.now id.key)) (entry_of store.now id) }
{
    let size = store.size(id)?;
    let kept = store.kept(id)?;
    let attr = store.attr(id)?;
    let place = store.place(id)?;
    Some(Shown {
        size,
        kept,
        attr,
        place,
    })
}

// The number of a place.
fn place_number(place: Place) -> u8
    ensures { result ≡ shown_number place }
{
    match place {
        Place::Zeros => 0,
        Place::Image(_, _) => 1,
        Place::Memory(_) => 2,
        Place::Blocks => 3,
    }
}

// Adds what is told of a place, with the number of blocks where it is in blocks.
fn push_place(piece: &mut Piece, place: Place, blocks: u32)
    requires { length piece.old + 4 ≤ 64 }
    ensures text { piece.new ≡ piece.old ++ place_front place blocks }
    ensures fits { IsFitPlace place }
{
    match place {
        Place::Zeros => {}
        Place::Image(module, segment) => {
            piece.push_word(module);
            piece.push_word(segment);
        }
        Place::Memory(base) => piece.push_long(base),
        Place::Blocks => piece.push_long(blocks),
    }
}

// A segment's entry up to its blocks.
fn segment_piece(shown: &Shown, blocks: u32) -> Piece
    ensures text { result ≡ segment_front shown.now blocks }
    ensures fits { IsFitPlace shown.now.place }
{
    let mut piece = Piece::new();
    piece.push_long(shown.size);
    piece.push_long(shown.kept);
    piece.push(shown.attr.flags);
    piece.push(shown.attr.lock);
    piece.push(if shown.attr.clean { 1 } else { 0 });
    piece.push(place_number(shown.place));
    piece.push(if shown.attr.gone { 1 } else { 0 });
    push_place(&mut piece, shown.place, blocks);
    piece
}

// Puts a segment that isn't stale.
fn put_segment<C: Sink, S: SwapDevice>(
    store: &Store,
    id: SegId,
    console: &mut C,
    swap: &mut S,
) -> Wrote
    requires live { IsSome (entry_of store.now id) }
    requires device { all_of store.now.swap ≤ S.blocks swap.old }
    ensures text { IsTrue (S.told swap.new) → Writes (C.taken console.old) (C.taken console.new)
        (segment_bytes (segment_told store.now (S.block swap.old) id.key)) result }
    ensures fits { IsTrue (S.told swap.new) → result ≡ Wrote.Done
        → FitsAt store.now (S.block swap.old) id.key }
    ensures read { IsRead (S.blocks swap.old) (S.blocks swap.new)
        (S.told swap.old) (S.told swap.new) (S.block swap.old) (S.block swap.new) }
    ensures idle { NoneTaken store.now.swap → swap.new ≡ swap.old }
    ensures causes { HasCauses (C.faults console.old) (C.faults console.new)
        (S.faults swap.old) (S.faults swap.new) result }
{
    store.law();
    let Some(shown) = shown(store, id) else {
        return Wrote::Done;
    };
    let blocks = (shown.kept + 511) / 512;
    let piece = segment_piece(&shown, blocks);
    match console.put(piece.as_slice()) {
        Put::Failed => return Wrote::SinkFault,
        Put::Done => {}
    }
    match shown.place {
        Place::Blocks => put_blocks(store, id, blocks, console, swap),
        Place::Zeros => Wrote::Done,
        Place::Image(_, _) => Wrote::Done,
        Place::Memory(_) => Wrote::Done,
    }
}

// The segment of the k-th number that has one.
fn nth(store: &Store, k: u32) -> SegId
    requires { k < length (numbers store.now) }
    ensures key { result.key ≡ slice_index (numbers store.now) k }
    ensures live { IsSome (entry_of store.now result) }
{
    match store.entry(k) {
        Some(id) => id,
        None => unreachable!(),
    }
}

// Puts the segments by rising number.
pub(crate) fn put_segments<C: Sink, S: SwapDevice>(
    store: &Store,
    console: &mut C,
    swap: &mut S,
) -> Wrote
    requires { all_of store.now.swap ≤ S.blocks swap.old }
    ensures text { IsTrue (S.told swap.new) → Writes (C.taken console.old) (C.taken console.new)
        (flat_map segment_bytes (segments_told store.now (S.block swap.old))) result }
    ensures fits { IsTrue (S.told swap.new) → result ≡ Wrote.Done
        → (k : ℕ) → k < length (numbers store.now)
        → FitsAt store.now (S.block swap.old) (slice_index_or (numbers store.now) k 0) }
    ensures read { IsRead (S.blocks swap.old) (S.blocks swap.new)
        (S.told swap.old) (S.told swap.new) (S.block swap.old) (S.block swap.new) }
    ensures idle { NoneTaken store.now.swap → swap.new ≡ swap.old }
    ensures causes { HasCauses (C.faults console.old) (C.faults console.new)
        (S.faults swap.old) (S.faults swap.new) result }
{
    for k in 0..store.live() {
        match put_segment(store, nth(store, k), console, swap) {
            Wrote::Done => {}
            fault => return fault,
        }
    }
    Wrote::Done
}
