// The bytes of a segment.
ghost use Rattle.std.specs.Prelude.{◌≡◌, ◌-◌, drop, replicate, take, IfOk};
ghost use Rattle.o2_dump.specs.CoreImage.{bytes_of, joined, kept_bytes};

use crate::parts::{Block, Place, SegmentEntry};
use o2_base::NoMemory;
use std::alloc::Global;

// As many zeros.
fn zeros(alloc: Global, count: usize) -> Result<Vec<u8>, NoMemory>
    ensures { IfOk result (λ v. v.items ≡ replicate count 0) }
{
    let mut bytes = Vec::new(alloc);
    bytes.resize(count, 0)?;
    Ok(bytes)
}

#[tactic(auto, using(std::proofs::lemmas::List::drop_min, std::proofs::lemmas::List::take_min))]
// The bytes from a place on, at most `most` of them.
fn part(bytes: &[u8], from: usize, most: usize) -> &[u8]
    ensures { result.now ≡ take most (drop from bytes.now) }
{
    let behind = &bytes[from.min(bytes.len())..];
    &behind[..most.min(behind.len())]
}

#[tactic(auto, using(crate::proofs::Joining::more))]
// The bytes of some blocks, one after the other.
fn joined(alloc: Global, blocks: &[Block]) -> Result<Vec<u8>, NoMemory>
    ensures { IfOk result (λ v. v.items ≡ joined blocks.now) }
{
    let mut bytes = Vec::new(alloc);
    for block in blocks {
        bytes.extend_from_slice(block.bytes.as_slice())?;
    }
    Ok(bytes)
}

// The kept bytes of a segment.
fn kept_bytes(alloc: Global, memory: &[u8], kept: u32, place: &Place) -> Result<Vec<u8>, NoMemory>
    ensures { IfOk result (λ v. v.items ≡ kept_bytes memory.now kept place.now) }
{
    match place {
        Place::Zeros => Ok(Vec::new(alloc)),
        Place::Image(_, _) => zeros(alloc, kept as usize),
        Place::Memory(base) => {
            let bytes = part(memory, *base as usize, kept as usize);
            Ok(bytes.to_vec(alloc)?)
        }
        Place::Swap(blocks) => {
            let mut bytes = joined(alloc, blocks.as_slice())?;
            bytes.truncate(kept as usize);
            Ok(bytes)
        }
    }
}

// The bytes of a segment: those that are kept, and zeros.
pub(crate) fn bytes_of(
    alloc: Global,
    memory: &[u8],
    entry: &SegmentEntry,
) -> Result<Vec<u8>, NoMemory>
    ensures { IfOk result (λ v. v.items ≡ bytes_of memory.now entry.now) }
{
    let mut bytes = kept_bytes(alloc, memory, entry.kept, &entry.place)?;
    let size = bytes.len().max(entry.size as usize);
    bytes.resize(size, 0)?;
    Ok(bytes)
}
