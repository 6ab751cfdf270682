// The bytes of segments, wherever they lie.
ghost use Rattle.std.specs.Prelude.{◌≡◌, ◌≤◌, length};
ghost use Rattle.o2_image.specs.ImageList.{HasImage};
ghost use Rattle.o2_store.specs.Pictures.{HasPicture};
ghost use Rattle.o2_store.specs.Shelf.{HasAll};

use o2_outer::{Dev, SwapDevice, read_block};
use o2_place::SegId;
use o2_space::Space;
use o2_store::Place;
use std::alloc::{AllocError, Global};

/// The bytes of a swap block.
const BLOCK: usize = 512;

/// The most blocks that a segment has.
const MOST_BLOCKS: u32 = 128;

/// The first bytes of a segment's image.
fn from_image(space: &Space, module: u16, seg: u16, into: &mut [u8])
    requires { HasImage space.now.images «module» seg }
{
    space.images.fill(module, seg, into);
}

/// The first bytes of a segment, from its swap blocks; zeros where the device fails.
fn from_blocks<S: SwapDevice>(space: &Space, id: SegId, swap: &mut S, into: &mut [u8])
    ensures { S.blocks swap.new ≡ S.blocks swap.old }
{
    let mut block = [0u8; 512];
    for k in 0..MOST_BLOCKS {
        let at = k as usize * BLOCK;
        if at >= into.len() {
            return;
        }
        let Some(number) = space.store.block(id, k) else {
            return;
        };
        if number >= swap.count() || read_block(number, &mut block, swap) == Dev::Failed {
            return;
        }
        let count = (into.len() - at).min(BLOCK);
        into[at..at + count].copy_from_slice(&block[..count]);
    }
}

/// The bytes of a segment that is out of memory: those of its image or of its blocks, and zeros behind.
fn fill<S: SwapDevice>(space: &Space, id: SegId, swap: &mut S, bytes: &mut [u8])
    requires { HasAll (HasPicture space.now.images) space.now.store }
    ensures { S.blocks swap.new ≡ S.blocks swap.old }
{
    let kept = space.store.kept(id).unwrap_or(0) as usize;
    let kept = kept.min(bytes.len());
    match space.store.place(id) {
        Some(Place::Image(module, seg)) => from_image(space, module, seg, &mut bytes[..kept]),
        Some(Place::Blocks) => from_blocks(space, id, swap, &mut bytes[..kept]),
        _ => {}
    }
}

/// Ten bytes from a place on, and how many of them there are.
pub fn ten_at(bytes: &[u8], at: u16) -> ([u8; 10], usize) {
    let mut ten = [0u8; 10];
    let Some((_, rest)) = bytes.split_at_checked(at as usize) else {
        return (ten, 0);
    };
    let count = rest.len().min(10);
    ten[..count].copy_from_slice(&rest[..count]);
    (ten, count)
}

/// The bytes of a segment, wherever they lie; none where it isn't live.
pub fn bytes_of<S: SwapDevice>(
    alloc: Global,
    space: &Space,
    id: SegId,
    swap: &mut S,
) -> Result<Option<Vec<u8>>, AllocError>
    requires { HasAll (HasPicture space.now.images) space.now.store }
    ensures { S.blocks swap.new ≡ S.blocks swap.old }
{
    if let Some(window) = space.store.window(id) {
        return Ok(Some(window.to_vec(alloc)?));
    }
    let Some(size) = space.store.size(id) else {
        return Ok(None);
    };
    let mut bytes = vec![in alloc; 0u8; size as usize]?;
    fill(space, id, swap, bytes.as_mut_slice());
    Ok(Some(bytes))
}
