// Blocks of a swap device whose bytes are all the same.
ghost use Rattle.std.specs.Prelude.{◌≡◌, ◌<◌, true};

use o2_outer::{Dev, SwapDevice};

/// Whether all of some bytes are this one.
pub fn are_all(bytes: &[u8], byte: u8) -> bool {
    for other in bytes {
        if *other != byte {
            return false;
        }
    }
    true
}

/// What a write of a block of this byte comes to.
pub fn write<S: SwapDevice>(swap: &mut S, block: u32, byte: u8) -> Dev {
    if block >= swap.count() {
        return Dev::Failed;
    }
    swap.write(block, &[byte; 512])
}

/// Whether a device has a block and knows what it holds.
pub fn knows<S: SwapDevice>(swap: &S, block: u32) -> bool
    ensures block { result ≡ true → block < S.blocks swap.now }
    ensures known { result ≡ true → S.known swap.now block ≡ true }
{
    block < swap.count() && swap.knows(block)
}

/// Whether a read of a block gives this byte everywhere.
pub fn gives<S: SwapDevice>(swap: &mut S, block: u32, byte: u8) -> bool {
    let mut bytes = [!byte; 512];
    knows(swap, block) && swap.read(block, &mut bytes) == Dev::Done && are_all(&bytes, byte)
}

/// Whether a read of a block is a fault.
pub fn is_lost<S: SwapDevice>(swap: &mut S, block: u32) -> bool {
    knows(swap, block) && swap.read(block, &mut [0u8; 512]) == Dev::Failed
}
