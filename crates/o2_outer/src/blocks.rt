// Blocks of zeros.
ghost use Rattle.std.specs.Prelude.{◌≡◌, IfOk, replicate};

use o2_base::NoMemory;
use std::alloc::Global;

/// So many blocks of zeros.
pub fn zero_blocks(alloc: Global, blocks: u32) -> Result<Vec<[u8; 512]>, NoMemory>
    ensures { IfOk result (λ all. all.items ≡ replicate blocks (replicate 512 0)) }
{
    let mut all = Vec::with_capacity(alloc, blocks as usize)?;
    for _ in 0..blocks {
        all.push([0u8; 512])?;
    }
    Ok(all)
}
