// The sum of a block.
ghost use Rattle.std.specs.Prelude.{◌≡◌, ◌+◌, ◌≤◌};
ghost use Rattle.o2_outer.specs.Sums.{word_at, mixed, block_sum};

/// The 64-bit word at a place of a block, the lowest byte first.
#[tactic(auto, unfolding(crate::specs::Sums::word_at))]
fn word(block: &[u8; 512], at: usize) -> u64
    requires { at + 8 ≤ 512 }
    ensures { result ≡ word_at block.now at }
{
    u64::from_le_bytes([
        block[at],
        block[at + 1],
        block[at + 2],
        block[at + 3],
        block[at + 4],
        block[at + 5],
        block[at + 6],
        block[at + 7],
    ])
}

/// A sum with two words more: one is combined by exclusive or, the other added.
#[tactic(auto, unfolding(crate::specs::Sums::mixed))]
fn mix(sum: u64, combined: u64, added: u64) -> u64
    ensures { result ≡ mixed sum combined added }
{
    (sum ^ combined).wrapping_add(added)
}

/// The sum of a block, in which the order of its words matters: of each two one is combined by exclusive or and the other added, and
/// it's rotated between.
#[tactic(auto, unfolding(crate::specs::Sums::groups_sum, crate::specs::Sums::block_sum))]
pub fn sum_of(block: &[u8; 512]) -> u64
    ensures { result ≡ block_sum block.now }
{
    let mut sum = 0u64;
    for k in 0..16usize {
        let at = 32 * k;
        sum = mix(sum, word(block, at), word(block, at + 8)).rotate_left(23);
        sum = mix(sum, word(block, at + 16), word(block, at + 24));
    }
    sum
}
