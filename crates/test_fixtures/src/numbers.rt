// Numbers that look random, the same ones each time.

/// The next number of a generator.
pub fn next(seed: u32) -> u32 {
    seed.wrapping_mul(1_103_515_245).wrapping_add(12_345)
}

/// A number below a bound, at most 65,536, of a generator's; 0 where the bound is 0.
pub fn below(seed: u32, bound: u32) -> u32 {
    match (seed / 65_536).checked_rem(bound) {
        Some(rest) => rest,
        None => 0,
    }
}

/// The same as a word.
pub fn word_below(seed: u32, bound: u32) -> u16 {
    (below(seed, bound) % 65_536) as u16
}
