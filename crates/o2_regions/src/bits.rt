// Marks by place, 64 in a word.
ghost use Rattle.std.specs.Prelude.{◌≡◌, ◌≢◌, ℕ, ◌==◌, ◌+◌, ◌*◌, ◌<◌, ◌≤◌, ◌^◌, false, not, length, replicate, slice_index_or, slice_set, IfOk};
ghost use Rattle.std.specs.Int.{bit_at};
ghost use Rattle.o2_desc.specs.Choice.{chosen};
ghost use Rattle.o2_regions.specs.Maps.{fill};
ghost use Rattle.o2_regions.specs.Words.{mark_at};

use std::alloc::{AllocError, Global};
use std::marker::Model;

/// Marks by place. Contracts see them as a list.
#[derive(Debug, Drop)]
pub(crate) struct Bits {
    words: Vec<u64>,
}

impl Model for Bits {
    ghost use Rattle.std.specs.Prelude.{List, Bool};
    ghost use Rattle.o2_regions.specs.Words.{marks_of};

    ghost Value = { List Bool };

    ghost view = { λ b. marks_of b.words.items };
}

// The word with a bit set, or cleared.
fn with_bit(word: u64, bit: usize, mark: bool) -> u64
    requires { bit < 64 }
    ensures same { (bit_at result bit == 1) ≡ mark }
    ensures other { (b : ℕ) → b < 64 → b ≢ bit → bit_at result b ≡ bit_at word b }
{
    if mark {
        word | 1 << bit
    } else {
        word & !(1 << bit)
    }
}

// The lowest number from `low` on, and below `end`, from which `count` bits behind `base` are 0. Bits of a word that are
// 1 in a row are passed over at once.
fn scan_clear(words: &[u64], base: usize, low: u16, end: u16, count: u16) -> Option<u16>
    requires within { base + end ≤ 64 * length words.now }
    requires few { length words.now < 2 ^ 32 }
    requires some { 0 < count }
    requires short { end ≤ 8192 }
    ensures { result ≡ chosen (λ k. mark_at words.now (base + k)) low end count }
{
    let wanted = count as usize;
    let mut i = low as usize;
    let mut run = 0;
    while i < end as usize {
        let at = base + i;
        let word = words[at / 64];
        let rest = word >> (at % 64);
        if word == u64::MAX {
            run = 0;
            i += 64 - at % 64;
        } else if rest & 1 == 1 {
            run = 0;
            i += rest.trailing_ones() as usize;
        } else {
            run += 1;
            i += 1;
            if run == wanted {
                return Some((i - wanted) as u16);
            }
        }
    }
    None
}

// The lowest number from `low` on, and below `end`, whose bit behind `base` is 1. Words of zeros are passed over at once.
fn scan_marked(words: &[u64], base: usize, low: u16, end: u16) -> Option<u16>
    requires within { base + end ≤ 64 * length words.now }
    requires few { length words.now < 2 ^ 32 }
    requires short { end ≤ 8192 }
    ensures { result ≡ chosen (λ k. not (mark_at words.now (base + k))) low end 1 }
{
    let mut i = low as usize;
    while i < end as usize {
        let at = base + i;
        let rest = words[at / 64] >> (at % 64);
        if rest != 0 {
            let first = i + rest.trailing_zeros() as usize;
            return if first < end as usize {
                Some(first as u16)
            } else {
                None
            };
        }
        i += 64 - at % 64;
    }
    None
}

impl Bits {
    /// So many words of 64 places, of which none is marked.
    pub fn new(alloc: Global, words: usize) -> Result<Bits, AllocError>
        requires { words < 2 ^ 32 }
        ensures { IfOk result (λ b. b ≡ replicate (words * 64) false) }
    {
        let words = Vec::from_elem(alloc, 0, words)?;
        Ok(Bits { words })
    }

    /// Whether a place is marked.
    pub fn get(&self, i: usize) -> bool
        requires { i < length self.now }
        ensures { result ≡ slice_index_or self.now i false }
    {
        self.words[i / 64] >> (i % 64) & 1 == 1
    }

    /// Marks a place, or takes its mark away.
    pub fn set(&mut self, i: usize, mark: bool)
        requires { i < length self.old }
        ensures { self.new ≡ slice_set self.old i mark }
    {
        let word = self.words[i / 64];
        self.words[i / 64] = with_bit(word, i % 64, mark);
    }

    /// Marks so many places from one on, or takes their marks away.
    pub fn fill(&mut self, from: usize, count: usize, mark: bool)
        requires within { from + count ≤ length self.old }
        requires few { length self.old < 2 ^ 32 }
        ensures { self.new ≡ fill self.old from count mark }
    {
        for i in from..from + count {
            self.set(i, mark);
        }
    }

    /// The lowest number from `low` on, and below `end`, from which `count` places behind `base` aren't marked.
    pub fn lowest_clear(&self, base: usize, low: u16, end: u16, count: u16) -> Option<u16>
        requires within { base + end ≤ length self.now }
        requires few { length self.now < 2 ^ 32 }
        requires some { 0 < count }
        requires short { end ≤ 8192 }
        ensures { result ≡ chosen (λ k. slice_index_or self.now (base + k) false) low end count }
    {
        scan_clear(&self.words, base, low, end, count)
    }

    /// The lowest number from `low` on, and below `end`, whose place behind `base` is marked.
    pub fn lowest_marked(&self, base: usize, low: u16, end: u16) -> Option<u16>
        requires within { base + end ≤ length self.now }
        requires few { length self.now < 2 ^ 32 }
        requires short { end ≤ 8192 }
        ensures { result ≡ chosen (λ k. not (slice_index_or self.now (base + k) false)) low end 1 }
    {
        scan_marked(&self.words, base, low, end)
    }
}
