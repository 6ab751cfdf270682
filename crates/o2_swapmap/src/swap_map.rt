// Which blocks of the swap device belong to whom.
ghost use Rattle.std.specs.Prelude.{◌≡◌, ◌≢◌, ℕ, ◌+◌, ◌-◌, ◌<◌, ◌≤◌, ◌^◌, [], length, IfOk, slice_get, slice_index, take};
ghost use Rattle.std.specs.Option.{IfNone, OnSome};
ghost use Rattle.o2_swapmap.specs.Piles.{blocks_of, free, NoneTwice, OnlyOf, IsStep, all_of};

use crate::piles::{Block, Pile, first_piles, free_blocks, list_out, move_one, walk};
use o2_base::NoMemory;
use std::alloc::Global;
use std::marker::Model;

/// Which blocks belong to which owner, in order. Contracts see it as the list of the blocks of each owner, with the list of
/// the free ones behind them. No block stands twice.
#[derive(Debug, Drop)]
pub struct SwapMap {
    blocks: Vec<Block>,
    piles: Vec<Pile>,
}

impl Model for SwapMap {
    ghost use Rattle.std.specs.Prelude.{◌-◌, length};
    ghost use Rattle.o2_swapmap.specs.Piles.{Blocks, lists_of, IsMap};

    ghost Value = { Blocks };

    ghost view = { λ m. record { lists = lists_of m.blocks.items m.piles.items; most = length m.piles.items - 1 } };

    ghost invariant = { λ m. IsMap m.blocks.items m.piles.items };
}

impl SwapMap {
    /// A map of so many blocks, at most 65,536, for the owners below `most`. Every block is free.
    pub fn new(alloc: Global, blocks: u32, most: u32) -> Result<SwapMap, NoMemory>
        requires small { blocks ≤ 65536 }
        requires few { most < 2 ^ 32 - 1 }
        ensures empty { IfOk result (λ m. (k : ℕ) → k < most → blocks_of m k ≡ []) }
        ensures free { IfOk result (λ m. length (free m) ≡ blocks) }
        ensures most { IfOk result (λ m. m.most ≡ most) }
        ensures all { IfOk result (λ m. all_of m ≡ blocks) }
    {
        let all = free_blocks(alloc, blocks, most)?;
        let piles = first_piles(alloc, blocks, most)?;
        Ok(SwapMap { blocks: all, piles })
    }

    /// Gives an owner `n` free blocks more, behind those that it has. None exactly where fewer are free, and then nothing
    /// changes.
    pub fn take(&mut self, id: u32, n: u32) -> Option<()>
        requires { id < self.old.most }
        ensures none { IfNone result ((length (free self.old) < n) × (self.new ≡ self.old)) }
        ensures enough { OnSome result (n ≤ length (free self.old)) }
        ensures only { OnlyOf id self.old self.new }
        ensures bound { (length (blocks_of self.old id) ≤ length (blocks_of self.new id)) × (length (blocks_of self.new id) ≤ length (blocks_of self.old id) + n) }
        ensures added { OnSome result ((length (blocks_of self.new id) ≡ length (blocks_of self.old id) + n) × (take (length (blocks_of self.old id)) (blocks_of self.new id) ≡ blocks_of self.old id)) }
    {
        let spare = self.most();
        if self.count(spare) < n {
            return None;
        }
        for _ in 0..n {
            self.step(spare, id as usize);
        }
        Some(())
    }

    /// How many owners there may be.
    pub fn most(&self) -> usize
        ensures { result ≡ self.now.most }
    {
        self.piles.len() - 1
    }

    /// How many blocks an owner has.
    pub fn count(&self, id: usize) -> u32
        requires { id ≤ self.now.most }
        ensures { result ≡ length (blocks_of self.now id) }
    {
        self.piles[id].count
    }

    // The last block of one owner goes behind those of another.
    fn step(&mut self, from: usize, to: usize)
        requires from_in { from ≤ self.old.most }
        requires to_in { to ≤ self.old.most }
        requires apart { from ≢ to }
        requires some { 0 < length (blocks_of self.old from) }
        ensures moved { IsStep from to self.old self.new }
    {
        move_one(&mut self.blocks, &mut self.piles, from, to);
    }

    /// Leaves an owner its first `keep` blocks, and frees the others.
    pub fn give(&mut self, id: u32, keep: u32)
        requires { id < self.old.most }
        ensures only { OnlyOf id self.old self.new }
        ensures kept { blocks_of self.new id ≡ take keep (blocks_of self.old id) }
    {
        let spare = self.most();
        while self.count(id as usize) > keep {
            self.step(id as usize, spare);
        }
    }

    /// The k-th block of an owner from 0, and none exactly where it has at most k.
    pub fn nth(&self, id: u32, k: u32) -> Option<u32>
        requires { id < self.now.most }
        ensures { result ≡ slice_get (blocks_of self.now id) k }
    {
        let pile = self.piles[id as usize];
        if k >= pile.count {
            return None;
        }
        Some(walk(&self.blocks, id, pile.top, pile.count, k))
    }

    /// The k-th block of an owner that has so many.
    pub fn block(&self, id: u32, k: u32) -> u32
        requires id { id < self.now.most }
        requires within { k < length (blocks_of self.now id) }
        ensures value { result ≡ slice_index (blocks_of self.now id) k }
        ensures below { result < all_of self.now }
    {
        self.none_twice();
        match self.nth(id, k) {
            Some(block) => block,
            None => 0,
        }
    }

    /// Writes the blocks of an owner, in order, into the front of a list that has room for them, in one walk. The answer is
    /// how many they are.
    pub fn list(&self, id: u32, into: &mut [u32]) -> usize
        requires id { id < self.now.most }
        requires room { length (blocks_of self.now id) ≤ length into.old }
        ensures count { result ≡ length (blocks_of self.now id) }
        ensures blocks { (k : ℕ) → k < length (blocks_of self.now id) → slice_index into.new k ≡ slice_index (blocks_of self.now id) k }
        ensures below { (k : ℕ) → k < length (blocks_of self.now id) → slice_index into.new k < all_of self.now }
        ensures length { length into.new ≡ length into.old }
    {
        self.none_twice();
        let pile = self.piles[id as usize];
        list_out(&self.blocks, id, pile.top, pile.count, into);
        pile.count as usize
    }

    /// How many blocks have an owner.
    pub fn taken(&self) -> u32
        ensures { result + length (free self.now) ≡ all_of self.now }
    {
        let spare = self.most();
        self.blocks.len() as u32 - self.count(spare)
    }

    /// What holds of the map at any time: no block stands twice, with one owner or with two, each is below the number of
    /// blocks, and there is a list for each owner and one for the free blocks.
    pub fn none_twice(&self)
        ensures twice { NoneTwice self.now }
        ensures below { (i k : ℕ) → k < length (blocks_of self.now i) → slice_index (blocks_of self.now i) k < all_of self.now }
        ensures long { length self.now.lists ≡ self.now.most + 1 }
    {
        let _ = &self.blocks;
    }
}
