//! Physical memory: one list of bytes, in which ranges are read, written and slid. It takes all its memory when it is
//! made.
#![tactic(auto)]

ghost use Rattle.std.specs.Prelude.{◌≡◌, ◌+◌, ◌≤◌, length, IfOk, replicate};
ghost use Rattle.std.specs.Borrow.{sem};
ghost use Rattle.o2_phys.specs.Bytes.{part, with_part};
ghost use Rattle.o2_phys.specs.Lending.{LendsPart};

use o2_base::NoMemory;
use std::alloc::Global;
use std::marker::Model;

/// The physical memory. Contracts see it as the list of its bytes, by rising address.
#[derive(Debug, Drop)]
pub struct Phys {
    mem: Vec<u8>,
}

impl Model for Phys {
    ghost use Rattle.std.specs.Prelude.{ℕ, List};

    ghost Value = { List ℕ };

    ghost view = { λ p. p.mem.items };
}

impl Phys {
    /// A memory of so many bytes, each of them zero.
    pub fn new(alloc: Global, size: u32) -> Result<Phys, NoMemory>
        ensures { IfOk result (λ p. p ≡ replicate size 0) }
    {
        let mem = Vec::from_elem(alloc, 0u8, size as usize)?;
        Ok(Phys { mem })
    }

    /// All bytes.
    pub fn whole(&self) -> &[u8]
        ensures { result.now ≡ self.now }
    {
        self.mem.as_slice()
    }

    /// The `len` bytes from address `at` on, a range that lies inside.
    pub fn bytes(&self, at: u32, len: u32) -> &[u8]
        requires { at + len ≤ length self.now }
        ensures { result.now ≡ part self.now at len }
    {
        &self.mem[at as usize..at as usize + len as usize]
    }

    /// The `len` bytes from address `at` on, a range that lies inside, to be written.
    pub fn bytes_mut(&mut self, at: u32, len: u32) -> &mut [u8]
        requires { at + len ≤ length self.old }
        ensures* writes_back { sem 𝓛 (LendsPart self.entry at result) }
        ensures value { result.now ≡ part self.old at len }
    {
        self.mem.slice_mut(at as usize..at as usize + len as usize)
    }

    /// Writes these bytes from address `at` on, in a range that lies inside.
    pub fn write(&mut self, at: u32, bytes: &[u8])
        requires { at + length bytes.now ≤ length self.old }
        ensures written { self.new ≡ with_part self.old at bytes.now }
        ensures size { length self.new ≡ length self.old }
    {
        self.mem[at as usize..at as usize + bytes.len()].copy_from_slice(bytes);
    }

    /// Writes `len` zeros from address `at` on, in a range that lies inside.
    pub fn clear(&mut self, at: u32, len: u32)
        requires { at + len ≤ length self.old }
        ensures cleared { self.new ≡ with_part self.old at (replicate len 0) }
        ensures size { length self.new ≡ length self.old }
    {
        self.mem[at as usize..at as usize + len as usize].fill(0);
    }

    /// Copies the `len` bytes from address `from` on to those from `to` on. Both ranges lie inside, and they may overlap
    /// in either direction. All bytes outside the target stay.
    pub fn slide(&mut self, from: u32, to: u32, len: u32)
        requires from_inside { from + len ≤ length self.old }
        requires to_inside { to + len ≤ length self.old }
        ensures slid { self.new ≡ with_part self.old to (part self.old from len) }
        ensures size { length self.new ≡ length self.old }
    {
        move_part(&mut self.mem, from as usize, to as usize, len as usize);
    }
}

// Goes up where the target lies below the source, and down otherwise, so that no byte is written before it is read.
fn move_part(mem: &mut [u8], from: usize, to: usize, len: usize)
    requires from_in { from + len ≤ length mem.old }
    requires to_in { to + len ≤ length mem.old }
    ensures { mem.new ≡ with_part mem.old to (part mem.old from len) }
{
    if to < from {
        for i in 0..len {
            mem[to + i] = mem[from + i];
        }
    } else {
        for j in (0..len).rev() {
            mem[to + j] = mem[from + j];
        }
    }
}
