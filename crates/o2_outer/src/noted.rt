// What was done with the blocks of a file.
ghost use Rattle.std.specs.Prelude.{◌≡◌, ◌<◌, ◌∷◌, ℕ, [], true, false, slice_index_or, nat_eq};
ghost use Rattle.o2_outer.specs.Accesses.{is_known, content};
ghost use Rattle.o2_outer.specs.Sums.{block_sum};
ghost use Rattle.o2_outer.specs.declared.access.Access.TheVariants.{Read, Written, Lost};

use crate::access::Access;
use crate::history::History;
use crate::sums::sum_of;

/// What was done with each of 65,536 blocks, for proofs, and which are known: they were written, and no write of them has failed since. Of
/// these it has the sum of what was written last.
#[derive(Drop)]
pub(crate) struct Noted {
    known: [bool; 65536],
    sums: [u64; 65536],
    pub(crate) history: History<u32, Access, [u8; 512]>,
    ghost marks: { (b : ℕ) → b < 65536 → slice_index_or known b false ≡ is_known history.items b },
    ghost summed: { (b : ℕ) → b < 65536 → is_known history.items b ≡ true
        → slice_index_or sums b 0 ≡ block_sum (content history.items b) },
}

impl Noted {
    /// Nothing was done.
    pub(crate) fn new() -> Noted
        ensures { result.history.items ≡ [] }
    {
        Noted {
            known: [false; 65536],
            sums: [0; 65536],
            history: History::new(),
        }
    }

    /// Whether a block is known.
    pub(crate) fn knows(&self, i: u32) -> bool
        requires { i < 65536 }
        ensures { result ≡ is_known self.now.history.items i }
    {
        self.known[i as usize]
    }

    /// Whether these bytes have the sum of what was written last to a block that is known.
    pub(crate) fn agrees(&self, i: u32, bytes: &[u8; 512]) -> bool
        requires block { i < 65536 }
        requires known { is_known self.now.history.items i ≡ true }
        ensures { result ≡ nat_eq (block_sum (content self.now.history.items i)) (block_sum bytes.now) }
    {
        self.sums[i as usize] == sum_of(bytes)
    }

    /// How many blocks from one on are known, of 16 at most.
    pub(crate) fn known_from(&self, i: u32) -> u32
        requires { i < 65536 }
    {
        for b in i..i + 16 {
            if b >= 65536 || !self.knows(b) {
                return b - i;
            }
        }
        16
    }

    /// A block was read.
    pub(crate) fn read(&mut self, i: u32, bytes: &[u8; 512])
        ensures { self.new.history.items ≡ (i, (Read, bytes.now)) ∷ self.old.history.items }
    {
        self.history = self.history.and(&i, &Access::Read, bytes);
    }

    /// A block was written.
    pub(crate) fn written(&mut self, i: u32, bytes: &[u8; 512])
        requires { i < 65536 }
        ensures { self.new.history.items ≡ (i, (Written, bytes.now)) ∷ self.old.history.items }
    {
        self.known[i as usize] = true;
        self.sums[i as usize] = sum_of(bytes);
        self.history = self.history.and(&i, &Access::Written, bytes);
    }

    /// A write of a block failed.
    pub(crate) fn lost(&mut self, i: u32, bytes: &[u8; 512])
        requires { i < 65536 }
        ensures { self.new.history.items ≡ (i, (Lost, bytes.now)) ∷ self.old.history.items }
    {
        self.known[i as usize] = false;
        self.history = self.history.and(&i, &Access::Lost, bytes);
    }
}
