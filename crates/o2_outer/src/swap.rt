// A device of blocks.
ghost use Rattle.std.specs.Prelude.{◌≡◌, ◌≢◌, ◌<◌, ◌++◌, ◌∷◌, [], Bool, IsTrue, List, ℕ, filter, replicate, true, false};
ghost use Rattle.o2_outer.specs.Answers.{HasCause};

/// What a call of a device came to.
#[derive(Clone, Copy, Debug, PartialEq, Eq)]
pub enum Dev {
    /// It was done.
    Done,
    /// The count of faults rose.
    Failed,
}

/// A device of blocks of 512 bytes. No call takes memory.
pub trait SwapDevice {
    /// How many blocks it has. The number never changes.
    ghost blocks: { Self → ℕ };

    /// Whether each read so far gave what its block held. Where it is so at the end of a call, it was so before it.
    ghost told: { Self → Bool };

    /// What a block holds, which is what was written last.
    ghost block: { Self → ℕ → List ℕ };

    /// Which blocks may be read: a write that is done makes a block known, and one that fails may leave it unknown.
    ghost known: { Self → ℕ → Bool };

    /// Which blocks it was asked for so far, in their order, whether it gave them or failed.
    ghost asked: { Self → List ℕ };

    /// How often it has failed. One at 2^64 - 1 counts as risen at each call.
    ghost faults: { Self → ℕ };

    /// How many blocks it has.
    fn count(&self) -> u32
        ensures { result ≡ blocks self.now };

    /// Whether a block may be read. One that may not holds zeros.
    fn knows(&self, i: u32) -> bool
        requires { i < blocks self.now }
        ensures known { result ≡ known self.now i }
        ensures zeros { result ≡ false → block self.now i ≡ replicate 512 0 };

    /// Reads a block that was written. A fault changes none.
    fn read(&mut self, i: u32, into: &mut [u8; 512]) -> Dev
        requires block { i < blocks self.old }
        requires known { known self.old i ≡ true }
        ensures blocks { blocks self.new ≡ blocks self.old }
        ensures earlier { IsTrue (told self.new) → IsTrue (told self.old) }
        ensures same { IsTrue (told self.new) → (b : ℕ) → block self.new b ≡ block self.old b }
        ensures read { IsTrue (told self.new) → result ≡ Dev.Done → into.new ≡ block self.old i }
        ensures knows { (b : ℕ) → known self.new b ≡ known self.old b }
        ensures asked { asked self.new ≡ asked self.old ++ i ∷ [] }
        ensures cause { HasCause (faults self.old) (faults self.new) result };

    /// Writes a block. A fault leaves this block unknown, and no other.
    fn write(&mut self, i: u32, from: &[u8; 512]) -> Dev
        requires { i < blocks self.old }
        ensures blocks { blocks self.new ≡ blocks self.old }
        ensures earlier { IsTrue (told self.new) → IsTrue (told self.old) }
        ensures others { IsTrue (told self.new) → (b : ℕ) → b ≢ i → block self.new b ≡ block self.old b }
        ensures written { IsTrue (told self.new) → result ≡ Dev.Done → block self.new i ≡ from.now }
        ensures known { result ≡ Dev.Done → known self.new i ≡ true }
        ensures knows { (b : ℕ) → b ≢ i → known self.new b ≡ known self.old b }
        ensures unasked { asked self.new ≡ asked self.old }
        ensures cause { HasCause (faults self.old) (faults self.new) result };
}

/// Gives what a block holds: as the device reads it, and zeros where it isn't known.
pub fn read_block<S: SwapDevice>(i: u32, into: &mut [u8; 512], swap: &mut S) -> Dev
    requires { i < S.blocks swap.old }
    ensures blocks { S.blocks swap.new ≡ S.blocks swap.old }
    ensures earlier { IsTrue (S.told swap.new) → IsTrue (S.told swap.old) }
    ensures same { IsTrue (S.told swap.new) → (b : ℕ) → S.block swap.new b ≡ S.block swap.old b }
    ensures read { IsTrue (S.told swap.new) → result ≡ Dev.Done → into.new ≡ S.block swap.old i }
    ensures knows { (b : ℕ) → S.known swap.new b ≡ S.known swap.old b }
    ensures asked { S.asked swap.new ≡ S.asked swap.old ++ filter (S.known swap.old) (i ∷ []) }
    ensures cause { HasCause (S.faults swap.old) (S.faults swap.new) result }
{
    if swap.knows(i) {
        return swap.read(i, into);
    }
    *into = [0; 512];
    Dev::Done
}
