// Blocks of a file that follow one another, in memory.
ghost use Rattle.std.specs.Prelude.{◌≡◌, ◌≤◌, ◌<◌, ◌+◌, ◌-◌, ◌*◌, List, ℕ, IfSome, true, false, take, drop, length};
ghost use Rattle.std.specs.Option.{IfNone};
ghost use Rattle.o2_outer.specs.Windows.{with_bytes, Has, KeepOthers, IsFilled};

use crate::reading::read_on;
use std::io::Read;

/// How many blocks there are at most.
const MOST: u32 = 16;

/// How many bytes a block has.
const BLOCK: usize = 512;

/// Blocks that follow one another, at most 16: read ahead of their use, or written and not in the file yet.
#[derive(Drop)]
pub(crate) struct Window {
    bytes: [u8; 8192],
    first: u32,
    len: u32,
    waits: bool,
    ghost few: { len ≤ 16 },
}

// How many bytes so many blocks have, and none where they are too many.
fn bytes_of(count: u32) -> usize
    ensures { result ≤ 8192 }
{
    if count > MOST {
        return 0;
    }
    count as usize * BLOCK
}

// The 512 bytes from a place on.
fn copy_block(bytes: &[u8], at: usize, into: &mut [u8; 512])
    requires { at + 512 ≤ length bytes.now }
    ensures { into.new ≡ take 512 (drop at bytes.now) }
{
    into.copy_from_slice(&bytes[at..at + BLOCK]);
}

impl Window {
    /// No blocks.
    pub(crate) fn new() -> Window {
        Window {
            bytes: [0; 8192],
            first: 0,
            len: 0,
            waits: false,
        }
    }

    /// The first of them.
    pub(crate) fn first(&self) -> u32
        ensures { result ≡ self.now.first }
    {
        self.first
    }

    /// Whether they aren't in the file yet.
    pub(crate) fn waits(&self) -> bool
        ensures { result ≡ self.now.waits }
    {
        self.waits
    }

    /// They are in the file.
    pub(crate) fn settle(&mut self)
        ensures bytes { self.new.bytes ≡ self.old.bytes }
        ensures place { (self.new.first ≡ self.old.first) × (self.new.len ≡ self.old.len) }
        ensures done { self.new.waits ≡ false }
    {
        self.waits = false;
    }

    /// All their bytes.
    pub(crate) fn bytes(&self) -> &[u8]
        ensures { result.now ≡ take (512 * self.now.len) self.now.bytes }
    {
        &self.bytes[..self.len as usize * BLOCK]
    }

    // Where a block lies, if it is one of them.
    fn place(&self, i: u32) -> Option<usize>
        ensures some { IfSome result (λ at. (at ≡ 512 * (i - self.now.first)) × (self.now.first ≤ i) × (i - self.now.first < self.now.len)) }
        ensures within { IfSome result (λ at. at + 512 ≤ 8192) }
        ensures none { IfNone result (self.now.first ≤ i → self.now.len ≤ i - self.now.first) }
    {
        if i < self.first || i - self.first >= self.len {
            return None;
        }
        Some((i - self.first) as usize * BLOCK)
    }

    /// Gives a block, if it is one of them.
    #[tactic(auto, using(crate::proofs::Windows::got))]
    pub(crate) fn get(&self, i: u32, into: &mut [u8; 512]) -> bool
        ensures given { result ≡ true → Has self.now.bytes self.now.first self.now.len i into.new }
        ensures none { result ≡ false → (block : List ℕ) → Has self.now.bytes self.now.first self.now.len i block → ⊥ }
    {
        let Some(at) = self.place(i) else {
            return false;
        };
        copy_block(&self.bytes, at, into);
        true
    }

    // These bytes stand from a place on.
    fn put(&mut self, at: usize, from: &[u8; 512])
        requires { at + 512 ≤ 8192 }
        ensures bytes { self.new.bytes ≡ with_bytes self.old.bytes at from.now }
        ensures place { (self.new.first ≡ self.old.first) × (self.new.len ≡ self.old.len) }
        ensures waits { self.new.waits ≡ self.old.waits }
    {
        self.bytes[at..at + BLOCK].copy_from_slice(from);
    }

    // One more behind the last one, if it follows it and there is room.
    fn append(&mut self, i: u32, from: &[u8; 512]) -> bool
        ensures there { result ≡ true → Has self.new.bytes self.new.first self.new.len i from.now }
        ensures others { result ≡ true → KeepOthers self.old.bytes self.old.len self.new.bytes self.new.len self.old.first i }
        ensures first { (self.new.first ≡ self.old.first) × (self.new.waits ≡ self.old.waits) }
        ensures none { result ≡ false → (self.new.bytes ≡ self.old.bytes) × (self.new.len ≡ self.old.len) }
    {
        if i < self.first || i - self.first != self.len || self.len >= MOST {
            return false;
        }
        let behind = self.len as usize * BLOCK;
        self.put(behind, from);
        self.len += 1;
        true
    }

    /// Has a block wait that is one of those that wait, or that follows them where there is room.
    #[tactic(auto, using(crate::proofs::Windows::put_there, crate::proofs::Windows::over_apart))]
    pub(crate) fn add(&mut self, i: u32, from: &[u8; 512]) -> bool
        ensures there { result ≡ true → Has self.new.bytes self.new.first self.new.len i from.now }
        ensures others { result ≡ true → KeepOthers self.old.bytes self.old.len self.new.bytes self.new.len self.old.first i }
        ensures first { (self.new.first ≡ self.old.first) × (self.new.waits ≡ self.old.waits) }
        ensures waits { result ≡ true → self.old.waits ≡ true }
        ensures none { result ≡ false → (self.new.bytes ≡ self.old.bytes) × (self.new.len ≡ self.old.len) }
    {
        if !self.waits {
            return false;
        }
        let Some(at) = self.place(i) else {
            return self.append(i, from);
        };
        self.put(at, from);
        true
    }

    /// Has this block wait, and no other one, where none waits.
    #[tactic(auto, using(crate::proofs::Windows::first_there))]
    pub(crate) fn begin(&mut self, i: u32, from: &[u8; 512])
        requires { self.old.waits ≡ false }
        ensures there { Has self.new.bytes self.new.first self.new.len i from.now }
        ensures one { (self.new.first ≡ i) × (self.new.len ≡ 1) }
        ensures waits { self.new.waits ≡ true }
    {
        self.put(0, from);
        self.first = i;
        self.len = 1;
        self.waits = true;
    }

    /// Reads so many blocks from one on, at most 16, as far as they are there, and none where a read fails; none waits.
    pub(crate) fn fill<R: Read>(&mut self, reader: &mut R, i: u32, count: u32)
        requires { self.old.waits ≡ false }
        ensures waits { self.new.waits ≡ false }
        ensures read { IsFilled (R.remaining reader.old) (R.remaining reader.new) i self.new.bytes self.new.first self.new.len }
    {
        let wanted = bytes_of(count);
        self.len = 0;
        let (held, whole) = read_on(reader, &mut self.bytes, 0, wanted);
        if whole {
            self.first = i;
            self.len = (held / BLOCK) as u32;
        }
    }
}
