// What a sink was handed, or a source gave, for proofs alone.
ghost use Rattle.std.specs.Prelude.{◌≡◌, ◌+◌, List, ℕ, [], ◌++◌};
ghost use Rattle.std.specs.Borrow.{ftrue};

use std::marker::{Model, PhantomData};

/// The bytes that all puts took or all takes gave, and how many there were. When the program runs it takes no room, and its calls do
/// nothing.
#[derive(Drop)]
pub struct Log {
    marker: PhantomData<u8>,
    pub ghost bytes: { List ℕ },
    pub ghost puts: { ℕ },
}

impl Model for Log {
    ghost also_owns = { λ _. ftrue };
}

impl Log {
    /// None yet.
    pub fn new() -> Log
        ensures { (result.bytes ≡ []) × (result.puts ≡ 0) }
    {
        Log {
            marker: PhantomData,
        }
    }

    /// One more, of these bytes.
    pub fn note(&mut self, _taken: &[u8])
        ensures { (self.new.bytes ≡ self.old.bytes ++ _taken.now) × (self.new.puts ≡ self.old.puts + 1) }
    {}
}
