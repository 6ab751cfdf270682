// What takes bytes.
ghost use Rattle.std.specs.Prelude.{◌≡◌, ◌≤◌, ◌+◌, List, ℕ, Option, Some};
ghost use Rattle.o2_outer.specs.Texts.{Rose};
ghost use Rattle.o2_outer.specs.Answers.{Takes, OnFailed};

/// What a put came to.
#[derive(Clone, Copy, Debug, PartialEq, Eq)]
pub enum Put {
    /// The whole piece was taken.
    Done,
    /// A front of the piece was taken, and the count of faults rose.
    Failed,
}

/// Takes bytes, piece by piece. No call takes memory.
pub trait Sink {
    /// The bytes taken, which each sink tells by the law `tells`; one that keeps none of them has a `Log`.
    ghost taken: { Self → Option (List ℕ) };

    /// How many pieces it was handed.
    ghost puts: { Self → ℕ };

    /// How often it has failed. One at 2^64 - 1 counts as risen at each call.
    ghost faults: { Self → ℕ };

    /// Takes a piece, or fails and takes a front of it.
    fn put(&mut self, piece: &[u8]) -> Put
        ensures takes { Takes (taken self.old) (taken self.new) piece.now result }
        ensures puts { puts self.new ≡ puts self.old + 1 }
        ensures count { faults self.old ≤ faults self.new }
        ensures cause { OnFailed result (Rose (faults self.old) (faults self.new)) };

    ghost tells: { (s : Self) → (bytes : List ℕ) × (taken s ≡ Some bytes) };
}
