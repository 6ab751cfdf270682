// What gives bytes.
ghost use Rattle.std.specs.Prelude.{◌≤◌, length, List, ℕ, Option};
ghost use Rattle.o2_outer.specs.Answers.{Gives, TookAtMost, TookHasCause};
ghost use Rattle.o2_outer.specs.Inputs.{Past, Adds};

/// What a take came to.
#[derive(Clone, Copy, Debug, PartialEq, Eq)]
pub enum Took {
    /// So many bytes stand at the front of the slice.
    Done(usize),
    /// The slice holds anything, the bytes left are as before, and the count of faults rose.
    Failed,
}

/// Gives bytes, piece by piece. No call takes memory.
pub trait Source {
    /// The bytes left, where they are told.
    ghost left: { Self → Option (List ℕ) };

    /// The bytes that it has given, and whether it has ended. By these one that tells nothing is known, too.
    ghost past: { Self → Past };

    /// How often it has failed. One at 2^64 - 1 counts as risen at each call.
    ghost faults: { Self → ℕ };

    /// Fills a front of the slice, all of it unless the bytes end before; then it has ended, and gives nothing more.
    fn take(&mut self, into: &mut [u8]) -> Took
        ensures takes { Gives (left self.old) (left self.new) into.new result }
        ensures adds { Adds (past self.old) (past self.new) into.new result }
        ensures bounded { TookAtMost (length into.old) result }
        ensures count { faults self.old ≤ faults self.new }
        ensures cause { TookHasCause (faults self.old) (faults self.new) result };
}
