// Files by name.
ghost use Rattle.std.specs.Prelude.{◌≡◌, ◌≤◌, ◌++◌, ◌∷◌, [], List, ℕ, Option};
ghost use Rattle.o2_outer.specs.Answers.{Answers, IsBounded, FetchHasCause};

use o2_base::Bytes;
use std::alloc::Global;

/// What a fetch came to.
#[derive(Debug, Drop)]
pub enum Fetch {
    /// The file's bytes.
    Got(Bytes),
    /// There is no file of this name.
    NoFile,
    /// The file has more bytes than were asked for at most.
    TooLong,
    /// The count of faults rose.
    Failed,
    /// Memory was wanted and not given.
    NoMemory,
}

/// Files by name.
pub trait Files {
    /// What may be there under each name: what each fetch so far came to is what it comes to over these.
    ghost may_hold: { Self → (List ℕ → Option (List ℕ)) → Type 0 };

    /// Which names were asked for so far, in their order, whatever came of it.
    ghost asked: { Self → List (List ℕ) };

    /// How often it has failed. One at 2^64 - 1 counts as risen at each call.
    ghost faults: { Self → ℕ };

    /// The bytes of a file, `most` at most.
    fn fetch(&mut self, alloc: Global, name: &Bytes, most: u32) -> Fetch
        ensures answers { (files : List ℕ → Option (List ℕ)) → may_hold self.new files → Answers files name.now most result }
        ensures bounded { IsBounded most result }
        ensures earlier { (files : List ℕ → Option (List ℕ)) → may_hold self.new files → may_hold self.old files }
        ensures asked { asked self.new ≡ asked self.old ++ name.now ∷ [] }
        ensures count { faults self.old ≤ faults self.new }
        ensures cause { FetchHasCause (faults self.old) (faults self.new) result };
}
