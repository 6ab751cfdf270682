// A few arguments of a line.
ghost use Rattle.std.specs.Prelude.{◌≡◌, ◌<◌, ◌≤◌, ◌++◌, ◌∷◌, [], length};

use o2_world::Argument;
use std::marker::Model;

/// Arguments of a line, six at most. Contracts see their list.
#[derive(Drop)]
pub(crate) struct Listed {
    all: [Argument; 6],
    count: usize,
}

impl Model for Listed {
    ghost use Rattle.std.specs.Prelude.{◌≤◌, List, take};
    ghost use Rattle.o2_world.specs.declared.types.Argument.{Argument};

    ghost Value = { List Argument };

    ghost view = { λ l. take l.count l.all };

    ghost invariant = { λ l. l.count ≤ 6 };
}

impl Listed {
    /// None.
    pub(crate) fn none() -> Listed
        ensures { result ≡ [] }
    {
        Listed {
            all: [Argument::Word(0); 6],
            count: 0,
        }
    }

    /// One more, behind the others.
    pub(crate) fn push(&mut self, argument: Argument)
        requires { length self.old < 6 }
        ensures { self.new ≡ self.old ++ argument ∷ [] }
    {
        self.all[self.count] = argument;
        self.count += 1;
    }

    /// All.
    pub(crate) fn as_slice(&self) -> &[Argument]
        ensures { result.now ≡ self.now }
    {
        &self.all[..self.count]
    }
}
