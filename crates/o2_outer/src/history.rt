// What happened so far, for proofs alone.
ghost use Rattle.std.specs.Prelude.{◌≡◌, List, [], ◌∷◌};
ghost use Rattle.std.specs.Borrow.{ftrue};

use std::marker::{Model, PhantomData};

/// What happened so far, the last first, each as three values. When the program runs it takes no room, and its calls do nothing.
#[derive(Drop)]
pub struct History<A, B, C> {
    of: PhantomData<(A, B, C)>,
    pub ghost items: { List (A × (B × C)) },
}

impl<A, B, C> Model for History<A, B, C> {
    ghost also_owns = { λ _. ftrue };
}

impl<A, B, C> History<A, B, C> {
    /// Nothing yet.
    pub fn new() -> History<A, B, C>
        ensures { result.items ≡ [] }
    {
        History { of: PhantomData }
    }

    /// The same with this behind it.
    pub fn and(&self, _first: &A, _second: &B, _third: &C) -> History<A, B, C>
        ensures { result.items ≡ (_first.now, (_second.now, _third.now)) ∷ self.now.items }
    {
        History { of: PhantomData }
    }
}
