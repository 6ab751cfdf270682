// The law of the choice of an index.
ghost use Rattle.std.specs.Prelude.{◌≡◌, ℕ, Bool, Option};
ghost use Rattle.o2_desc.specs.Choice.{IsChosen, chosen};

/// What is chosen is the lowest run of the region that isn't taken, or none where there is none; and nothing else is.
pub fn choice_is_exact()
    ensures lowest { (taken : ℕ → Bool) (low end n : ℕ) → IsChosen taken low end n (chosen taken low end n) }
    ensures once { (taken : ℕ → Bool) (low end n : ℕ) (r : Option ℕ) → IsChosen taken low end n r → r ≡ chosen taken low end n }
{}
