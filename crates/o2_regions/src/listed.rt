// A list of places with room for so many.
ghost use Rattle.std.specs.Prelude.{◌≡◌, ◌⊎◌, ℕ, ◌<◌, ◌≤◌, true, false, None, IfSome};
ghost use Rattle.o2_regions.specs.Accessed.{Lists};

/// How many places a list has room for.
pub(crate) const LISTED: usize = 256;

/// A list of places, and whether there were more than it has room for.
#[derive(Clone, Copy, Debug, PartialEq, Eq)]
pub(crate) struct Listed {
    pub(crate) places: [u32; 256],
    pub(crate) count: usize,
    pub(crate) more: bool,
}

impl Listed {
    /// No place.
    pub(crate) fn new() -> Listed
        ensures count { result.count ≡ 0 }
        ensures all { result.more ≡ false }
    {
        Listed {
            places: [0; 256],
            count: 0,
            more: false,
        }
    }

    /// Adds a place, if there is room for it.
    pub(crate) fn add(&mut self, place: u32)
        requires few { self.old.count ≤ 256 }
        ensures few { self.new.count ≤ 256 }
        ensures has { Lists self.new place }
        ensures keeps { (p : ℕ) → Lists self.old p → Lists self.new p }
    {
        if self.count >= LISTED {
            self.more = true;
            return;
        }
        self.places[self.count] = place;
        self.count += 1;
    }

    /// Takes the last place out, and none exactly where there is none.
    pub(crate) fn take(&mut self) -> Option<u32>
        requires few { self.old.count ≤ 256 }
        ensures few { self.new.count ≤ 256 }
        ensures none { result ≡ None → (self.old.count ≡ 0) × (self.new ≡ self.old) }
        ensures some { IfSome result (λ place. (p : ℕ)
            → Lists self.old p → (p ≡ place) ⊎ Lists self.new p) }
    {
        if self.count == 0 {
            return None;
        }
        self.count -= 1;
        Some(self.places[self.count])
    }
}
