// The segments that a step needs in memory together.
ghost use Rattle.std.specs.Prelude.{◌≡◌, ◌<◌, ◌≤◌, ◌++◌, ◌∷◌, [], length, take, IfSome, true, false};
ghost use Rattle.std.specs.Option.{IfNone};
ghost use Rattle.o2_service.specs.Needs.{segments_of};

use o2_place::SegId;
use std::marker::Model;

/// How many segments a step needs at most.
pub const MOST: usize = 16;

/// The segments that a step needs in memory together, 16 at most, each with the size in bytes that it gets in the step, or 0.
/// Contracts see the list of these pairs.
#[derive(Debug, Drop)]
pub struct Need {
    pairs: [(SegId, u32); 16],
    // the segments of the pairs
    ids: [SegId; 16],
    count: usize,
}

impl Model for Need {
    ghost use Rattle.std.specs.Prelude.{◌≡◌, ℕ, List, ◌≤◌, take};
    ghost use Rattle.o2_place.specs.declared.seg_id.SegId.{SegId};
    ghost use Rattle.o2_service.specs.Needs.{segments_of};

    ghost Value = { List (SegId × ℕ) };

    ghost view = { λ n. take n.count n.pairs };

    ghost invariant = { λ n. (n.count ≤ 16) × (take n.count n.ids ≡ segments_of (take n.count n.pairs)) };
}

impl Need {
    /// These segments with these sizes, and none exactly where there are more than 16.
    pub fn new(ids: &[(SegId, u32)]) -> Option<Need>
        ensures none { IfNone result (16 < length ids.now) }
        ensures some { IfSome result (λ n. n ≡ ids.now) }
    {
        if ids.len() > MOST {
            return None;
        }
        let mut need = Need::none();
        for k in 0..ids.len() {
            let (id, size) = ids[k];
            need.add(id, size);
        }
        Some(need)
    }

    /// No segment.
    pub fn none() -> Need
        ensures { result ≡ [] }
    {
        let id = SegId { key: 0, age: 0 };
        Need {
            pairs: [(id, 0); 16],
            ids: [id; 16],
            count: 0,
        }
    }

    // One segment more.
    fn add(&mut self, id: SegId, size: u32)
        requires { length self.old < 16 }
        ensures { self.new ≡ self.old ++ (id, size) ∷ [] }
    {
        self.pairs[self.count] = (id, size);
        self.ids[self.count] = id;
        self.count += 1;
    }

    /// One segment more, with the size that it gets or 0. False exactly where there are 16 already.
    pub fn push(&mut self, id: SegId, size: u32) -> bool
        ensures full { result ≡ false → (length self.old ≡ 16) × (self.new ≡ self.old) }
        ensures pushed { result ≡ true → self.new ≡ self.old ++ (id, size) ∷ [] }
        ensures room { result ≡ true → length self.old < 16 }
    {
        if self.count >= MOST {
            return false;
        }
        self.add(id, size);
        true
    }

    /// The segments and the sizes that they get, in the order in which they came.
    pub fn pairs(&self) -> &[(SegId, u32)]
        ensures pairs { result.now ≡ self.now }
        ensures few { length self.now ≤ 16 }
    {
        &self.pairs[..self.count]
    }

    /// The segments, in the order in which they came.
    pub fn ids(&self) -> &[SegId]
        ensures { result.now ≡ segments_of self.now }
    {
        &self.ids[..self.count]
    }
}
