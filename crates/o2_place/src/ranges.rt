// Walks over ranges by rising place.
ghost use Rattle.std.specs.Prelude.{◌≡◌, ℕ, ◌+◌, ◌<◌, ◌≤◌, length, slice_index_or};
ghost use Rattle.std.specs.List.{insert};
ghost use Rattle.std.specs.Vec.{vec_capacity};
ghost use Rattle.o2_place.specs.declared.ranges.Range.{Range};
ghost use Rattle.o2_place.specs.Layout.{AreLaid, IsLowestFrom};

/// The range of an id.
#[derive(Clone, Copy, Debug, PartialEq, Eq)]
pub struct Range {
    /// Whose range it is.
    pub id: u32,
    /// Its first byte's place.
    pub at: u32,
    /// How many bytes it has, at least 1.
    pub len: u32,
}

/// The lowest place with so many bytes that are in no range.
pub(crate) fn lowest_free(ranges: &[Range], size: u32, len: u32) -> Option<u32>
    requires { AreLaid 0 size ranges.now }
    ensures { IsLowestFrom 0 size len ranges.now result }
{
    let mut low = 0;
    for r in ranges {
        if r.at - low >= len {
            return Some(low);
        }
        low = r.at + r.len;
    }
    if size - low >= len { Some(low) } else { None }
}

/// How many ranges begin below a place.
pub(crate) fn slot_for(ranges: &[Range], size: u32, at: u32) -> usize
    requires { AreLaid 0 size ranges.now }
    ensures within { result ≤ length ranges.now }
    ensures before { (k : ℕ) (d : Range) → k < result → (slice_index_or ranges.now k d).at < at }
    ensures after { (k : ℕ) (d : Range) → result ≤ k → k < length ranges.now → at ≤ (slice_index_or ranges.now k d).at }
{
    ranges.partition_point(|r| r.at < at)
}

/// Writes a range into a vector that has room for it.
pub(crate) fn insert_at(ranges: &mut Vec<Range>, i: usize, range: Range)
    requires within { i ≤ length ranges.old.items }
    requires room { length ranges.old.items < vec_capacity ranges.old }
    ensures items { ranges.new.items ≡ insert ranges.old.items i range }
    ensures capacity { vec_capacity ranges.old ≤ vec_capacity ranges.new }
{
    let _ = ranges.insert(i, range);
}
