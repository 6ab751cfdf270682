// The memory in the order of its bytes: ranges of segments, and what lies between them.
ghost use Rattle.std.specs.Prelude.{◌≡◌, ◌≤◌, ℕ, length, IfOk};
ghost use Rattle.os2core.specs.Adjoining.{Adjoin};

use o2_dump::{Place, SegmentEntry};
use std::alloc::{AllocError, Global};

/// A part of the memory.
#[derive(Clone, Copy)]
pub struct Span {
    /// Its first byte.
    pub from: u64,
    /// The byte behind its last one.
    pub to: u64,
    /// The number of the segment that has its bytes there, if one does.
    pub segment: Option<u32>,
}

/// The range of a segment in memory: its first byte, the byte behind its last one, and the segment's number.
type Range = (u64, u64, u32);

/// The ranges of segments, by their bases.
fn ranges(alloc: Global, segments: &[SegmentEntry]) -> Result<Vec<Range>, AllocError> {
    let mut ranges = Vec::new(alloc);
    for (number, entry) in segments.iter().enumerate() {
        if let Place::Memory(base) = &entry.place {
            let base = u64::from(*base);
            let end = base + (u64::from(entry.size) + 15) / 16 * 16;
            ranges.push((base, end, (number % 4_294_967_296) as u32))?;
        }
    }
    ranges.sort()?;
    Ok(ranges)
}

/// Adds what lies in front of a range, and the range, behind spans that end at `at`; the place behind them.
#[tactic(auto, using(crate::proofs::Adjoined::two_more))]
fn add(spans: &mut Vec<Span>, at: u64, range: &Range) -> Result<u64, AllocError>
    ensures { IfOk result (λ to. Adjoin 0 spans.old.items at → Adjoin 0 spans.new.items to) }
{
    let (base, end, segment) = *range;
    let from = base.max(at);
    let to = end.max(from);
    spans.push(Span {
        from: at,
        to: from,
        segment: None,
    })?;
    spans.push(Span {
        from,
        to,
        segment: Some(segment),
    })?;
    Ok(to)
}

/// The parts of a memory of this size, each from where the one before it ends; those between two ranges may be empty.
#[tactic(auto, using(crate::proofs::Adjoined::more))]
pub fn spans(alloc: Global, memory: u64, segments: &[SegmentEntry]) -> Result<Vec<Span>, AllocError>
    ensures { IfOk result (λ v. (to : ℕ) × (memory ≤ to) × Adjoin 0 v.items to) }
{
    let ranges = ranges(alloc, segments)?;
    let mut spans = Vec::new(alloc);
    let mut at = 0;
    for range in &ranges {
        at = add(&mut spans, at, range)?;
    }
    spans.push(Span {
        from: at,
        to: memory.max(at),
        segment: None,
    })?;
    Ok(spans)
}
