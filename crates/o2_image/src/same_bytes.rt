// Segments over the same bytes of the file, which have the same records.
ghost use Rattle.std.specs.Prelude.{◌≡◌, ◌+◌, ◌*◌, ◌<◌, IfSome};
ghost use Rattle.std.specs.List.{list_any};
ghost use Rattle.o2_ne_segs.specs.Records.{end_of, relocs_in};
ghost use Rattle.o2_image.specs.Alike.{is_alike, HasPart, Precedes};
ghost use Rattle.o2_image.specs.Whole.{HasSegment};

use crate::records::reloc_count;
use o2_ne_segs::Segment;

// Whether both have records, and the same bytes before them.
pub(crate) fn is_alike(a: &Segment, b: &Segment) -> bool
    ensures { result ≡ is_alike a.now b.now }
{
    a.relocs && b.relocs && a.file_at == b.file_at && a.file_len == b.file_len
}

// Whether one of these segments is alike.
pub(crate) fn is_any_alike(segments: &[Segment], segment: &Segment) -> bool
    ensures { result ≡ list_any (λ s. is_alike s segment.now) segments.now }
{
    segments.iter().any(|s| is_alike(s, segment))
}

// How many rows of eight bytes the records of a segment stand before those of another.
fn rows_between(a: &Segment, b: &Segment) -> Option<usize>
    ensures { IfSome result (λ n. end_of b.now ≡ end_of a.now + 8 * n) }
{
    let first = a.file_at as usize + a.file_len as usize;
    let second = b.file_at as usize + b.file_len as usize;
    let rows = second.saturating_sub(first) / 8;
    if first + 8 * rows != second {
        return None;
    }
    Some(rows)
}

// How many records of a segment stand in the file before those of another, where the last ones of the one are the first ones
// of the other.
pub(crate) fn records_before(file: &[u8], a: &Segment, b: &Segment) -> Option<u16>
    requires first { HasSegment file.now a.now }
    requires second { HasSegment file.now b.now }
    ensures { IfSome result (λ n. Precedes n (relocs_in file.now a.now) (relocs_in file.now b.now)) }
{
    let skip = rows_between(a, b)?;
    let many = usize::from(reloc_count(file, a));
    let more = usize::from(reloc_count(file, b));
    if skip >= many || skip + more < many {
        return None;
    }
    Some(skip as u16)
}

// How many records of a segment stand in the file before those of another, where it has all of these.
pub(crate) fn records_within(file: &[u8], a: &Segment, b: &Segment) -> Option<u16>
    requires first { HasSegment file.now a.now }
    requires second { HasSegment file.now b.now }
    ensures { IfSome result (λ n. HasPart n (relocs_in file.now a.now) (relocs_in file.now b.now)) }
{
    let skip = rows_between(a, b)?;
    let many = usize::from(reloc_count(file, a));
    let more = usize::from(reloc_count(file, b));
    if skip > many || skip + more > many {
        return None;
    }
    Some(skip as u16)
}
