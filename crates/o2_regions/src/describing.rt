// The descriptors of those who hold a segment.
ghost use Rattle.std.specs.Prelude.{◌≡◌, ℕ, ◌*◌, ◌/◌, ◌%◌, ◌<◌, ◌≤◌, ◌^◌, [], length, None, if◌then◌else◌, slice_index_or, slice_set};
ghost use Rattle.o2_desc.specs.Bytes.{entry};
ghost use Rattle.o2_regions.specs.Described.{entry_in, placed};
ghost use Rattle.o2_regions.specs.Links.{AreNext};
ghost use Rattle.o2_regions.specs.Maps.{is_of};

use crate::Held;
use crate::accessed::Tables;
use crate::links::{head_of, is_held_as};
use crate::regions::pair_of;
use o2_desc::{Access, Descriptor};
use o2_place::SegId;

// A descriptor of a segment of this limit that is in memory from this base on, or that isn't.
fn placed(d: Descriptor, base: Option<u32>, limit: u16) -> Descriptor
    ensures { result ≡ placed base limit d }
{
    Descriptor {
        base: base.unwrap_or(0),
        limit,
        access: Access(d.access).with_present(base.is_some()).0,
    }
}

// Says at an index of a process's table where the segment is.
fn place_entry(tables: &mut Tables, pid: u16, index: u16, base: Option<u32>, limit: u16)
    requires pid { pid < length tables.old }
    requires few { length tables.old ≤ 65536 }
    requires index { index < 8192 }
    ensures { tables.new ≡ slice_set tables.old pid
        (slice_set (slice_index_or tables.old pid []) index
        (placed base limit (entry (slice_index_or tables.old pid []) index))) }
{
    let d = tables.entry(pid, index);
    tables.set_entry(pid, index, placed(d, base, limit));
}

/// Says in each descriptor under which a segment is held that it is there. All other ones stay.
pub(crate) fn describe(
    held: &[Option<Held>],
    next: &[u32],
    tables: &mut Tables,
    id: SegId,
    base: Option<u32>,
    limit: u16,
)
    requires few { length held.now < 2 ^ 29 }
    requires next { AreNext (length held.now) held.now next.now }
    requires tables { length held.now ≡ length tables.old * 8192 }
    ensures count { length tables.new ≡ length tables.old }
    ensures lengths { (pid : ℕ)
        → length (slice_index_or tables.new pid []) ≡ length (slice_index_or tables.old pid []) }
    ensures beyond { (pid i : ℕ) → 8192 ≤ i
        → entry (slice_index_or tables.new pid []) i ≡ entry (slice_index_or tables.old pid []) i }
    ensures entries { (p : ℕ) → p % 8192 < length (slice_index_or tables.old (p / 8192) [])
        → entry_in tables.new p ≡ (if is_of id (slice_index_or held.now p None)
        then placed base limit (entry_in tables.old p) else entry_in tables.old p) }
{
    let mut at = next[head_of(held.len(), id.key)] as usize;
    while at < held.len() {
        if is_held_as(held[at], id) {
            let (pid, index) = pair_of(at);
            place_entry(tables, pid, index, base, limit);
        }
        at = next[at] as usize;
    }
}
