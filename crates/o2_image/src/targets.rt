// Which source types records have, and where they lead.
ghost use Rattle.std.specs.Prelude.{◌≡◌, ◌≢◌, ◌+◌, ◌≤◌, length};
ghost use Rattle.o2_image.specs.Targets.{has_internal, has_name, has_reference, has_target, is_additive, is_fixup, is_source, target_kind, width_of};

use crate::references::{has_string, imported_place};
use o2_ne::{Entries, Head};
use o2_ne_segs::Reloc;

// Whether there is such a source type.
pub(crate) fn is_source(source: u8) -> bool
    ensures { result ≡ is_source source }
{
    source == 0 || source == 2 || source == 3 || source == 5
}

// How many bytes are patched at a place.
pub(crate) fn width_of(source: u8) -> u8
    ensures value { result ≡ width_of source }
    ensures wide { source ≢ 0 → 2 ≤ result }
    ensures small { result ≤ 4 }
{
    match source {
        0 => 1,
        3 => 4,
        _ => 2,
    }
}

// 0 internal, 1 an import by ordinal, 2 an import by name, 3 a system fixup.
pub(crate) fn target_kind(reloc: &Reloc) -> u8
    ensures { result ≡ target_kind reloc.now }
{
    reloc.flags & 3
}

// Whether it is a system fixup, which has no places.
pub(crate) fn is_fixup(reloc: &Reloc) -> bool
    ensures { result ≡ is_fixup reloc.now }
{
    reloc.flags & 3 == 3
}

// Whether what the file holds at its place is added.
pub(crate) fn is_additive(reloc: &Reloc) -> bool
    ensures { result ≡ is_additive reloc.now }
{
    reloc.flags & 4 != 0
}

// Whether there is such a segment, or such an entry.
fn has_internal(head: &Head, entries: &Entries, reloc: &Reloc) -> bool
    ensures { result ≡ has_internal head.now entries.now reloc.now }
{
    let segment = reloc.first % 256;
    if segment == 255 {
        return entries.get(reloc.second).is_some();
    }
    segment >= 1 && segment <= head.segments
}

// Whether there is such a reference.
fn has_reference(head: &Head, reloc: &Reloc) -> bool
    ensures { result ≡ has_reference head.now reloc.now }
{
    reloc.first >= 1 && reloc.first <= head.references
}

// Whether there is such a reference and such a name.
fn has_name(file: &[u8], head: &Head, reloc: &Reloc) -> bool
    requires small { length file.now ≤ 4194304 }
    requires inside { head.now.at + 64 ≤ length file.now }
    ensures { result ≡ has_name file.now head.now reloc.now }
{
    has_reference(head, reloc) && has_string(file, imported_place(head, reloc.second))
}

// Whether the record's target exists.
pub(crate) fn has_target(file: &[u8], head: &Head, entries: &Entries, reloc: &Reloc) -> bool
    requires small { length file.now ≤ 4194304 }
    requires inside { head.now.at + 64 ≤ length file.now }
    ensures { result ≡ has_target file.now head.now entries.now reloc.now }
{
    match target_kind(reloc) {
        0 => has_internal(head, entries, reloc),
        1 => has_reference(head, reloc),
        2 => has_name(file, head, reloc),
        _ => true,
    }
}
