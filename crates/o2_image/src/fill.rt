// The image of a segment: its bytes in the file, with the patches of its records.
ghost use Rattle.std.specs.Prelude.{◌≡◌, ◌+◌, ◌*◌, ◌≤◌, ◌<◌, ◌^◌, ◌==◌, ◌++◌, ℕ, [], false, fold, get_or, if◌then◌else◌, length, map, slice_index, IsTrue};
ghost use Rattle.o2_ne.specs.Words.{byte_at, word_at};
ghost use Rattle.o2_ne_segs.specs.Records.{reloc_count, relocs_in};
ghost use Rattle.o2_image.specs.Alike.{row_of};
ghost use Rattle.o2_image.specs.Chains.{places};
ghost use Rattle.o2_image.specs.Images.{all_patches, byte_after, image, offset_part, patch_at, patches_of, word_bytes};
ghost use Rattle.o2_image.specs.Records.{bytes_of};
ghost use Rattle.o2_image.specs.Targets.{is_additive, is_fixup, width_of};
ghost use Rattle.o2_image.specs.Whole.{Fit, HasPlaces, HasSegment};

use crate::images::Row;
use crate::records::{bytes_of, reloc_count};
use crate::targets::{is_additive, is_fixup};
use o2_ne::u16_at;
use o2_ne_segs::{Reloc, Segment, reloc_at};

// The first bytes of a segment, and zeros behind them.
fn copy_front(bytes: &[u8], into: &mut [u8])
    ensures { (i : ℕ) → i < length into.new → slice_index into.new i ≡ slice_index bytes.now i }
{
    for (i, byte) in into.iter_mut().enumerate() {
        *byte = if i < bytes.len() { bytes[i] } else { 0 };
    }
}

// Writes some bytes at a place, as far as there is room.
fn put(into: &mut [u8], place: usize, bytes: &[u8])
    requires { place + length bytes.now < 2 ^ 32 }
    ensures { (i : ℕ) → i < length into.new → slice_index into.new i ≡ byte_after i (slice_index into.old i) (record { place = place; bytes = bytes.now }) }
{
    for (k, byte) in bytes.iter().enumerate() {
        let at = place + k;
        if at < into.len() {
            into[at] = *byte;
        }
    }
}

// The offset part of a patch, to which an additive record adds what the file holds at its place.
fn offset_part(reloc: &Reloc, held: u16, offset: u16) -> u16
    ensures { result ≡ offset_part reloc.now held offset }
{
    if is_additive(reloc) {
        held.wrapping_add(offset)
    } else {
        offset
    }
}

// What the file holds at a place that a record is added to.
fn held_at(bytes: &[u8], reloc: &Reloc, place: u16) -> u16
    requires { IsTrue (is_additive reloc.now) → place + width_of reloc.now.source ≤ length bytes.now }
    ensures { IsTrue (is_additive reloc.now) → result ≡ (if reloc.now.source == 0 then byte_at bytes.now place else word_at bytes.now place) }
{
    if !is_additive(reloc) {
        return 0;
    }
    if reloc.source == 0 {
        return u16::from(bytes[usize::from(place)]);
    }
    u16_at(bytes, usize::from(place))
}

// The bytes of a word, the low one first.
fn word_bytes(word: u16) -> [u8; 2]
    ensures { result ≡ word_bytes word }
{
    word.to_le_bytes()
}

// The bytes of a far pointer: the offset, then the selector.
fn pointer_bytes(offset: u16, selector: u16) -> [u8; 4]
    ensures { result ≡ word_bytes offset ++ word_bytes selector }
{
    let [low, high] = word_bytes(offset);
    let [first, second] = word_bytes(selector);
    [low, high, first, second]
}

// Writes a record's patch at one place.
fn put_patch(bytes: &[u8], reloc: &Reloc, target: (u16, u16), place: u16, into: &mut [u8])
    requires { IsTrue (is_additive reloc.now) → place + width_of reloc.now.source ≤ length bytes.now }
    ensures { (i : ℕ) → i < length into.new → slice_index into.new i ≡ byte_after i (slice_index into.old i) (patch_at bytes.now reloc.now target place) }
{
    let (selector, offset) = target;
    let part = offset_part(reloc, held_at(bytes, reloc, place), offset);
    let at = usize::from(place);
    match reloc.source {
        0 => put(into, at, &[(part % 256) as u8]),
        2 => put(into, at, &word_bytes(selector)),
        3 => put(into, at, &pointer_bytes(part, selector)),
        _ => put(into, at, &word_bytes(part)),
    }
}

// Writes a record's patch at each place of its chain.
fn fill_chain(bytes: &[u8], reloc: &Reloc, target: (u16, u16), into: &mut [u8])
    requires fit { Fit bytes.now (places bytes.now 65536 reloc.now.place) }
    requires plain { is_additive reloc.now ≡ false }
    ensures { (i : ℕ) → i < length into.new
        → slice_index into.new i ≡ fold (byte_after i) (slice_index into.old i) (map (patch_at bytes.now reloc.now target) (places bytes.now 65536 reloc.now.place)) }
{
    let mut next = reloc.place;
    for _ in 0..65536u32 {
        put_patch(bytes, reloc, target, next, into);
        let word = u16_at(bytes, next as usize);
        if word == 0xFFFF {
            return;
        }
        next = word;
    }
}

// Writes a record's patches.
fn fill_reloc(bytes: &[u8], reloc: &Reloc, target: (u16, u16), into: &mut [u8])
    requires { HasPlaces bytes.now reloc.now }
    ensures { (i : ℕ) → i < length into.new → slice_index into.new i ≡ fold (byte_after i) (slice_index into.old i) (patches_of bytes.now reloc.now target) }
{
    if is_fixup(reloc) {
        return;
    }
    if reloc.source == 0 || is_additive(reloc) {
        put_patch(bytes, reloc, target, reloc.place, into);
    } else {
        fill_chain(bytes, reloc, target, into);
    }
}

// A target by its number from 0.
fn target_of(targets: &Row, k: usize) -> (u16, u16)
    requires { k < length (row_of targets.now) }
    ensures { (d : ℕ × ℕ) → get_or (row_of targets.now) k d ≡ result }
{
    match targets.get(k) {
        Some(target) => target,
        None => unreachable!(),
    }
}

// Writes the patches of all records of a segment.
fn fill_relocs(file: &[u8], segment: &Segment, targets: &Row, into: &mut [u8])
    requires has { HasSegment file.now segment.now }
    requires belong { length (row_of targets.now) ≡ reloc_count file.now segment.now }
    ensures { (i : ℕ) → i < length into.new
        → slice_index into.new i ≡ fold (byte_after i) (slice_index into.old i)
        (all_patches (bytes_of file.now segment.now) (relocs_in file.now segment.now) (row_of targets.now)) }
{
    let bytes = bytes_of(file, segment);
    let at = segment.file_at as usize + segment.file_len as usize + 2;
    for k in 0..targets.len() {
        let reloc = reloc_at(file, at + 8 * k);
        fill_reloc(bytes, &reloc, target_of(targets, k), into);
    }
}

// Writes the first bytes of a segment's image.
pub(crate) fn fill_segment(file: &[u8], segment: &Segment, targets: &Row, into: &mut [u8])
    requires has { HasSegment file.now segment.now }
    requires belong { length (row_of targets.now) ≡ reloc_count file.now segment.now }
    ensures { into.new ≡ image (bytes_of file.now segment.now)
        (all_patches (bytes_of file.now segment.now) (relocs_in file.now segment.now) (row_of targets.now)) (length into.old) }
{
    copy_front(bytes_of(file, segment), into);
    fill_relocs(file, segment, targets, into);
}

// Writes the first of some bytes, which have no patches.
pub(crate) fn fill_bytes(bytes: &[u8], into: &mut [u8])
    ensures { into.new ≡ image bytes.now [] (length into.old) }
{
    copy_front(bytes, into);
}
