// DosAllocShrSeg.
ghost use Rattle.std.specs.Prelude.{◌≡◌, ℕ, ◌-◌, ◌<◌, ◌≤◌, ◌^◌, length, IsSome, Some, None, false};
ghost use Rattle.o2_desc.specs.Bits.{writable_data};
ghost use Rattle.o2_desc.specs.Choice.{IsRun};
ghost use Rattle.o2_regions.specs.Maps.{IsProcess, is_taken};
ghost use Rattle.o2_store.specs.Shelf.{entry, entry_of, place_of};
ghost use Rattle.o2_changes.specs.Frames.{KeepsOrder};
ghost use Rattle.o2_changes.specs.Holding.{Grants, KeepsHolds};
ghost use Rattle.o2_changes.specs.Order.{IsInOrder};
ghost use Rattle.o2_changes.specs.Worlds.{MatchesHold};
ghost use Rattle.o2_stands.specs.Knows.{Others, known_in};
ghost use Rattle.o2_stands.specs.Parts.{Parts};
ghost use Rattle.o2_stands.specs.Stands.{Matches};
ghost use Rattle.o2_world.specs.Changes.{with_all};
ghost use Rattle.o2_world.specs.Holders.{process_at};
ghost use Rattle.o2_world.specs.Known.{text_name};
ghost use Rattle.o2_world.specs.Rulings.{full_size};
ghost use Rattle.o2_world.specs.SharedNames.{folded, name_by};
ghost use Rattle.o2_world.specs.SharedRulings.{naming};
ghost use Rattle.o2_world.specs.World.{Process, World};
ghost use Rattle.o2_segs.specs.Answers.{Answers};
ghost use Rattle.o2_segs.specs.Limits.{KeepsEntries, KeepsLimits};
ghost use Rattle.o2_segs.specs.Made.{made_by_call};
ghost use Rattle.o2_shared.specs.Shares.{naming_to};
ghost use Rattle.o2_shared.specs.Texts.{AreInPlace, AreOnce, AreTexts, found_from};

use crate::names::Shared;
use crate::naming::is_name;
use crate::sharing::selector_at;
use o2_changes::{hold_new, make};
use o2_desc::Access;
use o2_place::SegId;
use o2_regions::{Answer, Cause, Held, Region, Regions};
use o2_segs::{NOT_ENOUGH_MEMORY, done, refusal};
use o2_store::Store;

/// ERROR_INVALID_NAME: the text is no name.
pub(crate) const INVALID_NAME: u16 = 123;

/// ERROR_ALREADY_EXISTS: a segment of that name lives.
const ALREADY_EXISTS: u16 = 183;

/// DosAllocShrSeg(size, name, psel): a new shared segment of zeros, 0 for 65,536 bytes, which the caller holds as data that can
/// be written under a shared selector, and its name; its value is that selector. The text is that up to a zero, or 129 bytes
/// where none of them is one. 123 where it is no name, 183 where a segment of that name lives, 8 where no shared index is free,
/// or no more segments may live.
#[tactic(auto, using(o2_changes::proofs::KeepingHolds::holds_refl, o2_segs::proofs::Limits::limits_one))]
pub fn alloc_shr_seg(
    store: &mut Store,
    regions: &mut Regions,
    pid: u16,
    size: u16,
    name: &[u8],
    names: &mut Shared,
) -> Answer
    requires process { IsProcess regions.old pid }
    requires made { store.old.made < 2 ^ 64 - 1 }
    requires order { IsInOrder store.old regions.old }
    requires places { AreInPlace store.old regions.old names.old }

    ensures answer { (p : Parts) (o : Others) → p.shelf ≡ store.old → p.maps ≡ regions.old → AreTexts store.old names.old o.text
        → Answers (naming (known_in p o) pid size (name_by (Some name.now))) result }
    ensures word { result.value ≤ 65535 }
    ensures matches { (p : Parts) (o : Others) (w : World) (x : Process) → p.shelf ≡ store.old → p.maps ≡ regions.old
        → AreTexts store.old names.old o.text → process_at w.processes pid ≡ Some x → Matches p w
        → Matches (record p { shelf = store.new; maps = regions.new })
        (with_all w (naming (known_in p o) pid size (name_by (Some name.now))).changes) }
    ensures texts { (p : Parts) (o : Others) (w : World) → p.shelf ≡ store.old → p.maps ≡ regions.old
        → AreTexts store.old names.old o.text → AreTexts store.old names.old (text_name w.texts)
        → AreTexts store.new names.new
        (text_name (with_all w (naming (known_in p o) pid size (name_by (Some name.now))).changes).texts) }
    ensures once { (p : Parts) (o : Others) (w : World) → p.shelf ≡ store.old → p.maps ≡ regions.old
        → AreTexts store.old names.old o.text → AreTexts store.old names.old (text_name w.texts) → AreOnce w.texts
        → AreOnce (with_all w (naming (known_in p o) pid size (name_by (Some name.now))).changes).texts }
    ensures places { AreInPlace store.new regions.new names.new }
    ensures holds { KeepsHolds regions.old regions.new }
    ensures limits { KeepsLimits store.old regions.old store.new regions.new 1 }
    ensures entries { KeepsEntries store.old store.new }
    ensures kept { (k : ℕ) → IsSome (place_of store.old k) → IsSome (place_of store.new k) }
    ensures goes_on { KeepsOrder store.old regions.old store.new regions.new }
{
    if !is_name(name) {
        return refusal(INVALID_NAME);
    }
    if names.find(store, name).is_some() {
        return refusal(ALREADY_EXISTS);
    }
    match regions.lowest(Region::Shared, 1) {
        Some(index) => make_named(store, regions, pid, index, size, name, names),
        None => refusal(NOT_ENOUGH_MEMORY),
    }
}

// The size in bytes that a call is given as a word, where 0 is 65,536.
#[tactic(auto, using(o2_segs::proofs::Resizing::full_zero, o2_segs::proofs::Resizing::full_some))]
fn full_size(size: u16) -> u32
    ensures size { result ≡ full_size size }
    ensures some { 0 < result }
    ensures most { result ≤ 65536 }
{
    if size == 0 { 65536 } else { u32::from(size) }
}

// A new segment is held at a shared index that is free, and has a name that no segment has.
#[tactic(auto, using(o2_changes::proofs::KeepingHolds::holds_refl, o2_segs::proofs::Limits::limits_one))]
fn make_named(
    store: &mut Store,
    regions: &mut Regions,
    pid: u16,
    index: u16,
    size: u16,
    name: &[u8],
    names: &mut Shared,
) -> Answer
    requires process { IsProcess regions.old pid }
    requires free { IsRun (is_taken regions.old Region.Shared) 4096 8192 1 index }
    requires made { store.old.made < 2 ^ 64 - 1 }
    requires order { IsInOrder store.old regions.old }
    requires short { length name.now ≤ 128 }
    requires new { found_from store.old (folded name.now) names.old 4096 ≡ None }
    requires places { AreInPlace store.old regions.old names.old }

    ensures answer { (p : Parts) (o : Others) → p.shelf ≡ store.old
        → Answers (naming_to (known_in p o) pid size (folded name.now) (Some index)) result }
    ensures word { result.value ≤ 65535 }
    ensures matches { (p : Parts) (o : Others) (w : World) (x : Process) → p.shelf ≡ store.old → p.maps ≡ regions.old
        → process_at w.processes pid ≡ Some x → Matches p w
        → Matches (record p { shelf = store.new; maps = regions.new })
        (with_all w (naming_to (known_in p o) pid size (folded name.now) (Some index)).changes) }
    ensures texts { (p : Parts) (o : Others) (w : World) → p.shelf ≡ store.old
        → AreTexts store.old names.old (text_name w.texts)
        → AreTexts store.new names.new
        (text_name (with_all w (naming_to (known_in p o) pid size (folded name.now) (Some index)).changes).texts) }
    ensures once { (p : Parts) (o : Others) (w : World) → p.shelf ≡ store.old
        → AreTexts store.old names.old (text_name w.texts) → AreOnce w.texts
        → AreOnce (with_all w (naming_to (known_in p o) pid size (folded name.now) (Some index)).changes).texts }
    ensures places { AreInPlace store.new regions.new names.new }
    ensures holds { KeepsHolds regions.old regions.new }
    ensures limits { KeepsLimits store.old regions.old store.new regions.new 1 }
    ensures entries { KeepsEntries store.old store.new }
    ensures kept { (k : ℕ) → IsSome (place_of store.old k) → IsSome (place_of store.new k) }
    ensures goes_on { KeepsOrder store.old regions.old store.new regions.new }
{
    regions.law();
    names.law();
    match make(store, regions, full_size(size), 0, true) {
        Some(id) => {
            hold_named(store, regions, pid, index, id);
            names.put(index, name, id);
            done(selector_at(index))
        }
        None => refusal(NOT_ENOUGH_MEMORY),
    }
}

// A live segment is held as data that can be written at a shared index that is free.
fn hold_named(store: &Store, regions: &mut Regions, pid: u16, index: u16, id: SegId)
    requires process { IsProcess regions.old pid }
    requires free { IsRun (is_taken regions.old Region.Shared) 4096 8192 1 index }
    requires live { IsSome (entry_of store.now id) }
    requires plain { (entry store.now id.key).attr.clean ≡ false }
    requires order { IsInOrder store.now regions.old }

    ensures grants { Grants regions.old regions.new pid index (made_by_call id) writable_data }
    ensures holds { KeepsHolds regions.old regions.new }
    ensures goes_on { KeepsOrder store.now regions.old store.now regions.new }
    ensures matches { MatchesHold store.now regions.old regions.new pid index (made_by_call id) writable_data }
{
    let held = Held {
        id,
        holds: 1,
        cause: Cause::Called,
        first: 0,
        reserved: 0,
    };
    hold_new(store, regions, pid, index, held, Access::WRITABLE_DATA.0);
}
