// DosGetShrSeg.
ghost use Rattle.std.specs.Prelude.{◌≡◌, ◌<◌, ◌≤◌, Some};
ghost use Rattle.o2_segs.specs.Callers.{IsCaller};
ghost use Rattle.o2_stands.specs.Knows.{Others, known_in};
ghost use Rattle.o2_stands.specs.Parts.{Parts};
ghost use Rattle.o2_stands.specs.Stands.{Matches};
ghost use Rattle.o2_world.specs.Changes.{with_all};
ghost use Rattle.o2_world.specs.Holders.{process_at};
ghost use Rattle.o2_world.specs.SharedNames.{name_by};
ghost use Rattle.o2_world.specs.SharedRulings.{index_of, sharing, sharing_at};
ghost use Rattle.o2_world.specs.World.{Process, World};
ghost use Rattle.o2_segs.specs.Answers.{Answers};
ghost use Rattle.o2_shared.specs.Frames.{SharesOnce};
ghost use Rattle.o2_shared.specs.Shares.{AreFew, ShareOne};
ghost use Rattle.o2_shared.specs.Texts.{AreInPlace, AreTexts, IsHeldOnly};

use crate::allocating::INVALID_NAME;
use crate::names::Shared;
use crate::naming::is_name;
use crate::sharing::{first_held, is_named, selector_at, share};
use o2_place::SegId;
use o2_regions::{Answer, Regions};
use o2_segs::{done, refusal};
use o2_store::Store;

/// ERROR_FILE_NOT_FOUND: no segment of that name lives.
const FILE_NOT_FOUND: u16 = 2;

/// DosGetShrSeg(name, psel): the caller holds once more the segment that has a name; its value is the segment's shared selector.
/// The text is that up to a zero, or 129 bytes where none of them is one. 123 where it is no name, 2 where no segment of that
/// name lives.
pub fn get_shr_seg(
    store: &mut Store,
    regions: &mut Regions,
    pid: u16,
    name: &[u8],
    names: &mut Shared,
) -> Answer
    requires caller { IsCaller store.old regions.old pid }
    requires one { ShareOne regions.old }
    requires few { AreFew regions.old }
    requires places { AreInPlace store.old regions.old names.old }

    ensures answer { (p : Parts) (o : Others) → p.shelf ≡ store.old → p.maps ≡ regions.old
        → o.processes ≡ regions.old.processes → AreTexts store.old names.old o.text
        → Answers (sharing (known_in p o) pid (name_by (Some name.now))) result }
    ensures word { result.value ≤ 65535 }
    ensures store { store.new ≡ store.old }
    ensures names { names.new ≡ names.old }
    ensures places { AreInPlace store.new regions.new names.new }
    ensures more { SharesOnce store.old regions.old store.new regions.new }
    ensures matches { (p : Parts) (o : Others) (w : World) (x : Process) → p.shelf ≡ store.old → p.maps ≡ regions.old
        → o.processes ≡ regions.old.processes → AreTexts store.old names.old o.text
        → process_at w.processes pid ≡ Some x → Matches p w
        → Matches (record p { maps = regions.new })
        (with_all w (sharing (known_in p o) pid (name_by (Some name.now))).changes) }
{
    if !is_name(name) {
        return refusal(INVALID_NAME);
    }
    match names.find(store, name) {
        Some((index, id)) => share_named(store, regions, pid, index, id),
        None => refusal(FILE_NOT_FOUND),
    }
}

// A process holds once more what is held under a shared index, where that is the segment of a name, which is held there alone.
fn share_named(store: &Store, regions: &mut Regions, pid: u16, index: u16, id: SegId) -> Answer
    requires caller { IsCaller store.now regions.old pid }
    requires first { 4096 ≤ index }
    requires last { index < 8192 }
    requires held { IsHeldOnly regions.old index id }
    requires one { ShareOne regions.old }
    requires few { AreFew regions.old }

    ensures answer { (p : Parts) (o : Others) → p.shelf ≡ store.now → p.maps ≡ regions.old
        → o.processes ≡ regions.old.processes
        → Answers (sharing_at (known_in p o) pid (index_of (known_in p o) id.age)) result }
    ensures word { result.value ≤ 65535 }
    ensures more { SharesOnce store.now regions.old store.now regions.new }
    ensures matches { (p : Parts) (o : Others) (w : World) (x : Process) → p.shelf ≡ store.now → p.maps ≡ regions.old
        → o.processes ≡ regions.old.processes → process_at w.processes pid ≡ Some x → Matches p w
        → Matches (record p { maps = regions.new })
        (with_all w (sharing_at (known_in p o) pid (index_of (known_in p o) id.age)).changes) }
{
    match first_held(regions, index) {
        Some((from, held)) => {
            if !is_named(store, held, id) {
                return refusal(FILE_NOT_FOUND);
            }
            share(store, regions, from, pid, index, held);
            done(selector_at(index))
        }
        None => refusal(FILE_NOT_FOUND),
    }
}
