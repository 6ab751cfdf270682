// DosSizeSeg.
ghost use Rattle.std.specs.Prelude.{◌≡◌};
ghost use Rattle.o2_regions.specs.Maps.{IsProcess};
ghost use Rattle.o2_segbus.specs.Seen.{AreNamed};
ghost use Rattle.o2_stands.specs.Knows.{Others, known_in};
ghost use Rattle.o2_stands.specs.Parts.{Parts};
ghost use Rattle.o2_world.specs.Rulings.{sizing};
ghost use Rattle.o2_segs.specs.Answers.{Answers};

use crate::asking::{ACCESS_DENIED, done, held_under, refusal};
use o2_regions::{Answer, Regions};
use o2_store::Store;

/// DosSizeSeg(sel, psize): the size of a segment that the caller holds, in bytes; 5 where it holds none.
pub fn size_seg(store: &mut Store, regions: &mut Regions, pid: u16, sel: u16) -> Answer
    requires process { IsProcess regions.old pid }
    requires named { AreNamed store.old regions.old }
    ensures answer { (p : Parts) (o : Others) → p.shelf ≡ store.old → p.maps ≡ regions.old
        → Answers (sizing (known_in p o) pid sel) result }
    ensures store { store.new ≡ store.old }
    ensures regions { regions.new ≡ regions.old }
{
    match held_under(regions, pid, sel) {
        Some(held) => match store.size(held.id) {
            Some(size) => done(size),
            None => refusal(ACCESS_DENIED),
        },
        None => refusal(ACCESS_DENIED),
    }
}
