// DosGiveSeg.
ghost use Rattle.std.specs.Prelude.{◌≡◌, ◌≤◌, ℕ, true};
ghost use Rattle.o2_regions.specs.Lives.{lives};
ghost use Rattle.o2_regions.specs.Maps.{IsProcess};
ghost use Rattle.o2_segs.specs.Callers.{IsCaller};
ghost use Rattle.o2_stands.specs.Knows.{Others, known_in};
ghost use Rattle.o2_stands.specs.Parts.{Parts};
ghost use Rattle.o2_stands.specs.Stands.{AreMarked, Matches};
ghost use Rattle.o2_world.specs.Changes.{with_all};
ghost use Rattle.o2_world.specs.SharedRulings.{giving};
ghost use Rattle.o2_world.specs.World.{World};
ghost use Rattle.o2_segs.specs.Answers.{Answers};
ghost use Rattle.o2_shared.specs.Frames.{SharesOnce};
ghost use Rattle.o2_shared.specs.Shares.{AreFew, ShareOne};

use crate::sharing::{Flag, INVALID_PROCESS, may_be_shared, selector_at, share_all};
use o2_base::Selector;
use o2_regions::{Answer, Ends, Regions};
use o2_segs::{ACCESS_DENIED, done, held_under, refusal};
use o2_store::Store;

/// DosGiveSeg(sel, pid, psel): the process `to` holds once more what the caller holds, or each member of the run that begins there;
/// its value is the same selector. 5 where the caller holds nothing there, no giveable segment, or one in a run but not its first;
/// 303 where no process `to` lives.
pub fn give_seg(
    store: &mut Store,
    regions: &mut Regions,
    pid: u16,
    sel: u16,
    to: u16,
    ends: &Ends,
) -> Answer
    requires caller { IsCaller store.old regions.old pid }
    requires one { ShareOne regions.old }
    requires few { AreFew regions.old }
    requires living { (n : ℕ) → lives ends.now n ≡ true → IsProcess regions.old n }

    ensures answer { (p : Parts) (o : Others) → p.shelf ≡ store.old → p.maps ≡ regions.old → AreMarked ends.now p
        → Answers (giving (known_in p o) pid sel to) result }
    ensures word { result.value ≤ 65535 }
    ensures store { store.new ≡ store.old }
    ensures more { SharesOnce store.old regions.old store.new regions.new }
    ensures matches { (p : Parts) (o : Others) (w : World) → p.shelf ≡ store.old → p.maps ≡ regions.old
        → AreMarked ends.now p → Matches p w
        → Matches (record p { maps = regions.new }) (with_all w (giving (known_in p o) pid sel to).changes) }
{
    match held_under(regions, pid, sel) {
        Some(held) => {
            let index = Selector(sel).index();
            if !may_be_shared(store, regions, pid, index, held, Flag::Giveable) {
                return refusal(ACCESS_DENIED);
            }
            if !ends.is_live(to) {
                return refusal(INVALID_PROCESS);
            }
            share_all(store, regions, pid, to, index, held);
            done(selector_at(index))
        }
        None => refusal(ACCESS_DENIED),
    }
}
