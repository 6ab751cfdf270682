// DosGetSeg.
ghost use Rattle.std.specs.Prelude.{◌≡◌, ◌≤◌, Some};
ghost use Rattle.o2_segs.specs.Callers.{IsCaller};
ghost use Rattle.o2_stands.specs.Knows.{Others, known_in};
ghost use Rattle.o2_stands.specs.Parts.{Parts};
ghost use Rattle.o2_stands.specs.Stands.{Matches};
ghost use Rattle.o2_world.specs.Changes.{with_all};
ghost use Rattle.o2_world.specs.Holders.{process_at};
ghost use Rattle.o2_world.specs.SharedRulings.{getting};
ghost use Rattle.o2_world.specs.World.{Process, World};
ghost use Rattle.o2_segs.specs.Answers.{Answers};
ghost use Rattle.o2_shared.specs.Frames.{SharesOnce};
ghost use Rattle.o2_shared.specs.Shares.{AreFew, ShareOne};

use crate::sharing::{Flag, first_held, may_be_shared, share_all};
use o2_base::Selector;
use o2_regions::{Answer, Regions};
use o2_segs::{ACCESS_DENIED, done, refusal};
use o2_store::Store;

/// DosGetSeg(sel): the caller holds once more what another process holds under that shared selector, or each member of the run that
/// begins there. 5 where nobody holds a gettable segment there, or one in a run but not its first.
pub fn get_seg(store: &mut Store, regions: &mut Regions, pid: u16, sel: u16) -> Answer
    requires caller { IsCaller store.old regions.old pid }
    requires one { ShareOne regions.old }
    requires few { AreFew regions.old }

    ensures answer { (p : Parts) (o : Others) → p.shelf ≡ store.old → p.maps ≡ regions.old → o.processes ≡ regions.old.processes
        → Answers (getting (known_in p o) pid sel) result }
    ensures word { result.value ≤ 65535 }
    ensures store { store.new ≡ store.old }
    ensures more { SharesOnce store.old regions.old store.new regions.new }
    ensures matches { (p : Parts) (o : Others) (w : World) (x : Process) → p.shelf ≡ store.old → p.maps ≡ regions.old
        → o.processes ≡ regions.old.processes → process_at w.processes pid ≡ Some x → Matches p w
        → Matches (record p { maps = regions.new }) (with_all w (getting (known_in p o) pid sel).changes) }
{
    let selector = Selector(sel);
    if !selector.is_local() {
        return refusal(ACCESS_DENIED);
    }
    let index = selector.index();
    match first_held(regions, index) {
        Some((from, held)) => {
            if !may_be_shared(store, regions, from, index, held, Flag::Gettable) {
                return refusal(ACCESS_DENIED);
            }
            share_all(store, regions, from, pid, index, held);
            done(0)
        }
        None => refusal(ACCESS_DENIED),
    }
}
