// What is needed together, if it is live.
ghost use Rattle.std.specs.Prelude.{◌≡◌, IfSome, IsSome, IsTrue, false};
ghost use Rattle.o2_service.specs.Needs.{AreLive, AreWhole};
ghost use Rattle.o2_store.specs.Shelf.{entry, entry_of};

use o2_place::SegId;
use o2_service::Need;
use o2_store::Store;

/// Whether a segment lives and isn't discarded.
pub(crate) fn is_whole(store: &Store, id: SegId) -> bool
    ensures live { IsTrue result → IsSome (entry_of store.now id) }
    ensures whole { IsTrue result → (entry store.now id.key).attr.gone ≡ false }
{
    match store.attr(id) {
        Some(attr) => !attr.gone,
        None => false,
    }
}

/// What is needed, if all of it is live and none of it discarded: segments with the sizes that they get, or 0. At most sixteen.
pub fn live_need(store: &Store, pairs: &[(SegId, u32)]) -> Option<Need>
    ensures live { IfSome result (λ n. AreLive store.now n) }
    ensures whole { IfSome result (λ n. AreWhole store.now n) }
{
    for k in 0..pairs.len() {
        if !is_whole(store, pairs[k].0) {
            return None;
        }
    }
    Need::new(pairs)
}
