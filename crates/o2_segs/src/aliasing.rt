// DosCreateCSAlias.
ghost use Rattle.std.specs.Prelude.{◌≡◌, ℕ, ◌<◌, ◌/◌, ◌==◌, ◌||◌, nat_le, not, Some, None, IsSome};
ghost use Rattle.o2_base.specs.Selectors.{selector_of};
ghost use Rattle.o2_desc.specs.Bits.{is_writable, readable_code};
ghost use Rattle.o2_desc.specs.Choice.{chosen};
ghost use Rattle.o2_regions.specs.Maps.{IsProcess, held_at, is_taken};
ghost use Rattle.o2_store.specs.Shelf.{entry_of};
ghost use Rattle.o2_changes.specs.Frames.{KeepsOrder};
ghost use Rattle.o2_segs.specs.Callers.{IsCaller};
ghost use Rattle.o2_changes.specs.Holding.{KeepsHolds, rights_at};
ghost use Rattle.o2_changes.specs.Order.{IsInOrder};
ghost use Rattle.o2_changes.specs.Worlds.{MatchesHold};
ghost use Rattle.o2_stands.specs.Stands.{Matches};
ghost use Rattle.o2_stands.specs.Knows.{Others, known_in};
ghost use Rattle.o2_stands.specs.Parts.{Parts};
ghost use Rattle.o2_world.specs.Changes.{with_all};
ghost use Rattle.o2_world.specs.Holders.{process_at};
ghost use Rattle.o2_world.specs.Rulings.{aliasing};
ghost use Rattle.o2_world.specs.World.{Process, World};
ghost use Rattle.o2_segs.specs.Answers.{Answers, alias_of};
ghost use Rattle.o2_segs.specs.Limits.{KeepsLimits};
ghost use Rattle.o2_segs.specs.Sharing.{IsHeldLow};

use crate::asking::{ACCESS_DENIED, NOT_ENOUGH_MEMORY, SHARED, done, held_under, refusal};
use o2_base::Selector;
use o2_changes::hold_new;
use o2_desc::Access;
use o2_place::SegId;
use o2_regions::{Answer, Cause, Held, Region, Regions};
use o2_store::Store;

/// DosCreateCSAlias(sel, psel): a segment that the caller holds as data of its own that can be written is held under a new
/// selector too, as code that can be read; its value is that selector. 5 where the segment isn't held so, 8 where no index of
/// the process is free.
#[tactic(auto, using(o2_changes::proofs::KeepingHolds::holds_refl))]
pub fn create_cs_alias(store: &mut Store, regions: &mut Regions, pid: u16, sel: u16) -> Answer
    requires caller { IsCaller store.old regions.old pid }

    ensures answer { (p : Parts) (o : Others) → p.shelf ≡ store.old → p.maps ≡ regions.old
        → Answers (aliasing (known_in p o) pid sel) result }
    ensures store { store.new ≡ store.old }
    ensures holds { KeepsHolds regions.old regions.new }
    ensures limits { KeepsLimits store.old regions.old store.new regions.new 0 }
    ensures goes_on { KeepsOrder store.old regions.old store.new regions.new }
    ensures matches { (p : Parts) (o : Others) (w : World) (x : Process) → p.shelf ≡ store.old
        → p.maps ≡ regions.old → process_at w.processes pid ≡ Some x → Matches p w
        → Matches (record p { maps = regions.new })
        (with_all w (aliasing (known_in p o) pid sel).changes) }
{
    match held_under(regions, pid, sel) {
        Some(held) => {
            if has_no_alias(regions, pid, sel, held) {
                return refusal(ACCESS_DENIED);
            }
            alias(store, regions, pid, held.id)
        }
        None => refusal(ACCESS_DENIED),
    }
}

// Whether what a process holds at an index is data that can be written.
fn is_data(regions: &Regions, pid: u16, index: u16) -> bool
    requires process { IsProcess regions.now pid }
    requires index { index < 8192 }
    requires held { IsSome (held_at regions.now pid index) }
    ensures { result ≡ is_writable (rights_at regions.now pid index) }
{
    match regions.descriptor(pid, index) {
        Some(d) => Access(d.access).is_writable(),
        None => false,
    }
}

// Whether a segment that is held under a selector of the local table has no alias: it isn't the process's own, or no data that
// can be written, or it is in a run.
fn has_no_alias(regions: &Regions, pid: u16, sel: u16, held: Held) -> bool
    requires process { IsProcess regions.now pid }
    requires held { IsSome (held_at regions.now pid (sel / 8)) }
    ensures { result ≡ (nat_le 4096 (sel / 8) || (not (is_writable (rights_at regions.now pid (sel / 8))) || not (held.reserved == 0))) }
{
    let index = Selector(sel).index();
    SHARED <= index || !is_data(regions, pid, index) || held.reserved != 0
}

// A live segment is held under a new index of the process's own, as code.
#[tactic(auto, using(o2_changes::proofs::KeepingHolds::holds_refl))]
fn alias(store: &Store, regions: &mut Regions, pid: u16, id: SegId) -> Answer
    requires process { IsProcess regions.old pid }
    requires live { IsSome (entry_of store.now id) }
    requires own { IsHeldLow regions.old id }
    requires order { IsInOrder store.now regions.old }

    ensures full { chosen (is_taken regions.old (Region.Private pid)) 1 4096 1 ≡ None
        → (result ≡ record { error = 8; value = 0 }) × (regions.new ≡ regions.old) }
    ensures aliased { (i : ℕ) → chosen (is_taken regions.old (Region.Private pid)) 1 4096 1 ≡ Some i
        → (result ≡ record { error = 0; value = selector_of i })
        × MatchesHold store.now regions.old regions.new pid i (alias_of id) readable_code }
    ensures holds { KeepsHolds regions.old regions.new }
    ensures limits { KeepsLimits store.now regions.old store.now regions.new 0 }
    ensures goes_on { KeepsOrder store.now regions.old store.now regions.new }
{
    match regions.lowest(Region::Private(pid), 1) {
        Some(index) => {
            let held = Held {
                id,
                holds: 1,
                cause: Cause::Alias,
                first: 0,
                reserved: 0,
            };
            regions.law();
            hold_new(store, regions, pid, index, held, Access::READABLE_CODE.0);
            done(u32::from(Selector::local(u32::from(index)).0))
        }
        None => refusal(NOT_ENOUGH_MEMORY),
    }
}
