// A process gets what another one holds.
ghost use Rattle.std.specs.Prelude.{◌≡◌, ◌+◌, ◌<◌, ◌≤◌, ◌^◌, ◌&&◌, nat_le, not, IfSome, IsSome, List, Option, Some, None};
ghost use Rattle.std.specs.Option.{IfNone};
ghost use Rattle.o2_base.specs.Selectors.{selector_of};
ghost use Rattle.o2_regions.specs.Maps.{IsProcess, held_at, holds_of};
ghost use Rattle.o2_segbus.specs.Settled.{descriptor_at};
ghost use Rattle.o2_store.specs.Shelf.{entry_of};
ghost use Rattle.o2_changes.specs.Frames.{KeepsOrder};
ghost use Rattle.o2_changes.specs.Holding.{Grants};
ghost use Rattle.o2_changes.specs.Order.{IsInOrder};
ghost use Rattle.o2_changes.specs.Worlds.{MatchesHold};
ghost use Rattle.o2_segs.specs.Limits.{KeepsLimitsBy};
ghost use Rattle.o2_stands.specs.Parts.{cause_of};
ghost use Rattle.o2_world.specs.Rulings.{by_load};
ghost use Rattle.o2_shared.specs.Frames.{SharesOnce};
ghost use Rattle.o2_shared.specs.declared.names.Name.{Name};
ghost use Rattle.o2_segbus.specs.Seen.{AreNamed};
ghost use Rattle.o2_segs.specs.Members.{members_in, run_in};
ghost use Rattle.o2_shared.specs.Shares.{AllCalled, AreFew, IsCalledAt, MatchesShares, ShareOne, SharesAt, StillHolds, are_shareable, held_alone, holder_in, is_share_of, is_shareable, is_shareable_at, may_share_all, number_of, share_of};
ghost use Rattle.o2_shared.specs.Texts.{AreInPlace};

use o2_base::Selector;
use o2_changes::hold_more;
use o2_place::SegId;
use o2_regions::{Cause, Held, Regions};
use o2_segs::{end_of_run, is_later};
use o2_store::{Attr, Store};

/// ERROR_INVALID_PROCID: no process of that number lives.
pub(crate) const INVALID_PROCESS: u16 = 303;

/// The first index that all processes share.
pub(crate) const SHARED: u16 = 4096;

/// The flag of a segment that may be given, as a bit.
const GIVEABLE: u8 = 1;

/// The flag of a segment that may be got, as a bit.
const GETTABLE: u8 = 2;

/// The selector of an index, as a value.
pub(crate) fn selector_at(index: u16) -> u32
    requires { index < 8192 }
    ensures { result ≡ selector_of index }
{
    u32::from(Selector::local(u32::from(index)).0)
}

/// Whether what is held at an index is a segment that a call made, that is shared and that is giveable.
pub(crate) fn is_giveable(store: &Store, index: u16, held: Held) -> bool
    requires live { IsSome (entry_of store.now held.id) }
    ensures { result ≡ is_shareable store.now 0 index held }
{
    match store.attr(held.id) {
        Some(attr) => is_given(attr, index, held.cause, attr.flags / GIVEABLE % 2 == 1),
        None => false,
    }
}

/// Whether what is held at an index is a segment that a call made, that is shared and that is gettable.
pub(crate) fn is_gettable(store: &Store, index: u16, held: Held) -> bool
    requires live { IsSome (entry_of store.now held.id) }
    ensures { result ≡ is_shareable store.now 1 index held }
{
    match store.attr(held.id) {
        Some(attr) => is_given(attr, index, held.cause, attr.flags / GETTABLE % 2 == 1),
        None => false,
    }
}

/// By which call a segment may come to another process.
#[derive(Clone, Copy, Debug, PartialEq, Eq)]
pub(crate) enum Flag {
    /// Its holder may give it.
    Giveable,
    /// Any process may get it.
    Gettable,
}

// Whether what is held at an index is a segment that a call made, that is shared and that has the flag.
fn is_shared_with(store: &Store, index: u16, held: Held, flag: Flag) -> bool
    requires live { IsSome (entry_of store.now held.id) }
    ensures { result ≡ is_shareable store.now (number_of flag) index held }
{
    match flag {
        Flag::Giveable => is_giveable(store, index, held),
        Flag::Gettable => is_gettable(store, index, held),
    }
}

/// Whether what a process holds at an index may come to another process: it isn't in a run or is its first, and all that is held
/// under the index, the segment there or each member of its run, was made by calls, is shared and has the flag.
pub(crate) fn may_be_shared(
    store: &Store,
    regions: &Regions,
    pid: u16,
    index: u16,
    held: Held,
    flag: Flag,
) -> bool
    requires process { IsProcess regions.now pid }
    requires index { index < 8192 }
    requires named { AreNamed store.now regions.now }
    requires held { held_at regions.now pid index ≡ Some held }
    ensures { result ≡ may_share_all store.now regions.now (number_of flag) pid index held }
{
    !is_later(index, held) && are_shared_with(store, regions, pid, index, held, flag)
}

// Whether all that a process holds under an index, the segment there or each member of its run, was made by calls, is shared and has
// the flag.
fn are_shared_with(
    store: &Store,
    regions: &Regions,
    pid: u16,
    index: u16,
    held: Held,
    flag: Flag,
) -> bool
    requires process { IsProcess regions.now pid }
    requires index { index < 8192 }
    requires named { AreNamed store.now regions.now }
    requires held { held_at regions.now pid index ≡ Some held }
    ensures { result ≡ are_shareable store.now regions.now (number_of flag) pid (members_in regions.now pid index held) }
{
    if held.reserved == 0 {
        return is_shared_at(store, regions, pid, index, flag);
    }
    for at in held.first..end_of_run(held) {
        if !is_shared_at(store, regions, pid, at, flag) {
            return false;
        }
    }
    true
}

// Whether what a process holds at an index, if it holds something there, was made by a call, is shared and has the flag.
fn is_shared_at(store: &Store, regions: &Regions, pid: u16, index: u16, flag: Flag) -> bool
    requires process { IsProcess regions.now pid }
    requires index { index < 8192 }
    requires named { AreNamed store.now regions.now }
    ensures { result ≡ is_shareable_at store.now (number_of flag) index (held_at regions.now pid index) }
{
    match regions.held(pid, index) {
        Some(held) => is_shared_with(store, index, held, flag),
        None => true,
    }
}

/// A process holds once more all that another one holds under a shared index: the segment there, or each member of its run.
pub(crate) fn share_all(
    store: &Store,
    regions: &mut Regions,
    from: u16,
    to: u16,
    index: u16,
    held: Held,
)
    requires from { IsProcess regions.old from }
    requires to { IsProcess regions.old to }
    requires index { index < 8192 }
    requires held { held_at regions.old from index ≡ Some held }
    requires shared { AllCalled regions.old from (members_in regions.old from index held) }
    requires one { ShareOne regions.old }
    requires few { AreFew regions.old }
    requires named { AreNamed store.now regions.old }
    requires order { IsInOrder store.now regions.old }

    ensures more { SharesOnce store.now regions.old store.now regions.new }
    ensures matches { MatchesShares store.now regions.old regions.new from to (members_in regions.old from index held) }
{
    if held.reserved == 0 {
        share_at(store, regions, from, to, index);
    } else {
        share_run(store, regions, from, to, held);
    }
}

// A process holds once more each member of a run that another one holds.
fn share_run(store: &Store, regions: &mut Regions, from: u16, to: u16, held: Held)
    requires from { IsProcess regions.old from }
    requires to { IsProcess regions.old to }
    requires shared { AllCalled regions.old from (run_in regions.old from held) }
    requires one { ShareOne regions.old }
    requires few { AreFew regions.old }
    requires named { AreNamed store.now regions.old }
    requires order { IsInOrder store.now regions.old }

    ensures more { SharesOnce store.now regions.old store.now regions.new }
    ensures matches { MatchesShares store.now regions.old regions.new from to (run_in regions.old from held) }
{
    for at in held.first..end_of_run(held) {
        share_at(store, regions, from, to, at);
    }
}

// A process holds once more what another one holds at an index, if it holds something there.
fn share_at(store: &Store, regions: &mut Regions, from: u16, to: u16, index: u16)
    requires from { IsProcess regions.old from }
    requires to { IsProcess regions.old to }
    requires index { index < 8192 }
    requires called { IsCalledAt regions.old from index }
    requires one { ShareOne regions.old }
    requires few { holds_of (held_at regions.old to index) + 1 < 2 ^ 32 }
    requires named { AreNamed store.now regions.old }
    requires order { IsInOrder store.now regions.old }

    ensures shares { SharesAt regions.old regions.new from to index }
    ensures more { SharesOnce store.now regions.old store.now regions.new }
    ensures matches { MatchesShares store.now regions.old regions.new from to (held_alone regions.old from index) }
{
    if let Some(held) = regions.held(from, index) {
        share(store, regions, from, to, index, held);
    }
}

/// Whether what is held is the segment of a name, which a call made and which is shared.
pub(crate) fn is_named(store: &Store, held: Held, id: SegId) -> bool
    requires live { IsSome (entry_of store.now held.id) }
    ensures { result ≡ is_share_of store.now id.age held }
{
    match store.attr(held.id) {
        Some(attr) => held.id.age == id.age && is_called(held.cause) && attr.shared,
        None => false,
    }
}

// Whether a segment of these attributes, which has a flag or not, is shared, and a call gave it under a shared index.
fn is_given(attr: Attr, index: u16, cause: Cause, has_flag: bool) -> bool
    ensures { result ≡ (nat_le 4096 index && (not (by_load (cause_of cause)) && (attr.shared && has_flag))) }
{
    SHARED <= index && is_called(cause) && attr.shared && has_flag
}

// Whether a hold didn't come with a module.
fn is_called(cause: Cause) -> bool
    ensures { result ≡ not (by_load (cause_of cause)) }
{
    match cause {
        Cause::Loaded => false,
        Cause::Called => true,
        Cause::Alias => true,
    }
}

/// The first process that holds an index, and what it holds there.
pub(crate) fn first_held(regions: &Regions, index: u16) -> Option<(u16, Held)>
    requires index { index < 8192 }
    ensures none { IfNone result (holder_in regions.now index ≡ None) }
    ensures first { IfSome result (λ f. holder_in regions.now index ≡ Some f.0) }
    ensures held { IfSome result (λ f. held_at regions.now f.0 index ≡ Some f.1) }
    ensures process { IfSome result (λ f. IsProcess regions.now f.0) }
{
    regions.law();
    for pid in 1..regions.processes() + 1 {
        if let Some(held) = regions.held(pid, index) {
            return Some((pid, held));
        }
    }
    None
}

/// A process holds once more what another one holds under a shared index.
pub(crate) fn share(
    store: &Store,
    regions: &mut Regions,
    from: u16,
    to: u16,
    index: u16,
    held: Held,
)
    requires from { IsProcess regions.old from }
    requires to { IsProcess regions.old to }
    requires high { 4096 ≤ index }
    requires index { index < 8192 }
    requires held { held_at regions.old from index ≡ Some held }
    requires called { held.cause ≡ Cause.Loaded → ⊥ }
    requires same { IfSome (held_at regions.old to index) (λ h. h.id ≡ held.id) }
    requires few { holds_of (held_at regions.old to index) + 1 < 2 ^ 32 }
    requires live { IsSome (entry_of store.now held.id) }
    requires order { IsInOrder store.now regions.old }

    ensures grants { Grants regions.old regions.new to index (share_of held) (descriptor_at regions.old from index).access }
    ensures still { StillHolds regions.old regions.new }
    ensures limits { KeepsLimitsBy store.now regions.old store.now regions.new 0 1 }
    ensures places { (names : List (Option Name)) → AreInPlace store.now regions.old names
        → AreInPlace store.now regions.new names }
    ensures goes_on { KeepsOrder store.now regions.old store.now regions.new }
    ensures processes { regions.new.processes ≡ regions.old.processes }
    ensures matches { MatchesHold store.now regions.old regions.new to index (share_of held)
        (descriptor_at regions.old from index).access }
{
    regions.law();
    if let Some(descriptor) = regions.descriptor(from, index) {
        let share = Held {
            id: held.id,
            holds: 1,
            cause: Cause::Called,
            first: held.first,
            reserved: held.reserved,
        };
        hold_more(store, regions, to, index, share, descriptor.access);
    }
}
