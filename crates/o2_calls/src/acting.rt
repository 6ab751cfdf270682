// A call on segments over a store and the tables of what processes hold.
ghost use Rattle.std.specs.Prelude.{◌≡◌, ◌⊎◌, ℕ, ◌+◌, ◌<◌, ◌^◌, IsSome, true};
ghost use Rattle.o2_entries.specs.Tables.{slot_at};
ghost use Rattle.o2_regions.specs.Maps.{IsProcess};
ghost use Rattle.o2_store.specs.Needs.{named_in};
ghost use Rattle.o2_store.specs.Pictures.{HasPicture};
ghost use Rattle.o2_store.specs.Shelf.{HasAll, place_of};
ghost use Rattle.o2_store.specs.Frames.{IsBacked, KeepsDevice};
ghost use Rattle.o2_changes.specs.Frames.{KeepsOrderFor};
ghost use Rattle.o2_segs.specs.Callers.{IsCaller};
ghost use Rattle.o2_stands.specs.Parts.{Parts};
ghost use Rattle.o2_world.specs.World.{Setting, World};
ghost use Rattle.o2_segs.specs.Limits.{KeepsLimitsBy, made_in};
ghost use Rattle.o2_regions.specs.Lives.{lives};
ghost use Rattle.o2_shared.specs.Shares.{AreFew, ShareOne};
ghost use Rattle.o2_shared.specs.Texts.{AreInPlace};
ghost use Rattle.o2_calls.specs.SharedActs.{Spells};
ghost use Rattle.o2_segs.specs.Made.{IsStop};
ghost use Rattle.o2_calls.specs.Acts.{IsOver, MayStop, most_made};
ghost use Rattle.o2_calls.specs.CallRows.{IsCallRow};
ghost use Rattle.o2_calls.specs.Stops.{IsGivable, IsShort, LacksRoom, LacksSwap, LeavesEntries, LeavesHolds};
ghost use Rattle.o2_store.specs.Idle.{IsIdle, NoneTaken};

use crate::runs::act_on_run;
use crate::sharing::share;
use o2_gate::SegmentArguments;
use o2_image::Images;
use o2_isa::Cpu;
use o2_locks::{lock_seg, unlock_seg};
use o2_outer::SwapDevice;
use o2_place::SegId;
use o2_regions::{Ends, Regions, Roomed};
use o2_segs::{alloc_seg, create_cs_alias, free_seg, realloc_seg, size_seg};
use o2_shared::Shared;
use o2_store::Store;

/// A call on segments by process `pid`, with these registers and arguments, where its pointer is good. What it answers is the
/// row's error number and value, and the machine then matches the world with the row's changes; the registers are those that
/// the call itself changes. Where it wants room for a size or a lock, it has it together with the segments of `keep` and those
/// that are locked, or it stops, and then nothing is changed.
pub fn act<S: SwapDevice>(
    arguments: SegmentArguments,
    pid: u16,
    cpu: &mut Cpu,
    store: &mut Store,
    regions: &mut Regions,
    names: &mut Shared,
    ends: &Ends,
    keep: &[SegId],
    images: &Images,
    swap: &mut S,
) -> Roomed
    requires caller { IsCaller store.old regions.old pid }
    requires made { store.old.made + 4096 < 2 ^ 64 }
    requires pictures { HasAll (HasPicture images.now) store.old }
    requires backed { IsBacked store.old images.now (S.blocks swap.old) }
    requires one { ShareOne regions.old }
    requires few { AreFew regions.old }
    requires living { (n : ℕ) → lives ends.now n ≡ true → IsProcess regions.old n }
    requires places { AreInPlace store.old regions.old names.old }

    // The row of the call in the world for which the machine stands.
    ensures row { (p : Parts) (s : Setting) (w : World)
        → IsOver store.old regions.old images.now (S.block swap.old) p s w
        → Spells store.old regions.old names.old ends.now p w
        → IsCallRow arguments p s w pid store.old store.new regions.old regions.new keep.now
        (S.told swap.new) (S.block swap.new) cpu.old cpu.new names.old names.new result (IsIdle store.new swap.old swap.new) }
    ensures stops { IsStop result → MayStop arguments }

    // What is to be kept stays in memory, and what the call writes through stays held; why it stops.
    ensures kept { (k : ℕ) → named_in store.old.entries keep.now k ≡ true
        → IsSome (slot_at store.new.entries k)
        → IsSome (place_of store.old k) → IsSome (place_of store.new k) }
    ensures holds { LeavesHolds arguments regions.old regions.new }
    ensures entries { LeavesEntries arguments store.old store.new }
    ensures no_room { result ≡ Roomed.NoRoom
        → LacksRoom arguments store.old regions.old pid keep.now }
    ensures swap_full { result ≡ Roomed.SwapFull
        → LacksSwap arguments store.old regions.old pid }

    // What the calls of store, service and bus ask for goes on to hold.
    ensures processes { regions.new.processes ≡ regions.old.processes }
    ensures limits { KeepsLimitsBy store.old regions.old store.new regions.new (most_made result) (made_in result) }
    ensures places { AreInPlace store.new regions.new names.new }
    ensures value { IsGivable arguments result }
    ensures goes_on { KeepsOrderFor images.now store.old regions.old store.new regions.new }
    ensures device { KeepsDevice S.blocks S.told S.faults swap.old swap.new
        (result ≡ Roomed.SwapFault) }
    // Where nothing is in swap blocks, the device isn't touched, unless all that lives with what the call changes doesn't fit the memory.
    ensures idle { NoneTaken store.old.swap → IsIdle store.new swap.old swap.new
        ⊎ IsShort arguments store.old regions.old pid result }
{
    match arguments {
        SegmentArguments::Alloc { size, flags } => alloc_seg(
            store, regions, pid, size, flags, keep, images, swap,
        ),
        SegmentArguments::Realloc { size, selector } => realloc_seg(
            store, regions, pid, size, selector, keep, images, swap,
        ),
        SegmentArguments::Free(selector) => {
            Roomed::Done(free_seg(store, regions, pid, selector, cpu))
        }
        SegmentArguments::Size(selector) => Roomed::Done(size_seg(store, regions, pid, selector)),
        SegmentArguments::Lock(selector) => {
            lock_seg(store, regions, pid, selector, keep, images, swap)
        }
        SegmentArguments::Unlock(selector) => {
            Roomed::Done(unlock_seg(store, regions, pid, selector))
        }
        SegmentArguments::Alias(selector) => Roomed::Done(create_cs_alias(
            store, regions, pid, selector,
        )),
        SegmentArguments::Shared(shared) => {
            Roomed::Done(share(&shared, pid, store, regions, names, ends))
        }
        SegmentArguments::Huge(huge) => {
            act_on_run(&huge, pid, cpu, store, regions, keep, images, swap)
        }
    }
}
