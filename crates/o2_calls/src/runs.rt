// A call on a huge allocation over a store and the tables of what processes hold.
ghost use Rattle.std.specs.Prelude.{◌≡◌, ◌⊎◌, ℕ, ◌<◌, ◌+◌, ◌^◌, IsSome, length, true};
ghost use Rattle.o2_entries.specs.Tables.{slot_at};
ghost use Rattle.o2_store.specs.Needs.{named_in};
ghost use Rattle.o2_store.specs.Shelf.{place_of};
ghost use Rattle.o2_swapmap.specs.Piles.{all_of};
ghost use Rattle.o2_store.specs.Frames.{IsBacked, KeepsDevice};
ghost use Rattle.o2_changes.specs.Frames.{KeepsOrderFor};
ghost use Rattle.o2_segs.specs.Callers.{IsCaller};
ghost use Rattle.o2_stands.specs.Parts.{Parts};
ghost use Rattle.o2_world.specs.World.{Setting, World};
ghost use Rattle.o2_segs.specs.Limits.{KeepsLimitsBy, made_in};
ghost use Rattle.o2_segs.specs.Made.{IsStop};
ghost use Rattle.o2_store.specs.Idle.{IsIdle, NoneTaken};
ghost use Rattle.o2_store.specs.Loads.{swap_load};
ghost use Rattle.o2_calls.specs.Acts.{IsOver, most_made};
ghost use Rattle.o2_calls.specs.HugeActs.{MaySize};
ghost use Rattle.o2_calls.specs.RunRows.{IsRunRow};
ghost use Rattle.o2_calls.specs.Stops.{IsRunGivable, LeavesRun, LeavesRunEntries};

use o2_gate::HugeArguments;
use o2_huge::{alloc_huge, huge_shift, realloc_huge};
use o2_image::Images;
use o2_isa::Cpu;
use o2_outer::SwapDevice;
use o2_place::SegId;
use o2_regions::{Regions, Roomed};
use o2_store::Store;

/// A call by process `pid` on a huge allocation, with these registers and arguments, where its pointer is good. What it answers is
/// the row's error number and value, and the machine then matches the world with the row's changes. Only a new size of one member
/// wants room; where it lacks, nothing is changed.
pub fn act_on_run<S: SwapDevice>(
    arguments: &HugeArguments,
    pid: u16,
    cpu: &mut Cpu,
    store: &mut Store,
    regions: &mut Regions,
    keep: &[SegId],
    images: &Images,
    swap: &mut S,
) -> Roomed
    requires caller { IsCaller store.old regions.old pid }
    requires made { store.old.made + 4096 < 2 ^ 64 }
    requires backed { IsBacked store.old images.now (S.blocks swap.old) }

    // The row of the call in the world for which the machine stands.
    ensures row { (p : Parts) (s : Setting) (w : World)
        → IsOver store.old regions.old images.now (S.block swap.old) p s w
        → length w.processes ≡ regions.old.processes
        → IsRunRow arguments.now p s w pid store.old store.new regions.old regions.new keep.now
        (S.told swap.new) (S.block swap.new) cpu.old cpu.new result (IsIdle store.new swap.old swap.new) }
    ensures stops { IsStop result → MaySize arguments.now }
    ensures value { IsRunGivable arguments.now result }
    ensures load { result ≡ Roomed.SwapFull → all_of store.old.swap < swap_load store.old }
    ensures idle { NoneTaken store.old.swap → IsIdle store.new swap.old swap.new ⊎ MaySize arguments.now }

    // What the calls of store, service and bus ask for goes on to hold.
    ensures limits { KeepsLimitsBy store.old regions.old store.new regions.new (most_made result) (made_in result) }
    ensures holds { LeavesRun arguments.now regions.old regions.new }
    ensures entries { LeavesRunEntries arguments.now store.old store.new }
    ensures processes { regions.new.processes ≡ regions.old.processes }
    ensures kept { (k : ℕ) → named_in store.old.entries keep.now k ≡ true → IsSome (slot_at store.new.entries k)
        → IsSome (place_of store.old k) → IsSome (place_of store.new k) }
    ensures goes_on { KeepsOrderFor images.now store.old regions.old store.new regions.new }
    ensures device { KeepsDevice S.blocks S.told S.faults swap.old swap.new
        (result ≡ Roomed.SwapFault) }
{
    match arguments {
        HugeArguments::Alloc {
            segs,
            part,
            most,
            flags,
            ..
        } => Roomed::Done(alloc_huge(store, regions, pid, *segs, *part, *most, *flags)),
        HugeArguments::Realloc {
            segs,
            part,
            selector,
        } => realloc_huge(
            store, regions, pid, *segs, *part, *selector, cpu, keep, images, swap,
        ),
        HugeArguments::Shift => Roomed::Done(huge_shift(store, regions, pid)),
    }
}
