// A call by which processes share segments, over a store and the tables of what processes hold.
ghost use Rattle.std.specs.Prelude.{◌≡◌, ℕ, ◌-◌, ◌<◌, ◌≤◌, ◌^◌, IsSome, List, true};
ghost use Rattle.o2_image.specs.ImageList.{ImageList};
ghost use Rattle.o2_regions.specs.Lives.{lives};
ghost use Rattle.o2_regions.specs.Maps.{IsProcess};
ghost use Rattle.o2_store.specs.Shelf.{place_of};
ghost use Rattle.o2_changes.specs.Frames.{KeepsOrder};
ghost use Rattle.o2_segs.specs.Callers.{IsCaller};
ghost use Rattle.o2_stands.specs.Parts.{Parts};
ghost use Rattle.o2_world.specs.Known.{known_of};
ghost use Rattle.o2_world.specs.World.{Setting, World};
ghost use Rattle.o2_segs.specs.Limits.{KeepsEntries, KeepsLimitsBy};
ghost use Rattle.o2_shared.specs.Shares.{AreFew, ShareOne, StillHolds};
ghost use Rattle.o2_shared.specs.Texts.{AreInPlace};
ghost use Rattle.o2_calls.specs.Acts.{IsOver};
ghost use Rattle.o2_isa.specs.declared.cpu.Cpu.{Cpu as CpuThere};
ghost use Rattle.o2_calls.specs.SharedActs.{IsSharedRow, Spells, shared_ruling};

use o2_gate::SharedArguments;
use o2_regions::{Answer, Ends, Regions};
use o2_shared::{Shared, alloc_shr_seg, get_seg, get_shr_seg, give_seg};
use o2_store::Store;

/// A call by process `pid` by which processes share segments, with these arguments, where its pointers are good. What it answers is
/// the row's error number and value, and the machine then matches the world with the row's changes. It wants no room: a segment
/// that it makes is out of memory.
pub fn share(
    arguments: &SharedArguments,
    pid: u16,
    store: &mut Store,
    regions: &mut Regions,
    names: &mut Shared,
    ends: &Ends,
) -> Answer
    requires caller { IsCaller store.old regions.old pid }
    requires made { store.old.made < 2 ^ 64 - 1 }
    requires one { ShareOne regions.old }
    requires few { AreFew regions.old }
    requires living { (n : ℕ) → lives ends.now n ≡ true → IsProcess regions.old n }
    requires places { AreInPlace store.old regions.old names.old }

    // The row of the call in the world for which the machine stands.
    ensures row { (images : ImageList) (block : ℕ → List ℕ) (p : Parts) (s : Setting) (w : World)
        → IsOver store.old regions.old images block p s w → Spells store.old regions.old names.old ends.now p w
        → (c : CpuThere) → IsSharedRow (shared_ruling arguments.now (known_of s w) pid c) p w pid store.new regions.new names.new result }

    // What the calls of store, service and bus ask for goes on to hold, and so does what this call asks for.
    ensures word { result.value ≤ 65535 }
    ensures places { AreInPlace store.new regions.new names.new }
    ensures processes { regions.new.processes ≡ regions.old.processes }
    ensures still { StillHolds regions.old regions.new }
    ensures limits { KeepsLimitsBy store.old regions.old store.new regions.new 1 1 }
    ensures entries { KeepsEntries store.old store.new }
    ensures kept { (k : ℕ) → IsSome (place_of store.old k) → IsSome (place_of store.new k) }
    ensures goes_on { KeepsOrder store.old regions.old store.new regions.new }
{
    match arguments {
        SharedArguments::Name { size, text } => {
            alloc_shr_seg(store, regions, pid, *size, text.text(), names)
        }
        SharedArguments::Share(text) => { get_shr_seg(store, regions, pid, text.text(), names) }
        SharedArguments::Give { selector, to } => {
            give_seg(store, regions, pid, *selector, *to, ends)
        }
        SharedArguments::Get(selector) => get_seg(store, regions, pid, *selector),
    }
}
