// All processes of a machine file start over a store and the maps of processes.
ghost use Rattle.std.specs.Prelude.{◌≡◌, ℕ, List, Ok, length, map, min, IfOk};
ghost use Rattle.o2_conf.specs.Environments.{environment_bytes};
ghost use Rattle.o2_conf.specs.Limits.{IsWithinLimits};
ghost use Rattle.o2_regions.specs.Kept.{AreKept};
ghost use Rattle.o2_swapmap.specs.Piles.{all_of};
ghost use Rattle.o2_world.specs.World.{Setting, World};
ghost use Rattle.o2_world.specs.Starts.{all_started, opening_of};
ghost use Rattle.o2_world.specs.Tied.{IsSound};
ghost use Rattle.o2_load.specs.Loads.{library_ranges, starts_of};
ghost use Rattle.o2_opening.specs.Starting.{IsPrepared};
ghost use Rattle.o2_opening.specs.Openings.{IsSettingOf, OpensAll, StandsFirst};
ghost use Rattle.o2_store.specs.Idle.{NoneTaken};

use crate::reserving::reserve_libraries;
use crate::stored::Stored;
use o2_base::{Fail, NoMemory};
use o2_conf::Conf;
use o2_dynlink::Linked;
use o2_isa::Cpu;
use o2_load::{Build, Progress, StartFault, start_each};
use o2_regions::{Ends, Regions};
use o2_store::Store;
use std::alloc::Global;

/// The processes that have started: the store with their segments, what each holds, which live, and for each its first registers
/// and its selectors in their order.
#[derive(Drop)]
pub struct Opened {
    pub store: Store,
    pub regions: Regions,
    pub ends: Ends,
    pub cpus: Vec<Cpu>,
    pub starts: Vec<Vec<u16>>,
}

/// A store without segments and maps in which nothing is held, with the indexes of all libraries reserved.
fn prepared(alloc: Global, linked: &Linked, conf: &Conf, device: u32) -> Result<Stored, NoMemory>
    requires within { IsWithinLimits conf.now }
    requires processes { length linked.now.programs ≡ length conf.now.process }
    ensures prepared { IfOk result (IsPrepared linked.now) }
    ensures memory { IfOk result (λ v. v.store.places.size ≡ conf.now.memory) }
    ensures segments { IfOk result (λ v. length v.store.entries ≡ conf.now.segments) }
    ensures blocks { IfOk result (λ v. all_of v.store.swap ≡ min conf.now.swap device) }
    ensures processes { IfOk result (λ v. v.regions.processes ≡ length conf.now.process) }
{
    let store = Store::make(alloc, conf.memory, conf.swap.min(device), conf.segments)?;
    let mut regions = Regions::new(alloc, conf.process.as_slice().len() as u16)?;
    reserve_libraries(&mut regions, linked);
    Ok(Stored {
        store,
        regions,
        ids: Vec::new(alloc),
    })
}

/// The processes that have started in this memory.
fn over_store(progress: Progress<Stored>, ends: Ends) -> Opened
    ensures store { result.store ≡ progress.build.segments.store }
    ensures regions { result.regions ≡ progress.build.segments.regions }
    ensures ends { result.ends ≡ ends }
    ensures cpus { result.cpus ≡ progress.cpus }
    ensures starts { result.starts ≡ progress.starts }
    ensures kept { AreKept result.regions }
{
    let Progress {
        build,
        cpus,
        starts,
    } = progress;
    let Build { segments, .. } = build;
    let Stored { store, regions, .. } = segments;
    regions.law();
    Opened {
        store,
        regions,
        ends,
        cpus,
        starts,
    }
}

/// All processes of a machine file start over what its modules are linked to, one after the other, in a store of the setting's
/// memory, its segments, and as many swap blocks as the lesser of its `swap` and the blocks of the device, with no segment in
/// memory. The first that is refused decides.
pub fn open(
    alloc: Global,
    linked: &Linked,
    conf: &Conf,
    device: u32,
) -> Result<Opened, Fail<StartFault>>
    requires within { IsWithinLimits conf.now }
    requires environments { linked.now.images.environments ≡ map environment_bytes conf.now.process }
    ensures opens { OpensAll linked.now (all_started conf.now.segments (starts_of linked.now 1 conf.now.process)) result }
    // It stands for the world before the first step, where that is sound.
    ensures stands { IfOk result (λ m. (s : Setting) (input : List ℕ) (w : World) → IsSettingOf conf.now s
        → opening_of s (library_ranges linked.now) conf.now.script input (starts_of linked.now 1 conf.now.process) ≡ Ok w
        → IsSound w → StandsFirst m linked.now.images device s w) }
    ensures memory { IfOk result (λ m. m.store.places.size ≡ conf.now.memory) }
    ensures segments { IfOk result (λ m. length m.store.entries ≡ conf.now.segments) }
    ensures blocks { IfOk result (λ m. all_of m.store.swap ≡ min conf.now.swap device) }
    ensures unused { IfOk result (λ m. NoneTaken m.store.swap) }
    ensures processes { IfOk result (λ m. m.regions.processes ≡ length conf.now.process) }
    ensures count { IfOk result (λ m. length m.cpus.items ≡ length conf.now.process) }
{
    linked.process_count();
    let ends = Ends::new(alloc, conf.process.as_slice().len() as u16)?;
    let stored = prepared(alloc, linked, conf, device)?;
    let progress = start_each(alloc, stored, linked, conf.process.as_slice())?;
    Ok(over_store(progress, ends))
}
