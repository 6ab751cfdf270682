// All that a process holds from its start on.
ghost use Rattle.std.specs.Prelude.{◌≡◌, ◌≤◌, ◌<◌, ◌+◌, All, length, map, Some, OnOk, option_map};
ghost use Rattle.o2_image.specs.Getters.{nth, nth_list};
ghost use Rattle.o2_image.specs.ImageList.{Exists};
ghost use Rattle.o2_world.specs.Starts.{library_holdings};
ghost use Rattle.o2_load.specs.Memory.{OthersStay};
ghost use Rattle.o2_load.specs.Holds.{IsReady, Adds, AddsAll, stage};
ghost use Rattle.o2_load.specs.Loads.{index_at, loaded, segment_holdings, all_holdings, environment_of};

use crate::build::Build;
use crate::module_segments::hold_segment;
use crate::starting_memory::{Grip, Segments};
use o2_base::{Fail, ModuleFault};
use o2_desc::Access;
use o2_dynlink::Linked;
use o2_image::Module;
use std::alloc::Global;

/// The index of a segment, 0 where there is none.
fn index_at(linked: &Linked, place: u16, n: u16) -> u16
    ensures value { result ≡ index_at linked.now.images place n }
    ensures small { result < 8192 }
{
    match linked.index(place, n) {
        Some(index) => index,
        None => 0,
    }
}

/// A process holds all segments of a module.
pub(crate) fn hold_segments<S: Segments>(
    alloc: Global,
    build: &mut Build<S>,
    linked: &Linked,
    module: &Module,
    pid: u16,
    place: u16,
) -> Result<(), Fail<ModuleFault>>
    requires process { Exists linked.now.programs pid }
    requires place { option_map (λ p. p.0) (nth linked.now.images.modules place) ≡ Some «module».now }
    requires ready { IsReady (S.whole build.old.segments) (S.seen build.old.segments) build.old.made linked.now }
    ensures adds { AddsAll (S.names build.old.segments linked.now.images) (stage (S.seen build.old.segments) build.old)
        (S.names build.new.segments linked.now.images) (stage (S.seen build.new.segments) build.new)
        pid (segment_holdings linked.now.images place «module».now) result }
    ensures others { OthersStay (S.seen build.old.segments) (S.seen build.new.segments) pid }
    ensures ready { OnOk result (IsReady (S.whole build.new.segments) (S.seen build.new.segments) build.new.made linked.now) }
{
    for k in 0..module.segment_count() {
        let index = index_at(linked, place, k + 1);
        hold_segment(alloc, build, linked, module, pid, place, k + 1, index)?;
    }
    Ok(())
}

/// A process holds all segments of the module at a place.
fn hold_module<S: Segments>(
    alloc: Global,
    build: &mut Build<S>,
    linked: &Linked,
    pid: u16,
    place: u16,
) -> Result<(), Fail<ModuleFault>>
    requires process { Exists linked.now.programs pid }
    requires there { Exists linked.now.images.modules place }
    requires ready { IsReady (S.whole build.old.segments) (S.seen build.old.segments) build.old.made linked.now }
    ensures adds { AddsAll (S.names build.old.segments linked.now.images) (stage (S.seen build.old.segments) build.old)
        (S.names build.new.segments linked.now.images) (stage (S.seen build.new.segments) build.new)
        pid (all_holdings (loaded linked.now.images place)) result }
    ensures others { OthersStay (S.seen build.old.segments) (S.seen build.new.segments) pid }
    ensures ready { OnOk result (IsReady (S.whole build.new.segments) (S.seen build.new.segments) build.new.made linked.now) }
{
    let Some(module) = linked.images().module(place) else {
        unreachable!()
    };
    hold_segments(alloc, build, linked, module, pid, place)
}

/// A process holds its environment, of so many bytes, under the index behind its program's segments.
pub(crate) fn hold_environment<S: Segments>(
    alloc: Global,
    build: &mut Build<S>,
    linked: &Linked,
    pid: u16,
    count: u16,
    size: u32,
) -> Result<(), Fail<ModuleFault>>
    requires process { Exists linked.now.programs pid }
    requires size { size ≡ length (nth_list linked.now.images.environments pid) }
    requires some { 0 < size }
    requires small { size ≤ 65536 }
    requires few { count ≤ 254 }
    requires ready { IsReady (S.whole build.old.segments) (S.seen build.old.segments) build.old.made linked.now }
    ensures adds { Adds (S.names build.old.segments linked.now.images) (stage (S.seen build.old.segments) build.old)
        (S.names build.new.segments linked.now.images) (stage (S.seen build.new.segments) build.new)
        pid (environment_of pid count (nth_list linked.now.images.environments pid)) result }
    ensures others { OthersStay (S.seen build.old.segments) (S.seen build.new.segments) pid }
    ensures ready { OnOk result (IsReady (S.whole build.new.segments) (S.seen build.new.segments) build.new.made linked.now) }
{
    linked.process_count();
    let grip = Grip {
        index: count + 1,
        place: 0,
        number: pid,
        rights: Access::WRITABLE_DATA.0,
        common: false,
    };
    build.add(alloc, linked.images(), pid, &grip, size, 0)
}

/// A process holds all segments of some libraries.
pub(crate) fn hold_libraries<S: Segments>(
    alloc: Global,
    build: &mut Build<S>,
    linked: &Linked,
    pid: u16,
    places: &[u16],
) -> Result<(), Fail<ModuleFault>>
    requires process { Exists linked.now.programs pid }
    requires there { All (Exists linked.now.images.modules) places.now }
    requires ready { IsReady (S.whole build.old.segments) (S.seen build.old.segments) build.old.made linked.now }
    ensures adds { AddsAll (S.names build.old.segments linked.now.images) (stage (S.seen build.old.segments) build.old)
        (S.names build.new.segments linked.now.images) (stage (S.seen build.new.segments) build.new)
        pid (library_holdings (map (loaded linked.now.images) places.now)) result }
    ensures others { OthersStay (S.seen build.old.segments) (S.seen build.new.segments) pid }
    ensures ready { OnOk result (IsReady (S.whole build.new.segments) (S.seen build.new.segments) build.new.made linked.now) }
{
    for place in places {
        hold_module(alloc, build, linked, pid, *place)?;
    }
    Ok(())
}
