// The start of one process.
ghost use Rattle.std.specs.Prelude.{◌≡◌, ◌≤◌, ◌<◌, ℕ, length, Some, Ok, OnOk, option_map};
ghost use Rattle.o2_image.specs.Getters.{nth, nth_list};
ghost use Rattle.o2_image.specs.ImageList.{Exists};
ghost use Rattle.o2_conf.specs.declared.process.Process.{Process};
ghost use Rattle.o2_conf.specs.Environments.{environment_bytes, command_place};
ghost use Rattle.o2_world.specs.Starts.{Built, holdings};
ghost use Rattle.o2_load.specs.Memory.{OthersStay};
ghost use Rattle.o2_load.specs.Holds.{IsHolding, IsReady, AddsAll, stage};
ghost use Rattle.o2_load.specs.Loads.{start_of, program_place};
ghost use Rattle.o2_load.specs.Started.{StartsAs};

use crate::build::Build;
use crate::first::{check, first_cpu};
use crate::holdings::{hold_environment, hold_libraries, hold_segments};
use crate::starting_memory::Segments;
use o2_base::{Fail, ModuleFault};
use o2_dynlink::Linked;
use o2_image::Module;
use o2_isa::Cpu;
use std::alloc::Global;

/// A process holds its program's segments, its environment, and the segments of its libraries.
fn hold_all<S: Segments>(
    alloc: Global,
    build: &mut Build<S>,
    linked: &Linked,
    module: &Module,
    pid: u16,
    place: u16,
) -> Result<(), Fail<ModuleFault>>
    requires there { Exists linked.now.programs pid }
    requires place { option_map (λ p. p.0) (nth linked.now.images.modules place) ≡ Some «module».now }
    requires program { place ≡ program_place linked.now pid }
    requires some { 0 < length (nth_list linked.now.images.environments pid) }
    requires small { length (nth_list linked.now.images.environments pid) ≤ 65536 }
    requires ready { IsReady (S.whole build.old.segments) (S.seen build.old.segments) build.old.made linked.now }
    ensures adds { (p : Process) → environment_bytes p ≡ nth_list linked.now.images.environments pid
        → AddsAll (S.names build.old.segments linked.now.images) (stage (S.seen build.old.segments) build.old)
        (S.names build.new.segments linked.now.images) (stage (S.seen build.new.segments) build.new)
        pid (holdings pid (start_of linked.now pid p)) result }
    ensures others { OthersStay (S.seen build.old.segments) (S.seen build.new.segments) pid }
    ensures ready { OnOk result (IsReady (S.whole build.new.segments) (S.seen build.new.segments) build.new.made linked.now) }
{
    let Some(bytes) = linked.images().environment(pid) else {
        unreachable!()
    };
    let size = bytes.len() as u32;
    module.is_runnable();
    hold_segments(alloc, build, linked, module, pid, place)?;
    hold_environment(alloc, build, linked, pid, module.segment_count(), size)?;
    hold_libraries(alloc, build, linked, pid, linked.libraries(pid))
}

/// The start of process `pid`, with its command line at this place in its environment: its first registers, or why it isn't
/// started.
pub fn start<S: Segments>(
    alloc: Global,
    build: &mut Build<S>,
    linked: &Linked,
    pid: u16,
    command: u16,
) -> Result<Cpu, Fail<ModuleFault>>
    requires there { Exists linked.now.programs pid }
    requires some { 0 < length (nth_list linked.now.images.environments pid) }
    requires small { length (nth_list linked.now.images.environments pid) ≤ 65536 }
    requires ready { IsReady (S.whole build.old.segments) (S.seen build.old.segments) build.old.made linked.now }
    ensures starts { (p : Process) → environment_bytes p ≡ nth_list linked.now.images.environments pid → command_place p ≡ command
        → (most : ℕ) (b : Built) → IsHolding (S.names build.old.segments linked.now.images) (stage (S.seen build.old.segments) build.old) most pid b
        → StartsAs (S.names build.new.segments linked.now.images) (stage (S.seen build.new.segments) build.new) most pid (start_of linked.now pid p) b result }
    ensures others { OthersStay (S.seen build.old.segments) (S.seen build.new.segments) pid }
    ensures ready { OnOk result (IsReady (S.whole build.new.segments) (S.seen build.new.segments) build.new.made linked.now) }
{
    let Some(place) = linked.program(pid) else {
        unreachable!()
    };
    let Some(module) = linked.images().module(place) else {
        unreachable!()
    };
    match check(module) {
        Err(fault) => Err(Fail::Bad(fault)),
        Ok(()) => {
            hold_all(alloc, build, linked, module, pid, place)?;
            Ok(first_cpu(module, place, command))
        }
    }
}
