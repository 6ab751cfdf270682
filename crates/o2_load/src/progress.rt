// The processes that have started so far.
ghost use Rattle.std.specs.Prelude.{◌≡◌, ◌≤◌, ◌<◌, ◌+◌, ℕ, length, Ok, OnOk};
ghost use Rattle.o2_conf.specs.declared.process.Process.{Process};
ghost use Rattle.o2_conf.specs.Environments.{environment_bytes, command_place};
ghost use Rattle.o2_image.specs.Getters.{nth_list};
ghost use Rattle.o2_image.specs.ImageList.{Exists};
ghost use Rattle.o2_world.specs.Starts.{Built, next_started};
ghost use Rattle.o2_load.specs.Memory.{KeepsSetting};
ghost use Rattle.o2_load.specs.Holds.{IsReady};
ghost use Rattle.o2_load.specs.Loads.{start_of};
ghost use Rattle.o2_load.specs.Progresses.{HasCome, ComesAs, course};

use crate::build::Build;
use crate::process::start;
use crate::starting_memory::Segments;
use o2_base::{Fail, ModuleFault};
use o2_dynlink::Linked;
use o2_isa::Cpu;
use std::alloc::Global;

/// The processes that have started so far: their memory, and for each its first registers and its selectors in their order.
#[derive(Drop)]
pub struct Progress<S: Drop> {
    pub build: Build<S>,
    pub cpus: Vec<Cpu>,
    pub starts: Vec<Vec<u16>>,
}

impl<S: Segments> Progress<S> {
    /// Process `pid` starts, the next one, with its command line at this place in its environment.
    pub fn next(
        &mut self,
        alloc: Global,
        linked: &Linked,
        pid: u16,
        command: u16,
    ) -> Result<(), Fail<ModuleFault>>
        requires number { pid ≡ length self.old.cpus.items + 1 }
        requires there { Exists linked.now.programs pid }
        requires some { 0 < length (nth_list linked.now.images.environments pid) }
        requires small { length (nth_list linked.now.images.environments pid) ≤ 65536 }
        requires ready { IsReady (S.whole self.old.build.segments) (S.seen self.old.build.segments) self.old.build.made linked.now }
        ensures comes { (p : Process) (most : ℕ) (b : Built) → environment_bytes p ≡ nth_list linked.now.images.environments pid → command_place p ≡ command
            → HasCome (S.names self.old.build.segments linked.now.images) (course (S.seen self.old.build.segments) self.old) linked.now most b
            → ComesAs (S.names self.new.build.segments linked.now.images) (course (S.seen self.new.build.segments) self.new) linked.now most
            (next_started most (Ok b) (start_of linked.now pid p)) pid result }
        ensures ready { OnOk result (IsReady (S.whole self.new.build.segments) (S.seen self.new.build.segments) self.new.build.made linked.now) }
        ensures setting { KeepsSetting (S.seen self.old.build.segments) (S.seen self.new.build.segments) }
        ensures count { OnOk result (length self.new.cpus.items ≡ length self.old.cpus.items + 1) }
    {
        let cpu = start(alloc, &mut self.build, linked, pid, command)?;
        let selectors = std::mem::replace(&mut self.build.selectors, Vec::new(alloc));
        self.starts.push(selectors)?;
        self.cpus.push(cpu)?;
        Ok(())
    }
}
