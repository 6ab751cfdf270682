// All processes of a machine file start over byte vectors.
ghost use Rattle.std.specs.Prelude.{◌≡◌, length, map, IfOk};
ghost use Rattle.o2_conf.specs.Environments.{environment_bytes};
ghost use Rattle.o2_conf.specs.Limits.{IsWithinLimits};
ghost use Rattle.o2_world.specs.Starts.{all_started};
ghost use Rattle.o2_load.specs.Loads.{starts_of};
ghost use Rattle.o2_load.specs.Beginnings.{BeginsAll};

use crate::build::Build;
use crate::progress::Progress;
use crate::starting::{StartFault, start_each};
use crate::vectors::Vectors;
use o2_base::Fail;
use o2_bus::Plain;
use o2_conf::Conf;
use o2_dynlink::Linked;
use o2_isa::Cpu;
use std::alloc::Global;

/// The processes that have started: their memory, and for each its first registers and its selectors in their order.
#[derive(Drop)]
pub struct Begun {
    pub plain: Plain,
    pub cpus: Vec<Cpu>,
    pub starts: Vec<Vec<u16>>,
}

/// The processes that have started in this memory.
fn over_vectors(progress: Progress<Vectors>) -> Begun
    ensures plain { result.plain ≡ progress.build.segments.plain }
    ensures cpus { result.cpus ≡ progress.cpus }
    ensures starts { result.starts ≡ progress.starts }
{
    let Progress {
        build,
        cpus,
        starts,
    } = progress;
    let Build { segments, .. } = build;
    Begun {
        plain: segments.plain,
        cpus,
        starts,
    }
}

/// All processes of a machine file start over what its modules are linked to, one after the other, with no more names than its
/// setting allows. The first that is refused decides.
pub fn begin(alloc: Global, linked: &Linked, conf: &Conf) -> Result<Begun, Fail<StartFault>>
    requires within { IsWithinLimits conf.now }
    requires environments { linked.now.images.environments ≡ map environment_bytes conf.now.process }
    ensures begins { BeginsAll linked.now (all_started conf.now.segments (starts_of linked.now 1 conf.now.process)) result }
    ensures count { IfOk result (λ m. length m.cpus.items ≡ length conf.now.process) }
{
    linked.process_count();
    let vectors = Vectors::new(alloc, conf.segments)?;
    let progress = start_each(alloc, vectors, linked, conf.process.as_slice())?;
    Ok(over_vectors(progress))
}
