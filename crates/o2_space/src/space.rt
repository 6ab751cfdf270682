// The processes and their segments.

use o2_cache::DecodeCache;
use o2_gate::State as Services;
use o2_image::Images;
use o2_isa::Cpu;
use o2_regions::{Ends, Regions};
use o2_shared::Shared;
use o2_store::Store;
use o2_world::State;

/// A process: its registers, and how far it is.
#[derive(Clone, Copy, Debug)]
pub struct Proc {
    pub cpu: Cpu,
    pub state: State,
}

/// Processes over a store.
#[derive(Drop)]
pub struct Space {
    /// Process n is at place n - 1.
    pub procs: Vec<Proc>,
    /// Which of them live.
    pub ends: Ends,
    /// The segments, in memory and out of it.
    pub store: Store,
    /// What each process holds, and its descriptors.
    pub regions: Regions,
    /// The names of the segments that processes share.
    pub names: Shared,
    /// The images of modules and environments.
    pub images: Images,
    /// What the services work on beside the segments.
    pub services: Services,
    /// Instructions that were decoded before.
    pub cache: DecodeCache,
}
