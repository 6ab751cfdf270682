// A store, and the tables of one process over it.
ghost use Rattle.std.specs.Prelude.{◌≡◌, ◌-◌, ◌<◌, ◌≤◌, ◌^◌, IfOk};
ghost use Rattle.test_bus_parts.specs.Trials.{IsReady};

use crate::seats::{are_seated, named};
use o2_base::NoMemory;
use o2_bus::{Cpu, Outcome};
use o2_changes::{hold_new, make};
use o2_image::Images;
use o2_outer::SureSwap;
use o2_place::SegId;
use o2_regions::{Cause, Held, Region, Regions};
use o2_segbus::{SegBus, attempt};
use o2_service::{Served, serve};
use o2_store::Store;
use std::alloc::Global;
use test_store_calls::live_need;

/// How many segments are ever made.
const MADE: u64 = 65_536;

/// A memory with swapping, and the descriptor table of process 1, which holds segments in it.
#[derive(Drop)]
pub struct Bench {
    /// The segments.
    pub store: Store,
    /// What process 1 holds.
    pub regions: Regions,
    /// No images.
    pub images: Images,
    /// The swap device, which never fails.
    pub swap: SureSwap,
}

impl Bench {
    /// A memory of so many bytes with so many swap blocks and room for so many segments, in which process 1 holds nothing.
    pub fn new(alloc: Global, memory: u32, blocks: u32, segments: u32) -> Result<Bench, NoMemory>
        requires memory { memory ≤ 2 ^ 24 }
        requires blocks { blocks ≤ 65536 }
        requires segments { segments < 2 ^ 32 - 1 }
        ensures { IfOk result (λ b. IsReady b) }
    {
        let store = Store::make(alloc, memory, blocks, segments)?;
        let regions = Regions::new(alloc, 1)?;
        let swap = SureSwap::new(alloc, blocks)?;
        let images = Images::new(Vec::new(alloc), Vec::new(alloc));
        Ok(Bench {
            store,
            regions,
            images,
            swap,
        })
    }

    /// A new segment of zeros that nobody holds, of 1 to 65,536 bytes, out of memory. None where there is no room for it.
    pub fn add(&mut self, size: u32) -> Option<SegId>
        requires ready { IsReady self.old }
        requires size { (0 < size) × (size ≤ 65536) }
        ensures { IsReady self.new }
    {
        if self.store.made() >= MADE {
            return None;
        }
        self.store.law();
        make(&mut self.store, &self.regions, size, 0, false)
    }

    /// Process 1 holds a segment at its lowest free index, with the rights of this access byte; the answer is the index. None
    /// where the segment is stale or no index is free.
    pub fn hold(&mut self, id: SegId, access: u8) -> Option<u16>
        requires { IsReady self.old }
        ensures { IsReady self.new }
    {
        if self.store.size(id).is_none() {
            return None;
        }
        let Some(index) = self.regions.lowest(Region::Private(1), 1) else {
            return None;
        };
        let held = Held {
            id,
            holds: 1,
            cause: Cause::Loaded,
            first: 0,
            reserved: 0,
        };
        hold_new(&self.store, &mut self.regions, 1, index, held, access);
        Some(index)
    }

    /// The segment that process 1 holds under a selector.
    pub fn named(&self, sel: u16) -> Option<SegId>
        requires { IsReady self.now }
    {
        named(&self.regions, sel)
    }

    /// Brings all of these segments into memory together, as a step that needs them, and tells whether they are there. The
    /// sizes are those that they get in the step, or 0.
    pub fn bring(&mut self, pairs: &[(SegId, u32)]) -> bool
        requires { IsReady self.old }
        ensures { IsReady self.new }
    {
        let Some(need) = live_need(&self.store, pairs) else {
            return false;
        };
        let served = serve(
            &need,
            &mut self.store,
            &mut self.regions,
            &self.images,
            &mut self.swap,
        );
        served == Served::Here
    }

    /// Writes the first bytes of a segment in memory, and tells whether it is one and has so many.
    pub fn write(&mut self, id: SegId, bytes: &[u8]) -> bool
        requires { IsReady self.old }
        ensures { IsReady self.new }
    {
        let Some(_at) = self.store.base(id) else {
            return false;
        };
        let Some(size) = self.store.size(id) else {
            return false;
        };
        if bytes.len() > size as usize {
            return false;
        }
        self.store.put(id, 0, bytes);
        true
    }

    /// Process 1 holds a new segment of these bytes, 1 to 65,536, at its lowest free index, with the rights of this access byte.
    /// It is in memory then. None where there is no room for it.
    pub fn insert(&mut self, bytes: &[u8], access: u8) -> Option<SegId>
        requires { IsReady self.old }
        ensures { IsReady self.new }
    {
        let size = bytes.len();
        if size == 0 || size > 65_536 {
            return None;
        }
        let id = self.add(size as u32)?;
        self.hold(id, access)?;
        if self.bring(&[(id, 0)]) && self.write(id, bytes) {
            return Some(id);
        }
        None
    }

    /// The bus of process 1, whose processor has these registers. None where a segment register names what isn't in memory.
    pub fn bus(&mut self, cpu: &Cpu) -> Option<SegBus<'_, '_>>
        requires { IsReady self.old }
    {
        if !are_seated(&self.store, &self.regions, cpu) {
            return None;
        }
        Some(SegBus::new(&mut self.store, &mut self.regions, 1, cpu))
    }

    /// One try of a step of process 1, over what is in memory. None where a segment register names what isn't there.
    pub fn try_step(&mut self, cpu: &mut Cpu) -> Option<Outcome>
        requires { IsReady self.old }
        ensures { IsReady self.new }
    {
        if !are_seated(&self.store, &self.regions, cpu) {
            return None;
        }
        Some(attempt(cpu, &mut self.store, &mut self.regions, 1))
    }
}
