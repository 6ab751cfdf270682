// The calls of the service as tests make them, over tables of processes that hold nothing.
ghost use Rattle.std.specs.Prelude.{IfOk};
ghost use Rattle.o2_store.specs.Trials.{IsReady};
ghost use Rattle.o2_service.specs.Trials.{IsUnheld};

use o2_base::NoMemory;
use o2_image::Images;
use o2_outer::SwapDevice;
use o2_place::SegId;
use o2_regions::Regions;
use o2_service::{Served, serve};
use o2_store::Store;
use std::alloc::Global;
use test_store_calls::live_need;

/// The tables of a process that holds nothing.
pub fn nobody(alloc: Global) -> Result<Regions, NoMemory>
    ensures { IfOk result (λ r. IsUnheld r) }
{
    let regions = Regions::new(alloc, 1)?;
    Ok(regions)
}

/// Brings in what is needed, and tells what that came to; none where it isn't live.
pub fn bring<S: SwapDevice>(
    store: &mut Store,
    regions: &mut Regions,
    images: &Images,
    swap: &mut S,
    pairs: &[(SegId, u32)],
) -> Option<Served>
    requires ready { IsReady store.old images.now (S.blocks swap.old) }
    requires unheld { IsUnheld regions.old }
    ensures ready { IsReady store.new images.now (S.blocks swap.new) }
    ensures unheld { IsUnheld regions.new }
{
    let need = live_need(store, pairs)?;
    Some(serve(&need, store, regions, images, swap))
}
