// The calls of a store as tests make them: over images and a device that serve it before and after.
ghost use Rattle.std.specs.Prelude.{◌≡◌, ◌+◌, ◌<◌, ◌≤◌, ◌^◌, false, true, length};
ghost use Rattle.o2_store.specs.Pictures.{HasPicture};
ghost use Rattle.o2_store.specs.Trials.{IsReady};

use crate::needs::is_whole;
use o2_image::Images;
use o2_outer::SwapDevice;
use o2_place::SegId;
use o2_store::{Attr, Brought, Store};

fn attributes(clean: bool) -> Attr
    ensures { result ≡ record { flags = 0; lock = 0; clean = clean; shared = false; gone = false } }
{
    Attr {
        flags: 0,
        lock: 0,
        clean,
        shared: false,
        gone: false,
    }
}

/// Adds a segment of zeros.
pub fn add<S: SwapDevice>(store: &mut Store, images: &Images, swap: &S, size: u32) -> Option<SegId>
    requires ready { IsReady store.old images.now (S.blocks swap.now) }
    requires size { (0 < size) × (size ≤ 65536) }
    requires few { store.old.made < 2 ^ 32 }
    ensures ready { IsReady store.new images.now (S.blocks swap.now) }
    ensures few { store.new.made ≤ store.old.made + 1 }
{
    store.law();
    store.add_zero(size, attributes(false))
}

/// Adds a clean segment of the first process's environment.
pub fn add_environment<S: SwapDevice>(
    store: &mut Store,
    images: &Images,
    swap: &S,
    size: u32,
) -> Option<SegId>
    requires ready { IsReady store.old images.now (S.blocks swap.now) }
    requires image { HasPicture images.now 0 1 }
    requires size { (0 < size) × (size ≤ 65536) }
    requires few { store.old.made < 2 ^ 32 }
    ensures ready { IsReady store.new images.now (S.blocks swap.now) }
    ensures few { store.new.made ≤ store.old.made + 1 }
{
    store.law();
    store.add_image(0, 1, size, attributes(true))
}

/// Brings a segment in that isn't discarded.
pub fn bring<S: SwapDevice>(
    store: &mut Store,
    id: SegId,
    keep: &[SegId],
    images: &Images,
    swap: &mut S,
) -> Brought
    requires { IsReady store.old images.now (S.blocks swap.old) }
    ensures ready { IsReady store.new images.now (S.blocks swap.new) }
    ensures made { store.new.made ≡ store.old.made }
{
    if !is_whole(store, id) {
        return Brought::Stale;
    }
    store.bring(id, keep, images, swap)
}

/// Takes a segment out of memory, where it isn't locked.
pub fn evict<S: SwapDevice>(
    store: &mut Store,
    id: SegId,
    images: &Images,
    swap: &mut S,
) -> Option<Brought>
    requires { IsReady store.old images.now (S.blocks swap.old) }
    ensures ready { IsReady store.new images.now (S.blocks swap.new) }
    ensures made { store.new.made ≡ store.old.made }
{
    if store.attr(id)?.lock > 0 {
        return None;
    }
    Some(store.evict(id, swap))
}

/// Gives a segment another size.
pub fn resize<S: SwapDevice>(
    store: &mut Store,
    id: SegId,
    size: u32,
    keep: &[SegId],
    images: &Images,
    swap: &mut S,
) -> Brought
    requires ready { IsReady store.old images.now (S.blocks swap.old) }
    requires size { (0 < size) × (size ≤ 65536) }
    ensures ready { IsReady store.new images.now (S.blocks swap.new) }
    ensures made { store.new.made ≡ store.old.made }
{
    store.resize(id, size, keep, images, swap)
}

/// Writes a byte into a segment that is in memory, isn't clean and reaches so far, and tells whether it is one.
pub fn write<S: SwapDevice>(
    store: &mut Store,
    images: &Images,
    swap: &S,
    id: SegId,
    offset: u32,
    byte: u8,
) -> bool
    requires { IsReady store.old images.now (S.blocks swap.now) }
    ensures ready { IsReady store.new images.now (S.blocks swap.now) }
    ensures made { store.new.made ≡ store.old.made }
{
    store.law();
    let Some(_at) = store.base(id) else {
        return false;
    };
    let Some(attr) = store.attr(id) else {
        return false;
    };
    let Some(size) = store.size(id) else {
        return false;
    };
    if attr.clean || offset >= size {
        return false;
    }
    store.put(id, offset, &[byte]);
    true
}

/// Locks a segment in memory or takes its lock, and tells whether it is there.
pub fn lock<S: SwapDevice>(
    store: &mut Store,
    images: &Images,
    swap: &S,
    id: SegId,
    lock: u8,
) -> bool
    requires { IsReady store.old images.now (S.blocks swap.now) }
    ensures ready { IsReady store.new images.now (S.blocks swap.now) }
    ensures made { store.new.made ≡ store.old.made }
{
    if store.base(id).is_none() {
        return false;
    }
    let Some(attr) = store.attr(id) else {
        return false;
    };
    let attr = Attr {
        flags: attr.flags,
        lock,
        clean: attr.clean,
        shared: attr.shared,
        gone: false,
    };
    store.set_attr(id, attr)
}

/// Removes a segment.
pub fn remove<S: SwapDevice>(store: &mut Store, images: &Images, swap: &S, id: SegId) -> bool
    requires { IsReady store.old images.now (S.blocks swap.now) }
    ensures ready { IsReady store.new images.now (S.blocks swap.now) }
    ensures made { store.new.made ≡ store.old.made }
{
    store.law();
    store.remove(id)
}

/// Tells the clock of a segment.
pub fn touch<S: SwapDevice>(store: &mut Store, images: &Images, swap: &S, id: SegId) -> bool
    requires { IsReady store.old images.now (S.blocks swap.now) }
    ensures ready { IsReady store.new images.now (S.blocks swap.now) }
    ensures made { store.new.made ≡ store.old.made }
{
    store.touch(id)
}
