// Descriptors that selectors name, and what loads ask of them.
ghost use Rattle.std.specs.Prelude.{◌≡◌, ◌+◌, ◌<◌, option_map};
ghost use Rattle.o2_regions.specs.Maps.{IsProcess};
ghost use Rattle.o2_segbus.specs.Words.{gone_held, gone_named, named_descriptor, loaded_descriptor, target_of};

use o2_bus::LoadTarget;
use o2_desc::{Access, Descriptor};
use o2_regions::{Held, Regions};
use o2_store::Store;

/// The descriptor that a selector names in a process's table.
#[inline]
pub(crate) fn named(regions: &Regions, pid: u16, sel: u16) -> Option<Descriptor>
    requires { IsProcess regions.now pid }
    ensures { result ≡ named_descriptor regions.now pid sel }
{
    if sel / 4 % 2 == 1 {
        regions.descriptor(pid, sel / 8)
    } else {
        None
    }
}

/// The hidden part of a register after the load of a selector.
#[inline(always)]
pub(crate) fn loaded(regions: &Regions, pid: u16, sel: u16) -> Descriptor
    requires { IsProcess regions.now pid }
    ensures { result ≡ loaded_descriptor regions.now pid sel }
{
    if sel < 4 {
        return Descriptor::EMPTY;
    }
    match named(regions, pid, sel) {
        Some(descriptor) => descriptor,
        None => Descriptor::EMPTY,
    }
}

/// The size of the segment that a selector names in a process's table.
pub(crate) fn size_named(regions: &Regions, pid: u16, sel: u16) -> Option<u32>
    requires { IsProcess regions.now pid }
    ensures { result ≡ option_map (λ d. d.limit + 1) (named_descriptor regions.now pid sel) }
{
    match named(regions, pid, sel) {
        Some(descriptor) => Some(descriptor.limit as u32 + 1),
        None => None,
    }
}

// Whether a segment that is held was discarded.
fn is_discarded(store: &Store, held: Option<Held>) -> bool
    ensures { result ≡ gone_held store.now held }
{
    match held {
        Some(held) => match store.attr(held.id) {
            Some(attr) => attr.gone,
            None => false,
        },
        None => false,
    }
}

/// Whether a selector names a segment that was discarded.
pub(crate) fn names_discarded(store: &Store, regions: &Regions, pid: u16, sel: u16) -> bool
    requires { IsProcess regions.now pid }
    ensures { result ≡ gone_named store.now regions.now pid sel }
{
    if sel / 4 % 2 == 1 {
        is_discarded(store, regions.held(pid, sel / 8))
    } else {
        false
    }
}

/// What a load asks of the segment of a descriptor that a selector names. The store is looked at only where the descriptor isn't
/// present.
#[inline(always)]
pub(crate) fn target(
    descriptor: Option<Descriptor>,
    store: &Store,
    regions: &Regions,
    pid: u16,
    sel: u16,
) -> Option<LoadTarget>
    requires { IsProcess regions.now pid }
    ensures { result ≡ option_map (target_of (gone_named store.now regions.now pid sel)) descriptor }
{
    match descriptor {
        Some(d) => {
            let present = Access(d.access).is_present();
            Some(LoadTarget {
                access: d.access,
                present,
                discarded: !present && names_discarded(store, regions, pid, sel),
            })
        }
        None => None,
    }
}
