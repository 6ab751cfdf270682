// A store and the maps of processes as the memory in which processes start.
ghost use Rattle.std.specs.Prelude.{◌≡◌, ◌≤◌, ◌+◌, ◌<◌, ◌&&◌, IsSome, not, false};
ghost use Rattle.o2_isa.specs.View.{is_code, is_writable};
ghost use Rattle.o2_store.specs.Shelf.{entry, entry_of};
ghost use Rattle.o2_opening.specs.Starting.{stored_seen, stored_names, IsStarting};

use crate::loading::load;
use o2_base::{Fail, ModuleFault, NoMemory};
use o2_desc::Access;
use o2_entries::Attr;
use o2_image::Images;
use o2_load::{Grip, Segments};
use o2_place::SegId;
use o2_regions::Regions;
use o2_store::Store;
use std::alloc::Global;

/// A store and the maps of processes, with the segment of each name, by its number.
#[derive(Drop)]
pub struct Stored {
    pub store: Store,
    pub regions: Regions,
    pub ids: Vec<SegId>,
}

/// The attributes of a segment that comes with a module: clean where nobody may write it, and shared where it is data that one
/// name stands for in all processes.
fn attributes(grip: &Grip) -> Attr
    ensures clean { result.clean ≡ not (is_writable grip.now.rights) }
    ensures shared { result.shared ≡ (grip.now.common && not (is_code grip.now.rights)) }
    ensures flags { result.flags ≡ 0 }
    ensures lock { result.lock ≡ 0 }
    ensures whole { result.gone ≡ false }
{
    let access = Access(grip.rights);
    Attr {
        flags: 0,
        lock: 0,
        clean: !access.is_writable(),
        shared: grip.common && !access.is_code(),
        gone: false,
    }
}

/// A size less 1.
fn less_one(size: u32) -> u16
    requires some { 0 < size }
    requires most { size ≤ 65536 }
    ensures { result + 1 ≡ size }
{
    (size - 1) as u16
}

/// The limit of a live segment: its size less 1.
fn limit_of(store: &Store, id: SegId) -> u16
    requires { IsSome (entry_of store.now id) }
    ensures { result + 1 ≡ (entry store.now id.key).size }
{
    store.law();
    let Some(size) = store.size(id) else {
        unreachable!()
    };
    less_one(size)
}

impl Segments for Stored {
    ghost seen = { stored_seen };

    ghost names = { stored_names };

    ghost whole = { IsStarting };

    fn add(
        &mut self,
        _alloc: Global,
        _images: &Images,
        grip: &Grip,
        size: u32,
        room: u32,
    ) -> Result<u32, Fail<ModuleFault>> {
        self.store.law();
        let attr = attributes(grip);
        let added = self
            .store
            .add_front(grip.place, grip.number, size, size + room, attr);
        let Some(id) = added else {
            return Err(Fail::Bad(ModuleFault::NoSegment));
        };
        self.ids.push(id)?;
        Ok(id.age as u32)
    }

    fn hold(&mut self, _alloc: Global, pid: u16, grip: &Grip, name: u32) -> Result<(), NoMemory> {
        self.regions.law();
        let id = self.ids[name as usize];
        let limit = limit_of(&self.store, id);
        load(&mut self.regions, pid, grip.index, id, grip.rights, limit);
        Ok(())
    }
}
