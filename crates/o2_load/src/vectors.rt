// Byte vectors as the memory in which processes start.
ghost use Rattle.std.specs.Prelude.{◌≡◌, ◌≤◌, ◌<◌, ◌+◌, ◌++◌, length, replicate, IfOk};
ghost use Rattle.o2_bus.specs.Plain.{bytes_in};
ghost use Rattle.o2_image.specs.ImageList.{ImageList, HasImage, image_front};
ghost use Rattle.o2_world.specs.Views.{segment_bytes};
ghost use Rattle.o2_load.specs.Progresses.{IsEmpty};
ghost use Rattle.o2_load.specs.ByVectors.{vectors_seen, AreFilled};

use crate::starting_memory::{Grip, Segments};
use o2_base::{Fail, ModuleFault, NoMemory};
use o2_bus::Plain;
use o2_image::Images;
use std::alloc::Global;

/// A memory of byte vectors, with at most so many names.
#[derive(Drop)]
pub struct Vectors {
    pub plain: Plain,
    pub most: u32,
}

/// The image of a segment, with zeros behind it.
fn image(
    alloc: Global,
    images: &Images,
    place: u16,
    n: u16,
    size: u32,
    room: u32,
) -> Result<Vec<u8>, NoMemory>
    requires image { HasImage images.now place n }
    requires small { size + room ≤ 65536 }
    ensures value { IfOk result (λ v. v.items ≡ image_front images.now place n size ++ replicate room 0) }
    ensures len { IfOk result (λ v. length v.items ≡ size + room) }
{
    let mut bytes = vec![in alloc; 0u8; size as usize]?;
    images.fill(place, n, &mut bytes);
    bytes.resize(size as usize + room as usize, 0)?;
    Ok(bytes)
}

impl Vectors {
    /// No names.
    pub(crate) fn new(alloc: Global, most: u32) -> Result<Vectors, NoMemory>
        ensures empty { IfOk result (λ v. (images : ImageList) → IsEmpty (λ n o. segment_bytes o ≡ bytes_in v.plain n) (vectors_seen v)) }
        ensures most { IfOk result (λ v. v.most ≡ most) }
        ensures filled { IfOk result AreFilled }
    {
        Ok(Vectors {
            plain: Plain::new(alloc)?,
            most,
        })
    }
}

impl Segments for Vectors {
    ghost seen = { vectors_seen };

    ghost names = { λ v images n o. segment_bytes o ≡ bytes_in v.plain n };

    ghost whole = { AreFilled };

    fn add(
        &mut self,
        alloc: Global,
        images: &Images,
        grip: &Grip,
        size: u32,
        room: u32,
    ) -> Result<u32, Fail<ModuleFault>> {
        if self.plain.count() >= self.most as usize {
            return Err(Fail::Bad(ModuleFault::NoSegment));
        }
        let bytes = image(alloc, images, grip.place, grip.number, size, room)?;
        Ok(self.plain.add(bytes)?)
    }

    fn hold(&mut self, alloc: Global, pid: u16, grip: &Grip, name: u32) -> Result<(), NoMemory> {
        self.plain.hold(alloc, pid, grip.index, name, grip.rights)
    }
}
