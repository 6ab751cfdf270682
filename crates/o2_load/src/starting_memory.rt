// What a start asks of the memory in which processes start.
ghost use Rattle.std.specs.Prelude.{◌≡◌, ◌≢◌, ◌≤◌, ◌<◌, ◌+◌, ℕ, Option, Some, true, IfOk, OnOk};
ghost use Rattle.o2_base.specs.declared.faults.ModuleFault.TheVariants.{NoSegment};
ghost use Rattle.o2_desc.specs.Bits.{is_kind};
ghost use Rattle.o2_image.specs.ImageList.{ImageList, HasImage};
ghost use Rattle.o2_world.specs.World.{Segment};
ghost use Rattle.o2_world.specs.Opening.{held_by_load};
ghost use Rattle.o2_load.specs.Memory.{Memory, MakesName, KeepsHolds, OthersStay};
ghost use Rattle.o2_load.specs.Holds.{HoldsAt, OnBad, new_segment};

use o2_base::{Fail, ModuleFault, NoMemory};
use o2_image::Images;
use std::alloc::Global;

/// A segment as a process holds it, all but its bytes.
#[derive(Clone, Copy, Debug)]
pub struct Grip {
    /// Its index in the process's local descriptor table.
    pub index: u16,
    /// The place of its module from 1, or 0 for an environment.
    pub place: u16,
    /// Its number in the module from 1, or the number of the environment's process.
    pub number: u16,
    /// The access byte.
    pub rights: u8,
    /// Whether one name stands for it in all processes.
    pub common: bool,
}

/// A memory in which processes start: names are made, numbered from 0 in their order, and processes hold them. Contracts see
/// it as `seen`, and by `names` which segment each name has with the images of the run.
pub trait Segments: Drop {
    ghost seen: { Self → Memory };

    ghost names: { Self → ImageList → ℕ → Option Segment → Type 0 };

    /// What holds of it as long as processes start.
    ghost whole: { Self → Type 0 };

    /// One name more, for a segment whose bytes are the first `size` ones of the grip's image, with `room` zeros behind them;
    /// its number. NoSegment exactly where there are as many names as there may be.
    fn add(
        &mut self,
        alloc: Global,
        images: &Images,
        grip: &Grip,
        size: u32,
        room: u32,
    ) -> Result<u32, Fail<ModuleFault>>
        requires whole { whole self.old }
        requires image { HasImage images.now grip.now.place grip.now.number }
        requires some { 0 < size }
        requires small { size + room ≤ 65536 }
        requires rights { is_kind grip.now.rights ≡ true }
        ensures whole { OnOk result (whole self.new) }
        ensures made { IfOk result (MakesName (seen self.old) (seen self.new)) }
        ensures segment { IfOk result (λ name. names self.new images.now name (Some (new_segment images.now grip.now size room))) }
        ensures others { OnOk result ((n : ℕ) (o : Option Segment) → n ≢ (seen self.old).count → names self.old images.now n o → names self.new images.now n o) }
        ensures full { OnBad result (λ fault. (fault ≡ NoSegment) × ((seen self.old).most ≤ (seen self.old).count)) }
        ensures held { KeepsHolds (seen self.old) (seen self.new) };

    /// A process holds a name under the grip's index, in place of what it held there.
    fn hold(&mut self, alloc: Global, pid: u16, grip: &Grip, name: u32) -> Result<(), NoMemory>
        requires whole { whole self.old }
        requires name { name < (seen self.old).count }
        requires takes { (seen self.old).takes pid grip.now.index ≡ true }
        requires rights { is_kind grip.now.rights ≡ true }
        ensures whole { OnOk result (whole self.new) }
        ensures holds { OnOk result (HoldsAt (seen self.old) (seen self.new) pid grip.now.index (held_by_load name grip.now.rights)) }
        ensures others { OthersStay (seen self.old) (seen self.new) pid }
        ensures count { OnOk result ((seen self.new).count ≡ (seen self.old).count) }
        ensures names { OnOk result ((images : ImageList) (n : ℕ) (o : Option Segment) → names self.old images n o → names self.new images n o) };
}
