// Names and holds, as processes start one after the other.
ghost use Rattle.std.specs.Prelude.{◌≡◌, ◌≤◌, ◌<◌, ◌+◌, [], ℕ, List, All, None, true, Option, IfOk, IfSome, OnOk, if◌then◌else◌};
ghost use Rattle.o2_base.specs.Selectors.{selector_of};
ghost use Rattle.o2_desc.specs.Bits.{is_kind};
ghost use Rattle.o2_image.specs.ImageList.{ImageList, HasImage};
ghost use Rattle.o2_dynlink.specs.Outcome.{LinkedParts};
ghost use Rattle.o2_world.specs.declared.types.Made.{Made as MadeThere};
ghost use Rattle.o2_world.specs.Starts.{name_in, made_with, holds, Built};
ghost use Rattle.o2_load.specs.Memory.{MakesName, KeepsHolds, OthersStay};
ghost use Rattle.o2_load.specs.Holds.{IsHolding, IsReady, Makes, AddsNew, gripped, stage, bytes_with_room};

use crate::made_names::MadeNames;
use crate::starting_memory::{Grip, Segments};
use o2_base::{Fail, ModuleFault, NoMemory, Selector};
use o2_image::Images;
use o2_world::Made;
use std::alloc::Global;

/// The memory of segments as processes start, with the names that are common, and the selectors of the process that starts.
#[derive(Drop)]
pub struct Build<S: Drop> {
    pub segments: S,
    pub made: MadeNames,
    pub selectors: Vec<u16>,
}

/// The name of a segment, where it is common and one is made.
#[tactic(auto, using(crate::proofs::Names::name_is_made))]
pub(crate) fn found(made: &MadeNames, grip: &Grip) -> Option<u32>
    requires { grip.now.number < 256 }
    ensures value { result ≡ (if grip.now.common then name_in made.now grip.now.place grip.now.number else None) }
    ensures some { (count : ℕ) → All (λ (d : MadeThere). d.name < count) made.now → IfSome result (λ name. name < count) }
{
    if grip.common {
        made.name(grip.place, grip.number)
    } else {
        None
    }
}

/// One common name more, where the segment is common.
fn note_made(made: &mut MadeNames, grip: &Grip, name: u32) -> Result<(), NoMemory>
    requires { grip.now.common ≡ true → grip.now.number < 256 }
    ensures { OnOk result (made.new ≡ made_with made.old (gripped grip.now []) name) }
{
    if grip.common {
        made.push(Made {
            place: grip.place,
            number: grip.number,
            name,
        })?;
    }
    Ok(())
}

/// The selector of an index in the local descriptor table.
pub(crate) fn selector_of(index: u16) -> u16
    requires { index < 8192 }
    ensures { result ≡ selector_of index }
{
    Selector::local(u32::from(index)).0
}

impl<S: Segments> Build<S> {
    /// The process holds a name under an index.
    pub(crate) fn hold(
        &mut self,
        alloc: Global,
        pid: u16,
        grip: &Grip,
        name: u32,
    ) -> Result<(), NoMemory>
        requires whole { S.whole self.old.segments }
        requires name { name < (S.seen self.old.segments).count }
        requires takes { (S.seen self.old.segments).takes pid grip.now.index ≡ true }
        requires rights { is_kind grip.now.rights ≡ true }
        requires index { grip.now.index < 8192 }
        ensures adds { OnOk result ((images : ImageList) (most : ℕ) (b : Built) (bytes : List ℕ)
            → IsHolding (S.names self.old.segments images) (stage (S.seen self.old.segments) self.old) most pid b
            → IsHolding (S.names self.new.segments images) (stage (S.seen self.new.segments) self.new) most pid (holds b (gripped grip.now bytes) name)) }
        ensures others { OthersStay (S.seen self.old.segments) (S.seen self.new.segments) pid }
        ensures ready { (l : LinkedParts) → IsReady (S.whole self.old.segments) (S.seen self.old.segments) self.old.made l
            → OnOk result (IsReady (S.whole self.new.segments) (S.seen self.new.segments) self.new.made l) }
    {
        self.segments.hold(alloc, pid, grip, name)?;
        self.selectors.push(selector_of(grip.index))?;
        Ok(())
    }

    /// One name more, for a segment whose bytes are the first `size` ones of the grip's image, with `room` zeros behind them.
    fn name(
        &mut self,
        alloc: Global,
        images: &Images,
        grip: &Grip,
        size: u32,
        room: u32,
    ) -> Result<u32, Fail<ModuleFault>>
        requires whole { S.whole self.old.segments }
        requires image { HasImage images.now grip.now.place grip.now.number }
        requires some { 0 < size }
        requires small { size + room ≤ 65536 }
        requires rights { is_kind grip.now.rights ≡ true }
        requires number { grip.now.common ≡ true → grip.now.number < 256 }
        ensures makes { Makes (S.names self.old.segments images.now) (stage (S.seen self.old.segments) self.old)
            (S.names self.new.segments images.now) (stage (S.seen self.new.segments) self.new)
            (gripped grip.now (bytes_with_room images.now grip.now size room)) result }
        ensures name { IfOk result (MakesName (S.seen self.old.segments) (S.seen self.new.segments)) }
        ensures whole { OnOk result (S.whole self.new.segments) }
        ensures held { KeepsHolds (S.seen self.old.segments) (S.seen self.new.segments) }
        ensures ready { (l : LinkedParts) → IsReady (S.whole self.old.segments) (S.seen self.old.segments) self.old.made l
            → OnOk result (IsReady (S.whole self.new.segments) (S.seen self.new.segments) self.new.made l) }
    {
        let name = self.segments.add(alloc, images, grip, size, room)?;
        note_made(&mut self.made, grip, name)?;
        Ok(name)
    }

    /// The process holds a new name.
    pub(crate) fn add(
        &mut self,
        alloc: Global,
        images: &Images,
        pid: u16,
        grip: &Grip,
        size: u32,
        room: u32,
    ) -> Result<(), Fail<ModuleFault>>
        requires image { HasImage images.now grip.now.place grip.now.number }
        requires some { 0 < size }
        requires small { size + room ≤ 65536 }
        requires rights { is_kind grip.now.rights ≡ true }
        requires number { grip.now.common ≡ true → grip.now.number < 256 }
        requires takes { (S.seen self.old.segments).takes pid grip.now.index ≡ true }
        requires index { grip.now.index < 8192 }
        requires whole { S.whole self.old.segments }
        ensures adds { AddsNew (S.names self.old.segments images.now) (stage (S.seen self.old.segments) self.old)
            (S.names self.new.segments images.now) (stage (S.seen self.new.segments) self.new)
            pid (gripped grip.now (bytes_with_room images.now grip.now size room)) result }
        ensures others { OthersStay (S.seen self.old.segments) (S.seen self.new.segments) pid }
        ensures ready { (l : LinkedParts) → IsReady (S.whole self.old.segments) (S.seen self.old.segments) self.old.made l
            → OnOk result (IsReady (S.whole self.new.segments) (S.seen self.new.segments) self.new.made l) }
    {
        let name = self.name(alloc, images, grip, size, room)?;
        self.hold(alloc, pid, grip, name)?;
        Ok(())
    }
}
