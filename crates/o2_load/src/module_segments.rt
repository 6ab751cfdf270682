// The segments of a module, as a process holds them.
ghost use Rattle.std.specs.Prelude.{◌≡◌, ◌<◌, ◌+◌, ℕ, List, true, Some, OnOk, option_map, ◌==◌};
ghost use Rattle.o2_desc.specs.Bits.{is_kind};
ghost use Rattle.o2_ne_segs.specs.declared.segment.Segment.{Segment};
ghost use Rattle.o2_ne_segs.specs.SegmentTable.{nth_segment};
ghost use Rattle.o2_image.specs.Getters.{nth};
ghost use Rattle.o2_image.specs.ImageList.{ImageList, Exists};
ghost use Rattle.o2_world.specs.Starts.{is_common};
ghost use Rattle.o2_load.specs.Memory.{OthersStay};
ghost use Rattle.o2_load.specs.Holds.{IsReady, Adds, gripped, stage};
ghost use Rattle.o2_load.specs.Loads.{rights_of, room_at, is_shared, index_at, loaded_segment, segment_holding};

use crate::build::{Build, found};
use crate::starting_memory::{Grip, Segments};
use o2_base::{Fail, ModuleFault};
use o2_desc::Access;
use o2_dynlink::Linked;
use o2_image::Module;
use o2_ne_segs::{Kind, Segment};
use std::alloc::Global;

/// The access byte of a segment: present, with privilege level 3.
pub(crate) fn rights_of(kind: Kind) -> Access
    ensures value { result.0 ≡ rights_of kind }
    ensures kind { is_kind result.0 ≡ true }
{
    match kind {
        Kind::Code => Access::READABLE_CODE,
        Kind::CodeOnly => Access::RUN_ONLY_CODE,
        Kind::Writable => Access::WRITABLE_DATA,
        Kind::ReadOnly => Access::READ_ONLY_DATA,
    }
}

/// Whether data is one for all processes.
fn is_shared(module: &Module, segment: &Segment) -> bool
    ensures { result ≡ is_shared «module».now segment.now }
{
    segment.flags & 0x20 != 0 || module.is_library() && module.head().flags % 4 == 1
}

/// Whether one name stands for a segment in all processes: always, but where it is writable and not shared.
fn is_common(module: &Module, segment: &Segment) -> bool
    ensures { (images : ImageList) (place n : ℕ) → result ≡ is_common (loaded_segment images place «module».now n segment.now) }
{
    match segment.kind {
        Kind::Writable => is_shared(module, segment),
        Kind::Code => true,
        Kind::CodeOnly => true,
        Kind::ReadOnly => true,
    }
}

/// The room behind the image of a segment: behind automatic data a program has its stack and its heap, and a library its heap.
fn room_behind(module: &Module, n: u16) -> u32
    ensures { result ≡ room_at «module».now n }
{
    let head = module.head();
    if n == head.auto_seg {
        if module.is_library() {
            head.heap as u32
        } else {
            head.stack as u32 + head.heap as u32
        }
    } else {
        0
    }
}

/// A segment as a process holds it, all but its bytes.
fn grip(module: &Module, place: u16, n: u16, segment: &Segment, index: u16) -> Grip
    ensures grip { (images : ImageList) (bytes : List ℕ) → index ≡ index_at images place n
        → gripped result bytes ≡ record (segment_holding images place «module».now n segment.now) { bytes = bytes } }
    ensures index { result.index ≡ index }
    ensures place { result.place ≡ place }
    ensures number { result.number ≡ n }
    ensures rights { is_kind result.rights ≡ true }
{
    Grip {
        index,
        place,
        number: n,
        rights: rights_of(segment.kind).0,
        common: is_common(module, segment),
    }
}

/// A process holds one segment more, under its name that is made or a new one. NoSegment where one more name is wanted than there
/// may be.
#[tactic(auto, using(crate::proofs::Images::has_image, crate::proofs::Images::room_behind_fits, crate::proofs::Images::size_is_some))]
pub(crate) fn hold_segment<S: Segments>(
    alloc: Global,
    build: &mut Build<S>,
    linked: &Linked,
    module: &Module,
    pid: u16,
    place: u16,
    n: u16,
    index: u16,
) -> Result<(), Fail<ModuleFault>>
    requires process { Exists linked.now.programs pid }
    requires place { option_map (λ p. p.0) (nth linked.now.images.modules place) ≡ Some «module».now }
    requires there { Exists «module».now.segments n }
    requires index { index ≡ index_at linked.now.images place n }
    requires small { index < 8192 }
    requires ready { IsReady (S.whole build.old.segments) (S.seen build.old.segments) build.old.made linked.now }
    ensures adds { (s : Segment) → nth_segment n «module».now.segments ≡ Some s
        → Adds (S.names build.old.segments linked.now.images) (stage (S.seen build.old.segments) build.old)
        (S.names build.new.segments linked.now.images) (stage (S.seen build.new.segments) build.new)
        pid (segment_holding linked.now.images place «module».now n s) result }
    ensures others { OthersStay (S.seen build.old.segments) (S.seen build.new.segments) pid }
    ensures ready { OnOk result (IsReady (S.whole build.new.segments) (S.seen build.new.segments) build.new.made linked.now) }
{
    let Some(segment) = module.segment(n) else {
        unreachable!()
    };
    module.is_runnable();
    let grip = grip(module, place, n, &segment, index);
    match found(&build.made, &grip) {
        Some(name) => Ok(build.hold(alloc, pid, &grip, name)?),
        None => {
            let room = room_behind(module, n);
            build.add(alloc, linked.images(), pid, &grip, segment.size, room)
        }
    }
}
