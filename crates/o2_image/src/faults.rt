// Faults of the parts, as faults of a module.
ghost use Rattle.std.specs.Prelude.{◌≡◌};
ghost use Rattle.o2_image.specs.Faults.{SegFailsAs, of_ne, of_part, of_record};

use o2_base::{Fail, ModuleFault, NeFault, Part, SegFault, Which};

// What is wrong with a record. Each record's check answers by it, so it is small, and a module's fault isn't.
#[derive(Clone, Copy)]
pub(crate) enum RecordFault {
    // A place leaves the segment's bytes or meets a byte that is patched already: the segment from 1, and the place.
    Chain(u16, u16),
    // There is no such source or target: the segment from 1, and the record from 0.
    Target(u16, u16),
}

// A fault of a record, as one of the module.
pub(crate) fn of_record(fault: RecordFault) -> ModuleFault
    ensures { result ≡ of_record fault }
{
    match fault {
        RecordFault::Chain(seg, at) => ModuleFault::BadChain(seg, at),
        RecordFault::Target(seg, number) => ModuleFault::BadTarget(seg, number),
    }
}

// A fault of the header or of a table, as one of the module.
pub(crate) fn of_ne(fault: NeFault) -> ModuleFault
    ensures { result ≡ of_ne fault }
{
    match fault {
        NeFault::NotMz => ModuleFault::NotMz,
        NeFault::NotNe => ModuleFault::NotNe,
        NeFault::Truncated(at) => ModuleFault::Truncated(at),
        NeFault::NotOs2 => ModuleFault::NotOs2,
        NeFault::LinkErrors => ModuleFault::LinkErrors,
        NeFault::BadTable(which) => ModuleFault::BadTable(which),
        NeFault::OutOfProfile(which) => ModuleFault::OutOfProfile(which),
    }
}

// What a segment has, as a refusal of the module names it.
pub(crate) fn of_part(part: Part) -> Which
    ensures { result ≡ of_part part }
{
    match part {
        Part::Iterated => Which::Iterated,
        Part::Conforming => Which::Conforming,
        Part::Ring => Which::Ring,
        Part::Wide => Which::Wide,
    }
}

// A fault of a segment's reading, as one of the module, or want of memory.
pub(crate) fn of_seg(fault: SegFault) -> Fail<ModuleFault>
    ensures { SegFailsAs fault result }
{
    match fault {
        SegFault::NoMemory => Fail::NoMemory,
        SegFault::Truncated(at) => Fail::Bad(ModuleFault::Truncated(at)),
        SegFault::OutOfProfile(part) => Fail::Bad(ModuleFault::OutOfProfile(of_part(part))),
    }
}
