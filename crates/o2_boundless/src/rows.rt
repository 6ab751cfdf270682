// The calls, each with its name and its slots.
ghost use Rattle.std.specs.Prelude.{◌≡◌};
ghost use Rattle.o2_world.specs.Calls.{row_of};
ghost use Rattle.o2_boundless.specs.Outcomes.{shape_by, shape_in};

use o2_world::Slot;

/// A row of the table of calls.
#[derive(Clone, Copy)]
pub struct Row {
    pub name: &'static [u8],
    pub slots: &'static [Slot],
}

/// A row of its parts.
fn make_row(name: &'static [u8], slots: &'static [Slot]) -> Option<Row>
    ensures { shape_in result ≡ Some (name.now, slots.now) }
{
    Some(Row { name, slots })
}

/// The row of a service, where it has one.
#[tactic(auto, unfolding(o2_world::specs::Calls::row_of))]
pub(crate) fn row_of(service: u16) -> Option<Row>
    ensures { shape_in result ≡ shape_by (row_of service) }
{
    use Slot::{Heap, Long, Reads, Text, ToLong, ToWord, ToWords, Word, Writes};
    match service {
        1 => make_row(b"DosExit", &[Word, Word]),
        2 => make_row(b"DosGetPID", &[ToWords(3)]),
        3 => make_row(b"DosRead", &[Word, Writes, Word, ToWord]),
        4 => make_row(b"DosWrite", &[Word, Reads, Word, ToWord]),
        5 => make_row(b"DosAllocSeg", &[Word, ToWord, Word]),
        6 => make_row(b"DosReallocSeg", &[Word, Word]),
        7 => make_row(b"DosFreeSeg", &[Word]),
        8 => make_row(b"DosSizeSeg", &[Word, ToLong]),
        9 => make_row(b"DosLockSeg", &[Word]),
        10 => make_row(b"DosUnlockSeg", &[Word]),
        11 => make_row(b"DosCreateCSAlias", &[Word, ToWord]),
        12 => make_row(b"DosAllocShrSeg", &[Word, Text, ToWord]),
        13 => make_row(b"DosGetShrSeg", &[Text, ToWord]),
        14 => make_row(b"DosGiveSeg", &[Word, Word, ToWord]),
        15 => make_row(b"DosGetSeg", &[Word]),
        16 => make_row(b"DosAllocHuge", &[Word, Word, ToWord, Word, Word]),
        17 => make_row(b"DosReallocHuge", &[Word, Word, Word]),
        18 => make_row(b"DosGetHugeShift", &[ToWord]),
        19 => make_row(b"DosMemAvail", &[ToLong]),
        20 => make_row(b"DosSubSet", &[Heap, Word, Word]),
        21 => make_row(b"DosSubAlloc", &[Heap, ToWord, Word]),
        22 => make_row(b"DosSubFree", &[Heap, Word, Word]),
        25 => make_row(b"DosSemRequest", &[ToWords(2), Long]),
        26 => make_row(b"DosSemClear", &[ToWords(2)]),
        27 => make_row(b"DosSemWait", &[ToWords(2), Long]),
        28 => make_row(b"DosSemSet", &[ToWords(2)]),
        _ => None,
    }
}
