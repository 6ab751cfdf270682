// The table of the calls: the name of each, and what its arguments are.
ghost use Rattle.std.specs.Prelude.{◌≡◌, ◌≤◌, IfSome};
ghost use Rattle.o2_world.specs.Calls.{row_of as row_there};
ghost use Rattle.o2_world.specs.Slots.{words_in, words_of};
ghost use Rattle.o2_gate.specs.Rows.{IsRowOf};
ghost use Rattle.o2_gate.specs.Targets.{name_of, slots_of};

use crate::arguments::Arguments;
use crate::row::{Row, made};
use o2_world::Slot;
use o2_world::Slot::{Heap, Long, Reads, Text, ToLong, ToWord, ToWords, Word, Writes};

/// How many words an argument has.
pub fn words_of(slot: Slot) -> usize
    ensures { result ≡ words_of slot }
{
    match slot {
        Word | Heap => 1,
        Long | Reads | Writes | Text | ToWord | ToLong | ToWords(_) => 2,
    }
}

/// How many words the arguments take together.
pub fn word_count(slots: &[Slot]) -> usize
    requires { words_in slots.now ≤ 6 }
    ensures { result ≡ words_in slots.now }
{
    let mut count = 0;
    for slot in slots {
        count += words_of(*slot);
    }
    count
}

/// The row of a service, where it has one.
#[tactic(auto, unfolding(o2_world::specs::Calls::row_of))]
pub fn row_of(service: u16) -> Option<Row>
    ensures row { IsRowOf (row_there service) result }
    ensures known { IfSome result (λ row. (1 ≤ service) × (service ≤ 28)) }
{
    match service {
        1 => Some(made(b"DosExit", &[Word, Word])),
        2 => Some(made(b"DosGetPID", &[ToWords(3)])),
        3 => Some(made(b"DosRead", &[Word, Writes, Word, ToWord])),
        4 => Some(made(b"DosWrite", &[Word, Reads, Word, ToWord])),
        5 => Some(made(b"DosAllocSeg", &[Word, ToWord, Word])),
        6 => Some(made(b"DosReallocSeg", &[Word, Word])),
        7 => Some(made(b"DosFreeSeg", &[Word])),
        8 => Some(made(b"DosSizeSeg", &[Word, ToLong])),
        9 => Some(made(b"DosLockSeg", &[Word])),
        10 => Some(made(b"DosUnlockSeg", &[Word])),
        11 => Some(made(b"DosCreateCSAlias", &[Word, ToWord])),
        12 => Some(made(b"DosAllocShrSeg", &[Word, Text, ToWord])),
        13 => Some(made(b"DosGetShrSeg", &[Text, ToWord])),
        14 => Some(made(b"DosGiveSeg", &[Word, Word, ToWord])),
        15 => Some(made(b"DosGetSeg", &[Word])),
        16 => Some(made(b"DosAllocHuge", &[Word, Word, ToWord, Word, Word])),
        17 => Some(made(b"DosReallocHuge", &[Word, Word, Word])),
        18 => Some(made(b"DosGetHugeShift", &[ToWord])),
        19 => Some(made(b"DosMemAvail", &[ToLong])),
        20 => Some(made(b"DosSubSet", &[Heap, Word, Word])),
        21 => Some(made(b"DosSubAlloc", &[Heap, ToWord, Word])),
        22 => Some(made(b"DosSubFree", &[Heap, Word, Word])),
        25 => Some(made(b"DosSemRequest", &[ToWords(2), Long])),
        26 => Some(made(b"DosSemClear", &[ToWords(2)])),
        27 => Some(made(b"DosSemWait", &[ToWords(2), Long])),
        28 => Some(made(b"DosSemSet", &[ToWords(2)])),
        _ => None,
    }
}

/// The row of a call on segments.
pub fn row_for(arguments: &Arguments) -> Row
    ensures name { result.name.now ≡ name_of arguments.now }
    ensures slots { result.slots.now ≡ slots_of arguments.now }
{
    match row_of(arguments.service) {
        Some(row) => row,
        None => made(b"", &[]),
    }
}
