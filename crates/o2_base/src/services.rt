// The services of the module DOSCALLS.
ghost use Rattle.std.specs.Prelude.{◌≡◌, ◌≤◌, Some};
ghost use Rattle.o2_base.specs.Services.{services, row_at, is_built as has_gate, gate_of, row};

/// A service: a call of the module DOSCALLS, reached by a far call through its gate.
#[derive(Clone, Copy)]
pub struct Service {
    /// The name by which it is imported too.
    pub name: &'static [u8],
    /// Its ordinal, where the machine file gives no list of its own.
    pub ordinal: u16,
    /// How many words its arguments have.
    pub words: u16,
}

/// How many services there are. They are numbered from 1.
pub const SERVICE_COUNT: u16 = 31;

/// A row of the table of services.
fn row_of(name: &'static [u8], ordinal: u16, words: u16) -> Service
    ensures { row result.name.now result.ordinal result.words ≡ row name.now ordinal words }
{
    Service {
        name,
        ordinal,
        words,
    }
}

/// The service of a number from 1 to 31.
#[tactic(auto, unfolding(crate::specs::Services::services))]
pub fn service_at(number: u16) -> Service
    requires low { 1 ≤ number }
    requires high { number ≤ SERVICE_COUNT }
    ensures { row_at number ≡ Some (row result.name.now result.ordinal result.words) }
{
    match number {
        1 => row_of(b"DosExit", 5, 2),
        2 => row_of(b"DosGetPID", 94, 2),
        3 => row_of(b"DosRead", 137, 6),
        4 => row_of(b"DosWrite", 138, 6),
        5 => row_of(b"DosAllocSeg", 34, 4),
        6 => row_of(b"DosReallocSeg", 38, 2),
        7 => row_of(b"DosFreeSeg", 39, 1),
        8 => row_of(b"DosSizeSeg", 126, 3),
        9 => row_of(b"DosLockSeg", 122, 1),
        10 => row_of(b"DosUnlockSeg", 123, 1),
        11 => row_of(b"DosCreateCSAlias", 43, 3),
        12 => row_of(b"DosAllocShrSeg", 35, 5),
        13 => row_of(b"DosGetShrSeg", 36, 4),
        14 => row_of(b"DosGiveSeg", 37, 4),
        15 => row_of(b"DosGetSeg", 121, 1),
        16 => row_of(b"DosAllocHuge", 40, 6),
        17 => row_of(b"DosReallocHuge", 42, 3),
        18 => row_of(b"DosGetHugeShift", 41, 2),
        19 => row_of(b"DosMemAvail", 127, 2),
        20 => row_of(b"DosSubSet", 146, 3),
        21 => row_of(b"DosSubAlloc", 147, 4),
        22 => row_of(b"DosSubFree", 148, 3),
        23 => row_of(b"DosExecPgm", 144, 12),
        24 => row_of(b"DosCWait", 2, 7),
        25 => row_of(b"DosSemRequest", 140, 4),
        26 => row_of(b"DosSemClear", 141, 2),
        27 => row_of(b"DosSemWait", 142, 4),
        28 => row_of(b"DosSemSet", 143, 2),
        29 => row_of(b"DosLoadModule", 44, 7),
        30 => row_of(b"DosGetProcAddr", 45, 5),
        31 => row_of(b"DosFreeModule", 46, 1),
        _ => unreachable!(),
    }
}

/// Whether the machine has this service. The gate of another names nothing, and its import is refused.
pub fn is_built(number: u16) -> bool
    ensures { result ≡ has_gate number }
{
    number == 1
        || number == 2
        || number == 3
        || number == 4
        || number == 5
        || number == 6
        || number == 7
        || number == 8
        || number == 9
        || number == 10
        || number == 11
        || number == 12
        || number == 13
        || number == 14
        || number == 15
        || number == 16
        || number == 17
        || number == 18
        || number == 19
        || number == 20
        || number == 21
        || number == 22
        || number == 25
        || number == 26
        || number == 27
        || number == 28
}

/// The selector of a service's call gate.
pub fn gate_selector(number: u16) -> u16
    requires { number ≤ SERVICE_COUNT }
    ensures { result ≡ gate_of number }
{
    8 * (16 + number) + 3
}
