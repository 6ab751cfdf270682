ghost use Rattle.std.specs.Prelude.{◌≡◌, []};

use o2_base::{Bytes, Fail as ReadFail, NoMemory};
use o2_image::{Module, ModuleFault, Resolved, SharedTargets};
use std::alloc::Global;
use test_fixtures::{Wrong, bytes_in, hex, want, want_line};

// The files and their changes are texts. All numbers in them are hexadecimal, and `00*3A` is so many bytes in a row.

// A program that writes `hello` by DosWrite and ends by DosExit: headers, the tables, code of 25 bytes at B0h with two records
// behind it, and data of 5 bytes at E0h.
static HELLO: &str = "
4D 5A 00*3A 40 00 00 00
4E 45 00 00 5B 00*7 02 00 02 00*4 02 00 00 01 00 00 00 02 00 02 00 01 00 00 00 40 00 00 00 50 00 59 00 5B 00*7
04 00 00 00 01 00*9
0B 00 19 00 00 01 19 00 0E 00 05 00 01 00 10 00 05 48 45 4C 4C 4F 00 00
00 01 00 00 08 44 4F 53 43 41 4C 4C 53 00*B
6A 01 1E 68 00 00 6A 05 1E 6A 06 9A FF FF 00 00 6A 01 6A 00 9A FF FF 00 00
02 00 03 01 0C 00 01 00 8A 00 03 01 15 00 01 00 05 00*6 68 65 6C 6C 6F
";

// Its code with the gates that it imports.
static GATES: &str = "6A 01 1E 68 00 00 6A 05 1E 6A 06 9A 00 00 A3 00 6A 01 6A 00 9A 00 00 8B 00";

// A program whose code segment of 64 bytes at B0h has a record of each kind.
static MIXED: &str = "
4D 5A 00*3A 40 00 00 00
4E 45 00 00 5B 00*7 02 00 02 00*4 02 00 00 01 00 00 00 02 00 02 00 01 00 00 00 40 00 00 00 50 00 59 00 5B 00*7
04 00 00 00 01 00*9
0B 00 40 00 00 01 40 00 14 00 04 00 01 00 10 00 05 4D 49 58 45 44 00 00
00 01 00 00 08 44 4F 53 43 41 4C 4C 53 00*B
FF FF 82 83 F0 FF F0 87 88 89 FF FF 8C 8D 8E 8F 20 00 92 93 94 95 96 97 98 99 9A 9B 9C 9D 9E 9F
30 00 A2 A3 A4 A5 A6 A7 A8 A9 AA AB AC AD AE AF FF FF B2 B3 B4 B5 B6 B7 B8 B9 BA BB BC BD FF FF
09 00 02 00 10 00 01 00 00 00 03 00 00 00 02 00 04 00 05 04 04 00 01 00*4 04 06 00 01 00*5 07 00 01 00 00 00
02 04 08 00 02 00 00 00 03 04 0A 00 01 00 00 00 05 03 FF FF 00*4 05 00 3E 00 01 00*9 64 61 74 61
";

// Where the records of MIXED lead: selector and offset.
static TARGETS: &str =
    "000F:0000 0017:1234 0000:0025 0000:1220 0000:12AB 0017:0009 001F:0002 EEEE:EEEE 0003:5678";

// The image of its code segment with these targets, and zeros behind it.
static IMAGE: &str = "
34 12 17 00 15 00 10 AB 17 00 01 00 1F 00 8E 8F 0F 00 92 93 94 95 96 97 98 99 9A 9B 9C 9D 9E 9F
0F 00 A2 A3 A4 A5 A6 A7 A8 A9 AA AB AC AD AE AF 0F 00 B2 B3 B4 B5 B6 B7 B8 B9 BA BB BC BD 78 56
00*10
";

// A line each: HELLO, or MIXED where the line says so, cut to a length, where one is given, and with some bytes changed, and how it is
// judged. In the last line a chain meets itself.
static JUDGED: &str = "
0: NotMz
1: NotMz
2: Truncated(2)
3F: Truncated(63)
40: Truncated(64)
7F: Truncated(127)
1=58: NotMz
3D=01: Truncated(320)
41=58: NotNe
76=02: NotOs2
4D=20: LinkErrors
4C=03: BadTable(DataMode)
72=10: BadTable(Shift)
5C=FF: OutOfProfile(Segments)
5F=01: OutOfProfile(References)
4E=03: BadTable(AutoData)
4E=03 76=02: NotOs2
87: Truncated(135)
C8: Truncated(200)
E4: Truncated(228)
84=08: OutOfProfile(Iterated)
85=03: OutOfProfile(Conforming)
85=05: OutOfProfile(Ring)
85=09: OutOfProfile(Ring)
85=0D: Ok
85=21: OutOfProfile(Wide)
84=08 85=21: OutOfProfile(Iterated)
4E=01: BadTable(AutoData)
52=F1 53=FF: OutOfProfile(AutoSize)
52=F0 53=FF: Ok
90=00: BadTable(Names)
91=0A: BadTable(Names)
67=50 66=00: Truncated(20544)
99=FF 9A=FF: Truncated(65690)
99=49 9A=00: Truncated(229)
44=65 46=02 A5=01 A6=FE: OutOfProfile(Constant)
44=65 46=02 A5=01 A6=03: BadTable(Entries)
44=65 46=08 A5=01 A6=FF AA=03: BadTable(Entries)
44=65 46=08 A5=01 A6=FF A9=03: BadTable(Entries)
C9=FF CA=FF: Truncated(229)
CB=01: BadTarget(1, 0)
D3=01: BadTarget(1, 1)
CF=02: BadTarget(1, 0)
CC=00 CF=03: BadTarget(1, 0)
CC=02 D1=80: BadTarget(1, 0)
BC=10 BD=00: BadChain(1, 362)
D5=0E: BadChain(1, 14)
D5=16: BadChain(1, 22)
CC=03 CD=FF: Ok
: Ok
MIXED E0=10 E1=00: BadChain(1, 16)
";

// A library of two code segments, at B0h and C0h, of which the second has the last two of the first one's four records and one
// more: the second word of the first one's second record is the number of its own.
static MEETS: &str = "
4D 5A 00*3A 40 00 00 00
4E 45 00 00 5B 00*8 80 00*E 02 00 01 00 00 00 40 00 00 00 50 00 59 00 5B 00*7 04 00 00 00 01 00*9
0B 00 10 00 00 01 10 00 0C 00 10 00 00 01 10 00
05 4D 45 45 54 53 00 00 00 01 00
00 08 44 4F 53 43 41 4C 4C 53 00*B
80 81 82 83 84 85 86 87 88 89 8A 8B 8C 8D 8E 8F
04 00*5 01 00 20 00 00 00 01 00 01 00 03 00
00 00 02 00 01 00 22 00 00 00 03 00 01 00 23 00 00 00 04 00 01 00 24 00
";

fn byte(text: &str) -> u8 {
    (hex(text) % 256) as u8
}

fn word(text: &str) -> u16 {
    (hex(text) % 65536) as u16
}

// Changes a file: cuts it to a length, or puts a byte in a place.
fn change(file: &mut Vec<u8>, changes: &str) {
    for change in changes.split_ascii_whitespace() {
        match change.split_once('=') {
            Some((place, other)) => {
                if let Some(held) = file.get_mut(hex(place)) {
                    *held = byte(other);
                }
            }
            None => file.truncate(hex(change)),
        }
    }
}

// Whether a fault is this one.
fn is_fault(alloc: Global, fault: &ModuleFault, expected: &str) -> Result<bool, NoMemory> {
    Ok(format!(in alloc; "{fault:?}")?.as_str() == expected)
}

// Whether a file is judged so.
fn is_judged(alloc: Global, file: Vec<u8>, expected: &str) -> Result<bool, NoMemory> {
    if file.len() > 4_194_304 {
        return Ok(false);
    }
    match Module::check(alloc, Bytes::new(file)) {
        Ok(_) => Ok(expected == "Ok"),
        Err(ReadFail::Bad(fault)) => is_fault(alloc, &fault, expected),
        Err(ReadFail::NoMemory) => Ok(false),
    }
}

// The text of the file that a line changes, and its changes.
fn parted(changes: &str) -> (&'static str, &str) {
    match changes.strip_prefix("MIXED ") {
        Some(rest) => (MIXED, rest),
        None => (HELLO, changes),
    }
}

// Whether the file of a line is judged so.
fn is_right(alloc: Global, changes: &str, expected: &str) -> Result<bool, NoMemory> {
    let (text, changes) = parted(changes);
    let mut file = bytes_in(alloc, text)?;
    change(&mut file, changes);
    is_judged(alloc, file, expected)
}

pub fn the_first_fault_is_told(alloc: Global) -> Result<(), Wrong> {
    let mut count = 0usize;
    for line in JUDGED.lines() {
        if let Some((changes, expected)) = line.split_once(": ") {
            want_line(is_right(alloc, changes, expected)?, line)?;
            count = count.saturating_add(1);
        }
    }
    want(count == 51, count)
}

// The module in a file that passes its checks.
pub fn module_in(alloc: Global, file: Vec<u8>) -> Option<Module> {
    if file.len() > 4_194_304 {
        return None;
    }
    match Module::check(alloc, Bytes::new(file)) {
        Ok(module) => Some(module),
        Err(_) => None,
    }
}

// Whether there is this text.
pub fn is_text(found: Option<&[u8]>, text: &[u8]) -> bool {
    match found {
        Some(bytes) => bytes == text,
        None => false,
    }
}

fn are_sizes_of_hello(module: &Module) -> bool {
    !module.is_library()
        && module.segment_count() == 2
        && module.reloc_count() == 2
        && module.entry_count() == 0
        && module.head().stack == 512
}

fn are_parts_of_hello(module: &Module) -> bool {
    let (Some(segment), Some(reloc)) = (module.segment(2), module.reloc(1, 1)) else {
        return false;
    };
    segment.size == 16
        && reloc.second == 5
        && module.segment(3).is_none()
        && module.reloc(1, 2).is_none()
        && module.entries().get(1).is_none()
}

fn are_names_of_hello(module: &Module) -> bool {
    module.name().as_slice() == b"HELLO".as_slice()
        && module.names().ordinal(b"HELLO").is_none()
        && is_text(module.reference(1), b"DOSCALLS")
        && module.reference(2).is_none()
        && is_text(module.imported(1), b"DOSCALLS")
        && module.imported(600).is_none()
}

fn is_hello(module: &Module) -> bool {
    are_sizes_of_hello(module) && are_parts_of_hello(module) && are_names_of_hello(module)
}

// Adds targets.
fn add_targets(targets: &mut Vec<(u16, u16)>, text: &str) -> Result<(), NoMemory> {
    for target in text.split_ascii_whitespace() {
        if let Some((selector, offset)) = target.split_once(':') {
            targets.push((word(selector), word(offset)))?;
        }
    }
    Ok(())
}

// Adds the targets of a segment's records.
fn add_list(alloc: Global, lists: &mut Vec<Vec<(u16, u16)>>, text: &str) -> Result<(), NoMemory> {
    let mut targets = Vec::new(alloc);
    add_targets(&mut targets, text)?;
    lists.push(targets)?;
    Ok(())
}

// Adds targets for the records of a first segment, and none for the second.
fn add_lists(alloc: Global, lists: &mut Vec<Vec<(u16, u16)>>, text: &str) -> Result<(), NoMemory> {
    add_list(alloc, lists, text)?;
    add_list(alloc, lists, "")
}

// These targets.
fn resolved(alloc: Global, text: &str) -> Result<Resolved, NoMemory> {
    let mut lists = Vec::new(alloc);
    add_lists(alloc, &mut lists, text)?;
    Ok(Resolved::new(lists))
}

// Whether bytes begin with so many bytes of an image, and have EEh behind them.
fn is_front(bytes: &[u8], image: &[u8], count: usize) -> bool {
    for (k, byte) in bytes.iter().enumerate() {
        let expected = if k < count {
            image.get(k).copied()
        } else {
            Some(0xEE)
        };
        if Some(*byte) != expected {
            return false;
        }
    }
    true
}

// Whether so many bytes of the image of a program's first segment are these, and no byte behind them is written.
fn fills(module: &Module, targets: &Resolved, image: &[u8], count: usize) -> bool {
    let mut into = [0xEEu8; 96];
    if count <= 96 && module.segment_count() == 2 && module.is_resolved_by(targets) {
        module.fill(1, targets, &mut into[..count]);
    }
    is_front(&into, image, count)
}

// The same for each of these counts.
fn fills_each(
    module: &Module,
    targets: &Resolved,
    image: &[u8],
    first: usize,
    last: usize,
) -> bool {
    for count in first..last {
        if !fills(module, targets, image, count) {
            return false;
        }
    }
    true
}

// Whether the first segment has two records before those that it shares with the second, and none with a third.
fn has_shared_records(module: &Module) -> bool {
    module.segment_relocs(1) == 4
        && module.segment_relocs(2) == 3
        && matches!(module.records_before(1, 2), Some(2))
        && module.records_before(2, 1).is_none()
        && module.records_before(1, 3).is_none()
        && matches!(module.records_within(1, 1), Some(0))
        && module.records_within(1, 2).is_none()
}

// Three targets of a segment, which the next one has too; a third has the last of them. A fourth has those of the second from its
// second one on, and one more; those of a fifth can't follow the first one's.
fn share(alloc: Global, found: &mut SharedTargets) -> Result<bool, NoMemory>
    requires { found.old ≡ [] }
{
    found.add(vec![in alloc; (7, 1), (7, 2), (7, 3)]?)?;
    found.add_within(0, 0, 3)?;
    found.add_within(0, 2, 1)?;
    if !found.add_behind(1, 1, vec![in alloc; (7, 4)]?)? {
        return Ok(false);
    }
    Ok(!found.add_behind(0, 1, vec![in alloc; (7, 5)]?)?)
}

// Whether a segment has so many targets, with the offsets from the first one on.
fn has_targets(targets: &Resolved, segment: u16, first: u16, count: u16) -> bool {
    for k in 0..count {
        if targets.get(segment, k) != Some((7, first.wrapping_add(k))) {
            return false;
        }
    }
    targets.get(segment, count).is_none()
}

fn are_held(targets: &Resolved) -> bool {
    has_targets(targets, 1, 1, 3)
        && has_targets(targets, 2, 2, 3)
        && has_targets(targets, 3, 3, 1)
        && has_targets(targets, 4, 0, 0)
}

// Whether the targets of the first, the fourth and the third of these segments are held.
fn are_held_once(alloc: Global) -> Result<bool, NoMemory> {
    let mut found = SharedTargets::new(alloc);
    if !share(alloc, &mut found)? {
        return Ok(false);
    }
    let targets = found.finish_in(alloc, &[0, 3, 2])?;
    Ok(are_held(&targets))
}

// What is tried of a module.
#[derive(Clone, Copy)]
enum Trial {
    // Its parts are those of HELLO.
    Hello,
    // Its segments share records as those of MEETS do.
    Meets,
    // With these targets so many bytes of its first segment's image, from a first count to below a last one, are those of this image.
    Fills {
        targets: &'static str,
        image: &'static str,
        first: usize,
        last: usize,
    },
}

// Whether so many bytes of the image of a program's first segment, with targets, are those of an image.
fn is_filled(
    alloc: Global,
    module: &Module,
    targets: &str,
    image: &str,
    first: usize,
    last: usize,
) -> Result<bool, NoMemory> {
    let image = bytes_in(alloc, image)?;
    let targets = resolved(alloc, targets)?;
    Ok(fills_each(module, &targets, image.as_slice(), first, last))
}

fn holds_of(alloc: Global, module: &Module, trial: Trial) -> Result<bool, NoMemory> {
    match trial {
        Trial::Hello => Ok(is_hello(module)),
        Trial::Meets => Ok(has_shared_records(module)),
        Trial::Fills {
            targets,
            image,
            first,
            last,
        } => is_filled(alloc, module, targets, image, first, last),
    }
}

// Whether that holds of the module in a file.
fn holds(alloc: Global, text: &str, trial: Trial) -> Result<bool, NoMemory> {
    match module_in(alloc, bytes_in(alloc, text)?) {
        Some(module) => holds_of(alloc, &module, trial),
        None => Ok(false),
    }
}

// Whether the imports of HELLO become gates.
fn has_gates(alloc: Global) -> Result<bool, NoMemory> {
    let trial = Trial::Fills {
        targets: "A3:0 8B:0",
        image: GATES,
        first: 25,
        last: 26,
    };
    holds(alloc, HELLO, trial)
}

// Whether each front of the image of MIXED is as it must be.
fn has_fronts(alloc: Global) -> Result<bool, NoMemory> {
    let trial = Trial::Fills {
        targets: TARGETS,
        image: IMAGE,
        first: 0,
        last: 81,
    };
    holds(alloc, MIXED, trial)
}

pub fn modules_and_their_images(alloc: Global) -> Result<(), Wrong> {
    want_line(holds(alloc, HELLO, Trial::Hello)?, "the parts of a program")?;
    want_line(
        holds(alloc, MEETS, Trial::Meets)?,
        "segments may share records",
    )?;
    want_line(has_gates(alloc)?, "imports become gates")?;
    want_line(has_fronts(alloc)?, "each front of an image")?;
    want_line(are_held_once(alloc)?, "targets are held once")
}
