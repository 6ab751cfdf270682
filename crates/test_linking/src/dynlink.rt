use o2_base::{Bytes, Fail as ReadFail, ModuleFault, NoMemory};
use o2_conf::Conf;
use o2_dynlink::{LinkFault, Linked, link};
use o2_image::Module;
use std::alloc::Global;
use std::test::Fail;
use test_fixtures::{bytes_in, hex};

// Files are texts of hexadecimal bytes, in which `00*3A` is so many in a row.

// A program that calls MSG.1 and ends by DosExit; `getmsg` and `dosexit` stand among its imported names at 14 and 21.
static CALLER: &str = "
4D 5A 00*3A 40 00*3
4E 45 00 00 7B 00*7 02 00 02 00*4 02 00 00 01 00*5 02 00 02 00*3 40 00*3 50 00 5A 00 5E 00*7 04 00*3
01 00*9
0C 00 0D 00 00 01 0D 00*5 01 00 10 00
06 43 41 4C 4C 45 52 00*3 01 00 05 00 00 03 4D 53 47 08 44 4F 53 43 41 4C 4C 53 06 67 65 74
6D 73 67 07 64 6F 73 65 78 69 74 00*5
9A FF FF 00 00 6A 01 50 9A FF FF 00 00 02 00 03 01 01 00 01 00 01 00 03 01 09 00 02 00 05 00 00
";

// A library that exports GETMSG as ordinal 1, and LOST as an ordinal that it hasn't.
static MSG: &str = "
4D 5A 00*3A 40 00*3
4E 45 00 00 68 00 06 00*5 01 80 02 00*D 02 00*5 40 00*3 50 00 67 00 67 00*7 04 00*3 01 00*9
0B 00 04 00*3 04 00*5 01 00 10 00
03 4D 53 47 00 00 06 47 45 54 4D 53 47 01 00 04 4C 4F 53 54 09 00*3 01*3 00*5
B8 07 00 CB 00*C
";

// A library that refers to itself and to MSG: its segment has a record to itself at offset 2, to its entry, to its own
// export by name, and to the selector of MSG.1.
static TWO: &str = "
4D 5A 00*3A 40 00*3
4E 45 00 00 68 00 06 00*5 02 80 00*E 01 00 02 00*3 40 00*3 48 00 56 00 5A 00*7 04 00*3 01 00*9
0B 00 10 00 01 01 10 00 03 54 57 4F 00 00 04 68
65 72 65 01 00 00 01 00 05 00 00 03 54 57 4F 03 4D 53 47 04 48 45 52 45 01*3 04 00*4
FF*10
04 00 03 00*3 01 00 02 00 03 00 04 00 FF 00 01 00 03 02 08 00 01 00 09 00 02 01 0C 00 02 00 01 00*F
";

// A library of the services' name.
static DOSCALLS: &str = "
4D 5A 00*3A 40 00*3
4E 45 00 00 55 00*7 02 80 00*E 01 00*5 40 00*3 48 00 54 00 54 00*7 04 00*3 01 00*9
00*4 01 00 10 00 08 44 6F 73 43 61 6C 6C
73 00*F
";

// A library that exports ASKED as 92, SHIFT as 135, DOSWRITE as 138 and TWICE as 200, at the offsets 0, 3, 4 and 8. It imports
// DOSCALLS.92; the ordinal stands at F8.
static SHIM: &str = "
4D 5A 00*3A 40 00*3
4E 45 05 00 7F 00 1E 00*6 80 00*E 01 00 01 00*3 40 00 48 00 48 00 73 00 75 00*7 04 00*3 01 00*9
0E 00 10 00 00 0D 10 00 04 53 48 49 4D 00 00 05 41 53 4B 45 44 5C 00 05 53 48 49 46 54 87 00
08 44 4F 53 57 52 49 54 45 8A 00 05 54 57 49 43 45 C8 00 00 01 00 00 08 44 4F 53 43 41 4C 4C 53
5B 00 01*3 00 00 2A 00 01*3 03 00 02 00 01*3 04 00 3D 00 01*3 08 00*6
B8 07 00 CB B8 09 00 CB 9A FF FF 00 00 01 C0 CB 01 00 03 01 09 00 01 00 5C 00
";

// A line each: files by their letters; changes of single bytes, as file (from 0), place and byte; the modules of the
// processes; keys of the machine file; what comes of it; and the four bytes at offset 9 of the first segment of the first
// file, which hold the pointer that it imports from DOSCALLS. What comes of it is the refused file, the reason, and the name
// and what else it tells; or 0 and 0 where nothing is refused, and for each process the places of its libraries in a word.
// Places, bytes and reasons are hexadecimal. The selectors of the first library are 8007 and so on, that of DosExit's gate
// is 008B, and that of DosWrite's 00A3.
static LINKED: &str = "
CM | | caller | | 0 0 2 | 00 00 8B 00
MC | | CALLER | | 0 0 |
C | | CALLER | | 1 A MSG |
CM | | nobody | | 0 A nobody |
CM | 0.A0=6D 0.A1=73 | CALLER | | 0 0 |
CM | 0.D5=2 | CALLER | | 1 B MSG 2 |
CM | 0.D0=2 0.D5=E | CALLER | | 0 0 |
CM | 0.D0=2 0.D5=15 | CALLER | | 1 C MSG dosexit |
CM | 0.D0=2 0.D5=E 0.AC=4 0.AD=4C 0.AE=4F 0.AF=53 0.B0=54 | CALLER | | 1 C MSG LOST |
CM | 0.D8=2 0.DD=15 | CALLER | | 0 0 |
CM | 0.D8=2 0.DD=E | CALLER | | 1 C DOSCALLS getmsg |
CM | 0.DD=6 | CALLER | | 1 B DOSCALLS 6 |
CMM | 2.91=6D | CALLER | | 3 D mSG |
CTT | | CALLER | | 3 D TWO |
MDC | | CALLER | | 2 D DosCalls |
CM | 1.4D=0 | CALLER | | 1 A MSG |
CM | 0.D5=2 0.A4=58 | CALLER | | 1 A XOSCALLS |
TMC | | TWO | | 0 0 |
TC | | nobody | | 1 A MSG |
CM | 0.DD=1 | CALLER | | 1 B DOSCALLS 1 |
CM | 0.DD=1 | CALLER | shim = 'msg' | 0 0 2 | 00 00 07 80
CM | 0.DD=6 | CALLER | shim = 'MSG' | 1 B DOSCALLS 6 |
CM | 0.D8=2 0.DD=E | CALLER | shim = 'MSG' | 0 0 2 | 00 00 07 80
CM | 0.D8=2 0.DD=E 0.AC=4 0.AD=4C 0.AE=4F 0.AF=53 0.B0=54 | CALLER | shim = 'MSG' | 1 C DOSCALLS LOST |
CM | | CALLER | shim = 'X' | 0 12 X |
CM | | CALLER | shim = 'CALLER' | 0 12 CALLER |
CM | 0.D5=2 | CALLER | shim = 'X' | 0 12 X |
CM | 1.4D=0 | CALLER | shim = 'MSG' | 0 12 MSG |
CMS | | CALLER | | 3 B DOSCALLS 5C |
CMS | | CALLER | shim = 'SHIM' | 0 0 23 | 00 00 8B 00
CMS | 2.F8=5D | CALLER | shim = 'SHIM' | 3 B DOSCALLS 5D |
CMS | 2.F8=8A | CALLER | | 0 0 2 | 00 00 8B 00
CMS | 0.D5=5C | CALLER | shim = 'SHIM' | 1 B MSG 5C |
CMS | 0.DD=C8 | CALLER | shim = 'SHIM' | 0 0 23 | 08 00 17 80
CMS | 0.DD=87 | CALLER | shim = 'SHIM' | 0 0 23 | 03 00 17 80
CMS | 0.D7=5 0.DD=87 | CALLER | shim = 'SHIM' | 0 0 23 | 03 00 00 00
CMS | 0.DD=8A | CALLER | shim = 'SHIM' | 0 0 23 | 00 00 A3 00
CMS | 0.D8=2 0.DD=15 0.B3=5 0.B4=73 0.B5=68 0.B6=69 0.B7=66 0.B8=74 | CALLER | shim = 'SHIM' | 0 0 23 | 03 00 17 80
CMS | 0.D8=2 0.DD=15 | CALLER | shim = 'SHIM' | 0 0 23 | 00 00 8B 00
CMS | 0.DD=8A | CALLER | shim = 'SHIM' / ordinals = { DosExit = 5 } | 0 0 23 | 04 00 17 80
CMS | 0.DD=87 | CALLER | shim = 'SHIM' / ordinals = { DosWrite = 135 } | 0 0 23 | 00 00 A3 00
CMS | 0.D8=2 0.DD=15 | CALLER | shim = 'SHIM' / ordinals = { DosWrite = 135 } | 0 0 23 | 00 00 8B 00
CM | 0.DD=1 | CALLER | ordinals = { DosExit = 1 } | 0 0 2 | 00 00 8B 00
CM | | CALLER | ordinals = { DosExit = 1 } | 1 B DOSCALLS 5 |
CMSC | 3.91=58 | CALLER XALLER | shim = 'SHIM' | 0 0 23 23 | 00 00 8B 00
CMSC | 0.DD=C8 3.91=58 | XALLER CALLER | shim = 'SHIM' | 0 0 23 23 | 08 00 17 80
CMSC | 0.DD=C8 3.91=58 | XALLER CALLER | | 1 B DOSCALLS C8 |
TMC | | CALLER | shim = 'TWO' | 0 0 12 |
";

// The keys that each machine file has.
static ABOVE: &str = "
memory = 4096
swap = 0
segments = 64
budget = 1
quantum = 1
modules = ['f']
";

// A file by its letter.
fn file_of(letter: u8) -> &'static str {
    match letter {
        b'C' => CALLER,
        b'M' => MSG,
        b'T' => TWO,
        b'S' => SHIM,
        _ => DOSCALLS,
    }
}

// A word by its hexadecimal digits.
fn word(text: &str) -> u16 {
    (hex(text) % 65_536) as u16
}

// The place and the byte of a change of this file.
fn change_of(which: usize, change: &str) -> Option<(usize, u8)> {
    let (file, rest) = change.split_once('.')?;
    let (place, byte) = rest.split_once('=')?;
    if hex(file) == which {
        Some((hex(place), (hex(byte) % 256) as u8))
    } else {
        None
    }
}

// A file with the changes that are its own.
fn changed(alloc: Global, which: usize, letter: u8, changes: &str) -> Result<Vec<u8>, NoMemory> {
    let mut file = bytes_in(alloc, file_of(letter))?;
    for change in changes.split_ascii_whitespace() {
        if let Some((place, byte)) = change_of(which, change) {
            if let Some(held) = file.get_mut(place) {
                *held = byte;
            }
        }
    }
    Ok(file)
}

fn checked(alloc: Global, file: Vec<u8>) -> Result<Module, Fail> {
    if file.len() > 256 {
        return Err("too long".into());
    }
    Ok(Module::check(alloc, Bytes::new(file))?)
}

// These files, with these changes, as modules.
fn modules(alloc: Global, letters: &str, changes: &str) -> Result<Vec<Module>, Fail> {
    let mut modules = Vec::new(alloc);
    for (i, letter) in letters.as_bytes().iter().enumerate() {
        let file = changed(alloc, i, *letter, changes)?;
        modules.push(checked(alloc, file)?)?;
    }
    Ok(modules)
}

// The setting of processes of these modules, with these keys.
fn setting(alloc: Global, processes: &str, keys: &str) -> Result<Conf, Fail> {
    let mut text = String::from_str(alloc, ABOVE)?;
    for key in keys.split('/') {
        text.push_str(key.trim())?;
        text.push_str("\n")?;
    }
    for name in processes.split_ascii_whitespace() {
        text.push_str("[[process]]\nmodule = '")?;
        text.push_str(name)?;
        text.push_str("'\n")?;
    }
    match Conf::read(alloc, text.as_str().as_bytes()) {
        Ok(conf) => Ok(conf),
        Err(_) => Err("no setting".into()),
    }
}

// These modules linked for processes of these modules, with these keys.
fn linked(
    alloc: Global,
    modules: Vec<Module>,
    processes: &str,
    keys: &str,
) -> Result<Result<Linked, LinkFault>, Fail> {
    let conf = setting(alloc, processes, keys)?;
    if modules.len() > 64 {
        return Err("too many".into());
    }
    match link(alloc, modules, &conf) {
        Ok(linked) => Ok(Ok(linked)),
        Err(ReadFail::Bad(refusal)) => Ok(Err(refusal)),
        Err(ReadFail::NoMemory) => Err("no memory".into()),
    }
}

// The number of a reason, its name, an ordinal or 0, and a name or none.
fn told(fault: &ModuleFault) -> (u16, &[u8], u16, &[u8]) {
    match fault {
        ModuleFault::NoModule(name) => (10, name.as_slice(), 0, b""),
        ModuleFault::NoOrdinal(name, ordinal) => (11, name.as_slice(), *ordinal, b""),
        ModuleFault::NoName(name, text) => (12, name.as_slice(), 0, text.as_slice()),
        ModuleFault::TwoModules(name) => (13, name.as_slice(), 0, b""),
        ModuleFault::NoSelector(name) => (14, name.as_slice(), 0, b""),
        ModuleFault::NoShim(name) => (18, name.as_slice(), 0, b""),
        _ => (255, b"", 0, b""),
    }
}

// Whether a refusal is that of a line.
fn is_refusal(refusal: &LinkFault, reason: u16, first: &str, second: &str) -> bool {
    let (number, name, ordinal, text) = told(&refusal.fault);
    let tells = if number == 11 {
        ordinal == word(second)
    } else {
        text == second.as_bytes()
    };
    number == reason && name == first.as_bytes() && tells
}

// Whether a process has the libraries at these places.
fn has_libraries(linked: &Linked, pid: u16, places: &[u8]) -> bool {
    if pid < 1 || usize::from(pid) > linked.process_count() {
        return false;
    }
    let mut same = linked.libraries(pid).len() == places.len();
    for (library, place) in linked.libraries(pid).iter().zip(places) {
        same = same && *library == u16::from(*place).wrapping_sub(48);
    }
    same
}

// Whether the processes from the first on have the libraries at these places, a word for each.
fn are_reached(linked: &Linked, words: &str) -> bool {
    let mut same = true;
    let mut pid = 0u16;
    for word in words.split_ascii_whitespace() {
        pid = pid.wrapping_add(1);
        same = same && has_libraries(linked, pid, word.as_bytes());
    }
    same
}

// Writes the first bytes of the first segment of the first module.
fn fill(linked: &Linked, into: &mut [u8]) -> bool {
    let Some(module) = linked.images().module(1) else {
        return false;
    };
    if module.segment_count() < 1 {
        return false;
    }
    linked.images().fill(1, 1, into);
    true
}

// Whether these are the bytes at offset 9, if any are told.
fn is_patched(linked: &Linked, bytes: &str) -> bool {
    let mut front = [0u8; 13];
    let mut same = fill(linked, &mut front);
    for (byte, wanted) in front[9..].iter().zip(bytes.split_ascii_whitespace()) {
        same = same && usize::from(*byte) == hex(wanted);
    }
    same
}

// Whether what linking answers is what a line tells.
fn is_told(answer: &Result<Linked, LinkFault>, expected: &str, bytes: &str) -> bool {
    let (file, rest) = expected.split_once(' ').unwrap_or(("", ""));
    let (reason, rest) = rest.split_once(' ').unwrap_or((rest, ""));
    match answer {
        Ok(linked) => word(reason) == 0 && are_reached(linked, rest) && is_patched(linked, bytes),
        Err(refusal) => {
            let (first, second) = rest.split_once(' ').unwrap_or((rest, ""));
            refusal.file == word(file) && is_refusal(refusal, word(reason), first, second)
        }
    }
}

// The parts of a line.
#[derive(Clone, Copy)]
struct Row<'a> {
    letters: &'a str,
    changes: &'a str,
    processes: &'a str,
    keys: &'a str,
    expected: &'a str,
    bytes: &'a str,
}

// The parts of this line.
fn parts(line: &str) -> Option<Row<'_>> {
    let (letters, rest) = line.split_once('|')?;
    let (changes, rest) = rest.split_once('|')?;
    let (processes, rest) = rest.split_once('|')?;
    let (keys, rest) = rest.split_once('|')?;
    let (expected, bytes) = rest.split_once('|')?;
    Some(Row {
        letters: letters.trim(),
        changes,
        processes,
        keys,
        expected: expected.trim(),
        bytes,
    })
}

#[test]
fn the_first_refusal_is_told(rt: HostRuntime) -> Result<(), Fail> {
    let mut count = 0u32;
    for line in LINKED.lines() {
        if let Some(row) = parts(line) {
            let modules = modules(rt.alloc(), row.letters, row.changes)?;
            let answer = linked(rt.alloc(), modules, row.processes, row.keys)?;
            assert!(rt; is_told(&answer, row.expected, row.bytes), "of {line}");
            count = count.saturating_add(1);
        }
    }
    assert!(rt; count == 48);
    Ok(())
}

// Modules with segments, and the indexes of these.
static INDEXES: [(u16, u16, Option<u16>); 7] = [
    (1, 2, Some(2)),
    (1, 3, None),
    (2, 1, Some(4096)),
    (2, 2, Some(4097)),
    (3, 1, Some(4098)),
    (3, 0, None),
    (4, 1, None),
];

// A program with two libraries, linked.
fn program_with_libraries(alloc: Global) -> Result<Linked, Fail> {
    let modules = modules(alloc, "CMT", "")?;
    match linked(alloc, modules, "Caller", "")? {
        Ok(linked) => Ok(linked),
        Err(_) => Err("refused".into()),
    }
}

#[test]
fn indexes_of_segments(rt: HostRuntime) -> Result<(), Fail> {
    let linked = program_with_libraries(rt.alloc())?;
    for (module, segment, index) in INDEXES {
        assert!(rt;
            linked.index(module, segment) == index,
            "of {module} {segment}"
        );
    }
    Ok(())
}

// Whether the first process is of the first module, with the second one as its library, and there is no other.
fn is_one_program(linked: &Linked) -> bool {
    linked.process_count() == 1
        && (linked.program(1), linked.program(2)) == (Some(1), None)
        && linked.libraries(1) == [2].as_slice()
}

#[test]
fn a_program_with_a_library(rt: HostRuntime) -> Result<(), Fail> {
    let linked = program_with_libraries(rt.alloc())?;
    assert!(rt; is_one_program(&linked));
    let environment = linked.images().environment(1).ok_or("no environment")?;
    assert!(rt; environment == b"\0Caller\0\0\0".as_slice());
    Ok(())
}
