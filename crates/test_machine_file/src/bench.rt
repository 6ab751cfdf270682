use o2_base::{Bytes, Fail, NoMemory};
use o2_conf::Conf;
use o2_gen::{machine, module};
use o2_image::Module;
use std::alloc::{AllocError, Global};
use test_fixtures::{Wrong, bytes_in, want};

// The file as tools/ne.py makes it from a listing whose bytes are those of nasm. All numbers are hexadecimal, and `00*3A` is so many
// bytes in a row.
static FILE: &str = "
4D 5A 00*3A 40 00 00 00
4E 45 05 00 65 00*7 02 00 02 00*4 02 00 00 01 00 00 00 02 00 02 00 01 00 00 00 40 00 50 00 50 00 59 00 5B 00*7
04 00 00 00 01 00*9
0B 00 69 00 00 0D 69 00 14 00 40 00 01 0C 40 00 05 42 45 4E 43 48 00 00
00 01 00 00 08 44 4F 53 43 41 4C 4C 53 00*B
B9 08 00 BF 10 00 68 00 20 1E 6A 00 6A 00 9A FF FF 00 00 A1 00 00 89 05 83 C7 02 E2 E9 BA 32 00
BE 10 00 B9 08 00 8E 04 26 FF 06 00 00 83 C6 02 E2 F4 4A 75 EB BE 10 00 B9 08 00 8E 04 26 83 3E
00 00 32 75 1D 83 C6 02 E2 F1 6A 01 1E 6A 06 6A 01 1E 6A 04 9A FF FF 00 00 6A 01 6A 00 9A FF FF
00 00 C6 06 06 00 21 EB E1
03 00 03 01 0F 00 01 00 22 00 03 01 55 00 01 00 8A 00 03 01 5E 00 01 00 05 00*E
00*6 2E 00*39
";

// A machine file that says the same as the setting, but for its processes.
static MACHINE: &str = "memory = 32768
swap = 16384
segments = 2048
budget = 1000000
quantum = 7
modules = [\"bench.exe\"]
";

static PROCESS: &str = "
[[process]]
module = \"BENCH\"
";

pub fn the_file_is_that_of_the_tools(alloc: Global) -> Result<(), Wrong> {
    let file = module(alloc)?;
    let wanted = bytes_in(alloc, FILE)?;
    want(file.len() == 384 && file.as_slice() == wanted.as_slice(), 0)?;
    Ok(())
}

/// What the checked module says of itself.
fn said(alloc: Global, file: Bytes) -> Result<String, AllocError> {
    if file.len() > 4_194_304 {
        return String::from_str(alloc, "too long");
    }
    match Module::check(alloc, file) {
        Ok(module) => {
            let (segments, records) = (module.segment_count(), module.reloc_count());
            let entries = module.entry_count();
            format!(in alloc; "{segments} segments, {records} records, {entries} entries")
        }
        Err(Fail::NoMemory) => String::from_str(alloc, "no memory"),
        Err(Fail::Bad(fault)) => format!(in alloc; "{fault:?}"),
    }
}

pub fn the_file_passes_its_checks(alloc: Global) -> Result<(), Wrong> {
    let said = said(alloc, module(alloc)?)?;
    want(said.as_str() == "2 segments, 3 records, 0 entries", 0)?;
    Ok(())
}

/// Writes a machine file with so many processes.
fn write_machine(file: &mut String, count: u16) -> Result<(), NoMemory> {
    file.push_str(MACHINE)?;
    for _ in 0..count {
        file.push_str(PROCESS)?;
    }
    Ok(())
}

/// What a machine file says.
fn shown(alloc: Global, file: &str) -> Result<String, AllocError> {
    match Conf::read(alloc, file.as_bytes()) {
        Ok(conf) => format!(in alloc; "{conf:?}"),
        Err(Fail::NoMemory) => String::from_str(alloc, "no memory"),
        Err(Fail::Bad(fault)) => format!(in alloc; "{fault:?}"),
    }
}

/// Whether the setting with so many processes is that of the machine file.
fn is_shown(alloc: Global, count: u16) -> Result<bool, NoMemory> {
    if count < 1 || count > 64 {
        return Ok(false);
    }
    let conf = machine(alloc, count)?;
    let mut file = String::new(alloc);
    write_machine(&mut file, count)?;
    let wanted = shown(alloc, file.as_str())?;
    let given = format!(in alloc; "{conf:?}")?;
    Ok(given.as_str() == wanted.as_str())
}

pub fn the_setting_is_that_of_a_machine_file(alloc: Global) -> Result<(), Wrong> {
    for count in [1u16, 4, 64] {
        want(is_shown(alloc, count)?, 0)?;
    }
    Ok(())
}
