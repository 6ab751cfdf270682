// The executables of the processes, and the machine file.
use crate::opening::{AVAIL, NAMES};
use crate::sequence::Sequence;
use o2_base::NoMemory;
use std::alloc::Global;
use test_fixtures::{Files, add_bytes, add_file};

// All numbers in these texts are hexadecimal, and `00*3A` is so many bytes in a row.

/// Up to the segment table: automatic data 2, a stack of 512 bytes, a start at 1:0000, two segments.
static HEADER: &str = "4D 5A 00*3A 40 00 00 00 4E 45 00 00 47 00 00*6 02 00 02
00 00 00 00 02 00 00 01 00 00 00 00 00 02 00 01 00 00 00 60 00 40 00 40 00 48 00 4A 00 00*6 04 00 00 00 01 00*9 03";

/// No entries, DOSCALLS as the only other module, and where the code begins in the file.
static IMPORTS: &str = "00 00 00 00 01 00 00 08 44 4F 53 43 41 4C 4C 53 00*C 0D 00";

/// Behind the number of the code's bytes: it has 6000 in memory. The data: no bytes in the file, and 16 in memory.
static DATA_ROW: &str = "00 0C 00 60 00 00 00 00 01 0C 10 00 00*20";

/// Writes the executable of a module with this code, which begins with `FRONT`.
fn write_executable(file: &mut Vec<u8>, name: &str, code: &[u8]) -> Result<(), NoMemory> {
    add_bytes(file, HEADER)?;
    file.extend_from_slice(name.as_bytes())?;
    add_bytes(file, IMPORTS)?;
    file.extend_from_slice(&((code.len() % 65_536) as u16).to_le_bytes())?;
    add_bytes(file, DATA_ROW)?;
    file.extend_from_slice(code)?;
    Ok(())
}

/// Adds an executable.
fn add_executable(
    alloc: Global,
    files: &mut Files,
    name: &str,
    code: &[u8],
) -> Result<(), NoMemory> {
    let mut file = Vec::new(alloc);
    write_executable(&mut file, name, code)?;
    add_file(alloc, files, name, file)
}

/// The modules, 6 bytes each.
static MODULES: &[u8; 48] = b"\"CAL\",\"CBL\",\"CCL\",\"CDL\",\"CEL\",\"CFL\",\"CGL\",\"CHL\",";

/// A process of each module, 27 bytes each.
static PROCESSES: &[u8; 216] = b"[[process]]
module = \"CAL\"
[[process]]
module = \"CBL\"
[[process]]
module = \"CCL\"
[[process]]
module = \"CDL\"
[[process]]
module = \"CEL\"
[[process]]
module = \"CFL\"
[[process]]
module = \"CGL\"
[[process]]
module = \"CHL\"
";

/// What these texts have of so many processes.
pub fn first(text: &[u8], each: usize, processes: usize) -> &[u8] {
    text.get(..each.saturating_mul(processes)).unwrap_or(text)
}

/// Writes the numbers of a machine.
fn write_numbers(
    alloc: Global,
    text: &mut Vec<u8>,
    memory: u32,
    segments: u32,
) -> Result<(), NoMemory> {
    let numbers = format!(in alloc; "memory = {memory}\nsegments = {segments}\navail = {AVAIL}\n")?;
    text.extend_from_slice(numbers.as_bytes())?;
    Ok(())
}

/// Writes the machine file, of a process for each module.
fn write_machine(
    alloc: Global,
    text: &mut Vec<u8>,
    sequence: &Sequence,
    memory: u32,
) -> Result<(), NoMemory> {
    let processes = sequence.codes.len();
    write_numbers(alloc, text, memory, sequence.world.segments)?;
    text.extend_from_slice(b"swap = 4608\nquantum = 1\nbudget = 1000000\nscript = [")?;
    text.extend_from_slice(sequence.script.as_bytes())?;
    text.extend_from_slice(b"]\nmodules = [")?;
    text.extend_from_slice(first(MODULES, 6, processes))?;
    text.extend_from_slice(b"]\n")?;
    text.extend_from_slice(first(PROCESSES, 27, processes))?;
    Ok(())
}

/// Adds the machine file `m`.
fn add_machine(
    alloc: Global,
    files: &mut Files,
    sequence: &Sequence,
    memory: u32,
) -> Result<(), NoMemory> {
    let mut text = Vec::new(alloc);
    write_machine(alloc, &mut text, sequence, memory)?;
    add_file(alloc, files, "m", text)
}

/// Adds the machine file and the executable of each code under the name of its module, for a memory of so many bytes.
pub fn add_files(
    alloc: Global,
    files: &mut Files,
    sequence: &Sequence,
    memory: u32,
) -> Result<(), NoMemory> {
    add_machine(alloc, files, sequence, memory)?;
    for (name, code) in NAMES.iter().zip(&sequence.codes) {
        add_executable(alloc, files, name, code)?;
    }
    Ok(())
}
