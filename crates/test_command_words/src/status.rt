// The numbers and the lines of the statuses.
use o2_base::{Bytes, Key, MachineFault, ModuleFault, NoMemory, Which};
use o2_cli::{Status, number, text};
use std::alloc::Global;
use test_fixtures::{Wrong, want, want_line};

/// The line of each status, by its number.
static LINES: &str = "
os2run: usage: os2run exe FILE, run FILE, check FILE, bench N or dump FILE
os2run: no file a.exe
os2run: machine file: reason 4 budget
os2run: module a.exe: reason 7
os2run: file fault
os2run: input fault
os2run: output fault
os2run: no room
os2run: swap full
os2run: swap fault
os2run: no memory
";

fn status_of(alloc: Global, number: usize) -> Result<Status, NoMemory> {
    Ok(match number {
        0 => Status::Fine,
        1 => Status::BadWords,
        2 => Status::NoFile(Bytes::from_slice(alloc, b"a.exe")?),
        3 => Status::BadMachine(MachineFault::Limit(Key::Budget)),
        4 => Status::BadModule(
            Bytes::from_slice(alloc, b"a.exe")?,
            ModuleFault::OutOfProfile(Which::Wide),
        ),
        5 => Status::FileFault,
        6 => Status::InputFault,
        7 => Status::SinkFault,
        8 => Status::NoRoom,
        9 => Status::SwapFull,
        10 => Status::SwapFault,
        _ => Status::NoMemory,
    })
}

/// Whether the status of a number has it, and this line.
fn is_told(alloc: Global, wanted: usize, line: &str) -> Result<bool, NoMemory> {
    let status = status_of(alloc, wanted)?;
    let told = text(alloc, &status)?;
    let mut whole = String::new(alloc);
    whole.push_str(line)?;
    if wanted > 0 {
        whole.push('\n')?;
    }
    Ok(number(&status) as usize == wanted && told.as_slice() == whole.as_bytes())
}

pub fn statuses(alloc: Global) -> Result<(), Wrong> {
    let mut count = 0u32;
    for (wanted, line) in LINES.lines().enumerate() {
        want_line(is_told(alloc, wanted, line)?, line)?;
        count = count.saturating_add(1);
    }
    want(count == 12, 1)?;
    Ok(())
}
