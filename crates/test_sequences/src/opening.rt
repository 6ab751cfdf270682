// The opening world of processes that hold their code, their data and their environment alone.
use o2_base::NoMemory;
use o2_boundless::{Held, How, Process, Segment, World};
use o2_desc::Access;
use o2_isa::Cpu;
use o2_world::State;
use std::alloc::Global;

/// How many bytes a segment of code has. The first ones are those of `FRONT`, and what comes behind them is never read by a call.
pub const CODE: u16 = 0x6000;

/// JMP over 62 bytes, in which texts stand: four names of shared segments, of which two are the same, and one that is no name.
pub static FRONT: &[u8; 64] =
    b"\xEB\x3E\\SHAREMEM\\A\0\\sharemem\\a\0\\SHAREMEM\\B\0\\SHAREMEM\\AB\0\\SHAREMEM\\\0!!";

/// Where they begin.
pub static TEXTS: [u16; 5] = [2, 14, 26, 38, 51];

/// The code of a process before its first call.
pub fn front(alloc: Global) -> Result<Vec<u8>, NoMemory> {
    Ok(Vec::from_slice(alloc, FRONT)?)
}

/// How many bytes the data has, of which the last 512 are the stack.
pub const DATA: u16 = 528;

pub const AVAIL: u32 = 0x1234_5678;

/// The names of the modules, each of one process.
pub static NAMES: [&str; 8] = ["CAL", "CBL", "CCL", "CDL", "CEL", "CFL", "CGL", "CHL"];

/// A segment of a module, or an environment: these bytes, and zeros behind them.
pub fn segment(alloc: Global, front: &[u8], size: u16, is_code: bool) -> Result<Segment, NoMemory> {
    let mut bytes = vec![in alloc; 0; usize::from(size)]?;
    for (to, from) in bytes.iter_mut().zip(front) {
        *to = *from;
    }
    Ok(Segment {
        bytes,
        clean: is_code,
        code: is_code,
        flags: 0,
        lock: 0,
        shared: false,
        discarded: false,
    })
}

fn held(name: u64, rights: u8) -> Held {
    Held {
        name,
        rights,
        holds: 1,
        how: How::Load,
        first: 0,
        reserved: 0,
    }
}

/// The registers at the start of the process of a module at this place of the machine file, from 1.
fn start(place: u16) -> Cpu {
    Cpu {
        ax: 0x1F,
        cx: DATA,
        dx: 512,
        bx: 1,
        sp: DATA,
        bp: 0,
        si: 0,
        di: place,
        ip: 0,
        flags: 0x202,
        cs: 0xF,
        ds: 0x17,
        es: 0,
        ss: 0x17,
    }
}

/// A process at this place, whose three segments have names from this one on.
pub fn process(alloc: Global, place: u16, name: u64) -> Result<Process, NoMemory> {
    let mut all = Vec::new(alloc);
    all.push((1, held(name, Access::READABLE_CODE.0)))?;
    all.push((2, held(name.saturating_add(1), Access::WRITABLE_DATA.0)))?;
    all.push((3, held(name.saturating_add(2), Access::WRITABLE_DATA.0)))?;
    Ok(Process {
        cpu: start(place),
        state: State::Live,
        held: all,
        place,
        parent: 0,
        environment: 0x1F,
    })
}

/// The name of the first segment of a process.
pub fn first_name(process: u16) -> u64 {
    3 * u64::from(process).saturating_sub(1)
}

/// Adds a segment under a name.
fn add_segment(
    alloc: Global,
    world: &mut World,
    name: u64,
    front: &[u8],
    size: u16,
    is_code: bool,
) -> Result<(), NoMemory> {
    let segment = segment(alloc, front, size, is_code)?;
    world.names.push((name, segment))?;
    Ok(())
}

/// The environment of a process, which names its module.
fn environment(name: &str) -> [u8; 7] {
    let mut text = [0; 7];
    for (to, from) in text[1..4].iter_mut().zip(name.as_bytes()) {
        *to = *from;
    }
    text
}

/// Adds the three segments of a process.
fn add_segments(
    alloc: Global,
    world: &mut World,
    first: u64,
    environment: &[u8],
) -> Result<(), NoMemory> {
    add_segment(alloc, world, first, FRONT, CODE, true)?;
    add_segment(alloc, world, first.saturating_add(1), b"", DATA, false)?;
    add_segment(alloc, world, first.saturating_add(2), environment, 7, false)
}

/// Adds the process of a number, which is at the same place of the machine file.
pub fn add_process(alloc: Global, world: &mut World, number: u16) -> Result<(), NoMemory> {
    let first = first_name(number);
    let place = (number as usize).wrapping_sub(1);
    let name = NAMES.get(place).copied().unwrap_or("");
    add_segments(alloc, world, first, &environment(name))?;
    world.next_name = first.saturating_add(3);
    let process = process(alloc, number, first)?;
    world.processes.push(process)?;
    Ok(())
}
