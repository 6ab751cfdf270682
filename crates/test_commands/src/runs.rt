// Commands over parts.

use crate::answers::Answer;
use crate::outside::{Outside, words_in};
use crate::parts::Parts;
use o2_base::{Bytes, NoMemory};
use o2_cli::text;
use o2_outer::{MemFiles, MemSink, MemSource, MemSwap};
use std::alloc::Global;

/// How many blocks the swap device has, and the call of each device that fails, counted from 1, or 0 where none does; of a sink
/// with how many bytes it takes before.
#[derive(Clone, Copy)]
pub struct Devices {
    pub blocks: u16,
    pub fetch: u64,
    pub take: u64,
    pub console: (u64, usize),
    pub report: (u64, usize),
    pub swap: u64,
    /// The same, of its writes alone.
    pub write: u64,
}

pub const SURE: Devices = Devices {
    blocks: 1,
    fetch: 0,
    take: 0,
    console: (0, 0),
    report: (0, 0),
    swap: 0,
    write: 0,
};

impl Devices {
    /// Has a call of a device fail, behind so many bytes.
    pub fn fail(&mut self, device: &str, call: u64, taken: usize) {
        match device {
            "fetch" => self.fetch = call,
            "take" => self.take = call,
            "console" => self.console = (call, taken),
            "report" => self.report = (call, taken),
            "swap" => self.swap = call,
            _ => self.write = call,
        }
    }
}

/// The files, the input and the sinks.
fn outside_of(alloc: Global, parts: &Parts, devices: &Devices) -> Result<Outside, NoMemory> {
    let input = Bytes::from_slice(alloc, parts.bytes("input"))?;
    Ok(Outside {
        files: MemFiles::new(parts.files(alloc)?, vec![in alloc; devices.fetch]?),
        input: MemSource::new(input, vec![in alloc; devices.take]?),
        console: MemSink::new(alloc, 65536, vec![in alloc; devices.console]?)?,
        report: MemSink::new(alloc, 1_048_576, vec![in alloc; devices.report]?)?,
    })
}

/// The swap device.
fn device(alloc: Global, devices: &Devices) -> Result<MemSwap, NoMemory> {
    let blocks = u32::from(devices.blocks);
    let mut swap = MemSwap::new(alloc, blocks, vec![in alloc; devices.swap]?)?;
    swap.fail_write(devices.write);
    Ok(swap)
}

/// What a command comes to over the parts that are files, the part `input` and these devices.
pub fn run_command(
    alloc: Global,
    words: &str,
    parts: &Parts,
    devices: &Devices,
) -> Result<Answer, NoMemory> {
    let words = words_in(alloc, words)?;
    let mut swap = device(alloc, devices)?;
    let mut outside = outside_of(alloc, parts, devices)?;
    let status = outside.run(alloc, words.as_slice(), &mut swap);
    let line = text(alloc, &status)?;
    let Outside {
        console,
        report,
        ..
    } = outside;
    Ok(Answer {
        status,
        line,
        console,
        report,
        writes: swap.writes(),
        faults: swap.faults(),
    })
}
