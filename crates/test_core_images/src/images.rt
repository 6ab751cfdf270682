// Images that are written of a small memory, over sinks and devices of which a call fails.
ghost use Rattle.std.specs.Prelude.{◌≡◌, ◌≤◌, length};
ghost use Rattle.test_bus_parts.specs.Trials.{IsReady};
ghost use Rattle.o2_outer.specs.Devices.{mem_blocks};
ghost use Rattle.o2_regions.specs.Maps.{IsProcess};
ghost use Rattle.o2_segbus.specs.Settled.{IsSettled};
ghost use Rattle.o2_swapmap.specs.Piles.{all_of};

use o2_base::NoMemory;
use o2_dumping::{Parts, Wrote, write};
use o2_isa::Cpu;
use o2_outer::{MemSink, MemSwap, Sink, SwapDevice};
use o2_regions::Regions;
use o2_store::Store;
use std::alloc::Global;
use test_bus_parts::Bench;

/// Data that can be read and written, and was accessed.
const DATA: u8 = 0xF3;

const CPU: Cpu = Cpu {
    ax: 0x0102,
    cx: 0x0304,
    dx: 0x0506,
    bx: 0x0708,
    sp: 0x090A,
    bp: 0x0B0C,
    si: 0x0D0E,
    di: 0x0F10,
    ip: 0x1112,
    flags: 0x1314,
    cs: 0x1516,
    ds: 0x1718,
    es: 0x191A,
    ss: 0x1B1C,
};

/// Writes the image of a machine with so many blocks, whose process has ended with code 7 after ten steps and thirteen bytes.
fn put<C: Sink, S: SwapDevice>(
    store: &Store,
    regions: &Regions,
    blocks: u32,
    console: &mut C,
    swap: &mut S,
) -> Wrote
    requires process { IsProcess regions.now 1 }
    requires settled { IsSettled store.now regions.now }
    requires device { all_of store.now.swap ≤ S.blocks swap.old }
    ensures { S.blocks swap.new ≡ S.blocks swap.old }
{
    let processes = [(CPU, 1, 7)];
    let parts = Parts {
        store,
        regions,
        processes: &processes,
        blocks,
        steps: 10,
        console: 13,
    };
    write(&parts, console, swap)
}

/// A sink with room for any image here, of which a call fails behind three bytes, or none.
pub fn sink(alloc: Global, failing: u64) -> Result<MemSink, NoMemory> {
    let mut fails = Vec::new(alloc);
    if failing > 0 {
        fails.push((failing, 3))?;
    }
    MemSink::new(alloc, 65_536, fails)
}

/// What is written of a bench over its own device.
fn written(bench: &mut Bench, console: &mut MemSink) -> Wrote
    requires { IsReady bench.old }
    ensures { IsReady bench.new }
{
    let blocks = bench.swap.count();
    put(
        &bench.store,
        &bench.regions,
        blocks,
        console,
        &mut bench.swap,
    )
}

/// Makes three segments of 2,000 bytes one after the other, and one of zeros that is never in memory; whether there was room.
fn fill(bench: &mut Bench) -> bool
    requires { IsReady bench.old }
    ensures { IsReady bench.new }
{
    for byte in [b'a', b'b', b'c'] {
        if bench.insert(&[byte; 2_000], DATA).is_none() {
            return false;
        }
    }
    match bench.add(300) {
        Some(id) => bench.hold(id, DATA).is_some(),
        None => false,
    }
}

/// Writes the image of a memory of 4,096 bytes without segments and without blocks.
pub fn write_empty(alloc: Global, console: &mut MemSink) -> Result<Wrote, NoMemory> {
    let mut bench = Bench::new(alloc, 4_096, 0, 8)?;
    Ok(written(&mut bench, console))
}

/// Whether the console failed, and took a front of what is wanted.
fn is_cut(console: &MemSink, wrote: Wrote, wanted: &[u8]) -> bool {
    wrote == Wrote::SinkFault && wanted.starts_with(console.taken())
}

/// Whether this put of the image is cut where it fails; none where it is neither cut nor the whole image.
fn is_cut_at(
    alloc: Global,
    bench: &mut Bench,
    call: u64,
    wanted: &[u8],
) -> Result<Option<bool>, NoMemory>
    requires { IsReady bench.old }
    ensures { IsReady bench.new }
{
    let mut console = sink(alloc, call)?;
    let wrote = written(bench, &mut console);
    if is_cut(&console, wrote, wanted) {
        Ok(Some(true))
    } else if wrote == Wrote::Done && console.taken() == wanted {
        Ok(Some(false))
    } else {
        Ok(None)
    }
}

/// How many of 64 puts cut the image where they fail, where the others leave it whole; none where one does neither.
fn count_cut(alloc: Global, bench: &mut Bench, wanted: &[u8]) -> Result<Option<u32>, NoMemory>
    requires { IsReady bench.old }
    ensures { IsReady bench.new }
{
    let mut count = 0u32;
    for call in 1..=64u64 {
        match is_cut_at(alloc, bench, call, wanted)? {
            Some(true) => count = count.saturating_add(1),
            Some(false) => {}
            None => return Ok(None),
        }
    }
    Ok(Some(count))
}

/// How many puts of the image of the filled memory are cut: the head; four segments, of which one has four blocks of two puts; the memory; the
/// process, and what it holds; the end mark.
const PUTS: u32 = 1 + 4 + 8 + 1 + 1 + 4 + 1;

/// What is written of a bench over another device, of which this read fails.
fn written_over(bench: &Bench, device: &mut MemSwap, console: &mut MemSink) -> Wrote
    requires ready { IsReady bench.now }
    requires device { all_of bench.now.store.swap ≤ length (mem_blocks device.old) }
{
    put(&bench.store, &bench.regions, 16, console, device)
}

/// What is written of a bench over a device of so many blocks, of which this read fails.
fn written_without(alloc: Global, bench: &Bench, blocks: u32, call: u64) -> Result<Wrote, NoMemory>
    requires ready { IsReady bench.now }
    requires device { all_of bench.now.store.swap ≤ blocks }
    requires small { blocks ≤ 65536 }
{
    let mut console = sink(alloc, 0)?;
    let mut device = MemSwap::new(alloc, blocks, vec![in alloc; call]?)?;
    Ok(written_over(bench, &mut device, &mut console))
}

/// Whether each of four reads may fail, and there is no fifth.
fn each_is_read(alloc: Global, bench: &Bench) -> Result<bool, NoMemory>
    requires { IsReady bench.now }
{
    let blocks = bench.swap.count();
    if blocks != 16 {
        return Ok(false);
    }
    for call in 1..=5u64 {
        let wanted = if call < 5 {
            Wrote::SwapFault
        } else {
            Wrote::Done
        };
        if written_without(alloc, bench, blocks, call)? != wanted {
            return Ok(false);
        }
    }
    Ok(true)
}

/// What is tried of the filled memory, whose image is written before.
#[derive(Clone, Copy)]
pub enum Trial {
    /// Nothing more.
    Image,
    /// Each put of the image fails.
    Puts,
    /// Each read of a block fails.
    Reads,
}

/// Whether the image of a bench is whole, and is cut at each of its puts, or fails at each read.
fn passes(
    alloc: Global,
    bench: &mut Bench,
    console: &mut MemSink,
    trial: Trial,
) -> Result<bool, NoMemory>
    requires { IsReady bench.old }
{
    if written(bench, console) != Wrote::Done {
        return Ok(false);
    }
    match trial {
        Trial::Image => Ok(true),
        Trial::Puts => Ok(count_cut(alloc, bench, console.taken())? == Some(PUTS)),
        Trial::Reads => each_is_read(alloc, bench),
    }
}

/// Whether this is so of a memory of 4,096 bytes with sixteen blocks, in which three segments of 2,000 bytes are made, `a`, `b` and `c`, so
/// that one has to leave, and one of 300 zeros.
pub fn filled_passes(alloc: Global, console: &mut MemSink, trial: Trial) -> Result<bool, NoMemory> {
    let mut bench = Bench::new(alloc, 4_096, 16, 8)?;
    if !fill(&mut bench) {
        return Ok(false);
    }
    passes(alloc, &mut bench, console, trial)
}
