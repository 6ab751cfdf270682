// What a step needs comes into a full memory, where nothing slides.
ghost use Rattle.test_bus_parts.specs.Trials.{IsReady};

use o2_base::NoMemory;
use o2_desc::Access;
use o2_place::SegId;
use std::alloc::Global;
use test_bus_parts::Bench;

/// A segment's size in bytes.
const SIZE: u32 = 4096;

/// How many segments there are beside those that the memory has room for.
const MORE: u32 = 16;

/// How many blocks the device has.
const BLOCKS: u32 = 65_536;

/// How often something is needed.
const ROUNDS: u64 = 200_000;

/// Process 1 holds one segment more, of zeros.
fn add(bench: &mut Bench, ids: &mut Vec<SegId>) -> Result<(), NoMemory>
    requires { IsReady bench.old }
    ensures { IsReady bench.new }
{
    let Some(id) = bench.add(SIZE) else {
        return Err(NoMemory);
    };
    let _index = bench.hold(id, Access::WRITABLE_DATA.0);
    ids.push(id)?;
    Ok(())
}

/// Process 1 holds so many segments more.
fn add_many(bench: &mut Bench, ids: &mut Vec<SegId>, segments: u32) -> Result<(), NoMemory>
    requires { IsReady bench.old }
    ensures { IsReady bench.new }
{
    for _round in 0..segments {
        add(bench, ids)?;
    }
    Ok(())
}

/// Serves a need of one segment, and tells whether it came in for it.
fn serve_one(bench: &mut Bench, id: SegId) -> bool
    requires { IsReady bench.old }
    ensures { IsReady bench.new }
{
    let is_there = bench.store.base(id).is_some();
    bench.bring(&[(id, 0)]) && !is_there
}

/// Serves needs of one segment each, one after the other and again from the first one on. The answer is how often one came in.
fn serve_round(bench: &mut Bench, ids: &[SegId]) -> u64
    requires { IsReady bench.old }
{
    let mut done: u64 = 0;
    for round in 0..ROUNDS {
        if let Some(id) = ids.get((round % 65_536) as usize % ids.len().max(1)) {
            if serve_one(bench, *id) {
                done = done.wrapping_add(1);
            }
        }
    }
    done
}

/// Serves the needs of segments one after the other, in a memory that has room for so many of 4,096 bytes, at most 4,000: each one that
/// comes in drives another one out, and takes its place. The answer is how often one came in.
pub fn serve_many(alloc: Global, present: u16) -> Result<u64, NoMemory> {
    let present = u32::from(present).min(4000);
    let mut bench = Bench::new(alloc, SIZE * present, BLOCKS, present + MORE)?;
    let mut ids = Vec::new(alloc);
    add_many(&mut bench, &mut ids, present + MORE)?;
    Ok(serve_round(&mut bench, ids.as_slice()))
}
