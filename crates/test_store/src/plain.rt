// A plain model of a store, a byte list for each segment, and long runs of both.
ghost use Rattle.std.specs.Prelude.{◌≡◌, ◌+◌, ◌<◌, ◌≤◌, ◌^◌, IfOk, length, replicate};
ghost use Rattle.o2_outer.specs.Devices.{mem_blocks};
ghost use Rattle.o2_store.specs.Pictures.{HasPicture};
ghost use Rattle.o2_store.specs.Trials.{IsReady};

use o2_base::{Bytes, NoMemory};
use o2_image::Images;
use o2_outer::{MemSwap, SwapDevice};
use o2_place::SegId;
use o2_store::{Brought, Store};
use std::alloc::Global;
use test_fixtures::Wrong;
use test_store_calls::{add, add_environment, bring, evict, lock, remove, resize, touch, write};

/// A segment as it should be.
#[derive(Drop)]
struct Segment {
    id: SegId,
    bytes: Vec<u8>,
    locked: bool,
}

/// What is wrong, unless it holds.
fn must(holds: bool, text: &'static str) -> Result<(), &'static str> {
    if holds { Ok(()) } else { Err(text) }
}

/// The next number below a bound that looks random.
fn roll(seed: &mut u32, below: u32) -> u32
    requires { 0 < below }
    ensures { result < below }
{
    *seed = seed.wrapping_mul(1_664_525).wrapping_add(1_013_904_223);
    (*seed >> 8) % below
}

/// The bytes of the environment, and zeros behind them.
fn environment_byte(k: u32) -> u8 {
    if k < 700 {
        return 1 + (k % 251) as u8;
    }
    0
}

/// Adds so many bytes of the environment, or of zeros.
fn fill(bytes: &mut Vec<u8>, size: u32, environment: bool) -> Result<(), NoMemory> {
    for k in 0..size {
        bytes.push(if environment { environment_byte(k) } else { 0 })?;
    }
    Ok(())
}

/// So many bytes of the environment, or of zeros.
fn bytes_of(alloc: Global, size: u32, environment: bool) -> Result<Vec<u8>, NoMemory> {
    let mut bytes = Vec::new(alloc);
    fill(&mut bytes, size, environment)?;
    Ok(bytes)
}

/// Images of no module and one environment.
#[tactic(auto, using(o2_store::proofs::Ready::first_environment))]
fn environment(alloc: Global) -> Result<Images, NoMemory>
    ensures { IfOk result (λ images. HasPicture images 0 1) }
{
    let bytes = Bytes::new(bytes_of(alloc, 700, true)?);
    let mut environments = Vec::new(alloc);
    environments.push(bytes)?;
    Ok(Images::new(Vec::new(alloc), environments))
}

/// Adds a segment to the model.
fn begin_plain(
    all: &mut Vec<Segment>,
    id: SegId,
    size: u32,
    clean: bool,
    alloc: Global,
) -> Result<(), NoMemory> {
    let bytes = bytes_of(alloc, size, clean)?;
    all.push(Segment {
        id,
        bytes,
        locked: false,
    })?;
    Ok(())
}

/// Adds a segment to both, of zeros or of the environment.
fn begin<S: SwapDevice>(
    all: &mut Vec<Segment>,
    store: &mut Store,
    images: &Images,
    swap: &S,
    size: u32,
    clean: bool,
    alloc: Global,
) -> Result<(), &'static str>
    requires ready { IsReady store.old images.now (S.blocks swap.now) }
    requires image { HasPicture images.now 0 1 }
    requires size { (0 < size) × (size ≤ 65536) }
    requires few { store.old.made < 2 ^ 32 }
    ensures ready { IsReady store.new images.now (S.blocks swap.now) }
    ensures few { store.new.made ≤ store.old.made + 1 }
{
    let id = if clean {
        add_environment(store, images, swap, size)
    } else {
        add(store, images, swap, size)
    };
    match id {
        Some(id) => must(
            begin_plain(all, id, size, clean, alloc).is_ok(),
            "no memory",
        ),
        None => Ok(()),
    }
}

/// Whether the answer to a call on a live segment may be this one.
fn is_answer(answer: Brought) -> Result<(), &'static str> {
    match answer {
        Brought::Stale => Err("a live segment is stale"),
        _ => Ok(()),
    }
}

fn sizes<S: SwapDevice>(
    segment: &mut Segment,
    store: &mut Store,
    images: &Images,
    swap: &mut S,
    size: u32,
    keep: &[SegId],
) -> Result<(), &'static str>
    requires ready { IsReady store.old images.now (S.blocks swap.old) }
    requires size { (0 < size) × (size ≤ 65536) }
    ensures ready { IsReady store.new images.now (S.blocks swap.new) }
    ensures made { store.new.made ≡ store.old.made }
{
    let out = store.base(segment.id).is_none();
    match resize(store, segment.id, size, keep, images, swap) {
        Brought::Stale => Err("a live segment is stale"),
        Brought::Here => must(segment.bytes.resize(size as usize, 0).is_ok(), "no memory"),
        _ => must(!out, "a segment out of memory needs no room"),
    }
}

fn writes<S: SwapDevice>(
    segment: &mut Segment,
    store: &mut Store,
    images: &Images,
    swap: &S,
    offset: u32,
) -> Result<(), &'static str>
    requires { IsReady store.old images.now (S.blocks swap.now) }
    ensures ready { IsReady store.new images.now (S.blocks swap.now) }
    ensures made { store.new.made ≡ store.old.made }
{
    let value = (offset % 250) as u8;
    if !write(store, images, swap, segment.id, offset, value) {
        return Ok(());
    }
    match segment.bytes.get_mut(offset as usize) {
        Some(byte) => *byte = value,
        None => return must(false, "a byte behind the end"),
    }
    Ok(())
}

fn locks<S: SwapDevice>(
    segment: &mut Segment,
    store: &mut Store,
    images: &Images,
    swap: &S,
) -> Result<(), &'static str>
    requires { IsReady store.old images.now (S.blocks swap.now) }
    ensures ready { IsReady store.new images.now (S.blocks swap.now) }
    ensures made { store.new.made ≡ store.old.made }
{
    if lock(store, images, swap, segment.id, u8::from(!segment.locked)) {
        segment.locked = !segment.locked;
    }
    must(
        !segment.locked || store.base(segment.id).is_some(),
        "a locked segment is out of memory",
    )
}

/// One of the calls on a segment, and the same on its bytes.
fn change<S: SwapDevice>(
    segment: &mut Segment,
    store: &mut Store,
    images: &Images,
    swap: &mut S,
    call: u32,
    size: u32,
    keep: &[SegId],
) -> Result<(), &'static str>
    requires ready { IsReady store.old images.now (S.blocks swap.old) }
    requires size { (0 < size) × (size ≤ 65536) }
    ensures ready { IsReady store.new images.now (S.blocks swap.new) }
    ensures made { store.new.made ≡ store.old.made }
{
    match call {
        0 => sizes(segment, store, images, swap, size, keep),
        1 => locks(segment, store, images, swap),
        2 => {
            let _ = evict(store, segment.id, images, swap);
            Ok(())
        }
        3 => must(
            touch(store, images, swap, segment.id),
            "a live segment is stale",
        ),
        4 | 5 => is_answer(bring(store, segment.id, keep, images, swap)),
        _ => writes(segment, store, images, swap, size - 1),
    }
}

/// Removes a segment from the model.
fn end_plain(all: &mut Vec<Segment>) -> Option<SegId> {
    let segment = all.pop()?;
    Some(segment.id)
}

/// Removes a segment from both.
fn end<S: SwapDevice>(
    all: &mut Vec<Segment>,
    store: &mut Store,
    images: &Images,
    swap: &S,
) -> Result<(), &'static str>
    requires { IsReady store.old images.now (S.blocks swap.now) }
    ensures ready { IsReady store.new images.now (S.blocks swap.now) }
    ensures made { store.new.made ≡ store.old.made }
{
    let Some(id) = end_plain(all) else {
        return Ok(());
    };
    must(remove(store, images, swap, id), "a live segment is stale")?;
    must(store.size(id).is_none(), "a removed segment is live")
}

/// Whether a segment of the store is that of the model, as far as it is in memory.
fn compare_one(segment: &Segment, store: &Store) -> Result<(), &'static str> {
    let Some(size) = store.size(segment.id) else {
        return Err("a live segment is stale");
    };
    if size as usize != segment.bytes.len() {
        return Err("another size");
    }
    match store.window(segment.id) {
        Some(window) => must(window == segment.bytes.as_slice(), "other bytes"),
        None => Ok(()),
    }
}

/// Whether all of them are.
fn compare(all: &[Segment], store: &Store) -> Result<(), &'static str> {
    for segment in all {
        compare_one(segment, store)?;
    }
    Ok(())
}

/// The segment at a place, or a stale one.
fn id_at(all: &[Segment], place: usize) -> SegId {
    match all.get(place) {
        Some(segment) => segment.id,
        None => SegId { key: 0, age: 0 },
    }
}

/// One call on both.
fn step<S: SwapDevice>(
    all: &mut Vec<Segment>,
    store: &mut Store,
    images: &Images,
    swap: &mut S,
    seed: &mut u32,
    alloc: Global,
) -> Result<(), &'static str>
    requires ready { IsReady store.old images.now (S.blocks swap.old) }
    requires image { HasPicture images.now 0 1 }
    requires few { store.old.made < 2 ^ 32 }
    ensures ready { IsReady store.new images.now (S.blocks swap.new) }
    ensures few { store.new.made ≤ store.old.made + 1 }
{
    let call = roll(seed, 20);
    let size = 1 + roll(seed, 1000);
    if call < 2 {
        return begin(all, store, images, swap, size, call == 0, alloc);
    }
    if call == 2 {
        return end(all, store, images, swap);
    }
    let one = roll(seed, 6) as usize;
    let other = roll(seed, 6) as usize;
    let keep = [id_at(all, other)];
    match all.get_mut(one) {
        Some(segment) => change(segment, store, images, swap, call - 3, size, &keep),
        None => Ok(()),
    }
}

/// Takes the lock of each segment.
fn unlock_each<S: SwapDevice>(all: &[Segment], store: &mut Store, images: &Images, swap: &S)
    requires { IsReady store.old images.now (S.blocks swap.now) }
    ensures { IsReady store.new images.now (S.blocks swap.now) }
{
    for segment in all {
        let _ = lock(store, images, swap, segment.id, 0);
    }
}

/// Brings a segment in, with one try more where the device fails.
fn bring_one<S: SwapDevice>(
    id: SegId,
    store: &mut Store,
    images: &Images,
    swap: &mut S,
) -> Result<(), &'static str>
    requires { IsReady store.old images.now (S.blocks swap.old) }
    ensures { IsReady store.new images.now (S.blocks swap.new) }
{
    let _ = bring(store, id, &[], images, swap);
    let answer = bring(store, id, &[], images, swap);
    must(answer == Brought::Here, "no room for one segment")
}

/// Brings each segment in by itself.
fn bring_each<S: SwapDevice>(
    all: &[Segment],
    store: &mut Store,
    images: &Images,
    swap: &mut S,
) -> Result<(), &'static str>
    requires { IsReady store.old images.now (S.blocks swap.old) }
{
    for segment in all {
        bring_one(segment.id, store, images, swap)?;
        compare(all, store)?;
    }
    Ok(())
}

/// So many calls at random on both, and each segment by itself behind them.
fn rounds_of(
    all: &mut Vec<Segment>,
    store: &mut Store,
    images: &Images,
    swap: &mut MemSwap,
    seed: u32,
    rounds: u32,
    alloc: Global,
) -> Result<(), &'static str>
    requires ready { IsReady store.old images.now (length (mem_blocks swap.old)) }
    requires image { HasPicture images.now 0 1 }
    requires made { store.old.made ≡ 0 }
{
    let mut seed = seed;
    for _round in 0..rounds {
        step(all, store, images, swap, &mut seed, alloc)?;
        compare(all, store)?;
    }
    unlock_each(all, store, images, swap);
    bring_each(all, store, images, swap)
}

/// The rounds with a model of their own.
fn with_model(
    store: &mut Store,
    images: &Images,
    swap: &mut MemSwap,
    seed: u32,
    rounds: u32,
    alloc: Global,
) -> Result<(), &'static str>
    requires ready { IsReady store.old images.now (length (mem_blocks swap.old)) }
    requires image { HasPicture images.now 0 1 }
    requires made { store.old.made ≡ 0 }
{
    let mut all = Vec::new(alloc);
    rounds_of(&mut all, store, images, swap, seed, rounds, alloc)
}

/// A device of 12 blocks that fails at one call.
fn failing_at(alloc: Global, call: u64) -> Result<MemSwap, NoMemory>
    ensures { IfOk result (λ swap. mem_blocks swap ≡ replicate 12 (replicate 512 0)) }
{
    MemSwap::new(alloc, 12, vec![in alloc; call]?)
}

/// The rounds over such a device.
fn with_device(
    store: &mut Store,
    images: &Images,
    call: u64,
    seed: u32,
    rounds: u32,
    alloc: Global,
) -> Result<(), &'static str>
    requires ready { IsReady store.old images.now 12 }
    requires image { HasPicture images.now 0 1 }
    requires made { store.old.made ≡ 0 }
{
    match failing_at(alloc, call) {
        Ok(mut swap) => with_model(store, images, &mut swap, seed, rounds, alloc),
        Err(_) => Err("no memory"),
    }
}

/// A long run in a memory of so many bytes, over a device that fails at one call.
fn run(
    alloc: Global,
    images: &Images,
    memory: u32,
    call: u64,
    rounds: u32,
) -> Result<(), &'static str>
    requires image { HasPicture images.now 0 1 }
    requires memory { memory ≤ 65536 }
{
    match Store::make(alloc, memory, 12, 6) {
        Ok(mut store) => with_device(&mut store, images, call, memory, rounds, alloc),
        Err(_) => Err("no memory"),
    }
}

/// A memory for one segment, and for more of them up to all.
fn memory_of(k: u32) -> u32
    requires { k ≤ 8 }
    ensures { result ≤ 65536 }
{
    1024 * (1 + k)
}

/// Runs in each memory, and over devices of which each call fails in turn.
fn run_each(alloc: Global, images: &Images) -> Result<(), &'static str>
    requires { HasPicture images.now 0 1 }
{
    for k in 0..7 {
        run(alloc, images, memory_of(k), 0, 1000)?;
    }
    for call in 1..120 {
        run(alloc, images, 2048, call, 150)?;
    }
    Ok(())
}

/// The same, with their images.
pub fn segments_are_byte_lists(alloc: Global) -> Result<(), Wrong> {
    let images = environment(alloc)?;
    Ok(run_each(alloc, &images)?)
}
