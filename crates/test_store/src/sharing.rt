// Segments in a memory that has room for one of them, as texts of calls with their answers.
ghost use Rattle.std.specs.Prelude.{◌≡◌, ◌+◌, ◌<◌, ◌≤◌, ◌^◌};
ghost use Rattle.o2_store.specs.Trials.{IsReady};

use o2_base::NoMemory;
use o2_image::Images;
use o2_outer::{Dev, SureSwap, SwapDevice};
use o2_place::SegId;
use o2_store::{Brought, Place, Store};
use std::alloc::Global;
use test_fixtures::{Wrong, want_line};
use test_store_calls::{add, bring, evict, resize, write};

/// Two segments of 600 and 700 bytes.
static TWO: &str = "
bring a = here
write a 520 5 = here
both b = room
place a = 0
bring b = here
place a = blocks
kept a = 521
size a 1024 = here
place a = blocks
bring a = here
place b = zeros
byte a 520 = 5
byte a 521 = 0
byte a 1023 = 0
";

/// A segment whose block is written behind the store's back.
static CHANGED: &str = "
bring a = here
write a 0 1 = here
evict a = here
block a = here
bring a = here
byte a 0 = 2
byte a 1 = 0
";

fn number(text: &str) -> u32 {
    text.parse::<u32>().unwrap_or(0xDEAD)
}

/// Up to two numbers, with 0 for those that are missing.
fn numbers(text: &str) -> (u32, u32) {
    match text.split_once(' ') {
        Some((first, second)) => (number(first), number(second)),
        None => (number(text), 0),
    }
}

fn brought_of(word: &str) -> Option<Brought> {
    match word {
        "here" => Some(Brought::Here),
        "room" => Some(Brought::NoRoom),
        _ => None,
    }
}

fn place_of(word: &str) -> Place {
    match word {
        "zeros" => Place::Zeros,
        "blocks" => Place::Blocks,
        at => Place::Memory(number(at)),
    }
}

/// A byte of a segment that is in memory.
fn byte_at(store: &Store, id: SegId, offset: u32) -> Option<u8> {
    let window = store.window(id)?;
    window.get(offset as usize).copied()
}

/// Whether a call that looks at a segment answers so.
fn is_seen(store: &Store, id: SegId, call: &str, offset: u32, wanted: &str) -> bool {
    match call {
        "place" => store.place(id) == Some(place_of(wanted)),
        "kept" => store.kept(id) == Some(number(wanted)),
        _ => match byte_at(store, id, offset) {
            Some(byte) => u32::from(byte) == number(wanted),
            None => false,
        },
    }
}

/// Writes the first block of a segment.
fn write_block<S: SwapDevice>(store: &Store, swap: &mut S, id: SegId) -> Option<Brought>
    ensures { S.blocks swap.new ≡ S.blocks swap.old }
{
    let block = store.block(id, 0)?;
    if swap.count() <= block {
        return None;
    }
    match swap.write(block, &[2u8; 512]) {
        Dev::Done => Some(Brought::Here),
        Dev::Failed => None,
    }
}

/// A call that changes something, and its answer.
fn change<S: SwapDevice>(
    store: &mut Store,
    images: &Images,
    swap: &mut S,
    id: SegId,
    keep: &[SegId],
    call: &str,
    numbers: (u32, u32),
) -> Option<Brought>
    requires { IsReady store.old images.now (S.blocks swap.old) }
    ensures { IsReady store.new images.now (S.blocks swap.new) }
{
    match call {
        "bring" => Some(bring(store, id, &[], images, swap)),
        "both" => Some(bring(store, id, keep, images, swap)),
        "evict" => evict(store, id, images, swap),
        "block" => write_block(store, swap, id),
        "size" => {
            if numbers.0 == 0 || numbers.0 > 65_536 {
                return None;
            }
            Some(resize(store, id, numbers.0, &[], images, swap))
        }
        _ => {
            let byte = (numbers.1 % 256) as u8;
            if write(store, images, swap, id, numbers.0, byte) {
                return Some(Brought::Here);
            }
            None
        }
    }
}

/// Whether a line's call on one of two segments answers what the line says.
fn is_right<S: SwapDevice>(
    store: &mut Store,
    images: &Images,
    swap: &mut S,
    ids: [SegId; 2],
    call: &str,
    wanted: &str,
) -> bool
    requires { IsReady store.old images.now (S.blocks swap.old) }
    ensures { IsReady store.new images.now (S.blocks swap.new) }
{
    let (name, rest) = call.split_once(' ').unwrap_or((call, ""));
    let (letter, rest) = rest.split_once(' ').unwrap_or((rest, "0"));
    let [first, second] = ids;
    let (id, other) = if letter == "a" {
        (first, second)
    } else {
        (second, first)
    };
    match name {
        "place" | "kept" | "byte" => is_seen(store, id, name, number(rest), wanted),
        _ => change(store, images, swap, id, &[other], name, numbers(rest)) == brought_of(wanted),
    }
}

/// The first line of a text of calls on two segments of these sizes that answers something else, or no text.
fn first_wrong<S: SwapDevice>(
    store: &mut Store,
    images: &Images,
    swap: &mut S,
    sizes: (u32, u32),
    text: &'static str,
) -> &'static str
    requires ready { IsReady store.old images.now (S.blocks swap.old) }
    requires few { store.old.made < 2 ^ 16 }
    requires first { (0 < sizes.0) × (sizes.0 ≤ 65536) }
    requires second { (0 < sizes.1) × (sizes.1 ≤ 65536) }
{
    let Some(first) = add(store, images, swap, sizes.0) else {
        return "the first segment";
    };
    let Some(second) = add(store, images, swap, sizes.1) else {
        return "the second segment";
    };
    for line in text.lines() {
        if let Some((call, wanted)) = line.split_once(" = ") {
            if !is_right(store, images, swap, [first, second], call, wanted) {
                return line;
            }
        }
    }
    ""
}

/// The same over a device of 16 blocks.
fn wrong_over(
    store: &mut Store,
    images: &Images,
    sizes: (u32, u32),
    text: &'static str,
    alloc: Global,
) -> Result<&'static str, NoMemory>
    requires ready { IsReady store.old images.now 16 }
    requires few { store.old.made < 2 ^ 16 }
    requires first { (0 < sizes.0) × (sizes.0 ≤ 65536) }
    requires second { (0 < sizes.1) × (sizes.1 ≤ 65536) }
{
    let mut swap = SureSwap::new(alloc, 16)?;
    Ok(first_wrong(store, images, &mut swap, sizes, text))
}

/// The same in a memory of 1024 bytes.
fn wrong_in(
    images: &Images,
    sizes: (u32, u32),
    text: &'static str,
    alloc: Global,
) -> Result<&'static str, NoMemory>
    requires first { (0 < sizes.0) × (sizes.0 ≤ 65536) }
    requires second { (0 < sizes.1) × (sizes.1 ≤ 65536) }
{
    let mut store = Store::make(alloc, 1024, 16, 4)?;
    wrong_over(&mut store, images, sizes, text, alloc)
}

/// The first line of such a text that answers something else, without images; or no text.
fn wrong(alloc: Global, sizes: (u32, u32), text: &'static str) -> Result<&'static str, NoMemory>
    requires first { (0 < sizes.0) × (sizes.0 ≤ 65536) }
    requires second { (0 < sizes.1) × (sizes.1 ≤ 65536) }
{
    let images = Images::new(Vec::new(alloc), Vec::new(alloc));
    wrong_in(&images, sizes, text, alloc)
}

/// The same of both texts.
fn wrong_line(alloc: Global) -> Result<&'static str, NoMemory> {
    let line = wrong(alloc, (600, 700), TWO)?;
    if !line.is_empty() {
        return Ok(line);
    }
    wrong(alloc, (16, 16), CHANGED)
}

pub fn segments_share_the_memory(alloc: Global) -> Result<(), Wrong> {
    let line = wrong_line(alloc)?;
    want_line(line.is_empty(), line)
}
