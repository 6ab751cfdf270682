// What is needed comes into a small memory, as a script says.
ghost use Rattle.std.specs.Prelude.{◌≡◌};
ghost use Rattle.o2_store.specs.Trials.{IsReady};
ghost use Rattle.o2_service.specs.Trials.{IsUnheld};

use crate::calls::{bring, nobody};
use o2_base::NoMemory;
use o2_image::Images;
use o2_outer::{MemSwap, SwapDevice};
use o2_place::SegId;
use o2_regions::Regions;
use o2_service::Served;
use o2_store::Store;
use std::alloc::Global;
use test_store_calls::{add, write};

// The segment of a letter.
fn id_of(ids: [SegId; 3], letter: &str) -> SegId {
    match letter {
        "a" => ids[0],
        "b" => ids[1],
        _ => ids[2],
    }
}

// Letters, some with an offset behind, as `a b:17`.
fn pairs_in(alloc: Global, ids: [SegId; 3], text: &str) -> Result<Vec<(SegId, u32)>, NoMemory> {
    let mut pairs = Vec::new(alloc);
    for word in text.split_ascii_whitespace() {
        let (letter, offset) = word.split_once(':').unwrap_or((word, "0"));
        pairs.push((id_of(ids, letter), offset.parse::<u32>().unwrap_or(0)))?;
    }
    Ok(pairs)
}

fn served_of(word: &str) -> Served {
    match word {
        "here" => Served::Here,
        "room" => Served::NoRoom,
        "full" => Served::SwapFull,
        _ => Served::SwapFault,
    }
}

// Does a part of a script, and tells whether it goes as it says.
fn does<S: SwapDevice>(
    store: &mut Store,
    regions: &mut Regions,
    images: &Images,
    swap: &mut S,
    ids: [SegId; 3],
    part: &str,
    alloc: Global,
) -> Result<bool, NoMemory>
    requires ready { IsReady store.old images.now (S.blocks swap.old) }
    requires unheld { IsUnheld regions.old }
    ensures ready { IsReady store.new images.now (S.blocks swap.new) }
    ensures unheld { IsUnheld regions.new }
{
    let Some((need, rest)) = part.split_once(" = ") else {
        return Ok(write(store, images, swap, ids[1], 0, 7));
    };
    let pairs = pairs_in(alloc, ids, need)?;
    let (served, out) = rest.split_once(' ').unwrap_or((rest, ""));
    let answer = bring(store, regions, images, swap, pairs.as_slice());
    Ok(answer == Some(served_of(served)) && store.base(id_of(ids, out)).is_none())
}

// The first part of a script over three segments of 32 bytes that goes another way, or no text.
fn first_part<S: SwapDevice>(
    store: &mut Store,
    regions: &mut Regions,
    images: &Images,
    swap: &mut S,
    script: &'static str,
    alloc: Global,
) -> Result<&'static str, NoMemory>
    requires unheld { IsUnheld regions.old }
    requires ready { IsReady store.old images.now (S.blocks swap.old) }
    requires none { store.old.made ≡ 0 }
{
    let Some(a) = add(store, images, swap, 32) else {
        return Ok("no room for a");
    };
    let Some(b) = add(store, images, swap, 32) else {
        return Ok("no room for b");
    };
    let Some(c) = add(store, images, swap, 32) else {
        return Ok("no room for c");
    };
    for part in script.split(" / ") {
        if !does(store, regions, images, swap, [a, b, c], part, alloc)? {
            return Ok(part);
        }
    }
    Ok("")
}

/// The first part of a script that goes another way, or no text, over a memory for two of three segments of 32 bytes, and a device of so
/// many blocks that fails at these calls, counted from 1. Parts stand between ` / `: `write` writes into the segment `b`; by
/// `b:17 a = here c` the segments `b` and `a` are needed, and are to get 17 bytes and no other size, this comes to `Here`, and `c` is out of
/// memory then.
pub fn first_wrong(
    alloc: Global,
    blocks: u16,
    fails: Vec<u64>,
    script: &'static str,
) -> Result<&'static str, NoMemory> {
    let blocks = u32::from(blocks);
    let mut regions = nobody(alloc)?;
    let mut store = Store::make(alloc, 64, blocks, 4)?;
    let mut swap = MemSwap::new(alloc, blocks, fails)?;
    let images = Images::new(Vec::new(alloc), Vec::new(alloc));
    first_part(&mut store, &mut regions, &images, &mut swap, script, alloc)
}
