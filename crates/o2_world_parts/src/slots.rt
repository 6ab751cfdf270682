// The words of a call by its slots: where each lies, what its line shows, where its pointers lead, and what is written there.
ghost use Rattle.std.specs.Prelude.{◌≡◌, ◌≤◌, ◌++◌, ◌+◌, IfOk, flat_map, map, replicate, slice_index};
ghost use Rattle.std.specs.List.{list_all};
ghost use Rattle.o2_world.specs.declared.types.Argument.TheVariants.{Far};
ghost use Rattle.o2_world.specs.CallParts.{word_bytes, long_bytes};
ghost use Rattle.o2_world.specs.Slots.{parts_at, shown_at, values_at, words_in, words_of};
ghost use Rattle.o2_world.specs.Views.{view_of};
ghost use Rattle.o2_world_parts.specs.Layouts.{from_top};
ghost use Rattle.o2_world_parts.specs.Layouts.{good_by, placed, shown_by, targets_by};

use crate::naming::may_read_text;
use crate::pointing::{may_read, may_write};
use crate::{Process, Segment};
use o2_base::{Bytes, NoMemory};
use o2_world::{Argument, Slot};
use std::alloc::Global;

fn words_of(slot: Slot) -> u16
    ensures { result ≡ words_of slot }
{
    match slot {
        Slot::Word => 1,
        Slot::Long => 2,
        Slot::Heap => 1,
        Slot::Reads => 2,
        Slot::Writes => 2,
        Slot::Text => 2,
        Slot::ToWord => 2,
        Slot::ToLong => 2,
        Slot::ToWords(_) => 2,
    }
}

/// The words of a call: each slot with the place of its lowest word from the top of the stack, and how many words there are.
#[derive(Drop)]
pub struct Layout {
    pub slots: Vec<(Slot, u16)>,
    pub words: u16,
}

#[tactic(auto, using(crate::proofs::Placed::placing))]
pub fn layout_of(alloc: Global, slots: &[Slot]) -> Result<Layout, NoMemory>
    ensures slots { IfOk result (λ l. l.slots.items ≡ placed slots.now) }
    ensures words { IfOk result (λ l. l.words ≡ words_in slots.now) }
{
    let mut all = Vec::new(alloc);
    let mut words = 0u16;
    let mut k = slots.len();
    while k > 0 {
        k -= 1;
        let slot = slots[k];
        all.insert(0, (slot, words))?;
        let Some(more) = words.checked_add(words_of(slot)) else {
            return Err(NoMemory);
        };
        words = more;
    }
    Ok(Layout { slots: all, words })
}

/// The word at a place, or 0 past the last one.
fn word(words: &[u16], place: usize) -> u16
    ensures { result ≡ slice_index words.now place }
{
    if place < words.len() { words[place] } else { 0 }
}

/// So many arguments as words by their places from the top of the stack, and zeros behind them, so that there are six at least.
#[tactic(auto, using(crate::proofs::Placed::turning))]
pub fn from_top(alloc: Global, words: u16, args: &[u16]) -> Result<Vec<u16>, NoMemory>
    ensures { IfOk result (λ v. v.items ≡ from_top words args.now ++ replicate 6 0) }
{
    let mut all = Vec::new(alloc);
    let mut k = words;
    while k > 0 {
        k -= 1;
        all.push(word(args, k as usize))?;
    }
    let zeros = vec![in alloc; 0; 6]?;
    all.extend_from_slice(&zeros)?;
    Ok(all)
}

// The line.

fn far(words: &[u16], place: u16) -> Argument
    ensures { result ≡ Far (slice_index words.now (place + 1)) (slice_index words.now place) }
{
    let low = place as usize;
    Argument::Far(word(words, low + 1), word(words, low))
}

fn shown_at(slot: Slot, words: &[u16], place: u16) -> Argument
    ensures { result ≡ shown_at slot (slice_index words.now) place }
{
    match slot {
        Slot::Word => Argument::Word(word(words, place as usize)),
        Slot::Long => {
            let low = place as usize;
            Argument::Long(word(words, low + 1), word(words, low))
        }
        Slot::Heap => Argument::Word(word(words, place as usize)),
        Slot::Reads => far(words, place),
        Slot::Writes => far(words, place),
        Slot::Text => far(words, place),
        Slot::ToWord => far(words, place),
        Slot::ToLong => far(words, place),
        Slot::ToWords(_) => far(words, place),
    }
}

/// The arguments as the line has them.
#[tactic(auto, using(crate::proofs::Placed::showing))]
pub fn shown(alloc: Global, slots: &[(Slot, u16)], words: &[u16]) -> Result<Vec<Argument>, NoMemory>
    ensures { IfOk result (λ v. v.items ≡ map (shown_by (slice_index words.now)) slots.now) }
{
    let mut all = Vec::new(alloc);
    for pair in slots {
        all.push(shown_at(pair.0, words, pair.1))?;
    }
    Ok(all)
}

// Pointers.

fn put_target(
    targets: &mut Vec<(u16, u16)>,
    slot: Slot,
    words: &[u16],
    place: u16,
) -> Result<(), NoMemory>
    ensures { IfOk result (λ _. targets.new.items ≡ targets.old.items ++ targets_by (slice_index words.now) (slot, place)) }
{
    let low = place as usize;
    let target = (word(words, low + 1), word(words, low));
    match slot {
        Slot::Word => {}
        Slot::Long => {}
        Slot::Reads => {}
        Slot::Text => {}
        Slot::Writes => targets.push(target)?,
        Slot::ToWord => targets.push(target)?,
        Slot::ToLong => targets.push(target)?,
        Slot::ToWords(_) => targets.push(target)?,
        Slot::Heap => targets.push((word(words, low), 0))?,
    }
    Ok(())
}

/// The pointers behind which bytes are written, as selector and offset.
#[tactic(auto, using(crate::proofs::Placed::leading))]
pub fn targets(
    alloc: Global,
    slots: &[(Slot, u16)],
    words: &[u16],
) -> Result<Vec<(u16, u16)>, NoMemory>
    ensures { IfOk result (λ v. v.items ≡ flat_map (targets_by (slice_index words.now)) slots.now) }
{
    let mut all = Vec::new(alloc);
    for pair in slots {
        put_target(&mut all, pair.0, words, pair.1)?;
    }
    Ok(all)
}

/// Whether the pointer of a slot is good.
fn is_good_at(
    alloc: Global,
    names: &[(u64, Segment)],
    process: &Process,
    slot: Slot,
    words: &[u16],
    place: u16,
) -> Result<bool, NoMemory>
    ensures { IfOk result (λ g. g ≡ good_by (view_of names.now process.now) (slice_index words.now) (slot, place)) }
{
    let low = place as usize;
    let selector = word(words, low + 1);
    let offset = word(words, low);
    let count = u32::from(word(words, low.saturating_sub(1)));
    match slot {
        Slot::Word => Ok(true),
        Slot::Long => Ok(true),
        Slot::Heap => Ok(true),
        Slot::Reads => Ok(may_read(names, process, selector, offset, count)),
        Slot::Writes => Ok(may_write(names, process, selector, offset, count)),
        Slot::Text => may_read_text(alloc, names, process, selector, offset),
        Slot::ToWord => Ok(may_write(names, process, selector, offset, 2)),
        Slot::ToLong => Ok(may_write(names, process, selector, offset, 4)),
        Slot::ToWords(words) => {
            Ok(may_write(names, process, selector, offset, 2 * u32::from(words)))
        }
    }
}

/// Whether all pointers of a call are good.
#[tactic(auto, using(crate::proofs::Placed::testing))]
pub fn are_good(
    alloc: Global,
    names: &[(u64, Segment)],
    process: &Process,
    slots: &[(Slot, u16)],
    words: &[u16],
) -> Result<bool, NoMemory>
    ensures { IfOk result (λ g. g ≡ list_all (good_by (view_of names.now process.now) (slice_index words.now)) slots.now) }
{
    for pair in slots {
        let good = is_good_at(alloc, names, process, pair.0, words, pair.1)?;
        if !good {
            return Ok(false);
        }
    }
    Ok(true)
}

// A value.

/// A word, the low byte first; a number that is none doesn't come.
pub fn word_bytes(alloc: Global, word: u32) -> Result<Bytes, NoMemory>
    ensures bytes { IfOk result (λ v. v ≡ word_bytes word) }
    ensures word { IfOk result (λ v. word ≤ 65535) }
{
    if word > 65535 {
        return Err(NoMemory);
    }
    let bytes = vec![in alloc; (word % 256) as u8, (word / 256) as u8]?;
    Ok(Bytes::new(bytes))
}

/// Four bytes, the low word first.
pub fn long_bytes(alloc: Global, long: u32) -> Result<Bytes, NoMemory>
    ensures { IfOk result (λ v. v ≡ long_bytes long) }
{
    let low = long % 65536;
    let high = long / 65536;
    let bytes = vec![in alloc;
        (low % 256) as u8,
        (low / 256) as u8,
        (high % 256) as u8,
        (high / 256) as u8,
    ]?;
    Ok(Bytes::new(bytes))
}

/// A value where a slot is for it: as the line has it, and as it is written.
pub fn put_value(
    alloc: Global,
    values: &mut Vec<Argument>,
    parts: &mut Vec<Bytes>,
    slot: Slot,
    value: u32,
) -> Result<(), NoMemory>
    ensures values { IfOk result (λ _. values.new.items ≡ values.old.items ++ values_at slot value) }
    ensures parts { IfOk result (λ _. parts.new.items ≡ parts.old.items ++ parts_at slot value) }
{
    match slot {
        Slot::Word => {}
        Slot::Long => {}
        Slot::Reads => {}
        Slot::Writes => {}
        Slot::Text => {}
        Slot::ToWord => {
            parts.push(word_bytes(alloc, value)?)?;
            values.push(Argument::Word(value as u16))?;
        }
        Slot::ToLong => {
            parts.push(long_bytes(alloc, value)?)?;
            values.push(Argument::Long((value / 65536) as u16, (value % 65536) as u16))?;
        }
        Slot::ToWords(_) => {}
        Slot::Heap => {}
    }
    Ok(())
}
