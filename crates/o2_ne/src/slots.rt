// A slot for each ordinal that a file can name, with the number of its entry, so that an entry is found at once.
ghost use Rattle.std.specs.Prelude.{◌≡◌, ◌<◌, ℕ, get_or, length, IfOk};
ghost use Rattle.o2_ne.specs.EntrySlots.{AreSlots, noted};

use crate::entries::Entry;
use o2_base::NoMemory;
use std::alloc::Global;

// So many empty slots.
fn empty_slots(alloc: Global, most: usize) -> Result<Vec<u32>, NoMemory>
    ensures empty { IfOk result (λ v. (n : ℕ) → get_or v.items n 0 ≡ 0) }
    ensures count { IfOk result (λ v. length v.items ≡ most) }
{
    Ok(vec![in alloc; 0u32; most]?)
}

// Notes the number of an entry in the slot of its ordinal, where there is one and it is empty.
fn note(slots: &mut Vec<u32>, ordinal: u32, number: u32)
    ensures { slots.new.items ≡ noted slots.old.items ordinal number }
{
    let at = ordinal as usize;
    if at < slots.len() && slots[at] == 0 {
        slots[at] = number;
    }
}

/// The slots of the ordinals below `most`: 0 where no entry has the ordinal, else the number from 1 of the first that has it.
pub(crate) fn slots_of(alloc: Global, found: &[Entry], most: usize) -> Result<Vec<u32>, NoMemory>
    requires { length found.now < 16777216 }
    ensures { IfOk result (λ v. AreSlots most found.now v.items) }
{
    let mut slots = empty_slots(alloc, most)?;
    for k in 0..found.len() {
        note(&mut slots, found[k].ordinal, k as u32 + 1);
    }
    Ok(slots)
}

/// The number in the slot of an ordinal, 0 where there is no slot.
pub(crate) fn slot_at(slots: &[u32], ordinal: u16) -> u32
    ensures { result ≡ get_or slots.now ordinal 0 }
{
    slots.get(usize::from(ordinal)).copied().unwrap_or(0)
}
