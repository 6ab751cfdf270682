// Rows over a plain memory.

use crate::layouts::{Layout, Part};
use crate::row::{Row, bytes_in};
use o2_base::NoMemory;
use o2_bus::{Outcome, Plain};
use o2_core::step_plain;
use std::alloc::Global;

/// Process 1 holds a new segment with these bytes, 1 to 65,536, at an index.
fn hold(
    plain: &mut Plain,
    alloc: Global,
    index: u16,
    bytes: &[u8],
    access: u8,
    is_present: bool,
) -> Result<(), NoMemory> {
    if bytes.len() == 0 || bytes.len() > 65_536 {
        return Err(NoMemory);
    }
    let name = plain.add(bytes.to_vec(alloc)?)?;
    if !is_present {
        plain.show(name, false);
    }
    plain.hold(alloc, 1, index, name, access)
}

/// A memory in which process 1 holds the segments of a row, before it.
pub fn memory(alloc: Global, row: &Row, layout: &Layout) -> Result<Plain, NoMemory> {
    let mut plain = Plain::new(alloc)?;
    let mut index = 1u16;
    for Part(access, which, is_present) in layout.parts {
        let bytes = bytes_in(&*row, &*layout, *which);
        hold(&mut plain, alloc, index, bytes, *access, *is_present)?;
        index = index.wrapping_add(1);
    }
    Ok(plain)
}

/// Whether the step of a row comes to what it says over this memory.
fn comes_right(plain: &mut Plain, row: &Row, layout: &Layout) -> Option<bool> {
    let mut scene = row.before;
    let outcome = step_plain(plain, 1, &mut scene.cpu);
    scene.take_data(plain.bytes(u32::from(layout.data / 8).saturating_sub(1)))?;
    Some(match row.missed {
        Some(sel) => outcome == Outcome::Miss(sel) && scene.is(&row.before),
        None => outcome == row.answer && scene.is(&row.after),
    })
}

/// Whether the step of a row comes to what it says; what isn't present is missed, and nothing changes.
pub fn is_right(alloc: Global, row: &Row, layout: &Layout) -> Option<bool> {
    match memory(alloc, row, layout) {
        Ok(mut plain) => comes_right(&mut plain, row, layout),
        Err(_) => None,
    }
}
