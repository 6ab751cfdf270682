// The bytes that a step changed.
ghost use Rattle.std.specs.Prelude.{◌≡◌, ◌≤◌, ◌++◌, length, IfOk, OnOk, string_bytes};
ghost use Rattle.o2_trace.specs.Bytes.{bytes_of, changes_of, line_text};

use o2_tool::Hex;
use std::alloc::{AllocError, Global};

/// The most bytes that one line of a text tells.
const LINE_BYTES: usize = 16;

/// A byte that a step changed: the selector and the offset by which its process reaches it, and what it was and is.
#[derive(Clone, Copy)]
pub struct Change {
    pub selector: u16,
    pub offset: u16,
    pub old: u8,
    pub new: u8,
}

/// Adds those bytes of a segment of at most 65,536 bytes that aren't what they were.
pub fn add_changes(
    out: &mut Vec<Change>,
    selector: u16,
    old: &[u8],
    new: &[u8],
) -> Result<(), AllocError>
    requires same { length old.now ≡ length new.now }
    requires small { length new.now ≤ 65536 }
    ensures { OnOk result
        (out.new.items ≡ out.old.items ++ changes_of selector 0 old.now new.now) }
{
    for (at, byte) in new.iter().enumerate() {
        if *byte != old[at] {
            out.push(Change {
                selector,
                offset: at as u16,
                old: old[at],
                new: *byte,
            })?;
        }
    }
    Ok(())
}

/// The bytes of a run of changes, as they were or as they are.
fn bytes_of(alloc: Global, run: &[Change], is_new: bool) -> Result<Vec<u8>, AllocError>
    ensures { IfOk result (λ v. v.items ≡ bytes_of is_new run.now) }
{
    let mut out = Vec::new(alloc);
    for change in run {
        out.push(if is_new { change.new } else { change.old })?;
    }
    Ok(out)
}

/// The line of bytes that follow each other in a segment: where the first lies, what they were, and what they are.
fn line_of(alloc: Global, first: Change, run: &[Change]) -> Result<String, AllocError>
    ensures { IfOk result (λ s. string_bytes s ≡ line_text first run.now) }
{
    let (old, new) = (bytes_of(alloc, run, false)?, bytes_of(alloc, run, true)?);
    let (selector, offset) = (first.selector, first.offset);
    format!(in alloc;
        "{selector:04X}:{offset:04X} {} -> {}\n",
        Hex(&old),
        Hex(&new)
    )
}

/// Whether a change lies behind another one.
fn follows(first: &Change, second: &Change) -> bool {
    first.selector == second.selector && first.offset as u32 + 1 == second.offset as u32
}

/// A line for each run of up to sixteen changed bytes that follow each other in a segment, each ended by a newline.
pub fn change_text(alloc: Global, changes: &[Change]) -> Result<String, AllocError> {
    let mut out = String::new(alloc);
    let mut start = 0usize;
    for (at, change) in changes.iter().enumerate() {
        let next = at + 1;
        let last = next == changes.len() || !follows(change, &changes[next]);
        if start <= at && (last || next - start == LINE_BYTES) {
            let line = line_of(alloc, changes[start], &changes[start..next])?;
            out.push_str(line.as_str())?;
            start = next;
        }
    }
    Ok(out)
}
