// Which processes hold a segment, and where.

use o2_dump::{Core, Held, Process};
use std::alloc::{AllocError, Global};
use std::fmt;

/// That a process holds a segment at an index: the numbers of segment and process, and the index.
pub type Holder = (u32, u16, u16);

/// Adds what a process holds.
fn add(holders: &mut Vec<Holder>, number: u16, held: &[Held]) -> Result<(), AllocError> {
    for one in held {
        holders.push((one.segment, number, one.index))?;
    }
    Ok(())
}

/// Adds what processes hold.
fn add_all(holders: &mut Vec<Holder>, processes: &[Process]) -> Result<(), AllocError> {
    for process in processes {
        add(holders, process.number, process.held.as_slice())?;
    }
    Ok(())
}

/// All that is held, by the segments' numbers.
pub fn holders(alloc: Global, core: &Core) -> Result<Vec<Holder>, AllocError> {
    let mut holders = Vec::new(alloc);
    add_all(&mut holders, core.processes.as_slice())?;
    holders.sort()?;
    Ok(holders)
}

/// The holders of a segment.
pub fn of_segment(holders: &[Holder], segment: u32) -> &[Holder] {
    let from = holders.partition_point(|one| one.0 < segment);
    let rest = match holders.split_at_checked(from) {
        Some((_, rest)) => rest,
        None => return &[],
    };
    let count = rest.partition_point(|one| one.0 == segment);
    match rest.split_at_checked(count) {
        Some((found, _)) => found,
        None => &[],
    }
}

/// Holders as a text: of each the number of its process and the selector.
#[derive(Clone, Copy)]
pub struct HeldBy<'a>(pub &'a [Holder]);

/// A holder behind a mark.
fn put_holder<W: fmt::Write>(
    f: &mut fmt::Formatter<W>,
    mark: &str,
    process: u16,
    index: u16,
) -> fmt::Result {
    write!(f, "{mark}{process}:{:04X}h", selector(index))
}

impl fmt::Display for HeldBy<'_> {
    fn fmt<W: fmt::Write>(&self, f: &mut fmt::Formatter<W>) -> fmt::Result {
        if self.0.is_empty() {
            return f.write_str("-");
        }
        let mut mark = "";
        for (_, process, index) in self.0 {
            put_holder(f, mark, *process, *index)?;
            mark = " ";
        }
        Ok(())
    }
}

/// The selector of an index of the local descriptor table, with privilege level 3.
pub fn selector(index: u16) -> u32 {
    u32::from(index) * 8 + 7
}
