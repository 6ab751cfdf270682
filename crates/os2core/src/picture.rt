// The memory and the swap device as a picture.

use crate::drawn::{Colour, Drawn, Name, Square, Title, one_of};
use crate::holders::{Holder, holders};
use crate::spans::{Span, spans};
use crate::tables::{Use, uses};
use o2_dump::{Core, Process};
use o2_tool::unallocated;
use std::io;
use std::process::ExitCode;

// All is in points. A margin of 80 at the left has the rows' addresses, and one of 32 at the top the title. The memory's 16 rows are 384 high,
// the swap device's row begins at 408, and the legend at 456.

/// How wide the picture's rows are, and how high.
const WIDTH: u64 = 960;

const HEIGHT: u64 = 24;

/// How far below a row's top its words stand.
const BASELINE: u64 = 16;

/// In how many rows the memory is drawn.
const ROWS: u64 = 16;

/// How wide a part is that has its holder's name in it, and one that has the size beside.
const NAMED: u64 = 60;

const SIZED: u64 = 150;

/// A place of a row as a coordinate.
fn across(offset: u64, row: u64) -> u64 {
    if row == 0 {
        return 0;
    }
    offset.min(row).saturating_mul(WIDTH) / row
}

/// The name of a segment's holder in a part of it, where that is wide enough, and its size, where there is room for both.
fn draw_name(rt: &HostRuntime, one: &Drawn, left: u64, right: u64, top: u64) -> io::Result<()> {
    let wide = right.saturating_sub(left);
    let left = left.saturating_add(3);
    let line = top.saturating_add(BASELINE);
    if wide < NAMED {
        return Ok(());
    }
    if wide < SIZED {
        return println!(rt;
            "<text x=\"{left}\" y=\"{line}\">{}</text>",
            Name(one.holder)
        );
    }
    println!(rt;
        "<text x=\"{left}\" y=\"{line}\">{} {} bytes</text>",
        Name(one.holder),
        one.size
    )
}

/// The part of a segment that one row shows.
fn draw_part(rt: &HostRuntime, one: &Drawn, from: u64, to: u64, row: u64) -> io::Result<()> {
    let line = from / row.max(1);
    let start = line.saturating_mul(row);
    let left = across(from.saturating_sub(start), row);
    let right = across(to.saturating_sub(start), row).max(left.saturating_add(1));
    let top = line.saturating_mul(HEIGHT);
    println!(rt;
        "<rect x=\"{left}\" y=\"{top}\" width=\"{}\" height=\"22\" fill=\"{}\"><title>{one}, {from:06X}h</title></rect>",
        right.saturating_sub(left),
        Colour(one.holder)
    )?;
    draw_name(rt, one, left, right, top)
}

/// The bytes of a segment between two addresses, row by row.
fn draw_parts(rt: &HostRuntime, one: &Drawn, start: u64, end: u64, row: u64) -> io::Result<()> {
    let mut from = start;
    for _ in 0..=ROWS {
        if from >= end {
            return Ok(());
        }
        let next = (from / row.max(1)).saturating_add(1).saturating_mul(row);
        let to = next.min(end);
        draw_part(rt, one, from, to, row)?;
        from = to;
    }
    Ok(())
}

/// The parts of the memory.
fn draw_spans(
    rt: &HostRuntime,
    core: &Core,
    holders: &[Holder],
    spans: &[Span],
    row: u64,
) -> io::Result<()> {
    for span in spans {
        if let Some(number) = span.segment {
            draw_parts(rt, &one_of(core, holders, number), span.from, span.to, row)?;
        }
    }
    Ok(())
}

/// The ground of the memory, and the address of each row's first byte, before the row.
fn draw_rows(rt: &HostRuntime, memory: u64, row: u64) -> io::Result<()> {
    println!(rt; "<rect width=\"960\" height=\"384\" fill=\"#eeeeee\"/>")?;
    for line in 0..ROWS {
        let address = line.saturating_mul(row);
        if address < memory {
            println!(rt;
                "<text x=\"-8\" y=\"{}\" text-anchor=\"end\">{address:06X}h</text>",
                line * HEIGHT + BASELINE
            )?;
        }
    }
    Ok(())
}

/// The memory, in rows of the same length.
fn draw_memory(rt: &HostRuntime, core: &Core, holders: &[Holder]) -> io::Result<()> {
    let memory = core.memory.len() as u64;
    let row = memory.saturating_add(ROWS - 1) / ROWS;
    draw_rows(rt, memory, row)?;
    match spans(rt.alloc(), memory, core.segments.as_slice()) {
        Ok(parts) => draw_spans(rt, core, holders, parts.as_slice(), row),
        Err(_) => Err(unallocated()),
    }
}

/// Where the swap device's row begins.
const BLOCKS_TOP: u64 = 408;

/// A block of the swap device, of so many.
fn draw_block(rt: &HostRuntime, one: &Drawn, block: u32, row: u64) -> io::Result<()> {
    let left = across(u64::from(block), row);
    let right = across(u64::from(block) + 1, row).max(left.saturating_add(1));
    println!(rt;
        "<rect x=\"{left}\" y=\"408\" width=\"{}\" height=\"24\" fill=\"{}\"><title>{one}, block {block}</title></rect>",
        right.saturating_sub(left),
        Colour(one.holder)
    )?;
    draw_name(rt, one, left, right, BLOCKS_TOP)
}

/// Blocks of the swap device that hold something.
fn draw_uses(rt: &HostRuntime, core: &Core, holders: &[Holder], uses: &[Use]) -> io::Result<()> {
    let row = u64::from(core.blocks);
    for (block, segment, _) in uses {
        draw_block(rt, &one_of(core, holders, *segment), *block, row)?;
    }
    Ok(())
}

/// The ground of the swap device's row, and its name.
fn draw_row(rt: &HostRuntime) -> io::Result<()> {
    println!(rt;
        "<rect y=\"408\" width=\"960\" height=\"24\" fill=\"#eeeeee\"/>\n<text x=\"-8\" y=\"424\" text-anchor=\"end\">blocks</text>"
    )
}

/// The swap device, in one row below the memory.
fn draw_blocks(rt: &HostRuntime, core: &Core, holders: &[Holder]) -> io::Result<()> {
    draw_row(rt)?;
    match uses(rt, core) {
        Ok(uses) => draw_uses(rt, core, holders, uses.as_slice()),
        Err(_) => Err(unallocated()),
    }
}

/// Where the legend begins, how wide its columns are, and how many.
const LEGEND_TOP: u64 = 456;

const COLUMN: u64 = 240;

const COLUMNS: u64 = 4;

/// A segment's square, and what is told of it, at a place of the legend.
fn draw_key(rt: &HostRuntime, one: &Drawn, place: u64) -> io::Result<()> {
    let left = place % COLUMNS * COLUMN;
    let top = (place / COLUMNS)
        .saturating_mul(HEIGHT)
        .saturating_add(LEGEND_TOP);
    println!(rt;
        "<rect x=\"{left}\" y=\"{top}\" width=\"16\" height=\"16\" {}/>\n<text x=\"{}\" y=\"{}\">{one}</text>",
        Square(one),
        left + 22,
        top.saturating_add(12)
    )
}

/// The segments that a process is the first to hold, from a place of the legend on; the place behind them.
fn draw_held(
    rt: &HostRuntime,
    core: &Core,
    holders: &[Holder],
    process: &Process,
    from: u64,
) -> io::Result<u64> {
    let mut place = from;
    for held in process.held.as_slice() {
        let one = one_of(core, holders, held.segment);
        if one.is_first(process.number, held.index) {
            draw_key(rt, &one, place)?;
            place = place.saturating_add(1);
        }
    }
    Ok(place)
}

/// The legend: each segment that is held, by its first holder.
fn draw_legend(rt: &HostRuntime, core: &Core, holders: &[Holder]) -> io::Result<()> {
    let mut place = 0;
    for process in core.processes.as_slice() {
        place = draw_held(rt, core, holders, process, place)?;
    }
    println!(rt; "<text x=\"0\" y=\"444\">light grey: free; dark grey: held by no process</text>")
}

/// How high the picture is.
fn height(core: &Core) -> u64 {
    let rows = (core.segments.as_slice().len() as u64).saturating_add(COLUMNS - 1) / COLUMNS;
    rows.saturating_mul(HEIGHT).saturating_add(LEGEND_TOP + 32)
}

/// The front of the picture: its size, a ground, and the title. (Without a ground the margin's words can't be read on a dark page.)
fn draw_front(rt: &HostRuntime, core: &Core) -> io::Result<()> {
    let (title, height) = (Title(core), height(core));
    println!(rt;
        "<svg xmlns=\"http://www.w3.org/2000/svg\" width=\"1040\" height=\"{height}\" viewBox=\"-80 -32 1040 {height}\" font-family=\"sans-serif\" font-size=\"12\" role=\"img\">"
    )?;
    println!(rt;
        "<title>{title}</title>\n<rect x=\"-80\" y=\"-32\" width=\"1040\" height=\"{height}\" fill=\"#ffffff\"/>"
    )?;
    println!(rt; "<text x=\"0\" y=\"-12\" font-weight=\"bold\">{title}</text>")
}

/// The parts of the picture of an image, whose segments are held so.
fn draw_all(rt: &HostRuntime, core: &Core, holders: &[Holder]) -> io::Result<ExitCode> {
    draw_front(rt, core)?;
    draw_memory(rt, core, holders)?;
    draw_blocks(rt, core, holders)?;
    draw_legend(rt, core, holders)?;
    println!(rt; "</svg>")?;
    Ok(ExitCode::SUCCESS)
}

/// The picture of an image: sixteen rows of memory, one of the swap device, and a legend.
pub fn draw(rt: &HostRuntime, core: &Core) -> io::Result<ExitCode> {
    match holders(rt.alloc(), core) {
        Ok(holders) => draw_all(rt, core, holders.as_slice()),
        Err(_) => Err(unallocated()),
    }
}
