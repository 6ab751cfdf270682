// Takes rows of steps and loads over a plain memory and over a store: the tables stand on the standard input. Printed are the names of
// the tables, each row that comes to anything else than it says, and how many are right.
#![tactic(auto)]

mod layouts;
mod loads;
mod plainly;
mod row;
mod stored;

use layouts::{Layout, data_table, flow_table, loads_table, steps_table};
use std::alloc::Global;
use std::io;

/// What the rows below a heading are.
#[derive(Clone, Copy)]
enum Table {
    Steps(Layout),
    Loads,
}

fn table_of(heading: &str) -> Table {
    match heading {
        "data" => Table::Steps(data_table()),
        "flow" => Table::Steps(flow_table()),
        "steps" => Table::Steps(steps_table()),
        _ => Table::Loads,
    }
}

/// A row of a table of instructions, over both memories.
fn is_right_step(alloc: Global, line: &str, layout: &Layout) -> Option<bool> {
    let row = row::row_of(line, layout)?;
    if plainly::is_right(alloc, &row, layout)? {
        return stored::is_right(alloc, &row, layout);
    }
    Some(false)
}

/// Whether a row comes to what it says; none where it can't be read, or memory is missing.
fn is_right(alloc: Global, line: &str, table: &Table) -> Option<bool> {
    match table {
        Table::Steps(layout) => is_right_step(alloc, line, layout),
        Table::Loads => loads::is_right(alloc, line, &loads_table()),
    }
}

/// Takes a line that isn't a heading, and tells whether it is a row that is right; one that isn't is printed.
fn take(rt: &HostRuntime, line: &str, table: &Table) -> io::Result<bool> {
    if line.is_empty() || line.starts_with("#") {
        return Ok(false);
    }
    match is_right(rt.alloc(), line, table) {
        Some(true) => return Ok(true),
        Some(false) => println!(rt; "wrong: {line}")?,
        None => println!(rt; "not taken: {line}")?,
    }
    Ok(false)
}

fn main(rt: HostRuntime) -> io::Result<()> {
    let mut table = Table::Loads;
    let mut count = 0u32;
    for line in rt.lines(rt.alloc()) {
        let line = line?;
        if let Some(heading) = line.as_str().strip_prefix("= ") {
            table = table_of(heading);
            println!(rt; "{heading}")?;
        } else if take(&rt, line.as_str(), &table)? {
            count = count.wrapping_add(1);
        }
    }
    println!(rt; "{count} rows are right")
}
