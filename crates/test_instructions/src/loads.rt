// Loads, sizes and rights, over both memories.
ghost use Rattle.std.specs.Prelude.{◌≤◌};
ghost use Rattle.test_bus_parts.specs.Trials.{IsReady};

use crate::layouts::Layout;
use crate::row::{Row, row_of, word};
use crate::{plainly, stored};
use o2_base::Selector;
use o2_bus::{Bus, Loaded, Purpose};
use std::alloc::Global;
use test_bus_parts::Bench;

fn purpose_of(text: &str) -> Option<Purpose> {
    match text {
        "data" => Some(Purpose::DataReg),
        "stack" => Some(Purpose::StackReg),
        "jump" => Some(Purpose::Jump),
        "call" => Some(Purpose::Call),
        "return" => Some(Purpose::Return),
        _ => None,
    }
}

fn answer_of(text: &str) -> Loaded {
    let mut tokens = text.split_ascii_whitespace();
    match (tokens.next(), tokens.next(), tokens.next()) {
        (Some("miss"), Some(sel), None) => Loaded::Miss(Selector(word(sel))),
        (Some("gate"), Some(service), None) => Loaded::Gate(word(service)),
        (Some("trap"), Some(vector), Some(code)) => {
            Loaded::Trap((word(vector) % 256) as u8, word(code))
        }
        _ => Loaded::Done,
    }
}

/// What a load has to come to, where all is present or not.
fn wanted(text: &str, is_all: bool) -> Loaded {
    let answer = answer_of(text);
    if is_all && matches!(answer, Loaded::Miss(_)) {
        return Loaded::Done;
    }
    answer
}

/// Whether a line comes to what it says over a bus where all is present or not.
fn is_right_over<B: Bus>(bus: &mut B, line: &str, is_all: bool) -> Option<bool> {
    let (question, answer) = line.split_once('|')?;
    let (what, sel) = question.trim().split_once(' ')?;
    let sel = Selector(word(sel));
    Some(match what {
        "size" => bus.size_of(sel) == u32::from_str_radix(answer.trim(), 16).ok(),
        "rights" => bus.rights_of(sel) == u8::from_str_radix(answer.trim(), 16).ok(),
        _ => bus.probe(purpose_of(what)?, sel) == wanted(answer, is_all),
    })
}

fn is_right_plainly(alloc: Global, line: &str, row: &Row, layout: &Layout) -> Option<bool> {
    match plainly::memory(alloc, row, layout) {
        Ok(mut plain) => {
            let mut bus = plain.bus(1, &layout.cpu);
            is_right_over(&mut bus, line, false)
        }
        Err(_) => None,
    }
}

/// The segments of the indexes from 1 on, so many of them, come into memory.
fn bring_first(bench: &mut Bench, count: u16) -> bool
    requires ready { IsReady bench.old }
    requires few { count ≤ 8 }
    ensures { IsReady bench.new }
{
    for index in 1..count + 1 {
        let Some(id) = bench.named(8 * index + 7) else {
            return false;
        };
        if !bench.bring(&[(id, 0)]) {
            return false;
        }
    }
    true
}

/// Whether a line comes to what it says over this store, where so many segments, from the first on, are in memory and all others
/// aren't.
fn comes_right(bench: &mut Bench, line: &str, layout: &Layout, count: u16) -> Option<bool>
    requires ready { IsReady bench.old }
    requires few { count ≤ 8 }
{
    if !bring_first(bench, count) {
        return None;
    }
    let mut bus = bench.bus(&layout.cpu)?;
    is_right_over(&mut bus, line, count == 8)
}

fn is_right_stored(
    alloc: Global,
    line: &str,
    row: &Row,
    layout: &Layout,
    count: u16,
) -> Option<bool>
    requires { count ≤ 8 }
{
    match stored::memory(alloc, row, layout) {
        Some(mut bench) => comes_right(&mut bench, line, layout, count),
        None => None,
    }
}

/// Whether a line comes to what it says over a plain memory and over a store, in which the first four segments are in memory, and then
/// all eight.
pub fn is_right(alloc: Global, line: &str, layout: &Layout) -> Option<bool> {
    let row = row_of("||||", layout)?;
    if !is_right_plainly(alloc, line, &row, layout)? {
        return Some(false);
    }
    if !is_right_stored(alloc, line, &row, layout, 4)? {
        return Some(false);
    }
    is_right_stored(alloc, line, &row, layout, 8)
}
