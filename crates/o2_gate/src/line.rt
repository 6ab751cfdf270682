// The line of a call, and behind it those of all that came or went.
ghost use Rattle.std.specs.Prelude.{◌≡◌, ◌<◌, ◌≤◌, ◌+◌, ◌*◌, ◌==◌, ◌∷◌, [], length, if◌then◌else◌};
ghost use Rattle.o2_outer.specs.Texts.{Rose};
ghost use Rattle.o2_outer.specs.Answers.{Takes, Puts, OnFailed};
ghost use Rattle.o2_world.specs.Slots.{shown_at, shown_in, values_in, words_in, words_of};
ghost use Rattle.o2_world.specs.Text.{lines_text};
ghost use Rattle.o2_world.specs.World.{Calls};
ghost use Rattle.o2_run.specs.Pieces.{FailsInLine};
ghost use Rattle.o2_gate.specs.Given.{word_in};
ghost use Rattle.o2_gate.specs.MovedLines.{AreInside, all_lines, block_lines, line_at, lines_at};
ghost use Rattle.o2_gate.specs.Replies.{FitsIn, IsValue, lines_of};

use crate::arguments::Arguments;
use crate::listed::Listed;
use crate::moves::{Block, Moves};
use crate::row::Row;
use crate::table::{row_for, word_count, words_of};
use o2_base::Selector;
use o2_outer::{Put, Sink};
use o2_report::{LineBuffer, set_calls, set_drops, set_holds};
use o2_world::{Argument, Slot};

/// An argument as the line shows it.
fn shown_at(slot: Slot, words: &[u16; 6], place: usize) -> Argument
    requires inside { place + words_of slot ≤ 6 }
    ensures { result ≡ shown_at slot (word_in words.now) place }
{
    match slot {
        Slot::Word | Slot::Heap => Argument::Word(words[place]),
        Slot::Long => Argument::Long(words[place + 1], words[place]),
        Slot::Reads => Argument::Far(words[place + 1], words[place]),
        Slot::Writes => Argument::Far(words[place + 1], words[place]),
        Slot::Text => Argument::Far(words[place + 1], words[place]),
        Slot::ToWord => Argument::Far(words[place + 1], words[place]),
        Slot::ToLong => Argument::Far(words[place + 1], words[place]),
        Slot::ToWords(_) => Argument::Far(words[place + 1], words[place]),
    }
}

/// All arguments as the line shows them.
fn shown_in(slots: &[Slot], words: &[u16; 6]) -> Listed
    requires few { words_in slots.now ≤ 6 }
    ensures shown { result ≡ shown_in slots.now (word_in words.now) }
    ensures few { length result ≤ 6 }
{
    let mut place = word_count(slots);
    let mut shown = Listed::none();
    for slot in slots {
        place -= words_of(*slot);
        shown.push(shown_at(*slot, words, place));
    }
    shown
}

/// A value as the line shows it, where it goes somewhere.
pub(crate) fn values_in(slots: &[Slot], value: u32) -> Listed
    requires few { words_in slots.now ≤ 6 }
    requires value { FitsIn slots.now value }
    ensures values { result ≡ values_in slots.now value }
    ensures few { length result ≤ 3 }
{
    let mut values = Listed::none();
    for slot in slots {
        match slot {
            Slot::ToWord => values.push(Argument::Word(value as u16)),
            Slot::ToLong => {
                let high = (value / 65536) as u16;
                values.push(Argument::Long(high, (value % 65536) as u16));
            }
            _ => {}
        }
    }
    values
}

/// Puts the line of a call, by one put. The values stand in it only where the error is 0.
pub(crate) fn put_call<R: Sink>(
    line: &mut LineBuffer,
    pid: u16,
    row: &Row,
    words: &[u16; 6],
    error: u16,
    values: &[Argument],
    report: &mut R,
) -> Put
    requires few { length values.now ≤ 4 }
    ensures report { Takes (R.taken report.old) (R.taken report.new)
        (lines_text (Calls pid row.now.name.now (shown_in row.now.slots.now (word_in words.now)) error values.now ∷ [])) result }
    ensures puts { R.puts report.new ≡ R.puts report.old + 1 }
    ensures count { R.faults report.old ≤ R.faults report.new }
    ensures cause { OnFailed result (Rose (R.faults report.old) (R.faults report.new)) }
{
    let shown = shown_in(row.slots, words);
    set_calls(line, pid, row.name, shown.as_slice(), error, values);
    report.put(line.as_slice())
}

/// Puts the line of a call with its value, which it has where there is no error.
fn put_valued<R: Sink>(
    line: &mut LineBuffer,
    pid: u16,
    row: &Row,
    words: &[u16; 6],
    error: u16,
    value: u32,
    report: &mut R,
) -> Put
    requires value { FitsIn row.now.slots.now value }
    ensures report { Takes (R.taken report.old) (R.taken report.new)
        (lines_text (Calls pid row.now.name.now (shown_in row.now.slots.now (word_in words.now)) error
        (if error == 0 then values_in row.now.slots.now value else []) ∷ [])) result }
    ensures puts { R.puts report.new ≡ R.puts report.old + 1 }
    ensures count { R.faults report.old ≤ R.faults report.new }
    ensures cause { OnFailed result (Rose (R.faults report.old) (R.faults report.new)) }
{
    if error != 0 {
        return put_call(line, pid, row, words, error, &[], report);
    }
    let values = values_in(row.slots, value);
    put_call(line, pid, row, words, error, values.as_slice(), report)
}

/// Puts the line of one hold of an index, by one put.
fn put_hold<R: Sink>(
    line: &mut LineBuffer,
    cause: &[u8],
    block: &Block,
    index: u16,
    report: &mut R,
) -> Put
    requires name { length cause.now ≤ 20 }
    requires index { index < 8192 }
    ensures report { Takes (R.taken report.old) (R.taken report.new)
        (lines_text (line_at cause.now block.now index ∷ [])) result }
    ensures puts { R.puts report.new ≡ R.puts report.old + 1 }
    ensures count { R.faults report.old ≤ R.faults report.new }
    ensures cause { OnFailed result (Rose (R.faults report.old) (R.faults report.new)) }
{
    let selector = Selector::local(u32::from(index)).0;
    if block.came {
        set_holds(line, block.process, selector, cause);
    } else {
        set_drops(line, block.process, selector, cause);
    }
    report.put(line.as_slice())
}

/// Puts the lines of all holds of an index that came or went, each by a put of its own.
fn put_index<R: Sink>(
    line: &mut LineBuffer,
    cause: &[u8],
    block: &Block,
    index: u16,
    report: &mut R,
) -> Put
    requires name { length cause.now ≤ 20 }
    requires index { index < 8192 }
    ensures report { Takes (R.taken report.old) (R.taken report.new)
        (lines_text (lines_at cause.now block.now index)) result }
    ensures puts { Puts (R.puts report.old) (R.puts report.new)
        (length (lines_at cause.now block.now index)) result }
    ensures line { OnFailed result (FailsInLine (lines_at cause.now block.now index)
        (R.taken report.old) (R.taken report.new) (R.puts report.old) (R.puts report.new)) }
    ensures count { R.faults report.old ≤ R.faults report.new }
    ensures cause { OnFailed result (Rose (R.faults report.old) (R.faults report.new)) }
{
    for _time in 0..block.holds {
        match put_hold(line, cause, block, index, report) {
            Put::Done => {}
            Put::Failed => return Put::Failed,
        }
    }
    Put::Done
}

/// Puts the lines of a block.
fn put_block<R: Sink>(line: &mut LineBuffer, cause: &[u8], block: &Block, report: &mut R) -> Put
    requires name { length cause.now ≤ 20 }
    requires inside { block.now.index + block.now.count ≤ 8192 }
    ensures report { Takes (R.taken report.old) (R.taken report.new)
        (lines_text (block_lines cause.now block.now)) result }
    ensures puts { Puts (R.puts report.old) (R.puts report.new)
        (length (block_lines cause.now block.now)) result }
    ensures line { OnFailed result (FailsInLine (block_lines cause.now block.now)
        (R.taken report.old) (R.taken report.new) (R.puts report.old) (R.puts report.new)) }
    ensures count { R.faults report.old ≤ R.faults report.new }
    ensures cause { OnFailed result (Rose (R.faults report.old) (R.faults report.new)) }
{
    for place in 0..block.count {
        match put_index(line, cause, block, block.index + place, report) {
            Put::Done => {}
            Put::Failed => return Put::Failed,
        }
    }
    Put::Done
}

/// Puts the lines of all blocks.
fn put_blocks<R: Sink>(line: &mut LineBuffer, cause: &[u8], blocks: &[Block], report: &mut R) -> Put
    requires name { length cause.now ≤ 20 }
    requires inside { AreInside blocks.now }
    ensures report { Takes (R.taken report.old) (R.taken report.new)
        (lines_text (all_lines cause.now blocks.now)) result }
    ensures puts { Puts (R.puts report.old) (R.puts report.new)
        (length (all_lines cause.now blocks.now)) result }
    ensures line { OnFailed result (FailsInLine (all_lines cause.now blocks.now)
        (R.taken report.old) (R.taken report.new) (R.puts report.old) (R.puts report.new)) }
    ensures count { R.faults report.old ≤ R.faults report.new }
    ensures cause { OnFailed result (Rose (R.faults report.old) (R.faults report.new)) }
{
    for block in blocks {
        match put_block(line, cause, block, report) {
            Put::Done => {}
            Put::Failed => return Put::Failed,
        }
    }
    Put::Done
}

/// Puts the line of a call on segments, and behind it those of all that came or went by it, each by a put of its own.
pub fn put_reply<R: Sink>(
    line: &mut LineBuffer,
    pid: u16,
    arguments: Arguments,
    error: u16,
    value: u32,
    moves: &Moves,
    report: &mut R,
) -> Put
    requires value { IsValue arguments value }
    requires inside { AreInside moves.now }
    ensures report { Takes (R.taken report.old) (R.taken report.new)
        (lines_text (lines_of arguments pid error value moves.now)) result }
    ensures puts { Puts (R.puts report.old) (R.puts report.new)
        (length (lines_of arguments pid error value moves.now)) result }
    // Where one failed, those in front of it were put whole, and none behind it was put.
    ensures line { OnFailed result (FailsInLine (lines_of arguments pid error value moves.now)
        (R.taken report.old) (R.taken report.new) (R.puts report.old) (R.puts report.new)) }
    ensures count { R.faults report.old ≤ R.faults report.new }
    ensures cause { OnFailed result (Rose (R.faults report.old) (R.faults report.new)) }
{
    let row = row_for(&arguments);
    match put_valued(line, pid, &row, &arguments.words, error, value, report) {
        Put::Failed => Put::Failed,
        Put::Done => put_blocks(line, row.name, moves.blocks(), report),
    }
}
