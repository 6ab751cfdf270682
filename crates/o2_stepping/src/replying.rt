// The lines of a call on segments that comes back.
ghost use Rattle.std.specs.Prelude.{◌≡◌, ◌≤◌, ◌*◌, ◌^◌, ◌++◌, ℕ, false, length};
ghost use Rattle.o2_outer.specs.Texts.{Rose};
ghost use Rattle.o2_world.specs.Text.{lines_text};
ghost use Rattle.o2_gate.specs.declared.arguments.Arguments.{Arguments as ArgumentsThere};
ghost use Rattle.o2_gate.specs.MovedLines.{AreInside, line_number};
ghost use Rattle.o2_gate.specs.Replies.{IsValue, lines_of};
ghost use Rattle.o2_run.specs.Pieces.{counts, FailsInLine};
ghost use Rattle.o2_stepping.specs.Pieces.{HandsWhole};
ghost use Rattle.o2_stepping.specs.Ran.{TakesText};
ghost use Rattle.o2_stepping.specs.Replied.{state_behind, trap_lines};

use crate::one_step::{Ran, has_trap_flag, put_trap};
use crate::tally::Tally;
use o2_gate::{Arguments, Block, Moves, put_reply};
use o2_isa::Cpu;
use o2_outer::{Put, Sink};
use o2_regions::Answer;
use o2_report::LineBuffer;
use o2_world::State;

// How many lines blocks have.
fn block_count(blocks: &[Block]) -> u64
    requires few { length blocks.now ≤ 64 }
    ensures count { result ≡ line_number blocks.now }
    ensures most { result ≤ 64 * 2 ^ 48 }
{
    let mut lines = 0;
    for block in blocks {
        lines += u64::from(block.count) * u64::from(block.holds);
    }
    lines
}

// How many lines a call on segments has by which so much came or went.
fn line_count(moves: &Moves) -> u64
    ensures count { (a : ArgumentsThere) (pid error value : ℕ) → result ≡ length (lines_of a pid error value moves.now) }
    ensures most { result ≤ 2 ^ 55 }
{
    let all = moves.blocks();
    1 + block_count(all)
}

// Puts the lines of the call and nothing more; whether they were put whole.
fn put_lines<R: Sink>(
    pid: u16,
    arguments: Arguments,
    answer: &Answer,
    moves: &Moves,
    line: &mut LineBuffer,
    report: &mut R,
) -> bool
    requires value { IsValue arguments answer.now.value }
    requires inside { AreInside moves.now }
    ensures report { TakesText result (R.taken report.old) (R.taken report.new)
        (lines_text (lines_of arguments pid answer.now.error answer.now.value moves.now)) }
    ensures puts { (c : ℕ) → HandsWhole result (counts c c (R.puts report.old) (R.puts report.new) 0) 0
        (length (lines_of arguments pid answer.now.error answer.now.value moves.now)) }
    ensures line { result ≡ false → FailsInLine (lines_of arguments pid answer.now.error answer.now.value moves.now)
        (R.taken report.old) (R.taken report.new) (R.puts report.old) (R.puts report.new) }
    ensures count { R.faults report.old ≤ R.faults report.new }
    ensures cause { result ≡ false → Rose (R.faults report.old) (R.faults report.new) }
{
    match put_reply(
        line,
        pid,
        arguments,
        answer.error,
        answer.value,
        moves,
        report,
    ) {
        Put::Done => true,
        Put::Failed => false,
    }
}

/// Puts the lines of a call on segments that comes back with this answer and by which so much came or went, and behind them that of exception 1, where the trap flag
/// was set before it. Where a sink fails, nothing is put behind the line that failed; the call is done all the same.
pub fn reply<R: Sink>(
    pid: u16,
    before: &Cpu,
    arguments: Arguments,
    answer: &Answer,
    moves: &Moves,
    line: &mut LineBuffer,
    report: &mut R,
) -> Ran
    requires value { IsValue arguments answer.now.value }
    requires inside { AreInside moves.now }
    ensures state { result.state ≡ state_behind before.now }
    ensures bytes { result.tally.bytes ≡ 0 }
    ensures lines { result.tally.lines
        ≡ length (lines_of arguments pid answer.now.error answer.now.value moves.now ++ trap_lines pid before.now) }
    ensures report { TakesText result.whole (R.taken report.old) (R.taken report.new)
        (lines_text (lines_of arguments pid answer.now.error answer.now.value moves.now ++ trap_lines pid before.now)) }
    ensures puts { (c : ℕ) → HandsWhole result.whole (counts c c (R.puts report.old) (R.puts report.new) 0) 0 result.tally.lines }
    // Where one failed, those in front of it were put whole.
    ensures line { result.whole ≡ false
        → FailsInLine (lines_of arguments pid answer.now.error answer.now.value moves.now ++ trap_lines pid before.now)
        (R.taken report.old) (R.taken report.new) (R.puts report.old) (R.puts report.new) }
    ensures count { R.faults report.old ≤ R.faults report.new }
    ensures cause { result.whole ≡ false → Rose (R.faults report.old) (R.faults report.new) }
{
    let lines = line_count(moves);
    let whole = put_lines(pid, arguments, answer, moves, line, report);
    if !has_trap_flag(before.flags) {
        return Ran {
            state: State::Live,
            tally: Tally { bytes: 0, lines },
            whole,
        };
    }
    let tally = Tally {
        bytes: 0,
        lines: lines + 1,
    };
    if !whole {
        return Ran {
            state: State::Trapped(1),
            tally,
            whole: false,
        };
    }
    match put_trap(line, pid, 1, before, report) {
        Put::Done => Ran {
            state: State::Trapped(1),
            tally,
            whole: true,
        },
        Put::Failed => Ran {
            state: State::Trapped(1),
            tally,
            whole: false,
        },
    }
}
