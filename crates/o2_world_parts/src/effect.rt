// What a call does, and its lines.
ghost use Rattle.std.specs.Prelude.{◌≡◌, ◌++◌, ◌∷◌, ◌≤◌, ℕ, List, length, replicate, map, slice_index, IfOk};
ghost use Rattle.o2_world.specs.declared.types.Slot.{Slot};
ghost use Rattle.o2_world.specs.World.{Calls};
ghost use Rattle.o2_world.specs.Changes.{moved_lines};
ghost use Rattle.o2_world.specs.CallParts.{Before, returned, trapped, waiting};
ghost use Rattle.o2_world.specs.Text.{line_text, lines_text};
ghost use Rattle.o2_world_parts.specs.Edits.{change_of, changes_of};
ghost use Rattle.o2_world_parts.specs.Effects.{IsEffect, among_pairs, came_back, key_by, left_by, line_by, moves, ordered, pairs_of, times};
ghost use Rattle.o2_world_parts.specs.Layouts.{done_of, placed};

use crate::changing::Edit;
use crate::slots::{Layout, shown, targets};
use o2_base::{Bytes, NoMemory};
use o2_isa::Cpu;
use o2_report::{LineBuffer, set_calls, set_drops, set_ends, set_exits, set_holds, set_traps};
use o2_world::{Argument, State};
use std::alloc::Global;

/// What a call gives that is done: the values of its line, the parts that are written, each behind the next pointer that is for
/// writing, what changes beside, how many bytes of the input it takes, and its piece for the console.
#[derive(Drop)]
pub struct Done {
    pub values: Vec<Argument>,
    pub parts: Vec<Bytes>,
    pub edits: Vec<Edit>,
    pub read: usize,
    pub piece: Vec<u8>,
}

/// What a call does: the process's registers and state after it, the parts that it writes, each behind the pointer at its place, what
/// it changes beside, how many bytes of the input it takes, its piece for the console, and its lines.
#[derive(Drop)]
pub struct Effect {
    pub cpu: Cpu,
    pub state: State,
    /// As selector and offset.
    pub targets: Vec<(u16, u16)>,
    pub parts: Vec<Bytes>,
    pub edits: Vec<Edit>,
    pub read: usize,
    pub piece: Vec<u8>,
    pub lines: Vec<u8>,
    /// The call waits.
    pub waits: bool,
}

/// The line of a call.
#[derive(Drop)]
struct Named<'a> {
    pub number: u16,
    pub name: &'a [u8],
    pub args: &'a [Argument],
}

// Lines of holds.

fn key(pair: &(u16, u16)) -> u32
    ensures { result ≡ key_by pair.now }
{
    65536 * pair.0 as u32 + pair.1 as u32
}

#[tactic(auto, using(crate::proofs::Telling::places))]
fn put_in_order(pairs: &mut Vec<(u16, u16)>, pair: (u16, u16)) -> Result<(), NoMemory>
    ensures { IfOk result (λ _. pairs.new.items ≡ among_pairs pair pairs.old.items) }
{
    let at = key(&pair);
    for k in 0..pairs.len() {
        if at <= key(&pairs[k]) {
            pairs.insert(k, pair)?;
            return Ok(());
        }
    }
    pairs.push(pair)?;
    Ok(())
}

#[tactic(auto, using(crate::proofs::Telling::replicated))]
fn put_times(pairs: &mut Vec<(u16, u16)>, pair: (u16, u16), count: u32) -> Result<(), NoMemory>
    ensures { IfOk result (λ _. (rest : List (ℕ × ℕ)) → pairs.old.items ≡ ordered rest → pairs.new.items ≡ ordered (replicate count pair ++ rest)) }
{
    let mut k = 0;
    while k < count {
        put_in_order(pairs, pair)?;
        k += 1;
    }
    Ok(())
}

fn moves(came: bool, edit: &Edit) -> (u16, u16, u32)
    ensures { result ≡ moves came (change_of edit.now) }
{
    match edit {
        Edit::Holds(process, index, held) => {
            if came {
                (*process, *index, held.holds)
            } else {
                (0, 0, 0)
            }
        }
        Edit::Drops(process, index, count) => {
            if came {
                (0, 0, 0)
            } else {
                (*process, *index, *count)
            }
        }
        Edit::Makes(_) => (0, 0, 0),
        Edit::Resizes(_, _) => (0, 0, 0),
        Edit::Locks(_, _) => (0, 0, 0),
        Edit::Revives(_) => (0, 0, 0),
        Edit::Finishes(_, _) => (0, 0, 0),
        Edit::Reserves(_) => (0, 0, 0),
        Edit::Names(_, _) => (0, 0, 0),
    }
}

fn put_moves(pairs: &mut Vec<(u16, u16)>, came: bool, edit: &Edit) -> Result<(), NoMemory>
    ensures { IfOk result (λ _. (rest : List (ℕ × ℕ)) → pairs.old.items ≡ ordered rest → pairs.new.items ≡ ordered (times (moves came (change_of edit.now)) ++ rest)) }
{
    let (process, index, count) = moves(came, edit);
    if index > 8191 {
        return Err(NoMemory);
    }
    put_times(pairs, (process, 8 * index + 7), count)
}

/// The holds that came, or went: by process, then selector.
#[tactic(auto, using(crate::proofs::Telling::gathered))]
fn moved(alloc: Global, came: bool, edits: &[Edit]) -> Result<Vec<(u16, u16)>, NoMemory>
    ensures { IfOk result (λ v. v.items ≡ ordered (pairs_of came (changes_of edits.now))) }
{
    let mut pairs = Vec::new(alloc);
    let mut k = edits.len();
    while k > 0 {
        k -= 1;
        put_moves(&mut pairs, came, &edits[k])?;
    }
    Ok(pairs)
}

fn set_moved(line: &mut LineBuffer, came: bool, cause: &[u8], pair: &(u16, u16))
    requires { length cause.now ≤ 20 }
    ensures { line.new ≡ line_text (line_by came cause.now pair.now) }
{
    if came {
        set_holds(line, pair.0, pair.1, cause);
    } else {
        set_drops(line, pair.0, pair.1, cause);
    }
}

#[tactic(auto, using(crate::proofs::Telling::lined))]
fn moved_text(
    alloc: Global,
    came: bool,
    cause: &[u8],
    pairs: &[(u16, u16)],
) -> Result<Vec<u8>, NoMemory>
    requires { length cause.now ≤ 20 }
    ensures { IfOk result (λ v. v.items ≡ lines_text (map (line_by came cause.now) pairs.now)) }
{
    let mut line = LineBuffer::new(alloc)?;
    let mut text = Vec::new(alloc);
    for pair in pairs {
        set_moved(&mut line, came, cause, pair);
        text.extend_from_slice(line.as_slice())?;
    }
    Ok(text)
}

/// The lines of holds that changes tell.
#[tactic(auto, using(crate::proofs::Telling::told))]
fn told(alloc: Global, cause: &[u8], edits: &[Edit]) -> Result<Vec<u8>, NoMemory>
    requires { length cause.now ≤ 20 }
    ensures { IfOk result (λ v. v.items ≡ lines_text (moved_lines cause.now (changes_of edits.now))) }
{
    let came = moved(alloc, true, edits)?;
    let went = moved(alloc, false, edits)?;
    let mut text = moved_text(alloc, true, cause, &came)?;
    let gone = moved_text(alloc, false, cause, &went)?;
    text.extend_from_slice(&gone)?;
    Ok(text)
}

/// The line of a call, and those of the holds that it changes. No line has more than 12 arguments or four values.
fn called(
    alloc: Global,
    call: &Named,
    error: u16,
    values: &[Argument],
    edits: &[Edit],
) -> Result<Vec<u8>, NoMemory>
    ensures { IfOk result (λ v. v.items ≡ lines_text (Calls call.now.number call.now.name.now call.now.args.now error values.now ∷ moved_lines call.now.name.now (changes_of edits.now))) }
{
    if call.name.len() > 20 || call.args.len() > 12 || values.len() > 4 {
        return Err(NoMemory);
    }
    let mut line = LineBuffer::new(alloc)?;
    set_calls(&mut line, call.number, call.name, call.args, error, values);
    let mut text = Vec::from_slice(alloc, line.as_slice())?;
    let moved = told(alloc, call.name, edits)?;
    text.extend_from_slice(&moved)?;
    Ok(text)
}

// The ways in which a call ends.

/// A trap: nothing changes but that the process ends.
pub fn trapped(alloc: Global, number: u16, cpu: &Cpu, vector: u8) -> Result<Effect, NoMemory>
    ensures { IfOk result (λ x. (b : Before) → b.number ≡ number → b.cpu ≡ cpu.now → IsEffect b x (trapped b vector)) }
{
    let mut line = LineBuffer::new(alloc)?;
    set_traps(&mut line, number, vector, cpu.cs, cpu.ip);
    let lines = Vec::from_slice(alloc, line.as_slice())?;
    Ok(Effect {
        cpu: *cpu,
        state: State::Trapped(vector),
        targets: Vec::new(alloc),
        parts: Vec::new(alloc),
        edits: Vec::new(alloc),
        read: 0,
        piece: Vec::new(alloc),
        lines,
        waits: false,
    })
}

/// The process leaves by a call: nothing changes but that it ends.
pub fn leaves(
    alloc: Global,
    number: u16,
    cpu: &Cpu,
    action: u16,
    code: u16,
) -> Result<Effect, NoMemory>
    ensures { IfOk result (λ x. (b : Before) → b.number ≡ number → b.cpu ≡ cpu.now → IsEffect b x (left_by b action code)) }
{
    let mut line = LineBuffer::new(alloc)?;
    set_exits(&mut line, number, action, code);
    let mut lines = Vec::from_slice(alloc, line.as_slice())?;
    set_ends(&mut line, number, code);
    lines.extend_from_slice(line.as_slice())?;
    Ok(Effect {
        cpu: *cpu,
        state: State::Exited(code),
        targets: Vec::new(alloc),
        parts: Vec::new(alloc),
        edits: Vec::new(alloc),
        read: 0,
        piece: Vec::new(alloc),
        lines,
        waits: false,
    })
}

/// The call waits: nothing changes, and the process stands at its CALL.
pub fn waits(alloc: Global, cpu: &Cpu) -> Effect
    ensures { (b : Before) → b.cpu ≡ cpu.now → IsEffect b result (waiting b) }
{
    Effect {
        cpu: *cpu,
        state: State::Live,
        targets: Vec::new(alloc),
        parts: Vec::new(alloc),
        edits: Vec::new(alloc),
        read: 0,
        piece: Vec::new(alloc),
        lines: Vec::new(alloc),
        waits: true,
    }
}

/// The registers as a call comes back: AX has the error number, and the arguments are gone.
pub fn returned(cpu: &Cpu, words: u16, error: u16) -> Cpu
    ensures { result ≡ returned cpu.now cpu.now.ip words error }
{
    let mut after = *cpu;
    after.ax = error;
    after.sp = ((u32::from(cpu.sp) + 2 * u32::from(words)) % 65536) as u16;
    after
}

/// A call that comes back, with these registers, this error and what it gives.
pub fn comes_back(
    alloc: Global,
    number: u16,
    cpu: Cpu,
    name: &[u8],
    layout: &Layout,
    words: &[u16],
    error: u16,
    done: Done,
) -> Result<Effect, NoMemory>
    ensures { IfOk result (λ x. (b : Before) (slots : List Slot) → b.number ≡ number → layout.now.slots.items ≡ placed slots
        → IsEffect b x (came_back b cpu name.now slots (slice_index words.now) error (done_of b.input done))) }
{
    let args = shown(alloc, &layout.slots, words)?;
    let call = Named {
        number,
        name,
        args: &args,
    };
    let lines = called(alloc, &call, error, &done.values, &done.edits)?;
    let targets = targets(alloc, &layout.slots, words)?;
    Ok(Effect {
        cpu,
        state: State::Live,
        targets,
        parts: done.parts,
        edits: done.edits,
        read: done.read,
        piece: done.piece,
        lines,
        waits: false,
    })
}
