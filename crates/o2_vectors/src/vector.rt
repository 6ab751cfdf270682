// A vector as JSON: the state before a step, the state behind it, and what it answered.
ghost use Rattle.std.specs.Prelude.{◌≡◌, ◌++◌, ◌+◌, ◌<◌, [], ◌∷◌, map, IfOk, OnOk};
ghost use Rattle.serde_json.specs.Data.{array, object, no_members, put as with_member};
ghost use Rattle.serde_json.specs.View.{view, items_of, members_view};
ghost use Rattle.o2_vectors.specs.Json.{registers_data, cell, cells, changes, ram, changed_ram, segment_data, segments_data, answer_data, initial_data, final_data, vector_data, natural, naturals};
ghost use Rattle.o2_vectors.specs.Members.{first_registers, last_registers, initial_members, final_members, step_members};

use crate::state::Snapshot;
use crate::step::Taken;
use o2_desc::Access;
use o2_isa::{Cpu, Outcome};
use serde_json::{Map, Number, Value, put};
use std::alloc::{AllocError, Global};

/// A number.
fn number(number: u32) -> Value
    ensures { view result ≡ natural number }
{
    Value::Number(Number::from(number))
}

/// Adds a member that is a number.
fn add_number(
    out: &mut Map<String, Value>,
    alloc: Global,
    key: &str,
    word: u16,
) -> Result<(), AllocError>
    ensures { OnOk result (members_view out.new.entries
        ≡ with_member key.now (natural word) (members_view out.old.entries)) }
{
    put(out, alloc, key, number(u32::from(word)))
}

/// Adds the registers from DX on, in the order of their names, the last one first.
fn add_last(out: &mut Map<String, Value>, alloc: Global, cpu: &Cpu) -> Result<(), AllocError>
    ensures { OnOk result
        (members_view out.new.entries ≡ last_registers cpu.now (members_view out.old.entries)) }
{
    add_number(out, alloc, "ss", cpu.ss)?;
    add_number(out, alloc, "sp", cpu.sp)?;
    add_number(out, alloc, "si", cpu.si)?;
    add_number(out, alloc, "ip", cpu.ip)?;
    add_number(out, alloc, "flags", cpu.flags)?;
    add_number(out, alloc, "es", cpu.es)?;
    add_number(out, alloc, "dx", cpu.dx)
}

/// Adds those before DX.
fn add_first(out: &mut Map<String, Value>, alloc: Global, cpu: &Cpu) -> Result<(), AllocError>
    ensures { OnOk result
        (members_view out.new.entries ≡ first_registers cpu.now (members_view out.old.entries)) }
{
    add_number(out, alloc, "ds", cpu.ds)?;
    add_number(out, alloc, "di", cpu.di)?;
    add_number(out, alloc, "cx", cpu.cx)?;
    add_number(out, alloc, "cs", cpu.cs)?;
    add_number(out, alloc, "bx", cpu.bx)?;
    add_number(out, alloc, "bp", cpu.bp)?;
    add_number(out, alloc, "ax", cpu.ax)
}

/// The registers.
fn registers(alloc: Global, cpu: &Cpu) -> Result<Value, AllocError>
    ensures { IfOk result (λ v. view v ≡ registers_data cpu.now) }
{
    let mut out = Map::new(alloc);
    add_last(&mut out, alloc, cpu)?;
    add_first(&mut out, alloc, cpu)?;
    Ok(Value::Object(out))
}

/// Adds numbers.
fn add_row(out: &mut Vec<Value>, row: &[u32]) -> Result<(), AllocError>
    ensures { OnOk result
        (map view out.new.items ≡ map view out.old.items ++ naturals row.now) }
{
    for part in row {
        out.push(number(*part))?;
    }
    Ok(())
}

/// An array of numbers.
fn row(alloc: Global, row: &[u32]) -> Result<Value, AllocError>
    ensures { IfOk result (λ v. view v ≡ array (items_of (naturals row.now))) }
{
    let mut out = Vec::new(alloc);
    add_row(&mut out, row)?;
    Ok(Value::Array(out))
}

/// A byte at an address.
fn byte_at(alloc: Global, address: u32, byte: u8) -> Result<Value, AllocError>
    ensures { IfOk result (λ v. view v ≡ cell address byte) }
{
    row(alloc, &[address, u32::from(byte)])
}

/// Adds the bytes of a segment.
fn add_bytes(
    alloc: Global,
    out: &mut Vec<Value>,
    base: u32,
    bytes: &[u8; 64],
) -> Result<(), AllocError>
    requires { base < 65536 }
    ensures { OnOk result
        (map view out.new.items ≡ map view out.old.items ++ cells base bytes.now) }
{
    for (at, byte) in bytes.iter().enumerate() {
        out.push(byte_at(alloc, base + at as u32, *byte)?)?;
    }
    Ok(())
}

/// Adds the bytes of a segment that have changed, as they are now.
fn add_changes(
    alloc: Global,
    out: &mut Vec<Value>,
    base: u32,
    old: &[u8; 64],
    new: &[u8; 64],
) -> Result<(), AllocError>
    requires { base < 65536 }
    ensures { OnOk result
        (map view out.new.items ≡ map view out.old.items ++ changes base old.now new.now) }
{
    for (at, byte) in new.iter().enumerate() {
        if *byte != old[at] {
            out.push(byte_at(alloc, base + at as u32, *byte)?)?;
        }
    }
    Ok(())
}

/// Adds all bytes.
#[tactic(auto, using(std::proofs::Common::append_assoc))]
fn add_ram(alloc: Global, out: &mut Vec<Value>, state: &Snapshot) -> Result<(), AllocError>
    ensures { OnOk result
        (map view out.new.items ≡ map view out.old.items ++ ram state.now) }
{
    add_bytes(alloc, out, 0x1000, &state.code)?;
    add_bytes(alloc, out, 0x2000, &state.data)?;
    add_bytes(alloc, out, 0x3000, &state.extra)?;
    add_bytes(alloc, out, 0x4000, &state.stack)
}

/// All bytes.
fn whole_ram(alloc: Global, state: &Snapshot) -> Result<Value, AllocError>
    ensures { IfOk result (λ v. view v ≡ array (items_of (ram state.now))) }
{
    let mut out = Vec::new(alloc);
    add_ram(alloc, &mut out, state)?;
    Ok(Value::Array(out))
}

/// Adds the bytes that a step changed.
#[tactic(auto, using(std::proofs::Common::append_assoc))]
fn add_changed(
    alloc: Global,
    out: &mut Vec<Value>,
    before: &Snapshot,
    after: &Snapshot,
) -> Result<(), AllocError>
    ensures { OnOk result
        (map view out.new.items ≡ map view out.old.items ++ changed_ram before.now after.now) }
{
    add_changes(alloc, out, 0x1000, &before.code, &after.code)?;
    add_changes(alloc, out, 0x2000, &before.data, &after.data)?;
    add_changes(alloc, out, 0x3000, &before.extra, &after.extra)?;
    add_changes(alloc, out, 0x4000, &before.stack, &after.stack)
}

/// The bytes that a step changed.
fn changed(alloc: Global, before: &Snapshot, after: &Snapshot) -> Result<Value, AllocError>
    ensures { IfOk result (λ v. view v ≡ array (items_of (changed_ram before.now after.now))) }
{
    let mut out = Vec::new(alloc);
    add_changed(alloc, &mut out, before, after)?;
    Ok(Value::Array(out))
}

/// Adds a segment: its selector, base, limit and access byte.
fn add_segment(
    out: &mut Vec<Value>,
    alloc: Global,
    selector: u16,
    base: u32,
    access: Access,
) -> Result<(), AllocError>
    ensures { OnOk result (map view out.new.items
        ≡ map view out.old.items ++ segment_data selector base access.0 ∷ []) }
{
    out.push(row(alloc, &[u32::from(selector), base, 63, u32::from(access.0)])?)?;
    Ok(())
}

/// Adds the four segments.
fn add_segments(out: &mut Vec<Value>, alloc: Global) -> Result<(), AllocError>
    requires { out.old.items ≡ [] }
    ensures { OnOk result (array (items_of (map view out.new.items)) ≡ segments_data) }
{
    add_segment(out, alloc, 0x000F, 0x1000, Access::READABLE_CODE)?;
    add_segment(out, alloc, 0x0017, 0x2000, Access::WRITABLE_DATA)?;
    add_segment(out, alloc, 0x001F, 0x3000, Access::WRITABLE_DATA)?;
    add_segment(out, alloc, 0x0027, 0x4000, Access::WRITABLE_DATA)
}

/// The selectors of the segments, with base, limit and access byte.
fn segments(alloc: Global) -> Result<Value, AllocError>
    ensures { IfOk result (λ v. view v ≡ segments_data) }
{
    let mut out = Vec::new(alloc);
    add_segments(&mut out, alloc)?;
    Ok(Value::Array(out))
}

/// Adds what a step answered.
fn add_answer(
    out: &mut Map<String, Value>,
    alloc: Global,
    outcome: Outcome,
) -> Result<(), AllocError>
    requires { members_view out.old.entries ≡ no_members }
    ensures { OnOk result (object (members_view out.new.entries) ≡ answer_data outcome) }
{
    match outcome {
        Outcome::Done => put(out, alloc, "done", Value::Bool(true)),
        Outcome::Trap(vector, code) => {
            add_number(out, alloc, "trap", u16::from(vector))?;
            add_number(out, alloc, "code", code)
        }
        Outcome::Miss(selector) => add_number(out, alloc, "miss", selector.0),
        Outcome::Gate { service, next } => {
            add_number(out, alloc, "next", next)?;
            add_number(out, alloc, "gate", service)
        }
    }
}

/// What a step answered.
fn answer(alloc: Global, outcome: Outcome) -> Result<Value, AllocError>
    ensures { IfOk result (λ v. view v ≡ answer_data outcome) }
{
    let mut out = Map::new(alloc);
    add_answer(&mut out, alloc, outcome)?;
    Ok(Value::Object(out))
}

/// Adds the members of a state before a step.
fn add_initial(
    out: &mut Map<String, Value>,
    alloc: Global,
    before: &Snapshot,
) -> Result<(), AllocError>
    ensures { OnOk result
        (members_view out.new.entries ≡ initial_members before.now (members_view out.old.entries)) }
{
    put(out, alloc, "segments", segments(alloc)?)?;
    put(out, alloc, "regs", registers(alloc, &before.cpu)?)?;
    put(out, alloc, "ram", whole_ram(alloc, before)?)
}

/// The state before a step.
fn initial(alloc: Global, before: &Snapshot) -> Result<Value, AllocError>
    ensures { IfOk result (λ v. view v ≡ initial_data before.now) }
{
    let mut out = Map::new(alloc);
    add_initial(&mut out, alloc, before)?;
    Ok(Value::Object(out))
}

/// Adds the members of a state behind a step.
fn add_last_state(
    out: &mut Map<String, Value>,
    alloc: Global,
    before: &Snapshot,
    after: &Snapshot,
) -> Result<(), AllocError>
    ensures { OnOk result (members_view out.new.entries
        ≡ final_members before.now after.now (members_view out.old.entries)) }
{
    put(out, alloc, "regs", registers(alloc, &after.cpu)?)?;
    put(out, alloc, "ram", changed(alloc, before, after)?)
}

/// The state behind a step.
fn last(alloc: Global, before: &Snapshot, after: &Snapshot) -> Result<Value, AllocError>
    ensures { IfOk result (λ v. view v ≡ final_data before.now after.now) }
{
    let mut out = Map::new(alloc);
    add_last_state(&mut out, alloc, before, after)?;
    Ok(Value::Object(out))
}

/// Adds bytes as numbers.
fn add_numbers(out: &mut Vec<Value>, bytes: &[u8]) -> Result<(), AllocError>
    ensures { OnOk result
        (map view out.new.items ≡ map view out.old.items ++ naturals bytes.now) }
{
    for byte in bytes {
        out.push(number(u32::from(*byte)))?;
    }
    Ok(())
}

/// Bytes as an array of numbers.
fn numbers(alloc: Global, bytes: &[u8]) -> Result<Value, AllocError>
    ensures { IfOk result (λ v. view v ≡ array (items_of (naturals bytes.now))) }
{
    let mut out = Vec::new(alloc);
    add_numbers(&mut out, bytes)?;
    Ok(Value::Array(out))
}

/// Adds the members of a vector but for its name.
fn add_step(
    out: &mut Map<String, Value>,
    alloc: Global,
    bytes: &[u8],
    before: &Snapshot,
    taken: &Taken,
) -> Result<(), AllocError>
    ensures { OnOk result (members_view out.new.entries ≡ step_members (naturals bytes.now)
        before.now taken.now.after taken.now.outcome (members_view out.old.entries)) }
{
    put(out, alloc, "initial", initial(alloc, before)?)?;
    put(out, alloc, "final", last(alloc, before, &taken.after)?)?;
    put(out, alloc, "bytes", numbers(alloc, bytes)?)?;
    put(out, alloc, "answer", answer(alloc, taken.outcome)?)
}

/// The vector of a step.
pub fn vector(
    alloc: Global,
    name: &str,
    bytes: &[u8],
    before: &Snapshot,
    taken: &Taken,
) -> Result<Value, AllocError>
    ensures { IfOk result (λ v. view v
        ≡ vector_data name.now bytes.now before.now taken.now.after taken.now.outcome) }
{
    let mut out = Map::new(alloc);
    put(
        &mut out,
        alloc,
        "name",
        Value::String(String::from_str(alloc, name)?),
    )?;
    add_step(&mut out, alloc, bytes, before, taken)?;
    Ok(Value::Object(out))
}
