// A vector, read from its text and replayed.
ghost use Rattle.std.specs.Prelude.{◌≤◌, ◌<◌, length, IfSome};

use o2_base::NoMemory;
use o2_bus::Plain;
use o2_core::step_one;
use o2_isa::{Cpu, Outcome};
use serde_json::Value;
use std::alloc::Global;

fn word(values: &Value, name: &str) -> Option<u16> {
    u16::try_from(values.get(name)?.as_u64()?).ok()
}

fn registers(values: &Value) -> Option<Cpu> {
    Some(Cpu {
        ax: word(values, "ax")?,
        cx: word(values, "cx")?,
        dx: word(values, "dx")?,
        bx: word(values, "bx")?,
        sp: word(values, "sp")?,
        bp: word(values, "bp")?,
        si: word(values, "si")?,
        di: word(values, "di")?,
        ip: word(values, "ip")?,
        flags: word(values, "flags")?,
        cs: word(values, "cs")?,
        ds: word(values, "ds")?,
        es: word(values, "es")?,
        ss: word(values, "ss")?,
    })
}

fn item(values: &Value, at: usize) -> Option<u64> {
    values.get(at)?.as_u64()
}

/// Puts the cells of this range over bytes that lie at a base.
fn put_cells(bytes: &mut [u8], base: u64, cells: &Value) -> Option<()> {
    for cell in cells.as_array()? {
        let address = item(cell, 0)?;
        let byte = u8::try_from(item(cell, 1)?).ok()?;
        if address >= base {
            let at = usize::try_from(address - base).ok()?;
            if at < bytes.len() {
                bytes[at] = byte;
            }
        }
    }
    Some(())
}

/// The numbers of a segment: selector, base, limit and access byte.
fn numbers_of(row: &Value) -> Option<(u64, u64, u64, u64)> {
    Some((item(row, 0)?, item(row, 1)?, item(row, 2)?, item(row, 3)?))
}

/// So many zeros as a segment of this limit has bytes.
fn zeros(alloc: Global, limit: u64) -> Result<Vec<u8>, NoMemory> {
    let mut bytes = Vec::new(alloc);
    for _ in 0..=limit % 65536 {
        bytes.push(0u8)?;
    }
    Ok(bytes)
}

/// Bytes that a segment can have.
fn sized(bytes: Vec<u8>) -> Option<Vec<u8>>
    ensures { IfSome result (λ v. (0 < length v.items) × (length v.items ≤ 65536)) }
{
    if bytes.is_empty() || bytes.len() > 65536 {
        return None;
    }
    Some(bytes)
}

/// Process 1 holds a segment of these bytes.
fn hold(
    alloc: Global,
    plain: &mut Plain,
    selector: u64,
    access: u64,
    bytes: Vec<u8>,
) -> Result<(), NoMemory>
    requires some { 0 < length bytes.items }
    requires small { length bytes.items ≤ 65536 }
{
    let name = plain.add(bytes)?;
    plain.hold(
        alloc,
        1,
        (selector / 8 % 8192) as u16,
        name,
        (access % 256) as u8,
    )
}

/// What a vector has.
#[derive(Clone, Copy)]
struct Vector<'a> {
    segments: &'a Value,
    /// The cells before the step.
    cells: &'a Value,
    /// Those that it changes.
    changed: &'a Value,
    before: Cpu,
    after: Cpu,
    answer: &'a Value,
}

/// The parts of a vector, none where one is missing.
fn vector_of(value: &Value) -> Option<Vector<'_>> {
    let initial = value.get("initial")?;
    let last = value.get("final")?;
    Some(Vector {
        segments: initial.get("segments")?,
        cells: initial.get("ram")?,
        changed: last.get("ram")?,
        before: registers(initial.get("regs")?)?,
        after: registers(last.get("regs")?)?,
        answer: value.get("answer")?,
    })
}

/// A segment more, where its row can be read.
fn add_segment(
    alloc: Global,
    plain: &mut Plain,
    row: &Value,
    cells: &Value,
) -> Result<bool, NoMemory> {
    let Some((selector, base, limit, access)) = numbers_of(row) else {
        return Ok(false);
    };
    let mut bytes = zeros(alloc, limit)?;
    let is_read = put_cells(bytes.as_mut_slice(), base, cells).is_some();
    if let Some(bytes) = sized(bytes) {
        hold(alloc, plain, selector, access, bytes)?;
        return Ok(is_read);
    }
    Ok(false)
}

/// The memory before the step, where all of its segments can be read.
fn add_segments(alloc: Global, plain: &mut Plain, vector: &Vector<'_>) -> Result<bool, NoMemory> {
    let Some(rows) = vector.segments.as_array() else {
        return Ok(false);
    };
    for row in rows {
        if !add_segment(alloc, plain, row, vector.cells)? {
            return Ok(false);
        }
    }
    Ok(true)
}

/// Whether an answer is the one that is written.
fn is_answer(outcome: Outcome, answer: &Value) -> bool {
    match outcome {
        Outcome::Done => answer.get("done") == Some(&Value::Bool(true)),
        Outcome::Trap(vector, code) => {
            word(answer, "trap") == Some(vector as u16) && word(answer, "code") == Some(code)
        }
        Outcome::Miss(selector) => word(answer, "miss") == Some(selector.0),
        Outcome::Gate { service, next } => {
            word(answer, "gate") == Some(service) && word(answer, "next") == Some(next)
        }
    }
}

/// Whether the step comes to the answer and the registers of a vector.
fn comes_to(plain: &mut Plain, vector: &Vector<'_>) -> bool {
    let mut cpu = vector.before;
    let mut bus = plain.bus(1, &cpu);
    let outcome = step_one(&mut cpu, &mut bus);
    is_answer(outcome, vector.answer) && cpu == vector.after
}

/// Whether a segment has the bytes that it has behind the step.
fn has_bytes(
    alloc: Global,
    plain: &Plain,
    name: usize,
    row: &Value,
    vector: &Vector<'_>,
) -> Result<bool, NoMemory> {
    let Some((_, base, limit, _)) = numbers_of(row) else {
        return Ok(false);
    };
    let mut wanted = zeros(alloc, limit)?;
    let is_read = put_cells(wanted.as_mut_slice(), base, vector.cells).is_some()
        && put_cells(wanted.as_mut_slice(), base, vector.changed).is_some();
    Ok(is_read && plain.bytes((name % 16) as u32) == wanted.as_slice())
}

/// Whether all of them have.
fn have_bytes(alloc: Global, plain: &Plain, vector: &Vector<'_>) -> Result<bool, NoMemory> {
    let Some(rows) = vector.segments.as_array() else {
        return Ok(false);
    };
    for (name, row) in rows.iter().enumerate() {
        if !has_bytes(alloc, plain, name, row, vector)? {
            return Ok(false);
        }
    }
    Ok(true)
}

/// Replays a vector over a plain memory: reads its state, steps, and tells whether registers, bytes and answer are those that it has.
pub fn replays(alloc: Global, value: &Value) -> Result<bool, NoMemory> {
    let Some(vector) = vector_of(value) else {
        return Ok(false);
    };
    let mut plain = Plain::new(alloc)?;
    if add_segments(alloc, &mut plain, &vector)? && comes_to(&mut plain, &vector) {
        return have_bytes(alloc, &plain, &vector);
    }
    Ok(false)
}
