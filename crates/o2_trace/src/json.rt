// A step as an object of JSON.
ghost use Rattle.std.specs.Prelude.{◌≡◌, ◌++◌, map, IfOk, OnOk, string_bytes};
ghost use Rattle.serde_json.specs.Data.{array, string, put as with_member};
ghost use Rattle.serde_json.specs.View.{view, items_of, members_view};
ghost use Rattle.o2_trace.specs.Json.{change_data, changes_data, code_digits, code_in, effects_in, exception_data, exception_in, general_in, maybe_exception, maybe_registers, names_data, place_in, place_word, pointers_in, registers_data, registers_in, segments_data, segments_in, step_in};

use crate::changes::Change;
use crate::exception::{Exception, Place, name_of};
use crate::step::{Before, code_text, shown_count, spelled};
use crate::told::Told;
use crate::waiter::Waiter;
use o2_isa::{Cpu, Sreg};
use o2_tool::Hex;
use serde_json::{Map, Value, put};
use std::alloc::{AllocError, Global};

/// The members of an object.
type Members = Map<String, Value>;

/// Puts AX, BX, CX and DX.
fn put_general(alloc: Global, map: &mut Members, cpu: &Cpu) -> Result<(), AllocError>
    ensures { OnOk result
        (members_view map.new.entries ≡ general_in cpu.now (members_view map.old.entries)) }
{
    put(map, alloc, "ax", Value::from(cpu.ax))?;
    put(map, alloc, "bx", Value::from(cpu.bx))?;
    put(map, alloc, "cx", Value::from(cpu.cx))?;
    put(map, alloc, "dx", Value::from(cpu.dx))
}

/// Puts SI, DI, BP and SP.
fn put_pointers(alloc: Global, map: &mut Members, cpu: &Cpu) -> Result<(), AllocError>
    ensures { OnOk result
        (members_view map.new.entries ≡ pointers_in cpu.now (members_view map.old.entries)) }
{
    put(map, alloc, "si", Value::from(cpu.si))?;
    put(map, alloc, "di", Value::from(cpu.di))?;
    put(map, alloc, "bp", Value::from(cpu.bp))?;
    put(map, alloc, "sp", Value::from(cpu.sp))
}

/// Puts the segment registers.
fn put_segments(alloc: Global, map: &mut Members, cpu: &Cpu) -> Result<(), AllocError>
    ensures { OnOk result
        (members_view map.new.entries ≡ segments_in cpu.now (members_view map.old.entries)) }
{
    put(map, alloc, "cs", Value::from(cpu.cs))?;
    put(map, alloc, "ds", Value::from(cpu.ds))?;
    put(map, alloc, "es", Value::from(cpu.es))?;
    put(map, alloc, "ss", Value::from(cpu.ss))
}

/// Puts the registers.
fn put_registers(alloc: Global, map: &mut Members, cpu: &Cpu) -> Result<(), AllocError>
    ensures { OnOk result
        (members_view map.new.entries ≡ registers_in cpu.now (members_view map.old.entries)) }
{
    put_general(alloc, map, cpu)?;
    put_pointers(alloc, map, cpu)?;
    put_segments(alloc, map, cpu)?;
    put(map, alloc, "ip", Value::from(cpu.ip))?;
    put(map, alloc, "flags", Value::from(cpu.flags))
}

/// The registers.
fn registers(alloc: Global, cpu: &Cpu) -> Result<Value, AllocError>
    ensures { IfOk result (λ v. view v ≡ registers_data cpu.now) }
{
    let mut map = Map::new(alloc);
    put_registers(alloc, &mut map, cpu)?;
    Ok(Value::Object(map))
}

/// The registers after a step, or null.
fn after(alloc: Global, cpu: &Option<Cpu>) -> Result<Value, AllocError>
    ensures { IfOk result (λ v. view v ≡ maybe_registers cpu.now) }
{
    match cpu {
        Some(cpu) => registers(alloc, cpu),
        None => Ok(Value::Null),
    }
}

/// A changed byte: selector, offset, what it was and is.
fn change(alloc: Global, change: &Change) -> Result<Value, AllocError>
    ensures { IfOk result (λ v. view v ≡ change_data change.now) }
{
    let mut out = Vec::new(alloc);
    out.push(Value::from(change.selector))?;
    out.push(Value::from(change.offset))?;
    out.push(Value::from(change.old))?;
    out.push(Value::from(change.new))?;
    Ok(Value::Array(out))
}

/// Adds changed bytes.
fn add_all(alloc: Global, out: &mut Vec<Value>, changes: &[Change]) -> Result<(), AllocError>
    ensures { OnOk result
        (map view out.new.items ≡ map view out.old.items ++ changes_data changes.now) }
{
    for one in changes {
        out.push(change(alloc, one)?)?;
    }
    Ok(())
}

/// Changed bytes.
fn changes(alloc: Global, changes: &[Change]) -> Result<Value, AllocError>
    ensures { IfOk result (λ v. view v ≡ array (items_of (changes_data changes.now))) }
{
    let mut out = Vec::new(alloc);
    add_all(alloc, &mut out, changes)?;
    Ok(Value::Array(out))
}

/// Adds a segment register's name.
fn add_name(alloc: Global, out: &mut Vec<Value>, reg: Option<Sreg>) -> Result<(), AllocError>
    ensures { OnOk result (map view out.new.items ≡ map view out.old.items ++ names_data reg) }
{
    match reg {
        Some(reg) => Ok(out.push(Value::try_from_str(alloc, name_of(reg))?)?),
        None => Ok(()),
    }
}

/// The segment registers by which an exception may have come.
fn segments(alloc: Global, exception: &Exception) -> Result<Value, AllocError>
    ensures { IfOk result (λ v. view v ≡ segments_data exception.now) }
{
    let mut out = Vec::new(alloc);
    add_name(alloc, &mut out, exception.first)?;
    add_name(alloc, &mut out, exception.second)?;
    Ok(Value::Array(out))
}

/// Where an exception came.
fn place_word(place: Place) -> &'static str
    ensures { result.now ≡ place_word place }
{
    match place {
        Place::Instruction => "instruction",
        Place::Service => "service",
        Place::Behind => "behind",
    }
}

/// Puts a text.
fn put_text(alloc: Global, map: &mut Members, key: &str, text: &str) -> Result<(), AllocError>
    ensures { OnOk result (members_view map.new.entries
        ≡ with_member key.now (string text.now) (members_view map.old.entries)) }
{
    let value = Value::try_from_str(alloc, text)?;
    put(map, alloc, key, value)
}

/// Puts an exception.
fn put_exception(alloc: Global, map: &mut Members, one: &Exception) -> Result<(), AllocError>
    ensures { OnOk result
        (members_view map.new.entries ≡ exception_in one.now (members_view map.old.entries)) }
{
    put(map, alloc, "vector", Value::from(one.vector))?;
    put(map, alloc, "code", Value::from(one.code))?;
    put_text(alloc, map, "place", place_word(one.place))?;
    put(map, alloc, "segments", segments(alloc, one)?)
}

/// An exception.
fn exception(alloc: Global, one: &Exception) -> Result<Value, AllocError>
    ensures { IfOk result (λ v. view v ≡ exception_data one.now) }
{
    let mut map = Map::new(alloc);
    put_exception(alloc, &mut map, one)?;
    Ok(Value::Object(map))
}

/// The exception that ended a process, or null.
fn trap(alloc: Global, one: &Option<Exception>) -> Result<Value, AllocError>
    ensures { IfOk result (λ v. view v ≡ maybe_exception one.now) }
{
    match one {
        Some(one) => exception(alloc, one),
        None => Ok(Value::Null),
    }
}

/// The bytes of an instruction, or all that were looked at where there is none.
fn code(alloc: Global, before: &Before) -> Result<String, AllocError>
    ensures { IfOk result (λ s. string_bytes s ≡ code_digits before.now) }
{
    let count = shown_count(before.count.min(10), &spelled(before));
    format!(in alloc; "{}", Hex(&before.bytes[..count]))
}

/// Puts the step's numbers.
fn put_place(alloc: Global, map: &mut Members, told: &Told<'_>) -> Result<(), AllocError>
    ensures { OnOk result
        (members_view map.new.entries ≡ place_in told.now (members_view map.old.entries)) }
{
    put(map, alloc, "step", Value::from(told.number))?;
    put(map, alloc, "process", Value::from(told.before.process))?;
    put(map, alloc, "cs", Value::from(told.before.cpu.cs))?;
    put(map, alloc, "ip", Value::from(told.before.cpu.ip))
}

/// Puts its instruction.
fn put_code(alloc: Global, map: &mut Members, before: &Before) -> Result<(), AllocError>
    ensures { OnOk result
        (members_view map.new.entries ≡ code_in before.now (members_view map.old.entries)) }
{
    put(map, alloc, "code", Value::from(code(alloc, before)?))?;
    let text = code_text(alloc, before.cpu.ip, &spelled(before))?;
    put(map, alloc, "text", Value::from(text))
}

/// Puts what it changed.
fn put_effects(alloc: Global, map: &mut Members, told: &Told<'_>) -> Result<(), AllocError>
    ensures { OnOk result
        (members_view map.new.entries ≡ effects_in told.now (members_view map.old.entries)) }
{
    put(map, alloc, "before", registers(alloc, &told.before.cpu)?)?;
    put(map, alloc, "after", after(alloc, &told.after)?)?;
    put(map, alloc, "writes", changes(alloc, told.changes)?)?;
    put(map, alloc, "trap", trap(alloc, &told.exception)?)
}

/// Adds what is told of a step itself.
fn put_step(alloc: Global, map: &mut Members, told: &Told<'_>) -> Result<(), AllocError>
    ensures { OnOk result
        (members_view map.new.entries ≡ step_in told.now (members_view map.old.entries)) }
{
    put_place(alloc, map, told)?;
    put_code(alloc, map, &told.before)?;
    put_effects(alloc, map, told)
}

/// Bytes as a text, each as the character of its number.
fn text_of(alloc: Global, bytes: &[u8]) -> Result<String, AllocError> {
    let mut out = String::new(alloc);
    for byte in bytes {
        out.push(*byte as char)?;
    }
    Ok(out)
}

/// The parts of a text between marks; none of them is empty.
fn parts(alloc: Global, text: &str, mark: char) -> Result<Value, AllocError> {
    let mut out = Vec::new(alloc);
    for part in text.split(mark) {
        if !part.is_empty() {
            out.push(Value::try_from_str(alloc, part)?)?;
        }
    }
    Ok(Value::Array(out))
}

/// A text in front of a mark and behind it; all of it and nothing where it has no mark.
fn parted<'a>(text: &'a str, mark: &str) -> (&'a str, &'a str) {
    text.split_once(mark).unwrap_or((text, ""))
}

/// A decimal number, or null where a text is none.
fn number(text: &str) -> Value {
    match u16::from_str_radix(text, 10) {
        Ok(number) => Value::from(number),
        Err(_) => Value::Null,
    }
}

/// What stands behind the process and this word in a line of the report that has it there; nothing where none has.
fn line_of<'a>(report: &'a str, word: &str) -> &'a str {
    for line in report.split('\n') {
        let (_, rest) = parted(line, " ");
        let (first, rest) = parted(rest, " ");
        if first == word {
            return rest;
        }
    }
    ""
}

/// Puts the parts of a text between blanks.
fn put_words(alloc: Global, map: &mut Members, key: &str, text: &str) -> Result<(), AllocError> {
    let value = parts(alloc, text, ' ')?;
    put(map, alloc, key, value)
}

/// Puts a call: its name, its arguments, its error, and the values that it wrote.
fn put_call(alloc: Global, map: &mut Members, line: &str) -> Result<(), AllocError> {
    let (front, answer) = parted(line, " = ");
    let (name, arguments) = parted(front, " ");
    let (error, values) = parted(answer, " ");
    put_text(alloc, map, "name", name)?;
    put_words(alloc, map, "arguments", arguments)?;
    put_words(alloc, map, "values", values)?;
    put(map, alloc, "error", number(error))
}

/// The call of a step that has a line of one, or null. DosExit, which doesn't return, has no error.
fn call(alloc: Global, report: &str) -> Result<Value, AllocError> {
    let line = line_of(report, "call");
    if line.is_empty() {
        return Ok(Value::Null);
    }
    let mut map = Map::new(alloc);
    put_call(alloc, &mut map, line)?;
    Ok(Value::Object(map))
}

/// A text, or null where it is empty.
fn text_or_null(alloc: Global, text: &str) -> Result<Value, AllocError> {
    if text.is_empty() {
        return Ok(Value::Null);
    }
    Value::try_from_str(alloc, text)
}

/// Puts what is told by the lines of a report.
fn put_lines(alloc: Global, map: &mut Members, report: &str) -> Result<(), AllocError> {
    put(map, alloc, "report", parts(alloc, report, '\n')?)?;
    put(map, alloc, "call", call(alloc, report)?)?;
    put(
        map,
        alloc,
        "end",
        text_or_null(alloc, line_of(report, "end"))?,
    )
}

/// Puts the name of the call in which a process waits, or null.
fn put_wait(alloc: Global, map: &mut Members, call: &[u8]) -> Result<(), AllocError> {
    let name = text_of(alloc, call)?;
    put(map, alloc, "waits", text_or_null(alloc, name.as_str())?)
}

/// Puts what a step put to console and report.
fn put_output(alloc: Global, map: &mut Members, told: &Told<'_>) -> Result<(), AllocError> {
    put(
        map,
        alloc,
        "console",
        Value::from(text_of(alloc, told.console)?),
    )?;
    let report = text_of(alloc, told.report)?;
    put_lines(alloc, map, report.as_str())
}

/// A step as an object of JSON, in one line.
pub fn step_json(alloc: Global, told: &Told<'_>) -> Result<String, AllocError> {
    let mut map = Map::new(alloc);
    put_step(alloc, &mut map, told)?;
    put_output(alloc, &mut map, told)?;
    put_wait(alloc, &mut map, told.waits)?;
    Value::Object(map).to_string(alloc)
}

/// A process that waits at the end of the run, as an object of JSON in one line.
pub fn waiter_json(alloc: Global, waiter: &Waiter<'_>) -> Result<String, AllocError> {
    let mut map = Map::new(alloc);
    put(&mut map, alloc, "process", Value::from(waiter.process))?;
    put(&mut map, alloc, "cs", Value::from(waiter.cs))?;
    put(&mut map, alloc, "ip", Value::from(waiter.ip))?;
    put_wait(alloc, &mut map, waiter.call)?;
    Value::Object(map).to_string(alloc)
}

/// Lines of the report that no step put, as an object of JSON in one line.
pub fn report_json(alloc: Global, report: &[u8]) -> Result<String, AllocError> {
    let text = text_of(alloc, report)?;
    let lines = parts(alloc, text.as_str(), '\n')?;
    let mut map = Map::new(alloc);
    put(&mut map, alloc, "report", lines)?;
    Value::Object(map).to_string(alloc)
}
