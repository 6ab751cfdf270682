// The processes of a machine file.
ghost use Rattle.std.specs.Prelude.{◌≡◌, ◌+◌, ◌≤◌, ◌<◌, ◌^◌, [], nat_le, length, All, IfOk};
ghost use Rattle.toml.specs.View.{items_view, table_view, view};
ghost use Rattle.o2_conf.specs.Steps.{Gives, each};
ghost use Rattle.o2_conf.specs.Values.{value_at};
ghost use Rattle.o2_conf.specs.Limits.{IsFrom, HasEnvironment};
ghost use Rattle.o2_conf.specs.Processes.{strings_size, environment_size, module_at, arguments_or, environment_or, process_at, process_step, processes_at, table_step};

use crate::arrays::texts;
use crate::lists::Texts;
use crate::table::{text, value};
use o2_base::{Bytes, Fail, Key, MachineFault};
use std::alloc::Global;
use toml::{Table, Value};

/// A process to start.
#[derive(Debug, Drop)]
pub struct Process {
    /// The name of the module that it runs, 1 to 255 bytes.
    pub module: Bytes,
    /// Its arguments, without a zero byte.
    pub arguments: Bytes,
    /// Its environment strings, each without a zero byte. With the module's name and the arguments they make an environment
    /// segment of at most 65,536 bytes.
    pub environment: Texts,
}

/// The module that a process runs.
#[tactic(auto, unfolding(crate::specs::Processes::module_at))]
fn module_name(alloc: Global, table: &Table) -> Result<Bytes, Fail<MachineFault>>
    ensures exact { Gives (λ b. b) result (module_at (table_view table.now)) }
    ensures short { IfOk result (λ b. length b ≤ 255) }
{
    let Some(found) = value(table, Key::ProcessModule) else {
        return Err(Fail::Bad(MachineFault::Missing(Key::ProcessModule)));
    };
    let Some(text) = text(found) else {
        return Err(Fail::Bad(MachineFault::BadValue(Key::ProcessModule)));
    };
    if text.len() < 1 || text.len() > 255 {
        return Err(Fail::Bad(MachineFault::Limit(Key::ProcessModule)));
    }
    Ok(Bytes::from_slice(alloc, text.as_bytes())?)
}

/// The arguments of a process.
fn arguments(alloc: Global, table: &Table) -> Result<Bytes, Fail<MachineFault>>
    ensures { Gives (λ b. b) result (arguments_or (value_at (table_view table.now) Key.ProcessArguments)) }
{
    let Some(found) = value(table, Key::ProcessArguments) else {
        return Ok(Bytes::new(Vec::new(alloc)));
    };
    let Some(text) = text(found) else {
        return Err(Fail::Bad(MachineFault::BadValue(Key::ProcessArguments)));
    };
    Ok(Bytes::from_slice(alloc, text.as_bytes())?)
}

/// The environment strings of a process.
fn environment(alloc: Global, table: &Table) -> Result<Vec<Bytes>, Fail<MachineFault>>
    ensures { Gives (λ v. v.items) result (environment_or (value_at (table_view table.now) Key.ProcessEnvironment)) }
{
    let Some(found) = value(table, Key::ProcessEnvironment) else {
        return Ok(Vec::new(alloc));
    };
    texts(alloc, Key::ProcessEnvironment, found)
}

/// Whether these strings, each with a zero byte, fit so many bytes.
fn strings_fit(strings: &[Bytes], room: usize) -> bool
    ensures { result ≡ nat_le (strings_size strings.now) room }
{
    let mut left = room;
    for string in strings {
        if string.len() >= left {
            return false;
        }
        left -= string.len() + 1;
    }
    true
}

/// Whether the environment segment of a process has at most 65,536 bytes.
fn environment_fits(name: &Bytes, arguments: &Bytes, strings: &[Bytes]) -> bool
    requires { length name.now ≤ 255 }
    ensures { result ≡ nat_le (environment_size name.now arguments.now strings.now) 65536 }
{
    if arguments.len() > 65536 {
        return false;
    }
    let front = name.len() + arguments.len() + 4;
    front <= 65536 && strings_fit(strings, 65536 - front)
}

/// A process by its table.
#[tactic(auto, unfolding(crate::specs::Processes::process_at))]
fn read_process(alloc: Global, table: &Table) -> Result<Process, Fail<MachineFault>>
    ensures exact { Gives (λ p. p) result (process_at (table_view table.now)) }
    ensures fits { IfOk result HasEnvironment }
{
    let module = module_name(alloc, table)?;
    let arguments = arguments(alloc, table)?;
    let strings = environment(alloc, table)?;
    if !environment_fits(&module, &arguments, strings.as_slice()) {
        return Err(Fail::Bad(MachineFault::Limit(Key::ProcessEnvironment)));
    }
    Ok(Process {
        module,
        arguments,
        environment: Texts::new(strings),
    })
}

/// One more process of the array.
fn process_item(
    alloc: Global,
    value: &Value,
    found: &mut Vec<Process>,
) -> Result<(), Fail<MachineFault>>
    ensures exact { Gives (λ _. found.new.items) result (process_step (view value.now) found.old.items) }
    ensures count { IfOk result (λ _. length found.new.items ≡ length found.old.items + 1) }
    ensures fits { All HasEnvironment found.old.items → IfOk result (λ _. All HasEnvironment found.new.items) }
{
    let Some(table) = value.as_table() else {
        return Err(Fail::Bad(MachineFault::BadValue(Key::Process)));
    };
    found.push(read_process(alloc, table)?)?;
    Ok(())
}

/// The processes of an array.
fn process_items(alloc: Global, values: &[Value]) -> Result<Vec<Process>, Fail<MachineFault>>
    ensures exact { Gives (λ v. v.items) result (each process_step (items_view values.now) []) }
    ensures count { IfOk result (λ v. length v.items ≡ length values.now) }
    ensures fits { IfOk result (λ v. All HasEnvironment v.items) }
{
    let mut found = Vec::new(alloc);
    for value in values {
        process_item(alloc, value, &mut found)?;
    }
    Ok(found)
}

/// Counts a value, which must be a table.
fn table_item(value: &Value, count: usize) -> Result<usize, MachineFault>
    requires { count + 1 < 2 ^ 64 }
    ensures exact { result ≡ table_step (view value.now) count }
    ensures count { IfOk result (λ n. n ≡ count + 1) }
{
    if value.as_table().is_none() {
        return Err(MachineFault::BadValue(Key::Process));
    }
    Ok(count + 1)
}

/// How many values an array has, each of them a table.
fn count_tables(values: &[Value]) -> Result<usize, MachineFault>
    ensures exact { result ≡ each table_step (items_view values.now) 0 }
    ensures count { IfOk result (λ n. n ≡ length values.now) }
{
    let mut count = 0usize;
    for value in values {
        count = table_item(value, count)?;
    }
    Ok(count)
}

/// The processes of a machine file.
#[tactic(auto, unfolding(crate::specs::Processes::processes_at))]
pub fn processes(alloc: Global, table: &Table) -> Result<Vec<Process>, Fail<MachineFault>>
    ensures exact { Gives (λ v. v.items) result (processes_at (table_view table.now)) }
    ensures count { IfOk result (λ v. IsFrom 1 64 (length v.items)) }
    ensures fits { IfOk result (λ v. All HasEnvironment v.items) }
{
    let Some(found) = value(table, Key::Process) else {
        return Err(Fail::Bad(MachineFault::Missing(Key::Process)));
    };
    let Some(array) = found.as_array() else {
        return Err(Fail::Bad(MachineFault::BadValue(Key::Process)));
    };
    let count = count_tables(array.as_slice()).map_err(Fail::Bad)?;
    if count < 1 || count > 64 {
        return Err(Fail::Bad(MachineFault::Limit(Key::Process)));
    }
    process_items(alloc, array.as_slice())
}
