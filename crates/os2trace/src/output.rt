// The lines of a trace.

use o2_tool::print_lines;
use o2_trace::{
    Told, Waiter, change_text, exception_text, report_json, step_json, step_text, wait_text,
    waiter_json, waiter_text,
};
use std::alloc::{AllocError, Global};

/// The exception that ended a process, in a line.
fn put_exception(rt: &HostRuntime, told: &Told<'_>) -> anyhow::Result<()> {
    if let Some(exception) = &told.exception {
        let text = exception_text(rt.alloc(), exception, &told.before.cpu)?;
        println!(rt; "! {text}")?;
    }
    Ok(())
}

/// The changed bytes, in lines.
fn put_changes(rt: &HostRuntime, told: &Told<'_>) -> anyhow::Result<()> {
    let text = change_text(rt.alloc(), told.changes)?;
    Ok(print_lines(rt, "*", text.as_bytes())?)
}

/// The line of a step.
fn line_of(alloc: Global, told: &Told<'_>) -> Result<String, AllocError> {
    if told.waits.is_empty() {
        step_text(alloc, &told.before, told.after.as_ref())
    } else {
        wait_text(alloc, &told.before)
    }
}

/// A step, in lines.
fn put_text(rt: &HostRuntime, told: &Told<'_>) -> anyhow::Result<()> {
    let line = line_of(rt.alloc(), told)?;
    println!(rt; "{line}")?;
    put_exception(rt, told)?;
    put_changes(rt, told)?;
    print_lines(rt, ">", told.console)?;
    Ok(print_lines(rt, "|", told.report)?)
}

/// A step, in lines or as an object of JSON.
pub fn put_step(rt: &HostRuntime, told: &Told<'_>, is_json: bool) -> anyhow::Result<()> {
    if is_json {
        let line = step_json(rt.alloc(), told)?;
        println!(rt; "{line}")?;
        return Ok(());
    }
    put_text(rt, told)
}

/// The line of a process that waits at the end of the run, or its object of JSON.
fn waiter_line(alloc: Global, waiter: &Waiter<'_>, is_json: bool) -> Result<String, AllocError> {
    if is_json {
        waiter_json(alloc, waiter)
    } else {
        waiter_text(alloc, waiter)
    }
}

/// A process that waits at the end of the run, in a line.
pub fn put_waiter(rt: &HostRuntime, waiter: &Waiter<'_>, is_json: bool) -> anyhow::Result<()> {
    let line = waiter_line(rt.alloc(), waiter, is_json)?;
    println!(rt; "{line}")?;
    Ok(())
}

/// A word of the script, by which the system discards segments, as a line or as an object of JSON.
pub fn put_word(rt: &HostRuntime, is_json: bool) -> anyhow::Result<()> {
    if is_json {
        println!(rt; "{{\"word\":\"discard\"}}")?;
    } else {
        println!(rt; "discard")?;
    }
    Ok(())
}

/// Lines of the report that no step put, as lines or as an object of JSON.
pub fn put_lines(rt: &HostRuntime, report: &[u8], is_json: bool) -> anyhow::Result<()> {
    if is_json && !report.is_empty() {
        let line = report_json(rt.alloc(), report)?;
        println!(rt; "{line}")?;
        return Ok(());
    }
    Ok(print_lines(rt, "|", report)?)
}
