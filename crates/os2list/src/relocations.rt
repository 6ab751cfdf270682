// Relocations, and what they lead to.
ghost use Rattle.std.specs.Prelude.{◌≤◌, IfSome};

use o2_base::{SERVICE_COUNT, is_built, service_at};
use o2_image::Module;
use o2_ne_segs::Reloc;
use o2_tool::{Shown, unallocated};
use std::alloc::{AllocError, Global};
use std::collections::BTreeMap;
use std::{fmt, io};

/// The number of the call that DOSCALLS has under an ordinal, where it is known.
fn call_of(ordinal: u16) -> Option<u16>
    ensures { IfSome result (λ n. (1 ≤ n) × (n ≤ SERVICE_COUNT)) }
{
    for k in 0..SERVICE_COUNT {
        if service_at(k + 1).ordinal == ordinal {
            return Some(k + 1);
        }
    }
    None
}

/// The number of the call that DOSCALLS has under a name, where it is known.
fn call_named(name: &[u8]) -> Option<u16> {
    for k in 0..SERVICE_COUNT {
        if service_at(k + 1).name.eq_ignore_ascii_case(name) {
            return Some(k + 1);
        }
    }
    None
}

/// The name of the call that DOSCALLS has under an ordinal, where it is known.
fn call_name(ordinal: u16) -> &'static [u8] {
    match call_of(ordinal) {
        Some(number) => service_at(number).name,
        None => b"",
    }
}

/// Whether a module's name is that of the system's own.
fn is_system(name: &[u8]) -> bool {
    name.eq_ignore_ascii_case(b"DOSCALLS")
}

/// Whether a call is none of the machine.
fn is_lacking(call: Option<u16>) -> bool {
    match call {
        Some(number) => !is_built(number),
        None => true,
    }
}

/// Whether a record imports from DOSCALLS what the machine hasn't, so that a shim would have to give it.
fn is_for_shim(module: &Module, mark: Mark) -> bool {
    let (kind, first, second) = mark;
    let name = module.reference(first).unwrap_or(b"");
    if !is_system(name) {
        return false;
    }
    match kind {
        1 => is_lacking(call_of(second)),
        2 => is_lacking(call_named(module.imported(second).unwrap_or(b""))),
        _ => false,
    }
}

/// What a record leads to.
#[derive(Clone, Copy)]
pub enum Target<'a> {
    /// An entry of the module.
    Entry(u16),
    /// A place in a segment.
    Place(u16, u16),
    /// A fixup of the operating system.
    System,
    /// What a module has under an ordinal.
    Ordinal(&'a [u8], u16),
    /// A call that DOSCALLS has under an ordinal.
    Call(&'a [u8], u16, &'a [u8]),
    /// What a module exports by a name.
    Name(&'a [u8], &'a [u8]),
}

impl fmt::Display for Target<'_> {
    fn fmt<W: fmt::Write>(&self, f: &mut fmt::Formatter<W>) -> fmt::Result {
        match *self {
            Target::Entry(ordinal) => write!(f, "entry {ordinal}"),
            Target::Place(segment, offset) => write!(f, "segment {segment}:{offset:04X}h"),
            Target::System => f.write_str("a fixup of the operating system"),
            Target::Ordinal(name, ordinal) => write!(f, "{}.{ordinal}", Shown(name)),
            Target::Call(name, ordinal, call) => {
                write!(f, "{}.{ordinal} ({})", Shown(name), Shown(call))
            }
            Target::Name(name, symbol) => write!(f, "{}.{}", Shown(name), Shown(symbol)),
        }
    }
}

/// An import by an ordinal, with the call's name where it is known.
fn by_ordinal(name: &[u8], ordinal: u16) -> Target<'_> {
    if !is_system(name) {
        return Target::Ordinal(name, ordinal);
    }
    let call = call_name(ordinal);
    if call.is_empty() {
        Target::Ordinal(name, ordinal)
    } else {
        Target::Call(name, ordinal, call)
    }
}

/// What a record leads to: its flags, and both words of its target.
pub type Mark = (u8, u16, u16);

/// What a record leads to.
pub fn mark_of(reloc: &Reloc) -> Mark {
    (reloc.flags & 3, reloc.first, reloc.second)
}

/// What a record leads to.
pub fn wanted(module: &Module, mark: Mark) -> Target<'_> {
    let (kind, first, second) = mark;
    if kind == 0 {
        if first == 255 {
            return Target::Entry(second);
        }
        return Target::Place(first, second);
    }
    if kind == 3 {
        return Target::System;
    }
    let name = module.reference(first).unwrap_or(b"");
    if kind == 1 {
        return by_ordinal(name, second);
    }
    Target::Name(name, module.imported(second).unwrap_or(b""))
}

/// What is patched.
pub fn source_text(reloc: &Reloc) -> &'static str {
    match reloc.source {
        0 => "a low byte",
        2 => "a selector",
        3 => "a far pointer",
        5 => "an offset",
        _ => "something else",
    }
}

/// How many records want each import.
type Imports = BTreeMap<String, u64>;

/// Counts an import, with a mark where a shim would have to give it.
fn add_import(
    alloc: Global,
    module: &Module,
    mark: Mark,
    found: &mut Imports,
) -> Result<(), AllocError> {
    let target = wanted(module, mark);
    let rest = if is_for_shim(module, mark) {
        ", for a shim"
    } else {
        ""
    };
    let text = format!(in alloc; "{target}{rest}")?;
    let before = found.get(text.as_str()).copied().unwrap_or(0);
    found.insert(text, before.saturating_add(1))?;
    Ok(())
}

/// Adds the imports of a segment.
fn gather(
    alloc: Global,
    module: &Module,
    segment: u16,
    found: &mut Imports,
) -> Result<(), AllocError> {
    for number in 0..module.segment_relocs(segment) {
        if let Some(reloc) = module.reloc(segment, number) {
            if reloc.flags & 3 == 1 || reloc.flags & 3 == 2 {
                add_import(alloc, module, mark_of(&reloc), found)?;
            }
        }
    }
    Ok(())
}

/// The modules that are referred to.
fn list_references(rt: &HostRuntime, module: &Module) -> io::Result<()> {
    println!(rt; "\nmodule references: {}", module.head().references)?;
    for number in 1..=module.head().references {
        if let Some(name) = module.reference(number) {
            println!(rt; "  {number:>5} {}", Shown(name))?;
        }
    }
    Ok(())
}

/// Adds the imports of all segments.
fn gather_all(alloc: Global, module: &Module, found: &mut Imports) -> Result<(), AllocError> {
    for segment in 1..=module.segment_count() {
        gather(alloc, module, segment, found)?;
    }
    Ok(())
}

/// The imports that are gathered.
fn list_found(rt: &HostRuntime, found: &Imports) -> io::Result<()> {
    println!(rt; "\nimports: {}", found.len() as u64)?;
    for (text, count) in found.iter() {
        println!(rt; "  {count:>5} {text}")?;
    }
    Ok(())
}

/// The modules that are referred to, and the imports, with the number of records that want each.
pub fn list_imports(rt: &HostRuntime, module: &Module) -> io::Result<()> {
    list_references(rt, module)?;
    let mut found = BTreeMap::new(rt.alloc());
    match gather_all(rt.alloc(), module, &mut found) {
        Ok(()) => list_found(rt, &found),
        Err(_) => Err(unallocated()),
    }
}
