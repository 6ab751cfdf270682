// What executables import, and who has it.
ghost use Rattle.std.specs.Prelude.{◌≡◌, ◌≤◌, [], Some};
ghost use Rattle.o2_dynlink.specs.Listed.{is_doscalls};
ghost use Rattle.os2why.specs.Imports.{by_ordinal, by_name, gives_name, gives_ordinal, is_there, label_or, ordinal_label, name_label, state_of};
ghost use Rattle.os2why.specs.Wordings.{wording_text};

use crate::scope::{Scope, gives_name, gives_ordinal, service_by_name, service_by_ordinal};
use crate::services::{call_name, is_system};
use crate::wording::{Part, Wording};
use o2_base::{SERVICE_COUNT, is_built};
use o2_image::Module;
use o2_ne_segs::Reloc;
use std::alloc::{AllocError, Global};
use std::collections::{BTreeMap, BTreeSet};

/// Who has an import.
#[derive(Clone, Copy, PartialEq, Eq, PartialOrd, Ord)]
pub enum State {
    /// Nobody, and it isn't from DOSCALLS.
    Missing,
    /// Nobody, and a library that answers for DOSCALLS could have it.
    Wanted,
    /// A library of the name that it is imported from.
    Given,
    /// The library that answers for DOSCALLS.
    Shim,
    /// The machine: it is a service that is built.
    Built,
}

/// An import, as MODULE.NAME, and who has it.
#[derive(Clone, Copy)]
struct Import<'a> {
    label: Wording<'a>,
    state: State,
}

/// Imports by who has them and by their texts, with how many files have each.
pub type Tally = BTreeMap<(State, String), u64>;

/// Who has an import: it is a built service, it is from DOSCALLS, a library gives it.
fn who_has(is_there: bool, is_system: bool, is_given: bool) -> State
    ensures { result ≡ state_of is_there is_system is_given }
{
    if is_there {
        State::Built
    } else if is_given {
        if is_system { State::Shim } else { State::Given }
    } else if is_system {
        State::Wanted
    } else {
        State::Missing
    }
}

/// Whether this is a service that is built.
fn is_there(service: Option<u16>) -> bool
    ensures { result ≡ is_there service }
{
    match service {
        Some(number) => is_built(number),
        None => false,
    }
}

/// The text of a service's import.
fn service_label(number: u16) -> Wording<'static>
    requires low { 1 ≤ number }
    requires high { number ≤ SERVICE_COUNT }
    ensures { wording_text result ≡ label_or (Some number) [] }
{
    Wording::behind("DOSCALLS.", Part::Name(call_name(number)))
}

/// The text of an import by an ordinal.
fn ordinal_label<'a>(scope: &Scope, name: &'a [u8], ordinal: u16) -> Wording<'a>
    ensures { wording_text result
        ≡ label_or (by_ordinal scope.now.conf.now.ordinals name.now ordinal) (ordinal_label name.now ordinal) }
{
    match service_by_ordinal(scope, name, ordinal) {
        Some(number) => service_label(number),
        None => Wording::pair("", Part::Name(name), ".", Part::Number(ordinal as u64)),
    }
}

/// The text of an import by a name.
fn name_label<'a>(name: &'a [u8], symbol: &'a [u8]) -> Wording<'a>
    ensures { wording_text result
        ≡ label_or (by_name name.now symbol.now) (name_label name.now symbol.now) }
{
    match service_by_name(name, symbol) {
        Some(number) => service_label(number),
        None => Wording::pair("", Part::Name(name), ".", Part::Name(symbol)),
    }
}

/// Who has an import by an ordinal.
fn ordinal_state(scope: &Scope, name: &[u8], ordinal: u16) -> State
    ensures { result ≡ state_of (is_there (by_ordinal scope.now.conf.now.ordinals name.now ordinal))
        (is_doscalls name.now)
        (gives_ordinal scope.now.conf.now.shim scope.now.modules.now name.now ordinal) }
{
    who_has(
        is_there(service_by_ordinal(scope, name, ordinal)),
        is_system(name),
        gives_ordinal(scope, name, ordinal),
    )
}

/// Who has an import by a name.
fn name_state(scope: &Scope, name: &[u8], symbol: &[u8]) -> State
    ensures { result ≡ state_of (is_there (by_name name.now symbol.now))
        (is_doscalls name.now)
        (gives_name scope.now.conf.now.shim scope.now.modules.now name.now symbol.now) }
{
    who_has(
        is_there(service_by_name(name, symbol)),
        is_system(name),
        gives_name(scope, name, symbol),
    )
}

/// What a relocation imports; none where it doesn't.
fn import_of<'a>(scope: &Scope, module: &'a Module, reloc: &Reloc) -> Option<Import<'a>> {
    let Some(name) = module.reference(reloc.first) else {
        return None;
    };
    match reloc.flags & 3 {
        1 => Some(Import {
            label: ordinal_label(scope, name, reloc.second),
            state: ordinal_state(scope, name, reloc.second),
        }),
        2 => match module.imported(reloc.second) {
            Some(symbol) => Some(Import {
                label: name_label(name, symbol),
                state: name_state(scope, name, symbol),
            }),
            None => None,
        },
        _ => None,
    }
}

/// Adds an import.
fn add_import(alloc: Global, import: Import<'_>, found: &mut Tally) -> Result<(), AllocError> {
    let label = import.label;
    let text = format!(in alloc; "{label}")?;
    found.insert((import.state, text), 1)?;
    Ok(())
}

/// What a relocation leads to: the kind of its target, and both target words.
type Target = (u8, u16, u16);

/// Adds the imports of a segment whose targets none of the segments before has, each once.
fn gather_segment(
    alloc: Global,
    scope: &Scope,
    module: &Module,
    segment: u16,
    seen: &mut BTreeSet<Target>,
    found: &mut Tally,
) -> Result<(), AllocError> {
    for number in 0..module.segment_relocs(segment) {
        let Some(reloc) = module.reloc(segment, number) else {
            continue;
        };
        if !seen.insert((reloc.flags & 3, reloc.first, reloc.second))? {
            continue;
        }
        if let Some(import) = import_of(scope, module, &reloc) {
            add_import(alloc, import, found)?;
        }
    }
    Ok(())
}

/// Adds the imports of a module to a tally, each once.
pub fn gather(
    alloc: Global,
    scope: &Scope,
    module: &Module,
    found: &mut Tally,
) -> Result<(), AllocError> {
    let mut seen = BTreeSet::new(alloc);
    for segment in 1..=module.segment_count() {
        gather_segment(alloc, scope, module, segment, &mut seen, found)?;
    }
    Ok(())
}
