// Where the records of a module lead: within it, to a service, or to what a library exports.
ghost use Rattle.std.specs.Prelude.{◌≡◌, ◌-◌, ◌≤◌, ◌<◌, drop, length, map, option_and_then, option_map, slice_get, IfSome, Ok, Some};
ghost use Rattle.o2_ne.specs.Steps.{Gives};
ghost use Rattle.o2_ne.specs.EntryTable.{target_of};
ghost use Rattle.o2_ne.specs.NameTable.{ordinal_of};
ghost use Rattle.o2_image.specs.Getters.{imported_name, nth, nth_list};
ghost use Rattle.o2_image.specs.ImageList.{Exists};
ghost use Rattle.o2_image.specs.Targets.{target_kind};
ghost use Rattle.o2_dynlink.specs.Imports.{base_for, each, exported, exported_as, found_at, gate_of_built, gate_or, gather, import_name, import_ordinal, import_text, imported, internal, service_called, service_with, shim_name, shim_ordinal, target_in};
ghost use Rattle.o2_dynlink.specs.Leads.{lead_of};
ghost use Rattle.o2_dynlink.specs.Memo.{IsMemo};
ghost use Rattle.o2_dynlink.specs.Selectors.{base_at};

use crate::leads::{Lead, lead_at};
use crate::listed::module_at;
use crate::memo::{block_of, known, note};
use crate::refusals::{no_module, no_name, no_ordinal};
use crate::selectors::{base_at, base_or_0, point};
use crate::services::{service_gate, service_gate_called};
use o2_base::{Fail, ModuleFault};
use o2_conf::Ordinals;
use o2_image::Module;
use o2_ne_segs::Reloc;
use std::alloc::Global;

// What imports are looked up in: the listed modules, what is added to the numbers of the segments of each, the ordinals of
// the services, and the place of the library that answers for their module where they don't.
#[derive(Drop)]
pub(crate) struct Scope<'a> {
    pub(crate) modules: &'a [Module],
    pub(crate) bases: &'a [u16],
    pub(crate) ordinals: &'a Ordinals,
    pub(crate) shim: Option<u16>,
}

// An entry of the library at a place, by its ordinal.
fn exported(
    alloc: Global,
    scope: &Scope,
    place: u16,
    name: &[u8],
    ordinal: u16,
) -> Result<(u16, u16), Fail<ModuleFault>>
    requires exists { Exists scope.now.modules.now place }
    requires same { length scope.now.bases.now ≡ length scope.now.modules.now }
    ensures { Gives (λ t. t) result (exported (base_at scope.now.bases.now place) name.now ordinal (nth scope.now.modules.now place)) }
{
    let module = &scope.modules[usize::from(place) - 1];
    match module.entries().get(ordinal) {
        Some(entry) => Ok(point(base_at(scope.bases, place), entry)),
        None => no_ordinal(alloc, name, ordinal),
    }
}

// Where a name of a library leads, by the ordinal that it has.
fn entry_called(module: &Module, text: &[u8]) -> Option<(u8, u16)>
    ensures { result ≡ option_and_then (λ n. target_of n «module».now.entries) (ordinal_of text.now «module».now.names.names) }
{
    match module.names().ordinal(text) {
        Some(ordinal) => module.entries().get(ordinal),
        None => None,
    }
}

// An entry of the library at a place, by its name.
fn exported_as(
    alloc: Global,
    scope: &Scope,
    place: u16,
    name: &[u8],
    text: &[u8],
) -> Result<(u16, u16), Fail<ModuleFault>>
    requires exists { Exists scope.now.modules.now place }
    requires same { length scope.now.bases.now ≡ length scope.now.modules.now }
    ensures { Gives (λ t. t) result (exported_as (base_at scope.now.bases.now place) name.now text.now (nth scope.now.modules.now place)) }
{
    let module = &scope.modules[usize::from(place) - 1];
    match entry_called(module, text) {
        Some(entry) => Ok(point(base_at(scope.bases, place), entry)),
        None => no_name(alloc, name, text),
    }
}

// The library that answers for the services' module, with what is added to the numbers of its segments.
fn shim_of<'a>(scope: &Scope<'a>) -> Option<(u16, &'a Module)>
    ensures module { option_map (λ p. p.1.now) result ≡ found_at scope.now.modules.now scope.now.shim }
    ensures base { IfSome result (λ p. p.0 ≡ base_for scope.now.bases.now scope.now.shim) }
{
    let Some(place) = scope.shim else {
        return None;
    };
    match module_at(scope.modules, place) {
        Some(module) => Some((base_or_0(scope.bases, place), module)),
        None => None,
    }
}

// An entry of that library, by its ordinal.
fn shim_ordinal(alloc: Global, scope: &Scope, ordinal: u16) -> Result<(u16, u16), Fail<ModuleFault>>
    ensures { Gives (λ t. t) result (shim_ordinal scope.now.modules.now scope.now.bases.now scope.now.shim ordinal) }
{
    let Some((base, library)) = shim_of(scope) else {
        return no_ordinal(alloc, b"DOSCALLS", ordinal);
    };
    match library.entries().get(ordinal) {
        Some(entry) => Ok(point(base, entry)),
        None => no_ordinal(alloc, b"DOSCALLS", ordinal),
    }
}

// An entry of that library, by its name.
fn shim_name(alloc: Global, scope: &Scope, text: &[u8]) -> Result<(u16, u16), Fail<ModuleFault>>
    ensures { Gives (λ t. t) result (shim_name scope.now.modules.now scope.now.bases.now scope.now.shim text.now) }
{
    let Some((base, library)) = shim_of(scope) else {
        return no_name(alloc, b"DOSCALLS", text);
    };
    match entry_called(library, text) {
        Some(entry) => Ok(point(base, entry)),
        None => no_name(alloc, b"DOSCALLS", text),
    }
}

// An import of the services' module by ordinal: of a built service, or of the library that answers for them.
fn import_service(
    alloc: Global,
    scope: &Scope,
    ordinal: u16,
) -> Result<(u16, u16), Fail<ModuleFault>>
    ensures { Gives (λ t. t) result (gate_or (gate_of_built (service_with scope.now.ordinals.now ordinal)) (shim_ordinal scope.now.modules.now scope.now.bases.now scope.now.shim ordinal)) }
{
    match service_gate(scope.ordinals, ordinal) {
        Some(gate) => Ok(gate),
        None => shim_ordinal(alloc, scope, ordinal),
    }
}

// The same by a name.
fn import_service_called(
    alloc: Global,
    scope: &Scope,
    text: &[u8],
) -> Result<(u16, u16), Fail<ModuleFault>>
    ensures { Gives (λ t. t) result (gate_or (gate_of_built (service_called text.now)) (shim_name scope.now.modules.now scope.now.bases.now scope.now.shim text.now)) }
{
    match service_gate_called(text) {
        Some(gate) => Ok(gate),
        None => shim_name(alloc, scope, text),
    }
}

// An import by ordinal of the module of a name.
#[tactic(auto, using(crate::proofs::Leading::library_exists))]
fn import_ordinal(
    alloc: Global,
    scope: &Scope,
    lead: Lead,
    name: &[u8],
    ordinal: u16,
) -> Result<(u16, u16), Fail<ModuleFault>>
    requires lead { lead ≡ lead_of scope.now.modules.now name.now }
    requires few { length scope.now.modules.now ≤ 64 }
    requires same { length scope.now.bases.now ≡ length scope.now.modules.now }
    ensures { Gives (λ t. t) result (import_ordinal scope.now.modules.now scope.now.bases.now scope.now.shim scope.now.ordinals.now name.now ordinal) }
{
    match lead {
        Lead::Services => import_service(alloc, scope, ordinal),
        Lead::Library(place) => exported(alloc, scope, place, name, ordinal),
        Lead::Nowhere => no_module(alloc, name),
    }
}

// An import by name of the module of a name.
#[tactic(auto, using(crate::proofs::Leading::library_exists))]
fn import_name(
    alloc: Global,
    scope: &Scope,
    lead: Lead,
    name: &[u8],
    text: &[u8],
) -> Result<(u16, u16), Fail<ModuleFault>>
    requires lead { lead ≡ lead_of scope.now.modules.now name.now }
    requires few { length scope.now.modules.now ≤ 64 }
    requires same { length scope.now.bases.now ≡ length scope.now.modules.now }
    ensures { Gives (λ t. t) result (import_name scope.now.modules.now scope.now.bases.now scope.now.shim name.now text.now) }
{
    match lead {
        Lead::Services => import_service_called(alloc, scope, text),
        Lead::Library(place) => exported_as(alloc, scope, place, name, text),
        Lead::Nowhere => no_module(alloc, name),
    }
}

// A segment of the module itself, or an entry of it.
fn internal(base: u16, module: &Module, reloc: &Reloc) -> (u16, u16)
    ensures { result ≡ internal base «module».now reloc.now }
{
    let segment = (reloc.first % 256) as u8;
    if segment == 255 {
        return match module.entries().get(reloc.second) {
            Some(entry) => point(base, entry),
            None => (0, 0),
        };
    }
    point(base, (segment, reloc.second))
}

// An import by the name at an offset.
fn import_text(
    alloc: Global,
    scope: &Scope,
    module: &Module,
    lead: Lead,
    name: &[u8],
    at: u16,
) -> Result<(u16, u16), Fail<ModuleFault>>
    requires lead { lead ≡ lead_of scope.now.modules.now name.now }
    requires few { length scope.now.modules.now ≤ 64 }
    requires same { length scope.now.bases.now ≡ length scope.now.modules.now }
    ensures { Gives (λ t. t) result (import_text scope.now.modules.now scope.now.bases.now scope.now.shim name.now (imported_name «module».now at)) }
{
    match module.imported(at) {
        Some(text) => import_name(alloc, scope, lead, name, text),
        None => Ok((0, 0)),
    }
}

// The same, and where the name leads is noted.
#[tactic(auto, using(crate::proofs::Known::noted))]
fn import_noted(
    alloc: Global,
    scope: &Scope,
    module: &Module,
    lead: Lead,
    name: &[u8],
    at: u16,
    memo: &mut Vec<Option<(u16, u16)>>,
) -> Result<(u16, u16), Fail<ModuleFault>>
    requires lead { lead ≡ lead_of scope.now.modules.now name.now }
    requires few { length scope.now.modules.now ≤ 64 }
    requires same { length scope.now.bases.now ≡ length scope.now.modules.now }
    requires memo { IsMemo scope.now.modules.now scope.now.bases.now scope.now.shim «module».now memo.old.items }
    ensures exact { Gives (λ t. t) result (import_text scope.now.modules.now scope.now.bases.now scope.now.shim name.now (imported_name «module».now at)) }
    ensures memo { IsMemo scope.now.modules.now scope.now.bases.now scope.now.shim «module».now memo.new.items }
{
    let Some(block) = block_of(lead) else {
        return import_text(alloc, scope, module, lead, name, at);
    };
    let target = import_text(alloc, scope, module, lead, name, at)?;
    note(memo, block, at, target);
    Ok(target)
}

// An import of a reference.
fn imported(
    alloc: Global,
    scope: &Scope,
    module: &Module,
    leads: &[Lead],
    reloc: &Reloc,
    memo: &mut Vec<Option<(u16, u16)>>,
) -> Result<(u16, u16), Fail<ModuleFault>>
    requires leads { leads.now ≡ map (lead_of scope.now.modules.now) «module».now.references }
    requires few { length scope.now.modules.now ≤ 64 }
    requires same { length scope.now.bases.now ≡ length scope.now.modules.now }
    requires memo { IsMemo scope.now.modules.now scope.now.bases.now scope.now.shim «module».now memo.old.items }
    ensures exact { Gives (λ t. t) result (imported scope.now.modules.now scope.now.bases.now scope.now.shim scope.now.ordinals.now «module».now reloc.now (nth «module».now.references reloc.now.first)) }
    ensures memo { IsMemo scope.now.modules.now scope.now.bases.now scope.now.shim «module».now memo.new.items }
{
    let Some(name) = module.reference(reloc.first) else {
        return Ok((0, 0));
    };
    let Some(lead) = lead_at(leads, reloc.first) else {
        return Ok((0, 0));
    };
    if reloc.flags & 3 == 1 {
        return import_ordinal(alloc, scope, lead, name, reloc.second);
    }
    import_noted(alloc, scope, module, lead, name, reloc.second, memo)
}

// Where a record of a module with this base leads.
fn target_in(
    alloc: Global,
    scope: &Scope,
    base: u16,
    module: &Module,
    leads: &[Lead],
    reloc: &Reloc,
    memo: &mut Vec<Option<(u16, u16)>>,
) -> Result<(u16, u16), Fail<ModuleFault>>
    requires leads { leads.now ≡ map (lead_of scope.now.modules.now) «module».now.references }
    requires few { length scope.now.modules.now ≤ 64 }
    requires same { length scope.now.bases.now ≡ length scope.now.modules.now }
    requires memo { IsMemo scope.now.modules.now scope.now.bases.now scope.now.shim «module».now memo.old.items }
    ensures exact { Gives (λ t. t) result (target_in scope.now.modules.now scope.now.bases.now scope.now.shim scope.now.ordinals.now base «module».now reloc.now) }
    ensures memo { IsMemo scope.now.modules.now scope.now.bases.now scope.now.shim «module».now memo.new.items }
{
    match reloc.flags & 3 {
        0 => Ok(internal(base, module, reloc)),
        3 => Ok((0, 0)),
        _ => imported(alloc, scope, module, leads, reloc, memo),
    }
}

// Where an import by a name leads that was looked up before.
fn known_import(
    scope: &Scope,
    module: &Module,
    leads: &[Lead],
    reloc: &Reloc,
    memo: &[Option<(u16, u16)>],
) -> Option<(u16, u16)>
    requires leads { leads.now ≡ map (lead_of scope.now.modules.now) «module».now.references }
    requires memo { IsMemo scope.now.modules.now scope.now.bases.now scope.now.shim «module».now memo.now }
    requires named { target_kind reloc.now ≡ 2 }
    ensures { IfSome result (λ t. imported scope.now.modules.now scope.now.bases.now scope.now.shim scope.now.ordinals.now «module».now reloc.now (nth «module».now.references reloc.now.first) ≡ Ok t) }
{
    let Some(lead) = lead_at(leads, reloc.first) else {
        return None;
    };
    let Some(block) = block_of(lead) else {
        return None;
    };
    known(memo, block, reloc.second)
}

// Where a record leads, if nothing has to be looked up for that.
fn known_target(
    scope: &Scope,
    base: u16,
    module: &Module,
    leads: &[Lead],
    reloc: &Reloc,
    memo: &[Option<(u16, u16)>],
) -> Option<(u16, u16)>
    requires leads { leads.now ≡ map (lead_of scope.now.modules.now) «module».now.references }
    requires memo { IsMemo scope.now.modules.now scope.now.bases.now scope.now.shim «module».now memo.now }
    ensures { IfSome result (λ t. target_in scope.now.modules.now scope.now.bases.now scope.now.shim scope.now.ordinals.now base «module».now reloc.now ≡ Ok t) }
{
    match reloc.flags & 3 {
        0 => Some(internal(base, module, reloc)),
        2 => known_import(scope, module, leads, reloc, memo),
        3 => Some((0, 0)),
        _ => None,
    }
}

// One target more.
fn add_target(
    alloc: Global,
    scope: &Scope,
    base: u16,
    module: &Module,
    leads: &[Lead],
    reloc: &Reloc,
    memo: &mut Vec<Option<(u16, u16)>>,
    found: &mut Vec<(u16, u16)>,
) -> Result<(), Fail<ModuleFault>>
    requires leads { leads.now ≡ map (lead_of scope.now.modules.now) «module».now.references }
    requires few { length scope.now.modules.now ≤ 64 }
    requires same { length scope.now.bases.now ≡ length scope.now.modules.now }
    requires memo { IsMemo scope.now.modules.now scope.now.bases.now scope.now.shim «module».now memo.old.items }
    ensures exact { Gives (λ _. found.new.items) result (gather (target_in scope.now.modules.now scope.now.bases.now scope.now.shim scope.now.ordinals.now base «module».now) reloc.now found.old.items) }
    ensures memo { IsMemo scope.now.modules.now scope.now.bases.now scope.now.shim «module».now memo.new.items }
{
    if let Some(target) = known_target(scope, base, module, leads, reloc, memo.as_slice()) {
        found.push(target)?;
        return Ok(());
    }
    let target = target_in(alloc, scope, base, module, leads, reloc, memo)?;
    found.push(target)?;
    Ok(())
}

// A record of a segment by its number from 0.
fn record_at(module: &Module, seg: u16, k: u16) -> Reloc
    requires { k < length (nth_list «module».now.relocs seg) }
    ensures { slice_get (nth_list «module».now.relocs seg) k ≡ Some result }
{
    match module.reloc(seg, k) {
        Some(reloc) => reloc,
        None => unreachable!(),
    }
}

/// Where the records of a segment lead, from one on.
pub(crate) fn targets_in(
    alloc: Global,
    scope: &Scope,
    base: u16,
    module: &Module,
    leads: &[Lead],
    seg: u16,
    from: u16,
    memo: &mut Vec<Option<(u16, u16)>>,
) -> Result<Vec<(u16, u16)>, Fail<ModuleFault>>
    requires leads { leads.now ≡ map (lead_of scope.now.modules.now) «module».now.references }
    requires few { length scope.now.modules.now ≤ 64 }
    requires same { length scope.now.bases.now ≡ length scope.now.modules.now }
    requires memo { IsMemo scope.now.modules.now scope.now.bases.now scope.now.shim «module».now memo.old.items }
    requires from { from ≤ length (nth_list «module».now.relocs seg) }
    ensures exact { Gives (λ v. v.items) result (each (target_in scope.now.modules.now scope.now.bases.now scope.now.shim scope.now.ordinals.now base «module».now) (drop from (nth_list «module».now.relocs seg))) }
    ensures memo { IsMemo scope.now.modules.now scope.now.bases.now scope.now.shim «module».now memo.new.items }
{
    let mut found = Vec::new(alloc);
    for k in from..module.segment_relocs(seg) {
        let reloc = record_at(module, seg, k);
        add_target(alloc, scope, base, module, leads, &reloc, memo, &mut found)?;
    }
    Ok(found)
}
