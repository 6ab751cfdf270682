// Linking: its checks in their order, and what it gives.
ghost use Rattle.std.specs.Prelude.{◌≡◌, ◌+◌, ◌≤◌, ◌<◌, [], get_or, length, map, All, IfOk, OnOk, Ok, Some};
ghost use Rattle.std.specs.List.{zip};
ghost use Rattle.o2_conf.specs.Environments.{environment_bytes};
ghost use Rattle.o2_ne.specs.Steps.{Gives, over};
ghost use Rattle.o2_image.specs.ImageList.{Exists};
ghost use Rattle.o2_dynlink.specs.Imports.{each, gather};
ghost use Rattle.o2_dynlink.specs.Linking.{at_place, linked_of, module_step, module_targets, name_step, outcome, program_of, region_step, shim_of, shim_or};
ghost use Rattle.o2_dynlink.specs.Listed.{library_named};
ghost use Rattle.o2_dynlink.specs.Outcome.{AllFit, Fitting};
ghost use Rattle.o2_dynlink.specs.Selectors.{base_at, bases_of};

use crate::environments::environments_of;
use crate::fault::LinkFault;
use crate::gathering::targets_of;
use crate::imports::Scope;
use crate::linked::Linked;
use crate::listed::{is_any_named, is_doscalls, library_named, lost_reference, module_named};
use crate::reached::libraries_of_all;
use crate::refusals::{no_reference, no_selector, no_shim, not_listed, two_modules};
use crate::selectors::{base_at, bases_of};
use o2_base::{Bytes, Fail, ModuleFault, NoMemory};
use o2_conf::{Conf, Process};
use o2_image::{Images, Module, Resolved};
use std::alloc::Global;

// The name of the module at an index is neither that of the services' module nor of an earlier one.
#[tactic(auto, unfolding(crate::specs::Linking::name_step))]
fn check_name(
    alloc: Global,
    modules: &[Module],
    module: &Module,
    i: u16,
) -> Result<(), Fail<LinkFault>>
    requires index { i < length modules.now }
    requires few { length modules.now ≤ 64 }
    ensures { Gives (λ _. i + 1) result (name_step modules.now «module».now i) }
{
    let name = module.name().as_slice();
    let earlier = &modules[..usize::from(i)];
    if is_doscalls(name) || is_any_named(earlier, name) {
        return two_modules(alloc, i + 1, name);
    }
    Ok(())
}

// Each name is its module's own.
fn check_names(alloc: Global, modules: &[Module]) -> Result<(), Fail<LinkFault>>
    requires { length modules.now ≤ 64 }
    ensures { Gives (λ _. length modules.now) result (over (name_step modules.now) modules.now 0) }
{
    let mut i = 0u16;
    for module in modules {
        check_name(alloc, modules, module, i)?;
        i += 1;
    }
    Ok(())
}

// The place of the library of this name, which is to answer for the services' module.
fn shim_named(
    alloc: Global,
    modules: &[Module],
    name: &[u8],
) -> Result<Option<u16>, Fail<LinkFault>>
    requires { length modules.now ≤ 64 }
    ensures { Gives (λ p. p) result (shim_or name.now (library_named modules.now name.now)) }
{
    match library_named(modules, name) {
        Some(place) => Ok(Some(place)),
        None => no_shim(alloc, name),
    }
}

// The place of the library that answers for the services' module, if the machine file names one.
fn shim_of(
    alloc: Global,
    modules: &[Module],
    shim: &Option<Bytes>,
) -> Result<Option<u16>, Fail<LinkFault>>
    requires { length modules.now ≤ 64 }
    ensures { Gives (λ p. p) result (shim_of modules.now shim.now) }
{
    match shim {
        Some(name) => shim_named(alloc, modules, name.as_slice()),
        None => Ok(None),
    }
}

// Each reference of a module is to a listed library or to the services' module, and each import is defined.
#[tactic(auto, unfolding(crate::specs::Linking::module_targets))]
fn module_targets(
    alloc: Global,
    scope: &Scope,
    base: u16,
    module: &Module,
) -> Result<Resolved, Fail<ModuleFault>>
    requires few { length scope.now.modules.now ≤ 64 }
    requires same { length scope.now.bases.now ≡ length scope.now.modules.now }
    ensures { Gives (λ r. r) result (module_targets scope.now.modules.now scope.now.bases.now scope.now.shim scope.now.ordinals.now base «module».now) }
{
    if let Some(name) = lost_reference(scope.modules, module) {
        return no_reference(alloc, name);
    }
    targets_of(alloc, scope, base, module)
}

// The same for the module at a place.
fn targets_at(
    alloc: Global,
    scope: &Scope,
    place: u16,
    module: &Module,
) -> Result<Resolved, Fail<LinkFault>>
    requires few { length scope.now.modules.now ≤ 64 }
    requires same { length scope.now.bases.now ≡ length scope.now.modules.now }
    requires exists { Exists scope.now.modules.now place }
    ensures { Gives (λ r. r) result (at_place place (module_targets scope.now.modules.now scope.now.bases.now scope.now.shim scope.now.ordinals.now (base_at scope.now.bases.now place) «module».now)) }
{
    match module_targets(alloc, scope, base_at(scope.bases, place), module) {
        Ok(targets) => Ok(targets),
        Err(Fail::NoMemory) => Err(Fail::NoMemory),
        Err(Fail::Bad(fault)) => Err(Fail::Bad(LinkFault { file: place, fault })),
    }
}

// The targets of one module more.
#[tactic(auto, unfolding(crate::specs::Linking::module_step))]
fn add_module(
    alloc: Global,
    scope: &Scope,
    module: &Module,
    found: &mut Vec<Resolved>,
) -> Result<(), Fail<LinkFault>>
    requires few { length scope.now.modules.now ≤ 64 }
    requires same { length scope.now.bases.now ≡ length scope.now.modules.now }
    requires more { length found.old.items < length scope.now.modules.now }
    ensures step { Gives (λ _. found.new.items) result (module_step scope.now.modules.now scope.now.bases.now scope.now.shim scope.now.ordinals.now «module».now found.old.items) }
    ensures count { OnOk result (length found.new.items ≡ length found.old.items + 1) }
{
    let place = found.len() as u16 + 1;
    let targets = targets_at(alloc, scope, place, module)?;
    found.push(targets)?;
    Ok(())
}

// The targets of all modules.
fn all_targets(alloc: Global, scope: &Scope) -> Result<Vec<Resolved>, Fail<LinkFault>>
    requires few { length scope.now.modules.now ≤ 64 }
    requires same { length scope.now.bases.now ≡ length scope.now.modules.now }
    ensures exact { Gives (λ v. v.items) result (over (module_step scope.now.modules.now scope.now.bases.now scope.now.shim scope.now.ordinals.now) scope.now.modules.now []) }
    ensures fitting { IfOk result (λ v. Fitting scope.now.modules.now v.items) }
{
    let mut found = Vec::new(alloc);
    for module in scope.modules {
        add_module(alloc, scope, module, &mut found)?;
    }
    Ok(found)
}

// The place of the module that a process runs.
fn program_of(alloc: Global, modules: &[Module], process: &Process) -> Result<u16, Fail<LinkFault>>
    requires { length modules.now ≤ 64 }
    ensures exact { Gives (λ p. p) result (program_of modules.now process.now) }
    ensures exists { IfOk result (Exists modules.now) }
{
    match module_named(modules, process.module.as_slice()) {
        Some(place) => Ok(place),
        None => not_listed(alloc, process.module.as_slice()),
    }
}

// That of one process more.
fn add_program(
    alloc: Global,
    modules: &[Module],
    process: &Process,
    found: &mut Vec<u16>,
) -> Result<(), Fail<LinkFault>>
    requires { length modules.now ≤ 64 }
    ensures exact { Gives (λ _. found.new.items) result (gather (program_of modules.now) process.now found.old.items) }
    ensures count { OnOk result (length found.new.items ≡ length found.old.items + 1) }
    ensures exist { All (Exists modules.now) found.old.items → OnOk result (All (Exists modules.now) found.new.items) }
{
    let place = program_of(alloc, modules, process)?;
    found.push(place)?;
    Ok(())
}

// Those of all processes.
fn programs_of(
    alloc: Global,
    modules: &[Module],
    processes: &[Process],
) -> Result<Vec<u16>, Fail<LinkFault>>
    requires { length modules.now ≤ 64 }
    ensures exact { Gives (λ v. v.items) result (each (program_of modules.now) processes.now) }
    ensures count { IfOk result (λ v. length v.items ≡ length processes.now) }
    ensures exist { IfOk result (λ v. All (Exists modules.now) v.items) }
{
    let mut found = Vec::new(alloc);
    for process in processes {
        add_program(alloc, modules, process, &mut found)?;
    }
    Ok(found)
}

// The segments of the module at an index lie in the table.
#[tactic(auto, unfolding(crate::specs::Linking::region_step))]
fn check_region(
    alloc: Global,
    bases: &[u16],
    module: &Module,
    i: u16,
) -> Result<(), Fail<LinkFault>>
    requires index { i < length bases.now }
    requires few { length bases.now ≤ 64 }
    ensures step { Gives (λ _. i + 1) result (region_step bases.now «module».now i) }
    ensures fits { OnOk result (get_or bases.now i 0 + length «module».now.segments ≤ 8191) }
{
    let end = u32::from(base_at(bases, i + 1)) + u32::from(module.segment_count());
    if end > 8191 {
        return no_selector(alloc, i + 1, module.name().as_slice());
    }
    Ok(())
}

// The segments of all modules lie in the table.
fn check_regions(alloc: Global, modules: &[Module], bases: &[u16]) -> Result<(), Fail<LinkFault>>
    requires few { length modules.now ≤ 64 }
    requires same { length bases.now ≡ length modules.now }
    ensures steps { Gives (λ _. length modules.now) result (over (region_step bases.now) modules.now 0) }
    ensures fit { OnOk result (AllFit modules.now bases.now) }
{
    let mut i = 0u16;
    for module in modules {
        check_region(alloc, bases, module, i)?;
        i += 1;
    }
    Ok(())
}

// Modules with their targets.
fn pairs_of(
    alloc: Global,
    modules: Vec<Module>,
    targets: Vec<Resolved>,
) -> Result<Vec<(Module, Resolved)>, NoMemory>
    ensures { IfOk result (λ v. v.items ≡ zip modules.items targets.items) }
{
    let first = modules.into_iter();
    let second = targets.into_iter();
    let pairs = first.zip(second).collect(alloc)?;
    Ok(pairs)
}

// The outcome, where every check passed.
fn assemble(
    alloc: Global,
    modules: Vec<Module>,
    targets: Vec<Resolved>,
    programs: Vec<u16>,
    bases: Vec<u16>,
    conf: &Conf,
) -> Result<Linked, NoMemory>
    requires few { length modules.items ≤ 64 }
    requires bases { bases.items ≡ bases_of modules.items }
    requires fit { AllFit modules.items bases.items }
    requires fitting { Fitting modules.items targets.items }
    requires count { length programs.items ≡ length conf.now.process }
    requires exist { All (Exists modules.items) programs.items }
    ensures { IfOk result (λ l. l ≡ outcome modules.items conf.now targets.items programs.items) }
{
    let libraries = libraries_of_all(alloc, modules.as_slice(), &conf.shim, programs.as_slice())?;
    let environments = environments_of(alloc, conf.process.as_slice())?;
    let images = Images::new(pairs_of(alloc, modules, targets)?, environments);
    Ok(Linked::new(images, bases, programs, libraries))
}

/// Links the modules of a machine file, at most 64: what the imports of each lead to, and which modules each process gets;
/// or the first refusal. No module may have the name of the services' module or of an earlier one. The name of `shim` must be
/// that of a listed library. Then for each module each of its references must be to the services' module or to a listed library, and each of its imports must be defined. The
/// module of each process must be listed, and the libraries' segments must fit the shared region, indexes 4096 to 8191.
/// Names are compared with ASCII letters folded.
#[tactic(auto, unfolding(crate::specs::Linking::linked_of))]
pub fn link(alloc: Global, modules: Vec<Module>, conf: &Conf) -> Result<Linked, Fail<LinkFault>>
    requires { length modules.items ≤ 64 }
    ensures exact { Gives (λ l. l) result (linked_of modules.items conf.now) }
    ensures environments { IfOk result (λ l. l.images.environments ≡ map environment_bytes conf.now.process) }
{
    check_names(alloc, modules.as_slice())?;
    let bases = bases_of(alloc, modules.as_slice())?;
    let scope = Scope {
        modules: modules.as_slice(),
        bases: bases.as_slice(),
        ordinals: &conf.ordinals,
        shim: shim_of(alloc, modules.as_slice(), &conf.shim)?,
    };
    let targets = all_targets(alloc, &scope)?;
    let programs = programs_of(alloc, modules.as_slice(), conf.process.as_slice())?;
    check_regions(alloc, modules.as_slice(), bases.as_slice())?;
    Ok(assemble(alloc, modules, targets, programs, bases, conf)?)
}
