// Where the references of a module lead: to the services' module, or to a listed library. Each is looked up once.
ghost use Rattle.std.specs.Prelude.{◌≡◌, ◌+◌, ◌≤◌, ◌<◌, ◌∷◌, ◌++◌, [], length, map, IfOk, OnOk};
ghost use Rattle.o2_image.specs.Getters.{nth};
ghost use Rattle.o2_dynlink.specs.Leads.{lead_of};

use crate::listed::{is_doscalls, library_named, reference_from_0};
use o2_base::NoMemory;
use o2_image::Module;
use std::alloc::Global;

// Where a name leads.
#[derive(Clone, Copy)]
pub(crate) enum Lead {
    // To the services' module.
    Services,
    // To the library at a place.
    Library(u16),
    // To nothing that is listed.
    Nowhere,
}

// The lead of a name.
fn lead_of(modules: &[Module], name: &[u8]) -> Lead
    requires { length modules.now ≤ 64 }
    ensures { result ≡ lead_of modules.now name.now }
{
    if is_doscalls(name) {
        return Lead::Services;
    }
    match library_named(modules, name) {
        Some(place) => Lead::Library(place),
        None => Lead::Nowhere,
    }
}

// That of one reference more.
fn add_lead(modules: &[Module], name: &[u8], found: &mut Vec<Lead>) -> Result<(), NoMemory>
    requires { length modules.now ≤ 64 }
    ensures { OnOk result (found.new.items ≡ found.old.items ++ lead_of modules.now name.now ∷ []) }
{
    found.push(lead_of(modules, name))?;
    Ok(())
}

// The leads of a module's references.
pub(crate) fn leads_of(
    alloc: Global,
    modules: &[Module],
    module: &Module,
) -> Result<Vec<Lead>, NoMemory>
    requires { length modules.now ≤ 64 }
    ensures { IfOk result (λ v. v.items ≡ map (lead_of modules.now) «module».now.references) }
{
    module.is_runnable();
    let mut found = Vec::new(alloc);
    for k in 0..module.head().references {
        add_lead(modules, reference_from_0(module, k), &mut found)?;
    }
    Ok(found)
}

// The lead of a reference by its number from 1.
pub(crate) fn lead_at(leads: &[Lead], k: u16) -> Option<Lead>
    ensures { result ≡ nth leads.now k }
{
    if k == 0 {
        return None;
    }
    leads.get(usize::from(k) - 1).copied()
}
