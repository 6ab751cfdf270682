// The listed modules, by their names.
ghost use Rattle.std.specs.Prelude.{◌≡◌, ◌<◌, ◌≤◌, [], get_or, length, option_map, position, IfSome};
ghost use Rattle.std.specs.List.{list_any};
ghost use Rattle.o2_image.specs.Getters.{nth};
ghost use Rattle.o2_image.specs.ImageList.{Exists};
ghost use Rattle.o2_dynlink.specs.Listed.{is_doscalls, is_library_named, is_named, library_named, lost_reference, may_refer, module_named};

use o2_image::Module;
use o2_ne::is_same_name;

// Whether the name is that of the services' module.
pub(crate) fn is_doscalls(name: &[u8]) -> bool
    ensures { result ≡ is_doscalls name.now }
{
    is_same_name(name, b"DOSCALLS")
}

pub(crate) fn is_named(module: &Module, name: &[u8]) -> bool
    ensures { result ≡ is_named name.now «module».now }
{
    is_same_name(module.name().as_slice(), name)
}

fn is_library_named(module: &Module, name: &[u8]) -> bool
    ensures { result ≡ is_library_named name.now «module».now }
{
    module.is_library() && is_named(module, name)
}

// Whether one of these modules has this name.
pub(crate) fn is_any_named(modules: &[Module], name: &[u8]) -> bool
    ensures { result ≡ list_any (is_named name.now) modules.now }
{
    modules.iter().any(|m| is_named(m, name))
}

fn is_any_library_named(modules: &[Module], name: &[u8]) -> bool
    ensures { result ≡ list_any (is_library_named name.now) modules.now }
{
    modules.iter().any(|m| is_library_named(m, name))
}

// The index of the first module of this name.
fn module_index(modules: &[Module], name: &[u8]) -> Option<usize>
    ensures value { result ≡ position (is_named name.now) modules.now }
    ensures within { IfSome result (λ i. i < length modules.now) }
{
    modules.iter().position(|m| is_named(m, name))
}

// The place of the first module of this name.
pub(crate) fn module_named(modules: &[Module], name: &[u8]) -> Option<u16>
    requires { length modules.now ≤ 64 }
    ensures value { result ≡ module_named modules.now name.now }
    ensures exists { IfSome result (Exists modules.now) }
{
    match module_index(modules, name) {
        Some(i) => Some(i as u16 + 1),
        None => None,
    }
}

// The index of the first library of this name.
fn library_index(modules: &[Module], name: &[u8]) -> Option<usize>
    ensures value { result ≡ position (is_library_named name.now) modules.now }
    ensures within { IfSome result (λ i. i < length modules.now) }
{
    modules.iter().position(|m| is_library_named(m, name))
}

// The place of the first library of this name.
pub(crate) fn library_named(modules: &[Module], name: &[u8]) -> Option<u16>
    requires { length modules.now ≤ 64 }
    ensures value { result ≡ library_named modules.now name.now }
    ensures exists { IfSome result (Exists modules.now) }
{
    match library_index(modules, name) {
        Some(i) => Some(i as u16 + 1),
        None => None,
    }
}

// The module at a place from 1.
pub(crate) fn module_at(modules: &[Module], place: u16) -> Option<&Module>
    ensures { option_map (λ m. m.now) result ≡ nth modules.now place }
{
    if place == 0 {
        return None;
    }
    modules.get(usize::from(place) - 1)
}

// Whether a reference may be to this name.
fn may_refer(modules: &[Module], name: &[u8]) -> bool
    ensures { result ≡ may_refer modules.now name.now }
{
    is_doscalls(name) || is_any_library_named(modules, name)
}

// The name of a reference by its number from 0.
pub(crate) fn reference_from_0(module: &Module, k: u16) -> &[u8]
    requires exists { k < length «module».now.references }
    requires small { k < 65535 }
    ensures { result.now ≡ get_or «module».now.references k [] }
{
    match module.reference(k + 1) {
        Some(name) => name,
        None => unreachable!(),
    }
}

// The first reference of a module that is neither to the services' module nor to a listed library.
pub(crate) fn lost_reference<'a>(modules: &[Module], module: &'a Module) -> Option<&'a [u8]>
    ensures { option_map (λ b. b.now) result ≡ lost_reference modules.now «module».now }
{
    module.is_runnable();
    for k in 0..module.head().references {
        let name = reference_from_0(module, k);
        if !may_refer(modules, name) {
            return Some(name);
        }
    }
    None
}
