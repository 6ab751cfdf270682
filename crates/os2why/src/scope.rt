// What imports are looked up in: the list of ordinals of a setting, its libraries, and the one that answers for DOSCALLS.
ghost use Rattle.std.specs.Prelude.{◌≡◌, ◌≤◌, IfSome, find, option_map};
ghost use Rattle.o2_dynlink.specs.Listed.{is_library_named};
ghost use Rattle.os2why.specs.Imports.{by_name, by_ordinal, gives_name, gives_ordinal, library_for};

use crate::services::{in_table, is_system, service_called, service_in};
use o2_base::SERVICE_COUNT;
use o2_conf::Conf;
use o2_image::Module;
use o2_ne::is_same_name;

/// What imports are looked up in.
#[derive(Clone, Copy)]
pub struct Scope<'a> {
    /// The setting, which has a list of ordinals, and may name the library that answers for DOSCALLS.
    pub conf: &'a Conf,
    /// The modules that the machine file lists; none without a machine file.
    pub modules: &'a [Module],
}

/// The service that an import by an ordinal is of, where it is of one.
pub fn service_by_ordinal(scope: &Scope, name: &[u8], ordinal: u16) -> Option<u16>
    ensures within { IfSome result (λ n. (1 ≤ n) × (n ≤ SERVICE_COUNT)) }
    ensures exact { result ≡ by_ordinal scope.now.conf.now.ordinals name.now ordinal }
{
    if is_system(name) {
        in_table(service_in(scope.conf.ordinals.as_slice(), ordinal))
    } else {
        None
    }
}

/// The service that an import by a name is of, where it is of one.
pub fn service_by_name(name: &[u8], symbol: &[u8]) -> Option<u16>
    ensures within { IfSome result (λ n. (1 ≤ n) × (n ≤ SERVICE_COUNT)) }
    ensures exact { result ≡ by_name name.now symbol.now }
{
    if is_system(name) {
        service_called(symbol)
    } else {
        None
    }
}

/// Whether a module is a library of this name.
fn is_library_named(module: &Module, name: &[u8]) -> bool
    ensures { result ≡ is_library_named name.now «module».now }
{
    module.is_library() && is_same_name(module.name().as_slice(), name)
}

/// The first library of this name.
fn library_named<'a>(modules: &'a [Module], name: &[u8]) -> Option<&'a Module>
    ensures { option_map (λ m. m.now) result ≡ find (is_library_named name.now) modules.now }
{
    modules.iter().find(|m| is_library_named(m, name))
}

/// The library that imports from a module of this name are looked up in.
fn library_for<'a>(scope: &Scope<'a>, name: &[u8]) -> Option<&'a Module>
    ensures { option_map (λ m. m.now) result
        ≡ library_for scope.now.conf.now.shim scope.now.modules.now name.now }
{
    if !is_system(name) {
        return library_named(scope.modules, name);
    }
    match &scope.conf.shim {
        Some(shim) => library_named(scope.modules, shim.as_slice()),
        None => None,
    }
}

/// Whether a library gives an import by an ordinal.
pub fn gives_ordinal(scope: &Scope, name: &[u8], ordinal: u16) -> bool
    ensures { result
        ≡ gives_ordinal scope.now.conf.now.shim scope.now.modules.now name.now ordinal }
{
    match library_for(scope, name) {
        Some(library) => library.entries().get(ordinal).is_some(),
        None => false,
    }
}

/// Whether a library gives an import by a name.
pub fn gives_name(scope: &Scope, name: &[u8], symbol: &[u8]) -> bool
    ensures { result
        ≡ gives_name scope.now.conf.now.shim scope.now.modules.now name.now symbol.now }
{
    let Some(library) = library_for(scope, name) else {
        return false;
    };
    match library.names().ordinal(symbol) {
        Some(ordinal) => library.entries().get(ordinal).is_some(),
        None => false,
    }
}
