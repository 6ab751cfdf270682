// Which libraries the references of a module reach, directly or through libraries.
ghost use Rattle.std.specs.Prelude.{◌≡◌, ◌+◌, ◌≤◌, ◌<◌, ◌&&◌, ◌||◌, false, get_or, length, map, All, IfOk};
ghost use Rattle.std.specs.List.{list_any};
ghost use Rattle.o2_image.specs.Getters.{nth_list};
ghost use Rattle.o2_image.specs.ImageList.{Exists};
ghost use Rattle.o2_dynlink.specs.Marks.{both_any, next_marks};
ghost use Rattle.o2_dynlink.specs.Reached.{answers, leads_to, libraries_of, marked, reaches, refers};

use crate::listed::{is_doscalls, is_named, reference_from_0};
use o2_base::{Bytes, NoMemory};
use o2_image::Module;
use o2_ne::is_same_name;
use std::alloc::Global;

/// Whether the module is the one that answers for the services' module, as the machine file names it.
pub fn answers(shim: &Option<Bytes>, module: &Module) -> bool
    ensures { result ≡ answers shim.now «module».now }
{
    match shim {
        Some(name) => is_named(module, name.as_slice()),
        None => false,
    }
}

// Whether a reference to a name is to the library of this name.
fn leads_to(own: &[u8], also: bool, name: &[u8]) -> bool
    ensures { result ≡ leads_to own.now also name.now }
{
    also && is_doscalls(name) || is_same_name(own, name)
}

// Whether a reference of the module is to the library of this name.
fn has_reference(module: &Module, own: &[u8], also: bool) -> bool
    ensures { result ≡ list_any (leads_to own.now also) «module».now.references }
{
    module.is_runnable();
    for k in 0..module.head().references {
        if leads_to(own, also, reference_from_0(module, k)) {
            return true;
        }
    }
    false
}

// Whether a reference of the module is to this library.
fn refers(shim: &Option<Bytes>, module: &Module, library: &Module) -> bool
    ensures { result ≡ refers shim.now «module».now library.now }
{
    library.is_library() && has_reference(module, library.name().as_slice(), answers(shim, library))
}

// Which of the modules are libraries that the module refers to.
fn referred(
    alloc: Global,
    shim: &Option<Bytes>,
    module: &Module,
    modules: &[Module],
) -> Result<Vec<bool>, NoMemory>
    ensures { IfOk result (λ v. v.items ≡ map (refers shim.now «module».now) modules.now) }
{
    let marks = modules
        .iter()
        .map(|l| refers(shim, module, l))
        .collect(alloc)?;
    Ok(marks)
}

// Which of the modules refer to a library.
fn referrers(
    alloc: Global,
    shim: &Option<Bytes>,
    library: &Module,
    modules: &[Module],
) -> Result<Vec<bool>, NoMemory>
    ensures { IfOk result (λ v. v.items ≡ map (λ m. refers shim.now m library.now) modules.now) }
{
    let marks = modules
        .iter()
        .map(|m| refers(shim, m, library))
        .collect(alloc)?;
    Ok(marks)
}

// For each module, which of the modules refer to it.
pub(crate) fn columns_of(
    alloc: Global,
    shim: &Option<Bytes>,
    modules: &[Module],
) -> Result<Vec<Vec<bool>>, NoMemory>
    ensures { IfOk result (λ v. map (λ c. c.items) v.items ≡ map (λ l. map (λ m. refers shim.now m l) modules.now) modules.now) }
{
    let mut columns = Vec::new(alloc);
    for library in modules {
        columns.push(referrers(alloc, shim, library, modules)?)?;
    }
    Ok(columns)
}

// Whether the place of this index is marked in both.
fn both_at(a: &[bool], b: &[bool], i: usize) -> bool
    requires { i < length a.now }
    ensures { result ≡ (get_or a.now i false && get_or b.now i false) }
{
    match b.get(i) {
        Some(mark) => a[i] && *mark,
        None => false,
    }
}

// Whether a place is marked in both.
fn both_any(a: &[bool], b: &[bool]) -> bool
    ensures { result ≡ both_any a.now b.now }
{
    for i in 0..a.len() {
        if both_at(a, b, i) {
            return true;
        }
    }
    false
}

// The column of a number from 1.
fn column_at(columns: &[Vec<bool>], n: usize) -> &[bool]
    requires { Exists columns.now n }
    ensures { result.now ≡ nth_list (map (λ c. c.items) columns.now) n }
{
    columns[n - 1].as_slice()
}

// Whether the place of this index is marked first, or referred to by one that is marked.
fn next_mark(first: &[bool], columns: &[Vec<bool>], marks: &[bool], i: usize) -> bool
    requires first { i < length first.now }
    requires columns { i < length columns.now }
    ensures { result ≡ (get_or first.now i false || both_any marks.now (nth_list (map (λ c. c.items) columns.now) (i + 1))) }
{
    first[i] || both_any(marks, column_at(columns, i + 1))
}

// Those marked first, and those that a marked one refers to.
fn next_marks(
    alloc: Global,
    first: &[bool],
    columns: &[Vec<bool>],
    marks: &[bool],
) -> Result<Vec<bool>, NoMemory>
    requires { length first.now ≡ length columns.now }
    ensures { IfOk result (λ v. v.items ≡ next_marks first.now (map (λ c. c.items) columns.now) marks.now) }
{
    let mut next = Vec::new(alloc);
    for i in 0..first.len() {
        next.push(next_mark(first, columns, marks, i))?;
    }
    Ok(next)
}

// The libraries that a module reaches, as marks.
fn reached_marks(
    alloc: Global,
    shim: &Option<Bytes>,
    modules: &[Module],
    columns: &[Vec<bool>],
    module: &Module,
) -> Result<Vec<bool>, NoMemory>
    requires { map (λ c. c.items) columns.now ≡ map (λ l. map (λ m. refers shim.now m l) modules.now) modules.now }
    ensures { IfOk result (λ v. v.items ≡ map (reaches shim.now modules.now (length modules.now) «module».now) modules.now) }
{
    let first = referred(alloc, shim, module, modules)?;
    let mut marks = referred(alloc, shim, module, modules)?;
    for _ in 0..modules.len() {
        marks = next_marks(alloc, first.as_slice(), columns, marks.as_slice())?;
    }
    Ok(marks)
}

// The places that are marked.
fn places_of(alloc: Global, marks: &[bool]) -> Result<Vec<u16>, NoMemory>
    requires { length marks.now ≤ 64 }
    ensures { IfOk result (λ v. v.items ≡ marked 1 marks.now) }
{
    let mut places = Vec::new(alloc);
    for (i, mark) in marks.iter().enumerate() {
        if *mark {
            places.push(i as u16 + 1)?;
        }
    }
    Ok(places)
}

// The places of the libraries that the module at a place reaches.
fn libraries_of(
    alloc: Global,
    shim: &Option<Bytes>,
    modules: &[Module],
    columns: &[Vec<bool>],
    place: u16,
) -> Result<Vec<u16>, NoMemory>
    requires few { length modules.now ≤ 64 }
    requires exists { Exists modules.now place }
    requires columns { map (λ c. c.items) columns.now ≡ map (λ l. map (λ m. refers shim.now m l) modules.now) modules.now }
    ensures { IfOk result (λ v. v.items ≡ libraries_of shim.now modules.now place) }
{
    let module = &modules[usize::from(place) - 1];
    let marks = reached_marks(alloc, shim, modules, columns, module)?;
    places_of(alloc, marks.as_slice())
}

// Those of the modules at these places.
pub(crate) fn libraries_of_all(
    alloc: Global,
    modules: &[Module],
    shim: &Option<Bytes>,
    places: &[u16],
) -> Result<Vec<Vec<u16>>, NoMemory>
    requires few { length modules.now ≤ 64 }
    requires exists { All (Exists modules.now) places.now }
    ensures { IfOk result (λ v. map (λ l. l.items) v.items ≡ map (libraries_of shim.now modules.now) places.now) }
{
    let columns = columns_of(alloc, shim, modules)?;
    let mut lists = Vec::new(alloc);
    for place in places {
        lists.push(libraries_of(alloc, shim, modules, columns.as_slice(), *place)?)?;
    }
    Ok(lists)
}
