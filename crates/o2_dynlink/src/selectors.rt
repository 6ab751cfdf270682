// Which index of the local descriptor table each segment of a module has, and its selector.
ghost use Rattle.std.specs.Prelude.{◌≡◌, ◌+◌, ◌≤◌, length, IfOk};
ghost use Rattle.o2_image.specs.ImageList.{Exists};
ghost use Rattle.o2_dynlink.specs.Selectors.{base_after, base_at, bases_of, point, shared_after};

use o2_base::{NoMemory, Selector};
use o2_image::Module;
use std::alloc::Global;

// How many indexes of the shared region are taken, once the module has its own.
fn shared_after(used: u16, module: &Module) -> u16
    requires { used ≤ 60000 }
    ensures value { result ≡ shared_after used «module».now }
    ensures small { result ≤ used + 254 }
{
    module.is_runnable();
    if module.is_library() {
        used + module.segment_count()
    } else {
        used
    }
}

// What is added to the numbers of the module's segments, where so many shared indexes are taken.
fn base_after(used: u16, module: &Module) -> u16
    requires { used ≤ 60000 }
    ensures { result ≡ base_after used «module».now }
{
    if module.is_library() { 4095 + used } else { 0 }
}

// What is added to the numbers of each module's segments.
pub(crate) fn bases_of(alloc: Global, modules: &[Module]) -> Result<Vec<u16>, NoMemory>
    requires { length modules.now ≤ 64 }
    ensures value { IfOk result (λ v. v.items ≡ bases_of modules.now) }
    ensures same { IfOk result (λ v. length v.items ≡ length modules.now) }
{
    let mut bases = Vec::new(alloc);
    let mut used = 0u16;
    for module in modules {
        bases.push(base_after(used, module))?;
        used = shared_after(used, module);
    }
    Ok(bases)
}

// What is added to the numbers of the segments of the module at a place.
pub(crate) fn base_at(bases: &[u16], place: u16) -> u16
    requires { Exists bases.now place }
    ensures { result ≡ base_at bases.now place }
{
    bases[usize::from(place) - 1]
}

// The same at a place where there may be none.
pub(crate) fn base_or_0(bases: &[u16], place: u16) -> u16
    ensures { result ≡ base_at bases.now place }
{
    match bases.get(usize::from(place.saturating_sub(1))) {
        Some(base) => *base,
        None => 0,
    }
}

// The selector of a segment of the module with this base, and an offset.
pub(crate) fn point(base: u16, entry: (u8, u16)) -> (u16, u16)
    ensures { result ≡ point base entry }
{
    let index = u32::from(base) + u32::from(entry.0);
    (Selector::local(index).0, entry.1)
}
