// The rules of a load of a segment register, over what the selector names, wherever it is held.
ghost use Rattle.std.specs.Prelude.{◌≡◌};
ghost use Rattle.o2_isa.specs.View.{shown_rights, refused};
ghost use Rattle.o2_bus.specs.Loads.{absent_vector, tested_there, service_at, passes_of, tested as tested_by, called_by, rules_of};

use o2_base::{Selector, is_built};
use o2_desc::Access;
use o2_isa::{Loaded, Purpose};

/// What a load asks of the segment that a selector names.
#[derive(Clone, Copy)]
pub struct LoadTarget {
    /// Its access byte, whose present and accessed bits aren't looked at.
    pub access: u8,
    /// Whether its bytes are in memory.
    pub present: bool,
    /// Whether it was discarded.
    pub discarded: bool,
}

/// The service whose gate a selector names.
#[tactic(auto, unfolding(o2_isa::specs::View::built_gates))]
pub fn service(sel: u16) -> Option<u16>
    ensures { result ≡ service_at sel }
{
    let index = sel / 8;
    if sel / 4 % 2 == 1 || index < 16 || !is_built(index - 16) {
        None
    } else {
        Some(index - 16)
    }
}

/// An access byte with present and accessed read as 1.
pub fn shown(access: u8) -> u8
    ensures { result ≡ shown_rights access }
{
    Access(access).with_present(true).marked().0
}

#[inline(always)]
fn passes(purpose: Purpose, access: u8) -> bool
    ensures { result ≡ passes_of purpose access }
{
    match purpose {
        Purpose::DataReg => Access(access).is_readable(),
        Purpose::StackReg => Access(access).is_writable(),
        Purpose::Jump => Access(access).is_code(),
        Purpose::Call => Access(access).is_code(),
        Purpose::Return => Access(access).is_code(),
    }
}

fn refuses(sel: u16) -> Loaded
    ensures { result ≡ refused sel }
{
    Loaded::Trap(13, sel - sel % 4)
}

// The exception of a load of a segment that isn't there.
fn vector_of(purpose: Purpose) -> u8
    ensures { result ≡ absent_vector purpose }
{
    match purpose {
        Purpose::DataReg => 11,
        Purpose::StackReg => 12,
        Purpose::Jump => 11,
        Purpose::Call => 11,
        Purpose::Return => 11,
    }
}

// The test of presence, with the exception of a discarded segment in its place.
#[inline(always)]
fn test_there(purpose: Purpose, sel: u16, found: LoadTarget) -> Loaded
    ensures { result ≡ tested_there purpose sel found }
{
    if found.discarded {
        return Loaded::Trap(vector_of(purpose), sel - sel % 4);
    }
    if found.present {
        Loaded::Done
    } else {
        Loaded::Miss(Selector(sel))
    }
}

#[inline(always)]
fn tested(purpose: Purpose, sel: u16, target: Option<LoadTarget>) -> Loaded
    ensures { result ≡ tested_by purpose sel target }
{
    match target {
        Some(found) => {
            if !passes(purpose, found.access) {
                return refuses(sel);
            }
            test_there(purpose, sel, found)
        }
        None => refuses(sel),
    }
}

fn far_call(sel: u16, target: Option<LoadTarget>) -> Loaded
    ensures { result ≡ called_by sel target }
{
    match target {
        Some(_) => tested(Purpose::Call, sel, target),
        None => match service(sel) {
            Some(service) => Loaded::Gate(service),
            None => refuses(sel),
        },
    }
}

/// The load rules, and then the present test, for a selector and the segment that it names.
#[inline(always)]
pub fn load_by(purpose: Purpose, sel: u16, target: Option<LoadTarget>) -> Loaded
    ensures { result ≡ rules_of purpose sel target }
{
    if sel < 4 {
        return match purpose {
            Purpose::DataReg => Loaded::Done,
            _ => Loaded::Trap(13, 0),
        };
    }
    let outer = sel % 4 == 3;
    match purpose {
        Purpose::StackReg if !outer => refuses(sel),
        Purpose::Return if !outer => refuses(sel),
        Purpose::DataReg => tested(Purpose::DataReg, sel, target),
        Purpose::StackReg => tested(Purpose::StackReg, sel, target),
        Purpose::Jump => tested(Purpose::Jump, sel, target),
        Purpose::Call => far_call(sel, target),
        Purpose::Return => tested(Purpose::Return, sel, target),
    }
}
