// Ranges behind the pointers that a call is given.
ghost use Rattle.std.specs.Prelude.{◌≡◌, ◌+◌, ◌≤◌, ◌==◌, ℕ, Bool, true, false, length};
ghost use Rattle.o2_isa.specs.View.{Filling, is_readable, is_writable, whole, found};
ghost use Rattle.o2_isa.specs.Pointers.{is_ready, range_of, put_at_pointer, KeepsAllButBytes};
ghost use Rattle.o2_bus.specs.Writes.{WritesHeld};
ghost use Rattle.o2_world.specs.Slots.{is_for_writing};
ghost use Rattle.o2_gate.specs.Pointed.{Tells, only, pointer, lies_within, allows};

use o2_base::Selector;
use o2_bus::{Bus, Ranges};
use o2_desc::Access;
use o2_isa::{Loaded, Purpose};

/// What a test of pointers came to.
#[derive(Clone, Copy, Debug, PartialEq, Eq)]
pub enum Pointed {
    /// They are good.
    Good,
    /// One is bad.
    Bad,
    /// The segment behind this selector, which passes, isn't present.
    Missed(Selector),
}

/// Whether a selector names data that can be written.
#[tactic(auto, unfolding(o2_isa::specs::View::rights_at), using(crate::proofs::Access::rights_tell, crate::proofs::Access::no_rights))]
pub(crate) fn names_writable<B: Bus>(bus: &B, sel: Selector) -> bool
    ensures { result ≡ is_for_writing (found (B.view bus.now) sel.0) }
{
    match bus.rights_of(sel) {
        Some(access) => Access(access).is_writable(),
        None => false,
    }
}

/// Whether a range lies in the segment that a selector names, by its size.
#[tactic(auto, unfolding(o2_isa::specs::View::size_at), using(crate::proofs::Access::size_tells, crate::proofs::Access::no_size))]
fn is_within<B: Bus>(bus: &B, sel: Selector, offset: u16, count: u32) -> bool
    requires { count ≤ 131070 }
    ensures { result ≡ lies_within (B.view bus.now) offset count (found (B.view bus.now) sel.0) }
{
    match bus.size_of(sel) {
        Some(size) => offset as u32 + count <= size,
        None => false,
    }
}

/// Whether a range lies in the segment that a selector names, which can be written where bytes are to be written.
fn allows<B: Bus>(bus: &B, writes: bool, sel: Selector, offset: u16, count: u32) -> bool
    requires { count ≤ 131070 }
    ensures { result ≡ allows writes (B.view bus.now) sel.0 offset count }
{
    (!writes || names_writable(bus, sel)) && is_within(bus, sel, offset, count)
}

/// Tests a pointer to bytes that are read, or written: its selector by the rules for loading ES, which a null one doesn't pass;
/// then that the segment is present; then its range, and the right to write. One of no bytes is not looked at.
pub fn test<B: Bus>(bus: &mut B, writes: bool, selector: u16, offset: u16, count: u32) -> Pointed
    requires { count ≤ 131070 }
    ensures tells { Tells (B.view bus.old) (only (pointer writes selector offset count)) result }
    ensures same { B.view bus.new ≡ B.view bus.old }
{
    if count == 0 {
        return Pointed::Good;
    }
    if selector < 4 {
        return Pointed::Bad;
    }
    let sel = Selector(selector);
    match bus.probe(Purpose::DataReg, sel) {
        Loaded::Done => {
            if allows(bus, writes, sel, offset, count) {
                Pointed::Good
            } else {
                Pointed::Bad
            }
        }
        Loaded::Miss(sel) => Pointed::Missed(sel),
        Loaded::Trap(_, _) => Pointed::Bad,
        Loaded::Gate(_) => Pointed::Bad,
    }
}

/// The bytes of a range that was found good.
pub fn range<B: Ranges>(bus: &B, selector: u16, offset: u16, count: u16) -> &[u8]
    requires { is_ready is_readable (B.view bus.now) selector offset count ≡ true }
    ensures value { (f : Filling) → result.now ≡ range_of (B.view bus.now).held (whole f (B.view bus.now)).bytes selector offset count }
    ensures len { length result.now ≡ count }
{
    if count == 0 {
        return &[];
    }
    bus.range(Selector(selector), offset, count)
}

/// Writes bytes behind a pointer that was found good.
pub fn store<B: Ranges>(bus: &mut B, selector: u16, offset: u16, part: &[u8])
    requires { is_ready is_writable (B.view bus.old) selector offset (length part.now) ≡ true }
    ensures bytes { (f : Filling) (n : ℕ) → (whole f (B.view bus.new)).bytes n
        ≡ put_at_pointer (B.view bus.old).held (whole f (B.view bus.old)).bytes selector offset part.now n }
    ensures frame { KeepsAllButBytes (B.view bus.old) (B.view bus.new) }
    ensures writes { WritesHeld (B.view bus.old) (B.view bus.new) }
    ensures ready { (ok : ℕ → Bool) (s o n : ℕ) → is_ready ok (B.view bus.new) s o n ≡ is_ready ok (B.view bus.old) s o n }
{
    if part.len() > 0 {
        bus.put(Selector(selector), offset, part);
    }
}
