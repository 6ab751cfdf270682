// The segment registers, each with its hidden part.
ghost use Rattle.std.specs.Prelude.{◌≡◌, IfSome};
ghost use Rattle.o2_segbus.specs.Registers.{IsCodeSize, register_in, with_register_in};

use o2_desc::{Access, Descriptor};
use o2_isa::Sreg;

/// A segment register: the selector that programs see, and the descriptor that was loaded with it, which they don't.
#[derive(Clone, Copy, Debug, PartialEq, Eq)]
pub struct SegmentRegister {
    /// The selector.
    pub selector: u16,
    /// The descriptor; the empty one where the selector is null or names nothing.
    pub descriptor: Descriptor,
}

/// The four segment registers.
#[derive(Clone, Copy, Debug, PartialEq, Eq)]
pub struct SegmentRegisters {
    pub es: SegmentRegister,
    pub cs: SegmentRegister,
    pub ss: SegmentRegister,
    pub ds: SegmentRegister,
}

/// The descriptor in a register.
#[inline(always)]
pub(crate) fn descriptor_in(registers: &SegmentRegisters, reg: Sreg) -> &Descriptor
    ensures { result.now ≡ (register_in registers.now reg).descriptor }
{
    match reg {
        Sreg::Es => &registers.es.descriptor,
        Sreg::Cs => &registers.cs.descriptor,
        Sreg::Ss => &registers.ss.descriptor,
        Sreg::Ds => &registers.ds.descriptor,
    }
}

/// The size of the segment in CS by its hidden part, where a selector is that of CS; none where it isn't, or nothing is there.
#[inline(always)]
pub(crate) fn code_size(registers: &SegmentRegisters, sel: u16) -> Option<u32>
    ensures { IfSome result (λ size. IsCodeSize registers.now sel size) }
{
    let code = &registers.cs;
    if sel == code.selector && Access(code.descriptor.access).is_present() {
        Some(code.descriptor.limit as u32 + 1)
    } else {
        None
    }
}

/// Puts a register in the place of the old one.
#[inline(always)]
pub(crate) fn set_register(registers: &mut SegmentRegisters, reg: Sreg, register: SegmentRegister)
    ensures { registers.new ≡ with_register_in registers.old reg register }
{
    match reg {
        Sreg::Es => registers.es = register,
        Sreg::Cs => registers.cs = register,
        Sreg::Ss => registers.ss = register,
        Sreg::Ds => registers.ds = register,
    }
}
