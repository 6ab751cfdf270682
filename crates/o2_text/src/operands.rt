// The texts of operands.
ghost use Rattle.std.specs.Prelude.{◌≡◌, ◌<◌, ◌++◌, OnOk};
ghost use Rattle.o2_text.specs.Text.{digit as glyph, number, address, byte_register, word_register, segment_register, uses_stack, override_text, base_text};
ghost use Rattle.o2_text.specs.Text.{displacement_text, place_text, memory_text, has_no_size, size_text, number_text, operand_text};
ghost use Rattle.o2_text.specs.Text.{behind};

use o2_base::NoMemory;
use o2_isa::{Arg, Ea, Op, Sreg, Width};

/// Adds bytes.
pub fn put(out: &mut Vec<u8>, text: &[u8]) -> Result<(), NoMemory>
    ensures { OnOk result (out.new.items ≡ out.old.items ++ text.now) }
{
    out.extend_from_slice(text)?;
    Ok(())
}

fn digit(d: u16) -> u8
    requires { d < 16 }
    ensures { result ≡ glyph d }
{
    let d = d as u8;
    if d < 10 { b'0' + d } else { b'A' + (d - 10) }
}

/// Adds an offset in code, or a selector.
#[tactic(auto, unfolding(crate::specs::Text::address))]
fn put_address(out: &mut Vec<u8>, n: u16) -> Result<(), NoMemory>
    ensures { OnOk result (out.new.items ≡ out.old.items ++ address n) }
{
    let text = [
        b'0',
        b'x',
        digit(n / 4096),
        digit(n / 256 % 16),
        digit(n / 16 % 16),
        digit(n % 16),
    ];
    put(out, &text)
}

/// Adds a number.
#[tactic(auto, unfolding(crate::specs::Text::number))]
fn put_number(out: &mut Vec<u8>, n: u16) -> Result<(), NoMemory>
    ensures { OnOk result (out.new.items ≡ out.old.items ++ number n) }
{
    if n < 256 {
        let text = [b'0', b'x', digit(n / 16), digit(n % 16)];
        return put(out, &text);
    }
    let text = [
        b'0',
        b'x',
        digit(n / 4096),
        digit(n / 256 % 16),
        digit(n / 16 % 16),
        digit(n % 16),
    ];
    put(out, &text)
}

fn byte_register(n: u8) -> &'static [u8]
    ensures { result.now ≡ byte_register n }
{
    match n {
        0 => b"al",
        1 => b"cl",
        2 => b"dl",
        3 => b"bl",
        4 => b"ah",
        5 => b"ch",
        6 => b"dh",
        _ => b"bh",
    }
}

fn word_register(n: u8) -> &'static [u8]
    ensures { result.now ≡ word_register n }
{
    match n {
        0 => b"ax",
        1 => b"cx",
        2 => b"dx",
        3 => b"bx",
        4 => b"sp",
        5 => b"bp",
        6 => b"si",
        _ => b"di",
    }
}

fn segment_register(s: Sreg) -> &'static [u8]
    ensures { result.now ≡ segment_register s }
{
    match s {
        Sreg::Es => b"es",
        Sreg::Cs => b"cs",
        Sreg::Ss => b"ss",
        Sreg::Ds => b"ds",
    }
}

fn stack_base(base: u8) -> bool
    ensures { result ≡ uses_stack base }
{
    base == 2 || base == 3 || base == 6
}

fn override_name(stack: bool, s: Sreg) -> &'static [u8]
    ensures { result.now ≡ override_text stack s }
{
    match s {
        Sreg::Es => b"es:",
        Sreg::Cs => b"cs:",
        Sreg::Ss => { if stack { b"" } else { b"ss:" } }
        Sreg::Ds => { if stack { b"ds:" } else { b"" } }
    }
}

fn base_name(base: u8) -> &'static [u8]
    ensures { result.now ≡ base_text base }
{
    match base {
        0 => b"bx+si",
        1 => b"bx+di",
        2 => b"bp+si",
        3 => b"bp+di",
        4 => b"si",
        5 => b"di",
        6 => b"bp",
        7 => b"bx",
        _ => b"",
    }
}

/// Adds what is added to a base.
#[tactic(auto, using(std::proofs::Common::append_assoc))]
fn put_displacement(out: &mut Vec<u8>, d: u16) -> Result<(), NoMemory>
    ensures { OnOk result (out.new.items ≡ out.old.items ++ displacement_text d) }
{
    if d == 0 {
        return Ok(());
    }
    if d < 32768 {
        put(out, b"+")?;
        put_number(out, d)
    } else {
        put(out, b"-")?;
        put_number(out, (65536 - d as u32) as u16)
    }
}

#[tactic(auto, using(std::proofs::Common::append_assoc))]
fn put_place(out: &mut Vec<u8>, base: u8, d: u16) -> Result<(), NoMemory>
    ensures { OnOk result (out.new.items ≡ out.old.items ++ place_text base d) }
{
    if base < 8 {
        put(out, base_name(base))?;
        put_displacement(out, d)
    } else {
        put_address(out, d)
    }
}

/// Adds an operand in memory.
#[tactic(auto, using(std::proofs::Common::append_assoc))]
fn put_memory(out: &mut Vec<u8>, ea: &Ea) -> Result<(), NoMemory>
    ensures { OnOk result (out.new.items ≡ out.old.items ++ memory_text ea.now) }
{
    put(out, b"[")?;
    put(out, override_name(stack_base(ea.base), ea.seg))?;
    put_place(out, ea.base, ea.disp)?;
    put(out, b"]")
}

fn is_sizeless(op: Op) -> bool
    ensures { result ≡ has_no_size op }
{
    matches!(
        op,
        Op::OpLea
            | Op::OpLes
            | Op::OpLds
            | Op::OpBound
            | Op::OpSgdt
            | Op::OpSidt
            | Op::OpLgdt
            | Op::OpLidt
    )
}

/// What stands before an operand in memory.
pub fn size(op: Op, width: Width) -> &'static [u8]
    ensures { result.now ≡ size_text op width }
{
    if matches!(op, Op::OpCallFarAt | Op::OpJmpFarAt) {
        return b"far ";
    }
    if is_sizeless(op) {
        return b"";
    }
    match width {
        Width::Byte => b"byte ",
        Width::Word => b"word ",
    }
}

/// Adds a number, or where a jump goes.
fn put_immediate(out: &mut Vec<u8>, relative: bool, next: u16, n: u16) -> Result<(), NoMemory>
    ensures { OnOk result (out.new.items ≡ out.old.items ++ number_text relative next n) }
{
    if relative {
        put_address(out, ((next as u32 + n as u32) % 65536) as u16)
    } else {
        put_number(out, n)
    }
}

/// Adds an operand.
#[tactic(auto, using(std::proofs::Common::append_assoc))]
fn put_operand(
    out: &mut Vec<u8>,
    relative: bool,
    size: &[u8],
    next: u16,
    operand: &Arg,
) -> Result<(), NoMemory>
    ensures { OnOk result (out.new.items
        ≡ out.old.items ++ operand_text relative size.now next operand.now) }
{
    match operand {
        Arg::No => Ok(()),
        Arg::R8(n) => put(out, byte_register(*n)),
        Arg::R16(n) => put(out, word_register(*n)),
        Arg::S(s) => put(out, segment_register(*s)),
        Arg::M(ea) => {
            put(out, size)?;
            put_memory(out, ea)
        }
        Arg::Imm(n) => put_immediate(out, relative, next, *n),
        Arg::Far(offset, selector) => {
            put_address(out, *selector)?;
            put(out, b":")?;
            put_address(out, *offset)
        }
    }
}

/// Adds an operand behind another byte, where there is one.
#[tactic(auto, using(std::proofs::Common::append_assoc))]
pub fn put_behind(
    out: &mut Vec<u8>,
    byte: u8,
    relative: bool,
    size: &[u8],
    next: u16,
    operand: &Arg,
) -> Result<(), NoMemory>
    ensures { OnOk result (out.new.items
        ≡ out.old.items ++ behind byte relative size.now next operand.now) }
{
    match operand {
        Arg::No => Ok(()),
        _ => {
            put(out, &[byte])?;
            put_operand(out, relative, size, next, operand)
        }
    }
}
