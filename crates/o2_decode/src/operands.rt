// The operands of an instruction, from its prefixes, its ModRM byte and the bytes after that.

ghost use Rattle.std.specs.Prelude.{◌≡◌, ◌+◌, ◌<◌, ◌≤◌, length};
ghost use Rattle.o2_isa.specs.Operands.{is_direct, disp_len, imm_len, tail_len, word_at, sign_extended, sreg_of, default_segment, disp_of, ea_of, register, arg_of, source_segment, rep_of, instr_of};

use o2_isa::{Arg, Ea, Instr, Prefixes, Rep, Repeat, Row, Slot, Sreg, Width};

#[inline(always)]
fn is_direct_offset(modrm: u8) -> bool
    ensures { result ≡ is_direct modrm }
{
    modrm / 64 == 0 && modrm % 8 == 6
}

#[inline(always)]
pub fn displacement_len(modrm: u8) -> usize
    ensures { result ≡ disp_len modrm }
{
    if is_direct_offset(modrm) {
        return 2;
    }
    match modrm / 64 {
        1 => 1,
        2 => 2,
        _ => 0,
    }
}

#[inline(always)]
fn immediate_len(slot: Slot) -> usize
    ensures value { result ≡ imm_len slot }
    ensures small { result ≤ 4 }
{
    match slot {
        Slot::ImmByte | Slot::ImmSigned => 1,
        Slot::ImmWord | Slot::Offset => 2,
        Slot::FarImm => 4,
        _ => 0,
    }
}

/// How many bytes the displacement and the immediates of the row have.
#[inline(always)]
pub fn rest_len(row: &Row, modrm: u8) -> usize
    ensures value { result ≡ tail_len (record { row = row.now; modrm = modrm }) }
    ensures small { result ≤ 14 }
{
    displacement_len(modrm)
        + immediate_len(row.left)
        + immediate_len(row.right)
        + immediate_len(row.third)
}

#[inline(always)]
fn word(bytes: &[u8], at: usize) -> u16
    requires { at + 2 ≤ length bytes.now }
    ensures { result ≡ word_at bytes.now at }
{
    bytes[at] as u16 + 256 * (bytes[at + 1] as u16)
}

#[inline(always)]
fn extended(b: u8) -> u16
    ensures { result ≡ sign_extended b }
{
    if b < 128 { b as u16 } else { b as u16 + 65280 }
}

#[inline(always)]
fn segment_register(n: u8) -> Sreg
    ensures { result ≡ sreg_of n }
{
    match n {
        0 => Sreg::Es,
        1 => Sreg::Cs,
        2 => Sreg::Ss,
        _ => Sreg::Ds,
    }
}

#[inline(always)]
fn base_segment(modrm: u8) -> Sreg
    ensures { result ≡ default_segment modrm }
{
    let rm = modrm % 8;
    if rm == 2 || rm == 3 || (rm == 6 && !is_direct_offset(modrm)) {
        Sreg::Ss
    } else {
        Sreg::Ds
    }
}

#[inline(always)]
fn displacement(modrm: u8, tail: &[u8]) -> u16
    requires { disp_len modrm ≤ length tail.now }
    ensures { result ≡ disp_of modrm tail.now }
{
    match displacement_len(modrm) {
        0 => 0,
        1 => extended(tail[0]),
        _ => word(tail, 0),
    }
}

#[inline(always)]
fn address(prefixes: &Prefixes, modrm: u8, tail: &[u8]) -> Ea
    requires { disp_len modrm ≤ length tail.now }
    ensures { result ≡ ea_of prefixes.now modrm tail.now }
{
    Ea {
        base: if is_direct_offset(modrm) {
            8
        } else {
            modrm % 8
        },
        disp: displacement(modrm, tail),
        seg: prefixes.seg.unwrap_or(base_segment(modrm)),
    }
}

#[inline(always)]
fn register_of(width: Width, n: u8) -> Arg
    ensures { result ≡ register width n }
{
    match width {
        Width::Byte => Arg::R8(n),
        Width::Word => Arg::R16(n),
    }
}

#[inline(always)]
fn operand(slot: Slot, width: Width, prefixes: &Prefixes, modrm: u8, tail: &[u8], at: usize) -> Arg
    requires disp { disp_len modrm ≤ length tail.now }
    requires room { at + imm_len slot ≤ length tail.now }
    ensures { result ≡ arg_of slot width prefixes.now modrm tail.now at }
{
    match slot {
        Slot::Absent => Arg::No,
        Slot::ModRm => {
            if modrm / 64 == 3 {
                register_of(width, modrm % 8)
            } else {
                Arg::M(address(prefixes, modrm, tail))
            }
        }
        Slot::Memory => Arg::M(address(prefixes, modrm, tail)),
        Slot::Register => register_of(width, modrm / 8 % 8),
        Slot::Segment | Slot::SegmentNotCs => Arg::S(segment_register(modrm / 8 % 8)),
        Slot::Fixed(n) => register_of(width, n),
        Slot::FixedByte(n) => Arg::R8(n),
        Slot::FixedWord(n) => Arg::R16(n),
        Slot::FixedSegment(s) => Arg::S(s),
        Slot::ImmByte => Arg::Imm(tail[at] as u16),
        Slot::ImmWord => Arg::Imm(word(tail, at)),
        Slot::ImmSigned => Arg::Imm(extended(tail[at])),
        Slot::FarImm => Arg::Far(word(tail, at), word(tail, at + 2)),
        Slot::Offset => Arg::M(Ea {
            base: 8,
            disp: word(tail, at),
            seg: prefixes.seg.unwrap_or(Sreg::Ds),
        }),
        Slot::Constant(n) => Arg::Imm(n),
        Slot::Source => Arg::No,
    }
}

#[inline(always)]
fn segment_of_source(prefixes: &Prefixes, row: &Row) -> Sreg
    ensures { result ≡ source_segment prefixes.now row.now }
{
    if matches!(row.left, Slot::Source) || matches!(row.right, Slot::Source) {
        prefixes.seg.unwrap_or(Sreg::Ds)
    } else {
        Sreg::Ds
    }
}

#[inline(always)]
fn repeat_of(repeat: Repeat, rep: Rep) -> Rep
    ensures { result ≡ rep_of repeat rep }
{
    match repeat {
        Repeat::Never => Rep::No,
        Repeat::WhileZero => rep,
        Repeat::Always => match rep {
            Rep::No => Rep::No,
            _ => Rep::Equal,
        },
    }
}

/// The instruction of the prefixes, the row, its ModRM byte (0 where it takes none) and the bytes after that.
#[inline(always)]
pub fn instruction(prefixes: &Prefixes, row: &Row, modrm: u8, tail: &[u8]) -> Instr
    requires { length tail.now ≡ tail_len (record { row = row.now; modrm = modrm }) }
    ensures { result ≡ instr_of prefixes.now (record { row = row.now; modrm = modrm }) tail.now }
{
    let first = displacement_len(modrm);
    let second = first + immediate_len(row.left);
    let third = second + immediate_len(row.right);
    Instr {
        op: row.op,
        width: row.width,
        left: operand(row.left, row.width, prefixes, modrm, tail, first),
        right: operand(row.right, row.width, prefixes, modrm, tail, second),
        third: operand(row.third, row.width, prefixes, modrm, tail, third),
        seg: segment_of_source(prefixes, row),
        rep: repeat_of(row.repeat, prefixes.rep),
        lock: prefixes.lock,
    }
}
