// What a row of the table of spellings says, and what reading by the table answers.

use crate::{Instr, Op, Rep, Sreg, Width};

/// Where an operand of a row comes from. In words of the Intel manual's opcode table:
#[derive(Clone, Copy)]
pub enum Slot {
    /// No operand.
    Absent,
    /// E: a register or memory, by mod and rm of the ModRM byte.
    ModRm,
    /// M: memory by the ModRM byte; mod 3 is invalid.
    Memory,
    /// G: a register, by reg of the ModRM byte.
    Register,
    /// S: a segment register, by reg of the ModRM byte; 4 to 7 are invalid.
    Segment,
    /// S, and CS is invalid, too.
    SegmentNotCs,
    /// The register of this number, in the row's width.
    Fixed(u8),
    /// The 8-bit register of this number.
    FixedByte(u8),
    /// The 16-bit register of this number.
    FixedWord(u8),
    /// This segment register.
    FixedSegment(Sreg),
    /// ib: a byte.
    ImmByte,
    /// iw: a word.
    ImmWord,
    /// A byte, sign-extended to a word.
    ImmSigned,
    /// A word with the offset, and a word with the selector.
    FarImm,
    /// Memory at an offset that the instruction gives.
    Offset,
    /// This number.
    Constant(u16),
    /// Memory that isn't written as an operand, at DS:SI or DS:BX: a segment prefix takes the place of DS.
    Source,
}

/// What a repeat prefix does.
#[derive(Clone, Copy)]
pub enum Repeat {
    /// Nothing.
    Never,
    /// Both repeat.
    Always,
    /// They repeat while ZF is 1 (F3) or 0 (F2).
    WhileZero,
}

/// An instruction without its prefixes, its ModRM byte and the bytes after that.
#[derive(Clone, Copy)]
pub struct Row {
    /// The mnemonic.
    pub op: Op,
    /// The width of its operands.
    pub width: Width,
    /// The first operand.
    pub left: Slot,
    /// The second operand.
    pub right: Slot,
    /// The third operand.
    pub third: Slot,
    /// What a repeat prefix does.
    pub repeat: Repeat,
}

/// What the table has for an opcode.
#[derive(Clone, Copy)]
pub enum Entry {
    /// No instruction.
    Unused,
    /// An instruction with no ModRM byte.
    Bare(Row),
    /// An instruction with a ModRM byte.
    Modrm(Row),
    /// A ModRM byte, whose reg tells the instruction in the group of this number.
    Group(u8),
}

/// What the prefixes so far ask for.
#[derive(Clone, Copy)]
pub struct Prefixes {
    /// The last segment prefix.
    pub seg: Option<Sreg>,
    /// The last repeat prefix.
    pub rep: Rep,
    /// Whether a LOCK prefix is among them.
    pub lock: bool,
}

/// What the bytes at a place spell.
#[derive(Clone, Copy, Debug, PartialEq, Eq)]
pub enum Decoded {
    /// An instruction, and how many bytes it has.
    One(Instr, u8),
    /// No instruction begins with these bytes.
    Invalid,
    /// An instruction of more than 10 bytes begins with them.
    TooLong,
    /// They are a proper front of an instruction.
    Need,
}
