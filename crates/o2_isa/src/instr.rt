// Instructions of the 80286 and their operands.

/// The mnemonics, in the order of their first opcode. A word ends the name where one mnemonic has several
/// forms that differ in more than their operands: `Three` three operands or interrupt 3, `Far` a far address in the
/// instruction, `At` an address in a register or in memory, `FarAt` a far address in memory.
#[derive(Clone, Copy, Debug, PartialEq, Eq)]
pub enum Op {
    OpAdd,
    OpOr,
    OpAdc,
    OpSbb,
    OpAnd,
    OpSub,
    OpXor,
    OpCmp,
    OpPush,
    OpPop,
    OpDaa,
    OpDas,
    OpAaa,
    OpAas,
    OpInc,
    OpDec,
    OpPusha,
    OpPopa,
    OpBound,
    OpArpl,
    OpImulThree,
    OpIns,
    OpOuts,
    OpJo,
    OpJno,
    OpJb,
    OpJae,
    OpJe,
    OpJne,
    OpJbe,
    OpJa,
    OpJs,
    OpJns,
    OpJp,
    OpJnp,
    OpJl,
    OpJge,
    OpJle,
    OpJg,
    OpTest,
    OpXchg,
    OpMov,
    OpLea,
    OpCbw,
    OpCwd,
    OpCallFar,
    OpWait,
    OpPushf,
    OpPopf,
    OpSahf,
    OpLahf,
    OpMovs,
    OpCmps,
    OpStos,
    OpLods,
    OpScas,
    OpRol,
    OpRor,
    OpRcl,
    OpRcr,
    OpShl,
    OpShr,
    OpSar,
    OpRet,
    OpRetf,
    OpIret,
    OpLes,
    OpLds,
    OpEnter,
    OpLeave,
    OpIntThree,
    OpInt,
    OpInto,
    OpAam,
    OpAad,
    OpXlat,
    OpEsc,
    OpLoopne,
    OpLoope,
    OpLoop,
    OpJcxz,
    OpIn,
    OpOut,
    OpCall,
    OpJmp,
    OpJmpFar,
    OpHlt,
    OpCmc,
    OpClc,
    OpStc,
    OpCli,
    OpSti,
    OpCld,
    OpStd,
    OpNot,
    OpNeg,
    OpMul,
    OpImul,
    OpDiv,
    OpIdiv,
    OpCallAt,
    OpCallFarAt,
    OpJmpAt,
    OpJmpFarAt,
    OpSldt,
    OpStr,
    OpLldt,
    OpLtr,
    OpVerr,
    OpVerw,
    OpSgdt,
    OpSidt,
    OpLgdt,
    OpLidt,
    OpSmsw,
    OpLmsw,
    OpLar,
    OpLsl,
    OpClts,
}

/// How wide the operands are: 8 or 16 bits.
#[derive(Clone, Copy, Debug, PartialEq, Eq)]
pub enum Width {
    Byte,
    Word,
}

/// The segment registers, in the order of their numbers.
#[derive(Clone, Copy, Debug, PartialEq, Eq)]
pub enum Sreg {
    Es,
    Cs,
    Ss,
    Ds,
}

/// The repeat prefix of a string instruction.
#[derive(Clone, Copy, Debug, PartialEq, Eq)]
pub enum Rep {
    /// None.
    No,
    /// REP, or on CMPS and SCAS REPE: while the elements are equal.
    Equal,
    /// REPNE on CMPS and SCAS: while the elements differ.
    NotEqual,
}

/// The address of an operand in memory.
#[derive(Clone, Copy, Debug, PartialEq, Eq)]
pub struct Ea {
    /// 0 to 7: BX+SI, BX+DI, BP+SI, BP+DI, SI, DI, BP, BX; 8: nothing, for a direct offset.
    pub base: u8,
    /// What is added to the base, modulo 65,536.
    pub disp: u16,
    /// The segment: of the last segment prefix, else SS where the base has BP, else DS.
    pub seg: Sreg,
}

/// An operand.
#[derive(Clone, Copy, Debug, PartialEq, Eq)]
pub enum Arg {
    /// None.
    No,
    /// A register of 8 bits, 0 to 7: AL, CL, DL, BL, AH, CH, DH, BH.
    R8(u8),
    /// A register of 16 bits, 0 to 7: AX, CX, DX, BX, SP, BP, SI, DI.
    R16(u8),
    /// A segment register.
    S(Sreg),
    /// Memory.
    M(Ea),
    /// A number in the instruction; of a jump, what is added to the next IP.
    Imm(u16),
    /// A far address in the instruction: the offset, then the selector.
    Far(u16, u16),
}

/// An instruction.
#[derive(Clone, Copy, Debug, PartialEq, Eq)]
pub struct Instr {
    /// The mnemonic.
    pub op: Op,
    /// The width of the operands; `Word` where the mnemonic has none.
    pub width: Width,
    /// The first operand, as the manual writes them: mostly the one that is changed.
    pub left: Arg,
    /// The second operand.
    pub right: Arg,
    /// The third operand, of IMUL alone.
    pub third: Arg,
    /// The segment of the source that MOVS, CMPS, LODS, OUTS and XLAT read: of the last segment prefix, else DS.
    /// DS for all other mnemonics: an operand in memory has its own.
    pub seg: Sreg,
    /// The repeat prefix; `No` for all but string instructions.
    pub rep: Rep,
    /// Whether it has a LOCK prefix.
    pub lock: bool,
}
