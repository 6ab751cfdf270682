// The three groups of instructions.
ghost use Rattle.std.specs.Prelude.{◌≡◌};
ghost use Rattle.o2_isa.specs.Meaning.{group_of};

use crate::Op;

/// A group of instructions, each executed by a crate of its own.
#[derive(Clone, Copy, Debug, PartialEq, Eq)]
pub enum Group {
    /// Moves, stack, arithmetic, flags.
    Data,
    /// Transfers, and what is privileged or speaks of selectors.
    Flow,
    /// MOVS, CMPS, STOS, LODS, SCAS.
    Strings,
}

/// The group of an instruction.
#[inline(always)]
#[tactic(auto, unfolding(crate::specs::Meaning::group_of))]
pub fn instruction_group(op: Op) -> Group
    ensures { result ≡ group_of op }
{
    match op {
        Op::OpJo
        | Op::OpJno
        | Op::OpJb
        | Op::OpJae
        | Op::OpJe
        | Op::OpJne
        | Op::OpJbe
        | Op::OpJa
        | Op::OpJs
        | Op::OpJns
        | Op::OpJp
        | Op::OpJnp
        | Op::OpJl
        | Op::OpJge
        | Op::OpJle
        | Op::OpJg
        | Op::OpLoop
        | Op::OpLoope
        | Op::OpLoopne
        | Op::OpJcxz
        | Op::OpJmp
        | Op::OpJmpFar
        | Op::OpJmpAt
        | Op::OpJmpFarAt
        | Op::OpCall
        | Op::OpCallFar
        | Op::OpCallAt
        | Op::OpCallFarAt
        | Op::OpRet
        | Op::OpRetf
        | Op::OpIret
        | Op::OpInt
        | Op::OpIntThree
        | Op::OpInto
        | Op::OpBound
        | Op::OpEnter
        | Op::OpLeave
        | Op::OpLar
        | Op::OpLsl
        | Op::OpVerr
        | Op::OpVerw
        | Op::OpArpl
        | Op::OpEsc
        | Op::OpIn
        | Op::OpOut
        | Op::OpIns
        | Op::OpOuts
        | Op::OpCli
        | Op::OpSti
        | Op::OpHlt
        | Op::OpSldt
        | Op::OpStr
        | Op::OpLldt
        | Op::OpLtr
        | Op::OpSgdt
        | Op::OpSidt
        | Op::OpLgdt
        | Op::OpLidt
        | Op::OpSmsw
        | Op::OpLmsw
        | Op::OpClts => Group::Flow,
        Op::OpMovs | Op::OpCmps | Op::OpStos | Op::OpLods | Op::OpScas => Group::Strings,
        Op::OpAdd
        | Op::OpOr
        | Op::OpAdc
        | Op::OpSbb
        | Op::OpAnd
        | Op::OpSub
        | Op::OpXor
        | Op::OpCmp
        | Op::OpPush
        | Op::OpPop
        | Op::OpDaa
        | Op::OpDas
        | Op::OpAaa
        | Op::OpAas
        | Op::OpInc
        | Op::OpDec
        | Op::OpPusha
        | Op::OpPopa
        | Op::OpImulThree
        | Op::OpTest
        | Op::OpXchg
        | Op::OpMov
        | Op::OpLea
        | Op::OpCbw
        | Op::OpCwd => Group::Data,
        Op::OpWait
        | Op::OpPushf
        | Op::OpPopf
        | Op::OpSahf
        | Op::OpLahf
        | Op::OpRol
        | Op::OpRor
        | Op::OpRcl
        | Op::OpRcr
        | Op::OpShl
        | Op::OpShr
        | Op::OpSar
        | Op::OpLes
        | Op::OpLds
        | Op::OpAam
        | Op::OpAad
        | Op::OpXlat
        | Op::OpCmc
        | Op::OpClc
        | Op::OpStc
        | Op::OpCld
        | Op::OpStd
        | Op::OpNot
        | Op::OpNeg
        | Op::OpMul
        | Op::OpImul
        | Op::OpDiv => Group::Data,
        Op::OpIdiv => Group::Data,
    }
}
