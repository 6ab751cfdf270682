// Mnemonics that share a meaning but for what they compute.

/// What two operands give.
#[derive(Clone, Copy, Debug, PartialEq, Eq)]
pub enum BinaryOp {
    Add,
    Or,
    Adc,
    Sbb,
    And,
    Sub,
    Xor,
    Cmp,
    Test,
}

/// A bitwise result of two operands; TEST is AND without its result.
#[derive(Clone, Copy, Debug, PartialEq, Eq)]
pub enum LogicOp {
    And,
    Or,
    Xor,
}

/// What one operand gives.
#[derive(Clone, Copy, Debug, PartialEq, Eq)]
pub enum UnaryOp {
    Inc,
    Dec,
    Neg,
    Not,
}

/// A shift or a rotation.
#[derive(Clone, Copy, Debug, PartialEq, Eq)]
pub enum ShiftOp {
    Rol,
    Ror,
    Rcl,
    Rcr,
    Shl,
    Shr,
    Sar,
}

/// A decimal adjustment.
#[derive(Clone, Copy, Debug, PartialEq, Eq)]
pub enum AdjustOp {
    Daa,
    Das,
    Aaa,
    Aas,
    Aam,
    Aad,
}
