// The processor's registers, and what a load and a step answer.

use o2_base::Selector;

/// The fourteen registers.
#[derive(Clone, Copy, Debug, PartialEq, Eq)]
pub struct Cpu {
    pub ax: u16,
    pub cx: u16,
    pub dx: u16,
    pub bx: u16,
    pub sp: u16,
    pub bp: u16,
    pub si: u16,
    pub di: u16,
    pub ip: u16,
    pub flags: u16,
    pub cs: u16,
    pub ds: u16,
    pub es: u16,
    pub ss: u16,
}

/// What a selector is loaded for, which decides the rules that it must pass.
#[derive(Clone, Copy, Debug, PartialEq, Eq)]
pub enum Purpose {
    /// Into DS or ES.
    DataReg,
    /// Into SS.
    StackReg,
    /// Into CS by a far JMP.
    Jump,
    /// Into CS by a far CALL, or through a call gate.
    Call,
    /// Into CS by a far RET or IRET.
    Return,
}

/// What the rules say of a selector.
#[derive(Clone, Copy, Debug, PartialEq, Eq)]
pub enum Loaded {
    /// They pass, and the segment is present.
    Done,
    /// They pass, and the segment isn't present.
    Miss(Selector),
    /// They refuse it, with this exception and error code.
    Trap(u8, u16),
    /// It names the call gate of this service.
    Gate(u16),
}

/// Why an instruction doesn't complete.
#[derive(Clone, Copy, Debug, PartialEq, Eq)]
pub enum Stop {
    /// It loads a selector whose segment isn't present.
    Miss(Selector),
    /// It ends in this exception, with this error code.
    Trap(u8, u16),
    /// It calls this service, which returns to this IP.
    Gate(u16, u16),
}

/// What a step answers.
#[derive(Clone, Copy, Debug, PartialEq, Eq)]
pub enum Outcome {
    /// It completed.
    Done,
    /// It loads a selector whose segment isn't present; nothing is changed.
    Miss(Selector),
    /// It ends in this exception, with this error code; nothing is changed.
    Trap(u8, u16),
    /// It calls a service; nothing is changed.
    Gate {
        /// The number of the service.
        service: u16,
        /// The IP behind the call.
        next: u16,
    },
}
