// The bits of the flags word.

/// A bit of the flags word. As a number it is the bit's place, from 0 at the lowest.
#[derive(Clone, Copy, Debug, PartialEq, Eq)]
pub enum Flag {
    /// CF: the carry or borrow out of the result.
    Carry = 0,
    /// PF: an even number of ones in the result's low byte.
    Parity = 2,
    /// AF: the carry or borrow out of the low four bits.
    Auxiliary = 4,
    /// ZF: the result is 0.
    Zero = 6,
    /// SF: the result's top bit.
    Sign = 7,
    /// TF: a trap after each instruction.
    Trap = 8,
    /// IF: interrupts are enabled.
    Interrupt = 9,
    /// DF: strings are walked downwards.
    Direction = 10,
    /// OF: the signed result is out of range.
    Overflow = 11,
    /// The low bit of IOPL, the privilege level of input and output.
    PrivilegeLow = 12,
    /// The high bit of IOPL.
    PrivilegeHigh = 13,
    /// NT: a nested task.
    Nested = 14,
}
