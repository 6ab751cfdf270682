// Want of memory, alone and beside a refusal.
ghost use Rattle.std.specs.Prelude.{◌≡◌};
ghost use Rattle.o2_base.specs.declared.memory.Fail.TheVariants as fail;

use std::alloc::{AllocError, AllocFailed};

/// Memory was wanted and not given.
#[derive(Clone, Copy, Debug, PartialEq, Eq)]
pub struct NoMemory;

impl From<AllocError> for NoMemory {
    ghost from_gives = { λ _ _. Unit {0} };

    fn from(_: AllocError) -> Self {
        NoMemory
    }
}

impl<T: Drop> From<AllocFailed<T>> for NoMemory {
    ghost from_gives = { λ _ _. Unit {0} };

    fn from(_: AllocFailed<T>) -> Self {
        NoMemory
    }
}

/// A refusal of the input, or want of memory.
#[derive(Clone, Copy, Debug, Drop, PartialEq, Eq)]
pub enum Fail<F> {
    /// The input is refused, for this reason.
    Bad(F),
    /// Memory was wanted and not given.
    NoMemory,
}

impl<F> From<AllocError> for Fail<F> {
    ghost from_gives = { λ _ e. e ≡ fail.NoMemory };

    fn from(_: AllocError) -> Self {
        Fail::NoMemory
    }
}

impl<F, T: Drop> From<AllocFailed<T>> for Fail<F> {
    ghost from_gives = { λ _ e. e ≡ fail.NoMemory };

    fn from(_: AllocFailed<T>) -> Self {
        Fail::NoMemory
    }
}

impl<F> From<NoMemory> for Fail<F> {
    ghost from_gives = { λ _ e. e ≡ fail.NoMemory };

    fn from(_: NoMemory) -> Self {
        Fail::NoMemory
    }
}
