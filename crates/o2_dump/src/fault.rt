// Why a file is no core image.

use o2_base::Fail;

/// Why a file is refused as a core image. Faults are found in the order of the bytes.
#[derive(Clone, Copy, Debug, PartialEq, Eq)]
pub enum CoreFault {
    /// One of the first eight bytes is in the file and isn't that of `OS2CORE1` or `OS2CORE2`.
    NotCore,
    /// The file ends within a field. The place is the file's length.
    Truncated(u64),
    /// A segment's entry, a process, an entry of a process or the end mark is bad. The place is its first byte.
    BadEntry(u64),
    /// The file goes on behind the end mark. The place is the first byte behind it.
    TooLong(u64),
}

impl From<CoreFault> for Fail<CoreFault> {
    ghost use Rattle.std.specs.Prelude.{◌≡◌};
    ghost use Rattle.o2_base.specs.declared.memory.Fail.TheVariants.{Bad};

    ghost from_gives = { λ fault fail. fail ≡ Bad fault };

    fn from(fault: CoreFault) -> Fail<CoreFault> {
        Fail::Bad(fault)
    }
}
