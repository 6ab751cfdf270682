// Numbers in a file, and which of its bytes are there.
ghost use Rattle.std.specs.Prelude.{◌≡◌, ◌+◌, ◌≤◌, [], ◌∷◌, length};
ghost use Rattle.o2_ne.specs.Checks.{all_hold, bytes_in};
ghost use Rattle.o2_ne.specs.Words.{word_at, long_at, lies_in};

use byteorder::{ByteOrder, LittleEndian};
use o2_base::{Fail, ModuleFault, NeFault, SegFault};

/// The word at a place, the low byte first.
pub fn u16_at(file: &[u8], at: usize) -> u16
    requires { at + 2 ≤ length file.now }
    ensures { result ≡ word_at file.now at }
{
    LittleEndian::read_u16(&file[at..])
}

/// The four-byte number at a place, the lowest byte first.
pub fn u32_at(file: &[u8], at: usize) -> u32
    requires { at + 4 ≤ length file.now }
    ensures { result ≡ long_at file.now at }
{
    LittleEndian::read_u32(&file[at..])
}

/// Whether the `len` bytes from a place are all in the file.
pub fn lies_in(file: &[u8], at: u32, len: u32) -> bool
    ensures { result ≡ lies_in file.now at len }
{
    len == 0 || at as usize + len as usize <= file.len()
}

/// Bytes that are wanted aren't all in the file.
#[derive(Clone, Copy, Debug, PartialEq, Eq)]
pub struct Missing {
    /// The place of the first of them that the file lacks.
    pub at: u32,
}

impl From<Missing> for NeFault {
    ghost use Rattle.std.specs.Prelude.{◌≡◌};
    ghost use Rattle.o2_base.specs.declared.faults.NeFault.TheVariants.{Truncated};

    ghost from_gives = { λ missing fault. fault ≡ Truncated missing.at };

    fn from(missing: Missing) -> NeFault {
        NeFault::Truncated(missing.at)
    }
}

impl From<Missing> for Fail<NeFault> {
    ghost use Rattle.std.specs.Prelude.{◌≡◌};
    ghost use Rattle.o2_base.specs.declared.faults.NeFault.TheVariants.{Truncated};
    ghost use Rattle.o2_base.specs.declared.memory.Fail.TheVariants.{Bad};

    ghost from_gives = { λ missing fail. fail ≡ Bad (Truncated missing.at) };

    fn from(missing: Missing) -> Fail<NeFault> {
        Fail::Bad(NeFault::Truncated(missing.at))
    }
}

impl From<Missing> for SegFault {
    ghost use Rattle.std.specs.Prelude.{◌≡◌};
    ghost use Rattle.o2_base.specs.declared.faults.SegFault.TheVariants.{Truncated};

    ghost from_gives = { λ missing fault. fault ≡ Truncated missing.at };

    fn from(missing: Missing) -> SegFault {
        SegFault::Truncated(missing.at)
    }
}

impl From<Missing> for ModuleFault {
    ghost use Rattle.std.specs.Prelude.{◌≡◌};
    ghost use Rattle.o2_base.specs.declared.faults.ModuleFault.TheVariants.{Truncated};

    ghost from_gives = { λ missing fault. fault ≡ Truncated missing.at };

    fn from(missing: Missing) -> ModuleFault {
        ModuleFault::Truncated(missing.at)
    }
}

/// The file has the `len` bytes from a place; else the first of them that it lacks. Each reader's own fault is made of the
/// answer by `?`.
pub fn need(file: &[u8], at: u32, len: u32) -> Result<(), Missing>
    requires { length file.now ≤ 4194304 }
    ensures { result ≡ all_hold (bytes_in (λ p. record { at = p }) file.now at len ∷ []) }
{
    if lies_in(file, at, len) {
        return Ok(());
    }
    Err(Missing {
        at: at.max(file.len() as u32),
    })
}
