// Why a file is refused.

use crate::Bytes;

/// Which table or limit a refusal of a module is about.
#[derive(Clone, Copy, Debug, PartialEq, Eq)]
pub enum Which {
    /// The header's data mode is none of none, single and multiple.
    DataMode,
    /// The alignment shift is above 15.
    Shift,
    /// The automatic data segment isn't in the segment table, or isn't writable data.
    AutoData,
    /// The module has no name, or one with a line end in it.
    Names,
    /// An entry's segment isn't in the segment table.
    Entries,
    /// The file is longer than 4,194,304 bytes.
    FileLength,
    /// There are more than 254 segments.
    Segments,
    /// There are more than 255 module references.
    References,
    /// A segment is iterated.
    Iterated,
    /// A segment is conforming code or expand-down data.
    Conforming,
    /// A segment has descriptor privilege level 1 or 2.
    Ring,
    /// A segment is a 32-bit one.
    Wide,
    /// Automatic data, stack and heap together pass 65,536 bytes.
    AutoSize,
    /// The entry table has a bundle of constants.
    Constant,
}

/// Why the header or a table of a segmented executable is refused.
#[derive(Clone, Copy, Debug, PartialEq, Eq)]
pub enum NeFault {
    /// The file doesn't begin with `MZ`.
    NotMz,
    /// There is no `NE` where the word at 3Ch says.
    NotNe,
    /// The file ends before a byte that is wanted; the place is the first one that isn't there.
    Truncated(u32),
    /// The target is another operating system.
    NotOs2,
    /// The linker marked the file as having errors.
    LinkErrors,
    /// A table has a value that it can't have.
    BadTable(Which),
    /// The file is outside what is run here.
    OutOfProfile(Which),
}

/// What a segment has that isn't run here.
#[derive(Clone, Copy, Debug, PartialEq, Eq)]
pub enum Part {
    /// Iterated data.
    Iterated,
    /// Conforming code or expand-down data.
    Conforming,
    /// Descriptor privilege level 1 or 2.
    Ring,
    /// 32-bit code or data.
    Wide,
}

/// Why a segment table or a segment's relocations aren't read.
#[derive(Clone, Copy, Debug, PartialEq, Eq)]
pub enum SegFault {
    /// The file ends before a byte that is wanted; the place is the first one that isn't there.
    Truncated(u32),
    /// A segment is outside what is run here.
    OutOfProfile(Part),
    /// Memory was wanted and not given.
    NoMemory,
}

/// Why a module is refused, by its checks, by linking or as it is started.
#[derive(Debug, Drop)]
pub enum ModuleFault {
    /// 1: the file doesn't begin with `MZ`.
    NotMz,
    /// 2: there is no `NE` where the word at 3Ch says.
    NotNe,
    /// 3: the file ends before a byte that is wanted; the place is the first one that isn't there.
    Truncated(u32),
    /// 4: the target is another operating system.
    NotOs2,
    /// 5: the linker marked the file as having errors.
    LinkErrors,
    /// 6: a table has a value that it can't have.
    BadTable(Which),
    /// 7: the file is outside what is run here.
    OutOfProfile(Which),
    /// 8: a place of a relocation leaves the segment's bytes or meets a byte that is patched already (segment from 1,
    /// place).
    BadChain(u16, u16),
    /// 9: a relocation has no such source or target (segment from 1, number from 0).
    BadTarget(u16, u16),
    /// 10: no listed module has this name.
    NoModule(Bytes),
    /// 11: the module (first) has no entry of this ordinal.
    NoOrdinal(Bytes, u16),
    /// 12: the module (first) exports no such name (second).
    NoName(Bytes, Bytes),
    /// 13: the name is that of an earlier module, or of the system's own.
    TwoModules(Bytes),
    /// 14: the segments of this library don't fit the shared region.
    NoSelector(Bytes),
    /// 15: the program has no stack.
    NoStack,
    /// 16: the program has no entry point.
    NoEntry,
    /// 17: there are more segments than the machine file allows.
    NoSegment,
    /// 18: no listed library has this name, which the machine file's `shim` has.
    NoShim(Bytes),
}

/// A key of the machine file, as a refusal names it.
#[derive(Clone, Copy, Debug, PartialEq, Eq)]
pub enum Key {
    /// The file as a whole.
    File,
    /// `memory`.
    Memory,
    /// `swap`.
    Swap,
    /// `segments`.
    Segments,
    /// `budget`.
    Budget,
    /// `quantum`.
    Quantum,
    /// `avail`.
    Avail,
    /// `modules`.
    Modules,
    /// `process`.
    Process,
    /// `process.module`.
    ProcessModule,
    /// `process.arguments`.
    ProcessArguments,
    /// `process.environment`.
    ProcessEnvironment,
    /// `ordinals`.
    Ordinals,
    /// `script`.
    Script,
    /// `shim`.
    Shim,
}

/// Why a machine file is refused.
#[derive(Clone, Copy, Debug, PartialEq, Eq)]
pub enum MachineFault {
    /// 1: the bytes are no TOML document.
    BadToml,
    /// 2: a key that must be there isn't.
    Missing(Key),
    /// 3: a value has another type or form.
    BadValue(Key),
    /// 4: a value is outside its limits.
    Limit(Key),
}
