// What the machine's code and the definitions of the boundless machine share.

/// How far a process is.
#[derive(Clone, Copy, Debug, PartialEq, Eq)]
pub enum State {
    /// It goes on.
    Live,
    /// It ended by DosExit with this code.
    Exited(u16),
    /// It ended by this exception.
    Trapped(u8),
}

/// An argument of a call, by what it is for. One that is no pointer is a word.
#[derive(Clone, Copy, Debug, PartialEq, Eq)]
pub enum Slot {
    /// A word.
    Word,
    /// Two words that are one number of 32 bits, the low one pushed last.
    Long,
    /// A pointer to bytes that are read, as many as the word behind it says.
    Reads,
    /// A pointer to bytes that are written, at most as many as the word behind it says.
    Writes,
    /// A pointer to a text that a zero byte ends.
    Text,
    /// A pointer behind which a word is written.
    ToWord,
    /// A pointer behind which four bytes are written, the low word first.
    ToLong,
    /// A pointer behind which so many words are written.
    ToWords(u16),
    /// A word: the selector of a segment that has a heap at its front, whose bytes are read and written. One that isn't that of data that
    /// can be written is answered by an error, and is no bad pointer.
    Heap,
}

/// An argument of a call, or a value that a call wrote, as the report prints it.
#[derive(Clone, Copy, Debug, PartialEq, Eq)]
pub enum Argument {
    /// A word, as four hexadecimal digits.
    Word(u16),
    /// Two words that are one number, the low one second, as eight hexadecimal digits.
    Long(u16, u16),
    /// A far pointer: selector and offset.
    Far(u16, u16),
}

/// The name of a segment that all processes share: code, read-only data, or data that is one for all.
#[derive(Clone, Copy, Debug, PartialEq, Eq)]
pub struct Made {
    /// The place of its module in the machine file, from 1.
    pub place: u16,
    /// Its number in the module, from 1.
    pub number: u16,
    /// The name.
    pub name: u32,
}
