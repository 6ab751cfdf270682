// What the words of a command say, and whether they are one.
ghost use Rattle.std.specs.Prelude.{◌≡◌, ◌↔◌, ℕ, IsTrue, MatchOption, get_or, nat_lt};
ghost use Rattle.o2_words.specs.Words.{IsCommand, IsCount, IsName, IsOperand, verb_text};
ghost use Rattle.o2_words.specs.declared.words.Verb.{Verb};

/// What a command does.
#[derive(Clone, Copy, Debug, PartialEq, Eq)]
pub enum Verb {
    /// `exe FILE` runs an executable on the machine of the defaults.
    Exe,
    /// `run FILE` runs what a machine file says.
    Run,
    /// `check FILE` reads and links what a machine file names, and runs nothing.
    Check,
    /// `dump FILE` runs what a machine file says, and writes the core image of its machine.
    Dump,
    /// `bench N` runs so many processes of the bench's executable, 1 to 64.
    Bench(u16),
}

/// A command: what it does, and with what.
#[derive(Clone, Copy, Debug, PartialEq, Eq)]
pub struct Command<'a> {
    /// What it does.
    pub verb: Verb,
    /// The name of its file, which isn't empty and has no dash at its front; of a bench the number of its processes.
    pub operand: &'a str,
}

fn is_name(name: &[u8]) -> bool
    ensures { IsTrue result ↔ IsName name.now }
{
    match name {
        [] => false,
        [first, ..] => *first != b'-',
    }
}

// The verb, where the operand is the name of a file.
fn of_file(verb: Verb, name: &[u8]) -> Option<Verb>
    ensures { MatchOption result (IsName name.now → ⊥) (λ v. (v ≡ verb) × IsName name.now) }
{
    if is_name(name) { Some(verb) } else { None }
}

// Whether a word begins with a byte above the digit zero.
fn begins_above_zero(word: &[u8]) -> bool
    ensures { result ≡ nat_lt 48 (get_or word.now 0 0) }
{
    match word {
        [first, ..] => *first > b'0',
        [] => false,
    }
}

/// The number from 1 to 64 that a word is, in decimal without leading zeros.
fn count_of(word: &str) -> Option<u16>
    ensures { MatchOption result ((count : ℕ) → IsCount word.now count → ⊥) (IsCount word.now) }
{
    if !begins_above_zero(word.as_bytes()) {
        return None;
    }
    let Ok(count) = word.parse::<u16>() else {
        return None;
    };
    if count > 64 {
        return None;
    }
    Some(count)
}

// The verb of a bench, where the operand is such a number.
fn of_count(word: &str) -> Option<Verb>
    ensures { MatchOption result ((count : ℕ) → IsCount word.now count → ⊥)
        (λ v. (count : ℕ) × (v ≡ Verb.Bench count) × IsCount word.now count) }
{
    match count_of(word) {
        Some(count) => Some(Verb::Bench(count)),
        None => None,
    }
}

/// The verb that the word stands for, with this operand.
pub(crate) fn verb_of(word: &[u8], operand: &str) -> Option<Verb>
    ensures { MatchOption result ((verb : Verb) → word.now ≡ verb_text verb → IsOperand verb operand.now → ⊥)
        (λ verb. (word.now ≡ verb_text verb) × IsOperand verb operand.now) }
{
    if word == b"exe".as_slice() {
        of_file(Verb::Exe, operand.as_bytes())
    } else if word == b"run".as_slice() {
        of_file(Verb::Run, operand.as_bytes())
    } else if word == b"check".as_slice() {
        of_file(Verb::Check, operand.as_bytes())
    } else if word == b"dump".as_slice() {
        of_file(Verb::Dump, operand.as_bytes())
    } else if word == b"bench".as_slice() {
        of_count(operand)
    } else {
        None
    }
}

/// Whether the words after the program's name are a command. There are two of them. The first is `exe`, `run`, `check` or `dump`,
/// and the second isn't empty and doesn't begin with `-`; or they are `bench` and a decimal number from 1 to 64 without
/// leading zeros. It takes no memory.
pub fn is_command(words: &[String]) -> bool
    ensures { IsTrue result ↔ IsCommand words.now }
{
    match words {
        [verb, operand] => verb_of(verb.as_bytes(), operand.as_str()).is_some(),
        _ => false,
    }
}
