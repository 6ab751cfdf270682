// The script: slices and words `discard` in their order.
ghost use Rattle.std.specs.Prelude.{◌≡◌, ◌≤◌, [], length, true, IfOk, option_map};
ghost use Rattle.std.specs.Char.{is_ascii_digit};
ghost use Rattle.std.specs.List.{list_all};
ghost use Rattle.toml.specs.View.{items_view, table_view, view};
ghost use Rattle.o2_conf.specs.Steps.{Gives, each};
ghost use Rattle.o2_conf.specs.Values.{value_at};
ghost use Rattle.o2_conf.specs.Script.{cut_of, is_decimal, number_of, slice_of, word_of, word_step, script_or};

use crate::table::value;
use o2_base::{Fail, Key, MachineFault};
use std::alloc::Global;
use toml::{Table, Value};

/// A word of the script.
#[derive(Clone, Copy, Debug, PartialEq, Eq)]
pub enum Word {
    /// This process (1 to 65,535) does up to so many steps (1 to 4,000,000,000); passed where it is unknown or has ended.
    Slice(u16, u32),
    /// Segments that may be discarded and aren't in use lose their bytes. It takes no step.
    Discard,
}

fn all_digits(text: &[u8]) -> bool
    ensures { result ≡ list_all is_ascii_digit text.now }
{
    text.iter().all(|b| b.is_ascii_digit())
}

/// Whether these are decimal digits without a leading zero.
fn is_decimal(text: &[u8]) -> bool
    ensures { result ≡ is_decimal text.now }
{
    !text.is_empty() && (text.len() == 1 || text[0] != b'0') && all_digits(text)
}

/// The number from 1 to `most` that decimal digits spell.
fn number_of(most: u64, text: &str) -> Result<u64, MachineFault>
    requires { is_decimal text.now ≡ true }
    ensures exact { result ≡ number_of most text.now }
    ensures most { IfOk result (λ n. n ≤ most) }
{
    let Ok(number) = text.parse::<u64>() else {
        return Err(MachineFault::Limit(Key::Script));
    };
    if number < 1 || number > most {
        return Err(MachineFault::Limit(Key::Script));
    }
    Ok(number)
}

/// What stands before the first colon, and what after it.
fn cut(text: &str) -> Option<(&str, &str)>
    ensures { option_map (λ p. (p.0.now, p.1.now)) result ≡ cut_of text.now }
{
    text.split_once(':')
}

/// A slice by its text: first the form of both halves, then their ranges.
fn slice_of(text: &str) -> Result<Word, MachineFault>
    ensures { result ≡ slice_of text.now }
{
    let Some((process, steps)) = cut(text) else {
        return Err(MachineFault::BadValue(Key::Script));
    };
    if !is_decimal(process.as_bytes()) || !is_decimal(steps.as_bytes()) {
        return Err(MachineFault::BadValue(Key::Script));
    }
    let process = number_of(65535, process)?;
    let steps = number_of(4000000000, steps)?;
    Ok(Word::Slice(process as u16, steps as u32))
}

/// A word by its text.
fn word_of(text: &str) -> Result<Word, MachineFault>
    ensures { result ≡ word_of text.now }
{
    if text == "discard" {
        return Ok(Word::Discard);
    }
    slice_of(text)
}

/// One more word of an array.
fn word_item(value: &Value, found: &mut Vec<Word>) -> Result<(), Fail<MachineFault>>
    ensures { Gives (λ _. found.new.items) result (word_step (view value.now) found.old.items) }
{
    let Some(text) = value.as_str() else {
        return Err(Fail::Bad(MachineFault::BadValue(Key::Script)));
    };
    let word = word_of(text).map_err(Fail::Bad)?;
    found.push(word)?;
    Ok(())
}

/// The words of an array.
fn word_items(alloc: Global, values: &[Value]) -> Result<Vec<Word>, Fail<MachineFault>>
    ensures { Gives (λ v. v.items) result (each word_step (items_view values.now) []) }
{
    let mut found = Vec::new(alloc);
    for value in values {
        word_item(value, &mut found)?;
    }
    Ok(found)
}

/// The script of a machine file.
pub fn script(alloc: Global, table: &Table) -> Result<Vec<Word>, Fail<MachineFault>>
    ensures exact { Gives (λ v. v.items) result (script_or (value_at (table_view table.now) Key.Script)) }
    ensures count { IfOk result (λ v. length v.items ≤ 100000) }
{
    let Some(found) = value(table, Key::Script) else {
        return Ok(Vec::new(alloc));
    };
    let Some(array) = found.as_array() else {
        return Err(Fail::Bad(MachineFault::BadValue(Key::Script)));
    };
    let words = word_items(alloc, array.as_slice())?;
    if words.len() > 100000 {
        return Err(Fail::Bad(MachineFault::Limit(Key::Script)));
    }
    Ok(words)
}
