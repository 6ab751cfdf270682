// Arrays of strings.
ghost use Rattle.std.specs.Prelude.{[]};
ghost use Rattle.toml.specs.View.{items_view, view};
ghost use Rattle.o2_conf.specs.Steps.{Gives, each};
ghost use Rattle.o2_conf.specs.Values.{text_step, texts_of};

use crate::table::text;
use o2_base::{Bytes, Fail, Key, MachineFault};
use std::alloc::Global;
use toml::Value;

/// One more string of an array.
fn text_item(
    alloc: Global,
    key: Key,
    value: &Value,
    found: &mut Vec<Bytes>,
) -> Result<(), Fail<MachineFault>>
    ensures { Gives (λ _. found.new.items) result (text_step key (view value.now) found.old.items) }
{
    let Some(text) = text(value) else {
        return Err(Fail::Bad(MachineFault::BadValue(key)));
    };
    found.push(Bytes::from_slice(alloc, text.as_bytes())?)?;
    Ok(())
}

/// The strings of an array.
fn text_items(alloc: Global, key: Key, values: &[Value]) -> Result<Vec<Bytes>, Fail<MachineFault>>
    ensures { Gives (λ v. v.items) result (each (text_step key) (items_view values.now) []) }
{
    let mut found = Vec::new(alloc);
    for value in values {
        text_item(alloc, key, value, &mut found)?;
    }
    Ok(found)
}

/// A value that is an array of strings without zero bytes.
#[tactic(auto, unfolding(crate::specs::Values::texts_of))]
pub fn texts(alloc: Global, key: Key, value: &Value) -> Result<Vec<Bytes>, Fail<MachineFault>>
    ensures { Gives (λ v. v.items) result (texts_of key (view value.now)) }
{
    let Some(array) = value.as_array() else {
        return Err(Fail::Bad(MachineFault::BadValue(key)));
    };
    text_items(alloc, key, array.as_slice())
}
