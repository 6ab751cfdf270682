// What a key of a table says: an integer or a string.
ghost use Rattle.std.specs.Prelude.{◌≡◌, ◌≤◌, option_map, IfOk};
ghost use Rattle.toml.specs.View.{table_view, view};
ghost use Rattle.o2_conf.specs.Values.{has_zero, integer_at, integer_of, text_of, value_at};

use crate::keys;
use o2_base::{Key, MachineFault};
use toml::{Table, Value};

/// The value at a key.
pub fn value<'a>(table: &'a Table, key: Key) -> Option<&'a Value>
    ensures { option_map (λ v. view v.now) result ≡ value_at (table_view table.now) key }
{
    table.get(keys::name(key))
}

/// A value that is an integer from `low` to `high`.
pub fn integer(value: &Value, key: Key, low: u32, high: u32) -> Result<u32, MachineFault>
    ensures exact { result ≡ integer_of key low high (view value.now) }
    ensures within { IfOk result (λ n. (low ≤ n) × (n ≤ high)) }
{
    let Some(number) = value.as_integer() else {
        return Err(MachineFault::BadValue(key));
    };
    if number < i64::from(low) || number > i64::from(high) {
        return Err(MachineFault::Limit(key));
    }
    Ok(number as u32)
}

/// The integer from `low` to `high` at a key, which must be there.
pub fn integer_in(table: &Table, key: Key, low: u32, high: u32) -> Result<u32, MachineFault>
    ensures exact { result ≡ integer_at (table_view table.now) key low high }
    ensures within { IfOk result (λ n. (low ≤ n) × (n ≤ high)) }
{
    let Some(found) = value(table, key) else {
        return Err(MachineFault::Missing(key));
    };
    integer(found, key, low, high)
}

/// Whether a zero byte is among these.
fn has_zero(bytes: &[u8]) -> bool
    ensures { result ≡ has_zero bytes.now }
{
    bytes.contains(&0)
}

/// A string without a zero byte.
pub fn text(value: &Value) -> Option<&str>
    ensures { option_map (λ s. s.now) result ≡ text_of (view value.now) }
{
    match value.as_str() {
        Some(text) => {
            if has_zero(text.as_bytes()) {
                return None;
            }
            Some(text)
        }
        None => None,
    }
}
