// The library that answers for the services' module.
ghost use Rattle.toml.specs.View.{table_view};
ghost use Rattle.o2_conf.specs.Steps.{Gives};
ghost use Rattle.o2_conf.specs.Setting.{shim_or};
ghost use Rattle.o2_conf.specs.Values.{value_at};

use crate::table::{text, value};
use o2_base::{Bytes, Fail, Key, MachineFault};
use std::alloc::Global;
use toml::Table;

/// The name of that library, 1 to 255 bytes; none where the key is absent.
pub fn shim(alloc: Global, table: &Table) -> Result<Option<Bytes>, Fail<MachineFault>>
    ensures { Gives (λ o. o) result (shim_or (value_at (table_view table.now) Key.Shim)) }
{
    let Some(found) = value(table, Key::Shim) else {
        return Ok(None);
    };
    let Some(text) = text(found) else {
        return Err(Fail::Bad(MachineFault::BadValue(Key::Shim)));
    };
    if text.len() < 1 || text.len() > 255 {
        return Err(Fail::Bad(MachineFault::Limit(Key::Shim)));
    }
    Ok(Some(Bytes::from_slice(alloc, text.as_bytes())?))
}
