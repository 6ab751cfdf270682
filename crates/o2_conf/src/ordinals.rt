// The ordinals of the services.
ghost use Rattle.std.specs.Prelude.{◌≡◌, ◌==◌, [], IfOk};
ghost use Rattle.std.specs.List.{list_any};
ghost use Rattle.toml.specs.View.{table_view, view};
ghost use Rattle.o2_conf.specs.Steps.{Gives, each_member};
ghost use Rattle.o2_conf.specs.Values.{value_at};
ghost use Rattle.o2_conf.specs.Ordinals.{service_named, default_ordinals, ordinal_of, ordinal_step, ordinals_or};

use crate::table::{integer, value};
use o2_base::{Fail, Key, MachineFault, NoMemory, SERVICE_COUNT, service_at};
use std::alloc::Global;
use toml::{Table, Value};

/// The services by rising names.
static BY_NAME: [u16; 31] = [
    16, 5, 12, 24, 11, 23, 1, 31, 7, 18, 2, 30, 15, 13, 14, 29, 9, 19, 3, 17, 6, 26, 25, 28, 27, 8,
    21, 22, 20, 10, 4,
];

/// The number of the service that has this name.
#[tactic(auto, unfolding(crate::specs::Ordinals::service_named))]
fn service_named(name: &[u8]) -> Option<u16>
    ensures { result ≡ service_named name.now }
{
    for number in 1..SERVICE_COUNT + 1 {
        if service_at(number).name == name {
            return Some(number);
        }
    }
    None
}

/// The ordinals where the machine file gives none.
pub fn default_ordinals(alloc: Global) -> Result<Vec<(u16, u16)>, NoMemory>
    ensures { IfOk result (λ v. v.items ≡ default_ordinals) }
{
    let mut found = Vec::new(alloc);
    for number in &BY_NAME {
        found.push((*number, service_at(*number).ordinal))?;
    }
    Ok(found)
}

/// Whether a service has this ordinal already.
fn is_taken(found: &[(u16, u16)], ordinal: u32) -> bool
    ensures { result ≡ list_any (λ p. p.1 == ordinal) found.now }
{
    found.iter().any(|p| u32::from(p.1) == ordinal)
}

/// A service by its name with its ordinal, which none of those found has.
#[tactic(auto, unfolding(crate::specs::Ordinals::ordinal_of))]
fn ordinal_of(name: &str, value: &Value, found: &[(u16, u16)]) -> Result<(u16, u16), MachineFault>
    ensures { result ≡ ordinal_of name.now (view value.now) found.now }
{
    let Some(number) = service_named(name.as_bytes()) else {
        return Err(MachineFault::BadValue(Key::Ordinals));
    };
    let ordinal = integer(value, Key::Ordinals, 1, 65535)?;
    if is_taken(found, ordinal) {
        return Err(MachineFault::BadValue(Key::Ordinals));
    }
    Ok((number, ordinal as u16))
}

/// One more service with its ordinal.
fn ordinal_item(
    name: &str,
    value: &Value,
    found: &mut Vec<(u16, u16)>,
) -> Result<(), Fail<MachineFault>>
    ensures { Gives (λ _. found.new.items) result (ordinal_step name.now (view value.now) found.old.items) }
{
    let pair = ordinal_of(name, value, found.as_slice()).map_err(Fail::Bad)?;
    found.push(pair)?;
    Ok(())
}

/// The ordinals of a table, by rising names.
fn ordinal_items(alloc: Global, table: &Table) -> Result<Vec<(u16, u16)>, Fail<MachineFault>>
    ensures { Gives (λ v. v.items) result (each_member ordinal_step (table_view table.now) []) }
{
    let mut found = Vec::new(alloc);
    for (name, value) in table.iter() {
        ordinal_item(name.as_str(), value, &mut found)?;
    }
    Ok(found)
}

/// The ordinals of a machine file.
pub fn ordinals(alloc: Global, table: &Table) -> Result<Vec<(u16, u16)>, Fail<MachineFault>>
    ensures { Gives (λ v. v.items) result (ordinals_or (value_at (table_view table.now) Key.Ordinals)) }
{
    let Some(found) = value(table, Key::Ordinals) else {
        return Ok(default_ordinals(alloc)?);
    };
    let Some(table) = found.as_table() else {
        return Err(Fail::Bad(MachineFault::BadValue(Key::Ordinals)));
    };
    ordinal_items(alloc, table)
}
