// The calls of DOSCALLS, by their ordinals and by their names.
ghost use Rattle.std.specs.Prelude.{◌≡◌, ◌≤◌, IfSome};
ghost use Rattle.o2_dynlink.specs.Imports.{service_called, service_with};
ghost use Rattle.o2_dynlink.specs.Listed.{is_doscalls};
ghost use Rattle.os2why.specs.Sentences.{call_name, in_table, service_of};

use o2_base::{SERVICE_COUNT, service_at};
use o2_ne::is_same_name;

/// Whether a module's name is that of the system's own.
pub fn is_system(name: &[u8]) -> bool
    ensures { result ≡ is_doscalls name.now }
{
    is_same_name(name, b"DOSCALLS")
}

/// The service that DOSCALLS has under an ordinal, where the machine file gives no list of its own.
#[tactic(auto, unfolding(o2_base::specs::Services::services))]
pub fn service_of(ordinal: u16) -> Option<u16>
    ensures within { IfSome result (λ n. (1 ≤ n) × (n ≤ SERVICE_COUNT)) }
    ensures exact { result ≡ service_of ordinal }
{
    for k in 0..SERVICE_COUNT {
        let is_wanted = service_at(k + 1).ordinal == ordinal;
        if is_wanted {
            return Some(k + 1);
        }
    }
    None
}

/// The service that has an ordinal among these.
pub fn service_in(ordinals: &[(u16, u16)], ordinal: u16) -> Option<u16>
    ensures { result ≡ service_with ordinals.now ordinal }
{
    match ordinals.iter().find(|p| p.1 == ordinal) {
        Some(pair) => Some(pair.0),
        None => None,
    }
}

/// The number of a service, where it is one.
pub fn in_table(listed: Option<u16>) -> Option<u16>
    ensures within { IfSome result (λ n. (1 ≤ n) × (n ≤ SERVICE_COUNT)) }
    ensures exact { result ≡ in_table listed }
{
    match listed {
        None => None,
        Some(number) => {
            if number >= 1 && number <= SERVICE_COUNT {
                Some(number)
            } else {
                None
            }
        }
    }
}

/// The service of a name, with ASCII letters folded as the linking folds them.
#[tactic(auto, unfolding(o2_base::specs::Services::services))]
pub fn service_called(name: &[u8]) -> Option<u16>
    ensures within { IfSome result (λ n. (1 ≤ n) × (n ≤ SERVICE_COUNT)) }
    ensures exact { result ≡ service_called name.now }
{
    for k in 0..SERVICE_COUNT {
        if is_same_name(service_at(k + 1).name, name) {
            return Some(k + 1);
        }
    }
    None
}

/// The name of a service.
pub fn call_name(number: u16) -> &'static [u8]
    requires low { 1 ≤ number }
    requires high { number ≤ SERVICE_COUNT }
    ensures { result.now ≡ call_name number }
{
    service_at(number).name
}
