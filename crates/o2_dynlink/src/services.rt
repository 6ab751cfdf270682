// The services' gates.
ghost use Rattle.std.specs.Prelude.{◌≡◌, ◌==◌, find, option_map, IsTrue};
ghost use Rattle.o2_base.specs.Services.{gate_of, is_built};
ghost use Rattle.o2_dynlink.specs.Imports.{gate_of_built, service_called, service_with};

use o2_base::{SERVICE_COUNT, gate_selector, is_built, service_at};
use o2_conf::Ordinals;
use o2_ne::is_same_name;

// The service with this ordinal among these.
fn service_in(ordinals: &[(u16, u16)], ordinal: u16) -> Option<u16>
    ensures { result ≡ option_map (λ p. p.0) (find (λ p. p.1 == ordinal) ordinals.now) }
{
    match ordinals.iter().find(|p| p.1 == ordinal) {
        Some(pair) => Some(pair.0),
        None => None,
    }
}

// The service with this ordinal.
fn service_with(ordinals: &Ordinals, ordinal: u16) -> Option<u16>
    ensures { result ≡ service_with ordinals.now ordinal }
{
    service_in(ordinals.as_slice(), ordinal)
}

// The service of this name.
#[tactic(auto, unfolding(o2_base::specs::Services::services))]
fn service_called(name: &[u8]) -> Option<u16>
    ensures { result ≡ service_called name.now }
{
    for k in 0..SERVICE_COUNT {
        if is_same_name(service_at(k + 1).name, name) {
            return Some(k + 1);
        }
    }
    None
}

// The gate of a service that the machine has.
fn gate(number: u16) -> (u16, u16)
    requires { IsTrue (is_built number) }
    ensures { result ≡ (gate_of number, 0) }
{
    (gate_selector(number), 0)
}

// The gate of a service, where the machine has it.
fn built_gate(number: Option<u16>) -> Option<(u16, u16)>
    ensures { result ≡ gate_of_built number }
{
    match number {
        Some(number) => {
            if is_built(number) {
                return Some(gate(number));
            }
            None
        }
        None => None,
    }
}

/// The gate of the built service that has this ordinal.
pub(crate) fn service_gate(ordinals: &Ordinals, ordinal: u16) -> Option<(u16, u16)>
    ensures { result ≡ gate_of_built (service_with ordinals.now ordinal) }
{
    built_gate(service_with(ordinals, ordinal))
}

/// The gate of the built service of this name.
pub(crate) fn service_gate_called(name: &[u8]) -> Option<(u16, u16)>
    ensures { result ≡ gate_of_built (service_called name.now) }
{
    built_gate(service_called(name))
}
