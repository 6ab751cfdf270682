// The keys as they stand in their tables.
ghost use Rattle.std.specs.Prelude.{◌≡◌};
ghost use Rattle.o2_conf.specs.Keys.{name_of};

use o2_base::Key;

/// A key as it stands in its table; the file as a whole has none.
pub fn name(key: Key) -> &'static str
    ensures { result.now ≡ name_of key }
{
    match key {
        Key::File => "",
        Key::Memory => "memory",
        Key::Swap => "swap",
        Key::Segments => "segments",
        Key::Budget => "budget",
        Key::Quantum => "quantum",
        Key::Avail => "avail",
        Key::Modules => "modules",
        Key::Process => "process",
        Key::ProcessModule => "module",
        Key::ProcessArguments => "arguments",
        Key::ProcessEnvironment => "environment",
        Key::Ordinals => "ordinals",
        Key::Script => "script",
        Key::Shim => "shim",
    }
}
