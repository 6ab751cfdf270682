// The law of the kinds of segment.
ghost use Rattle.std.specs.Prelude.{◌≡◌, true, false};
ghost use Rattle.o2_desc.specs.Bits.{is_present, is_segment, is_code, is_readable, is_writable, privilege_of, readable_code, run_only_code, writable_data, read_only_data, call_gate};

use crate::Access;

/// What the four kinds of segment and a call gate say by their bits, and that the constants are their access bytes.
pub fn kinds_by_bits()
    ensures constants { (Access.READABLE_CODE.0 ≡ readable_code) × (Access.RUN_ONLY_CODE.0 ≡ run_only_code)
        × (Access.WRITABLE_DATA.0 ≡ writable_data) × (Access.READ_ONLY_DATA.0 ≡ read_only_data)
        × (Access.CALL_GATE.0 ≡ call_gate) }
    ensures code { (is_code readable_code ≡ true) × (is_code run_only_code ≡ true)
        × (is_code writable_data ≡ false) × (is_code read_only_data ≡ false) }
    ensures readable { (is_readable readable_code ≡ true) × (is_readable run_only_code ≡ false)
        × (is_readable writable_data ≡ true) × (is_readable read_only_data ≡ true) }
    ensures writable { (is_writable readable_code ≡ false) × (is_writable run_only_code ≡ false)
        × (is_writable writable_data ≡ true) × (is_writable read_only_data ≡ false) }
    ensures gate { (is_segment call_gate ≡ false) × (is_present call_gate ≡ true) × (privilege_of call_gate ≡ 3) }
{}
