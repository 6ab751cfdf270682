// The law of the tables of flags.
ghost use Rattle.std.specs.Prelude.{◌≡◌, ◌+◌, ℕ, map};
ghost use Rattle.o2_desc.specs.Bits.{has_bit, mask_of, flag_places, popped_places, loaded_places};
ghost use Rattle.o2_isa.specs.declared.flags.Flag.{Flag};
ghost use Rattle.o2_isa.specs.Flags.{flag_number, weight, is_set, every_flag, popped_flags, loaded_flags};

use crate::Flag;
use o2_desc::FlagsWord;

/// All tables of the flags agree: the numbers of their places, the constants of the flags word, and the places that are shown,
/// popped and loaded, with their masks.
pub fn flag_places_agree()
    ensures tests { (f : ℕ) (k : Flag) → is_set f k ≡ has_bit f (flag_number k) }
    ensures shown { (flag_places ≡ map flag_number every_flag) × (FlagsWord.SHOWN.0 ≡ mask_of flag_places) }
    ensures popped { (popped_places ≡ map flag_number popped_flags) × (FlagsWord.POPPED.0 ≡ mask_of popped_places) }
    ensures loaded { (loaded_places ≡ map flag_number loaded_flags) × (FlagsWord.LOADED.0 ≡ mask_of loaded_places) }
    ensures arithmetic { (FlagsWord.CARRY.0 ≡ weight Flag.Carry) × (FlagsWord.PARITY.0 ≡ weight Flag.Parity)
        × (FlagsWord.ADJUST.0 ≡ weight Flag.Auxiliary) × (FlagsWord.ZERO.0 ≡ weight Flag.Zero)
        × (FlagsWord.SIGN.0 ≡ weight Flag.Sign) × (FlagsWord.OVERFLOW.0 ≡ weight Flag.Overflow) }
    ensures control { (FlagsWord.TRAP.0 ≡ weight Flag.Trap) × (FlagsWord.INTERRUPT.0 ≡ weight Flag.Interrupt)
        × (FlagsWord.DIRECTION.0 ≡ weight Flag.Direction) × (FlagsWord.NESTED.0 ≡ weight Flag.Nested)
        × (FlagsWord.IO_PRIVILEGE.0 ≡ weight Flag.PrivilegeLow + weight Flag.PrivilegeHigh) }
{}
