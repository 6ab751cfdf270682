// The flags word.
ghost use Rattle.std.specs.Prelude.{⊤, ◌≡◌, [], ◌∷◌, codes};
ghost use Rattle.o2_desc.specs.Bits.{shown, popped, loaded, flag_places, popped_places, loaded_places, no_flags, TakesPlaces};

use bitflags::{Flag, Flags, bitflag_items};

/// The flags word (Intel 80286 Programmer's Reference Manual, chapter 2).
#[derive(Clone, Copy, Debug, PartialEq, Eq)]
pub struct FlagsWord(pub u16);

bitflag_items! {
    impl FlagsWord: u16 {
        /// CF, bit 0.
        const CARRY = 1;
        /// PF, bit 2.
        const PARITY = 4;
        /// AF, bit 4.
        const ADJUST = 16;
        /// ZF, bit 6.
        const ZERO = 64;
        /// SF, bit 7.
        const SIGN = 128;
        /// TF, bit 8.
        const TRAP = 256;
        /// IF, bit 9.
        const INTERRUPT = 512;
        /// DF, bit 10.
        const DIRECTION = 1024;
        /// OF, bit 11.
        const OVERFLOW = 2048;
        /// IOPL, bits 12 and 13.
        const IO_PRIVILEGE = 12288;
        /// NT, bit 14.
        const NESTED = 16384;
    }
}

impl Flags for FlagsWord {
    type Bits = u16;

    ghost exact = { ⊤ };

    ghost table = { (codes "CARRY", 1) ∷ (codes "PARITY", 4) ∷ (codes "ADJUST", 16) ∷ (codes "ZERO", 64) ∷ (codes "SIGN", 128)
        ∷ (codes "TRAP", 256) ∷ (codes "INTERRUPT", 512) ∷ (codes "DIRECTION", 1024) ∷ (codes "OVERFLOW", 2048)
        ∷ (codes "IO_PRIVILEGE", 12288) ∷ (codes "NESTED", 16384) ∷ [] };

    ghost set_of = { λ a. a.0 };

    fn flags<'a>() -> &'a [Flag<FlagsWord>] {
        FlagsWord::FLAGS
    }

    fn bits(&self) -> u16 {
        self.0
    }

    fn from_bits_retain(bits: u16) -> FlagsWord {
        FlagsWord(bits)
    }
}

#[tactic(auto, using(crate::proofs::BitTests::tests))]
impl FlagsWord {
    /// The flags that SAHF changes: CF, PF, AF, ZF and SF.
    pub const LOADED: FlagsWord = FlagsWord(213);

    /// The flags that POPF and IRET may change at ring 3: CF, PF, AF, ZF, SF, TF, DF, OF and NT.
    pub const POPPED: FlagsWord = FlagsWord(19925);

    /// All flags: every bit but 1, 3, 5 and 15.
    pub const SHOWN: FlagsWord = FlagsWord(32725);

    /// No flag, as the word is read: bit 1 is 1.
    pub const BARE: FlagsWord = FlagsWord(2);

    /// The flags with which a process starts: IF alone.
    pub const FIRST: FlagsWord = FlagsWord(0x0202);

    /// The flags after POPF or IRET popped this word: CF, PF, AF, ZF, SF, TF, DF, OF and NT are the word's, all other
    /// bits stay.
    pub fn popped(self, word: u16) -> FlagsWord
        ensures value { result.0 ≡ popped self.0 word }
        ensures bits { TakesPlaces popped_places self.0 word result.0 }
    {
        let kept = self.difference(FlagsWord::POPPED);
        kept.union(FlagsWord(word).intersection(FlagsWord::POPPED))
    }

    /// The flags after SAHF with this AH: CF, PF, AF, ZF and SF are its own, all other bits stay.
    pub fn loaded(self, ah: u8) -> FlagsWord
        ensures value { result.0 ≡ loaded self.0 ah }
        ensures bits { TakesPlaces loaded_places self.0 ah result.0 }
    {
        let kept = self.difference(FlagsWord::LOADED);
        kept.union(FlagsWord(u16::from(ah)).intersection(FlagsWord::LOADED))
    }

    /// The flags word as it is read: each flag, bit 1 as 1, and bits 3, 5 and 15 as 0.
    pub fn shown(self) -> FlagsWord
        ensures value { result.0 ≡ shown self.0 }
        ensures bits { TakesPlaces flag_places no_flags self.0 result.0 }
    {
        let bare = FlagsWord::BARE.difference(FlagsWord::SHOWN);
        bare.union(self.intersection(FlagsWord::SHOWN))
    }
}
