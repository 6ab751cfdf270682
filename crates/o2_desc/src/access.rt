// The access byte.
ghost use Rattle.std.specs.Prelude.{⊤, ◌≡◌, ◌==◌, ◌||◌, true, false, IsTrue, [], ◌∷◌, codes};
ghost use Rattle.o2_desc.specs.Bits.{is_present, is_accessed, is_segment, is_code, is_readable, is_writable, privilege_of, marked, unmarked, with_present, rights_of, is_kind, readable_code, run_only_code, writable_data, read_only_data};

use bitflags::{Flag, Flags, bitflag_items};

/// The access byte of a descriptor (Intel 80286 Programmer's Reference Manual, chapter 6).
#[derive(Clone, Copy, Debug, PartialEq, Eq)]
pub struct Access(pub u8);

bitflag_items! {
    impl Access: u8 {
        /// Bit 0: a selector of the segment was loaded.
        const ACCESSED = 1;
        /// Bit 1: code that can be read, or data that can be written.
        const READ_WRITE = 2;
        /// Bit 2: conforming code, or data that expands down.
        const CONFORMING = 4;
        /// Bit 3: the segment can be run.
        const EXECUTABLE = 8;
        /// Bit 4: a segment, and no gate or system object.
        const SEGMENT = 16;
        /// Bits 5 and 6: the descriptor privilege level.
        const PRIVILEGE = 96;
        /// Bit 7: the segment's bytes are in memory.
        const PRESENT = 128;
    }
}

impl Flags for Access {
    type Bits = u8;

    ghost exact = { ⊤ };

    ghost table = { (codes "ACCESSED", 1) ∷ (codes "READ_WRITE", 2) ∷ (codes "CONFORMING", 4) ∷ (codes "EXECUTABLE", 8) ∷ (codes "SEGMENT", 16) ∷ (codes "PRIVILEGE", 96) ∷ (codes "PRESENT", 128) ∷ [] };

    ghost set_of = { λ a. a.0 };

    fn flags<'a>() -> &'a [Flag<Access>] {
        Access::FLAGS
    }

    fn bits(&self) -> u8 {
        self.0
    }

    fn from_bits_retain(bits: u8) -> Access {
        Access(bits)
    }
}

#[tactic(auto, using(crate::proofs::BitTests::tests))]
impl Access {
    /// Code that can be read, present and with privilege level 3.
    pub const READABLE_CODE: Access = Access(0xFA);

    /// Code that can only be run, present and with privilege level 3.
    pub const RUN_ONLY_CODE: Access = Access(0xF8);

    /// Data that can be written, present and with privilege level 3.
    pub const WRITABLE_DATA: Access = Access(0xF2);

    /// Data that can only be read, present and with privilege level 3.
    pub const READ_ONLY_DATA: Access = Access(0xF0);

    /// A call gate, present and with privilege level 3.
    pub const CALL_GATE: Access = Access(0xE4);

    /// Whether the segment's bytes are in memory.
    pub fn is_present(self) -> bool
        ensures { result ≡ is_present self.0 }
    {
        self.contains(Access::PRESENT)
    }

    /// Whether a selector of the segment was loaded.
    pub fn is_accessed(self) -> bool
        ensures { result ≡ is_accessed self.0 }
    {
        self.contains(Access::ACCESSED)
    }

    /// Whether it is a segment's, and not that of a gate or system object.
    pub fn is_segment(self) -> bool
        ensures { result ≡ is_segment self.0 }
    {
        self.contains(Access::SEGMENT)
    }

    /// Whether the segment can be run: CS may be loaded with it.
    pub fn is_code(self) -> bool
        ensures value { result ≡ is_code self.0 }
        ensures kinds { IsTrue (is_kind (rights_of self.0))
            → result ≡ (rights_of self.0 == readable_code || rights_of self.0 == run_only_code) }
    {
        self.contains(Access::SEGMENT) && self.contains(Access::EXECUTABLE)
    }

    /// Whether the segment can be read: DS and ES may be loaded with it.
    pub fn is_readable(self) -> bool
        ensures value { result ≡ is_readable self.0 }
        ensures kinds { IsTrue (is_kind (rights_of self.0))
            → result ≡ (rights_of self.0 == readable_code || rights_of self.0 == writable_data
            || rights_of self.0 == read_only_data) }
    {
        self.contains(Access::SEGMENT)
            && (!self.contains(Access::EXECUTABLE) || self.contains(Access::READ_WRITE))
    }

    /// Whether the segment can be written: SS may be loaded with it.
    pub fn is_writable(self) -> bool
        ensures value { result ≡ is_writable self.0 }
        ensures kinds { IsTrue (is_kind (rights_of self.0)) → result ≡ (rights_of self.0 == writable_data) }
    {
        self.contains(Access::SEGMENT)
            && !self.contains(Access::EXECUTABLE)
            && self.contains(Access::READ_WRITE)
    }

    /// The descriptor privilege level, 0 to 3.
    pub fn privilege(self) -> u8
        ensures { result ≡ privilege_of self.0 }
    {
        self.intersection(Access::PRIVILEGE).0 / 32
    }

    /// With the accessed bit set.
    pub fn marked(self) -> Access
        ensures value { result.0 ≡ marked self.0 }
        ensures accessed { is_accessed result.0 ≡ true }
        ensures present { is_present result.0 ≡ is_present self.0 }
        ensures rights { rights_of result.0 ≡ rights_of self.0 }
    {
        self.union(Access::ACCESSED)
    }

    /// With the accessed bit cleared.
    pub fn unmarked(self) -> Access
        ensures value { result.0 ≡ unmarked self.0 }
        ensures accessed { is_accessed result.0 ≡ false }
        ensures present { is_present result.0 ≡ is_present self.0 }
        ensures rights { rights_of result.0 ≡ rights_of self.0 }
    {
        self.difference(Access::ACCESSED)
    }

    /// With the present bit set or cleared.
    pub fn with_present(mut self, present: bool) -> Access
        ensures value { result.0 ≡ with_present self.0 present }
        ensures present { is_present result.0 ≡ present }
        ensures accessed { is_accessed result.0 ≡ is_accessed self.0 }
        ensures rights { rights_of result.0 ≡ rights_of self.0 }
    {
        self.set(Access::PRESENT, present);
        self
    }

    /// What it allows: with the present bit set and the accessed bit cleared.
    pub fn rights(self) -> Access
        ensures value { result.0 ≡ rights_of self.0 }
        ensures once { rights_of result.0 ≡ result.0 }
    {
        self.union(Access::PRESENT).difference(Access::ACCESSED)
    }
}
