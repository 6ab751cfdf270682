// A descriptor and its eight bytes.
ghost use Rattle.std.specs.Prelude.{◌≡◌, ◌≢◌, ◌^◌, ◌<◌, ◌⊎◌, IfSome, IfNone, Some, slice_index};
ghost use Rattle.o2_desc.specs.Bytes.{bytes_of};
ghost use Rattle.o2_desc.specs.declared.descriptor.Descriptor.{Descriptor};

/// A segment descriptor of the 80286 (Intel 80286 Programmer's Reference Manual, chapter 6).
#[derive(Clone, Copy, Debug, PartialEq, Eq)]
pub struct Descriptor {
    /// The physical address of the segment's first byte, below 2^24.
    pub base: u32,
    /// The segment's size minus 1.
    pub limit: u16,
    /// The access byte; 0 where the descriptor names nothing.
    pub access: u8,
}

impl Descriptor {
    /// The descriptor that names nothing.
    pub const EMPTY: Descriptor = Descriptor {
        base: 0,
        limit: 0,
        access: 0,
    };

    /// The eight bytes: the limit, the base's low word, its high byte, the access byte, and a zero word.
    pub fn to_bytes(&self) -> [u8; 8]
        requires { self.now.base < 2 ^ 24 }
        ensures { result ≡ bytes_of self.now }
    {
        let [limit_low, limit_high] = self.limit.to_le_bytes();
        let [base_low, base_middle, base_high, _] = self.base.to_le_bytes();
        [
            limit_low,
            limit_high,
            base_low,
            base_middle,
            base_high,
            self.access,
            0,
            0,
        ]
    }

    /// The descriptor of eight bytes, and none exactly where the last two aren't both zero.
    pub fn from_bytes(bytes: &[u8; 8]) -> Option<Descriptor>
        ensures none { IfNone result ((slice_index bytes.now 6 ≢ 0) ⊎ (slice_index bytes.now 7 ≢ 0)) }
        ensures value { IfSome result (λ d. (bytes.now ≡ bytes_of d)) }
        ensures base { IfSome result (λ d. d.base < 2 ^ 24) }
        ensures back { (d : Descriptor) → bytes.now ≡ bytes_of d → result ≡ Some d }
    {
        let [
            limit_low,
            limit_high,
            base_low,
            base_middle,
            base_high,
            access,
            zero,
            last,
        ] = *bytes;
        if zero != 0 || last != 0 {
            return None;
        }
        Some(Descriptor {
            base: u32::from_le_bytes([base_low, base_middle, base_high, 0]),
            limit: u16::from_le_bytes([limit_low, limit_high]),
            access,
        })
    }
}
