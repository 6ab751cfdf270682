// Ten bytes as two numbers, so that they are read and compared at once.
ghost use Rattle.std.specs.Prelude.{◌≡◌, ◌<◌, length, take, drop, IfNone, IfSome};
ghost use Rattle.o2_bus.specs.Tens.{ten_of};

/// Ten bytes: the first eight and the last two, each as a number, low byte first.
#[derive(Clone, Copy, Debug, PartialEq, Eq)]
pub struct TenBytes {
    pub first: u64,
    pub last: u16,
}

impl TenBytes {
    /// The numbers of ten bytes.
    #[inline(always)]
    #[tactic(auto, using(crate::proofs::Numbers::two_numbers), unfolding(crate::specs::Tens::ten_of))]
    pub fn of(bytes: &[u8; 10]) -> TenBytes
        ensures { ten_of result ≡ bytes.now }
    {
        let [a, b, c, d, e, f, g, h, i, j] = *bytes;
        TenBytes {
            first: u64::from_le_bytes([a, b, c, d, e, f, g, h]),
            last: u16::from_le_bytes([i, j]),
        }
    }

    /// The ten bytes.
    #[tactic(auto, unfolding(crate::specs::Tens::ten_of))]
    pub fn to_bytes(self) -> [u8; 10]
        ensures { result ≡ ten_of self }
    {
        let [a, b, c, d, e, f, g, h] = self.first.to_le_bytes();
        let [i, j] = self.last.to_le_bytes();
        [a, b, c, d, e, f, g, h, i, j]
    }

    /// The ten bytes from a place on, and none exactly where there are fewer.
    #[inline(always)]
    #[tactic(auto, using(crate::proofs::Numbers::two_numbers), unfolding(crate::specs::Tens::ten_of))]
    pub fn at(bytes: &[u8], at: u16) -> Option<TenBytes>
        ensures some { IfSome result (λ t. ten_of t ≡ take 10 (drop at bytes.now)) }
        ensures none { IfNone result (length (take 10 (drop at bytes.now)) < 10) }
    {
        let at = at as usize;
        if bytes.len() < at + 10 {
            return None;
        }
        let first = [
            bytes[at],
            bytes[at + 1],
            bytes[at + 2],
            bytes[at + 3],
            bytes[at + 4],
            bytes[at + 5],
            bytes[at + 6],
            bytes[at + 7],
        ];
        Some(TenBytes {
            first: u64::from_le_bytes(first),
            last: u16::from_le_bytes([bytes[at + 8], bytes[at + 9]]),
        })
    }
}
