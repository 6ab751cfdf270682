// Selectors of the 80286.
ghost use Rattle.std.specs.Prelude.{◌≡◌, ◌≤◌, ◌==◌, ◌/◌, ◌%◌};
ghost use Rattle.o2_base.specs.Selectors.{selector_of};

/// A selector: bits 15 to 3 are an index, bit 2 chooses the local descriptor table, bits 1 and 0 are the requested
/// privilege level (Intel 80286 Programmer's Reference Manual, 6.3).
#[derive(Clone, Copy, Debug, PartialEq, Eq)]
pub struct Selector(pub u16);

impl Selector {
    /// The selector of an index of the local descriptor table (0 to 8191), with privilege level 3. Of a higher index it has
    /// the low 16 bits.
    pub fn local(index: u32) -> Selector
        requires small { index ≤ 100000 }
        ensures value { index ≤ 8191 → result.0 ≡ selector_of index }
        ensures low { result.0 ≡ selector_of index % 65536 }
    {
        Selector(((8 * index + 7) % 65536) as u16)
    }

    /// The index in its descriptor table, 0 to 8191.
    pub fn index(&self) -> u16
        ensures { result ≡ self.now.0 / 8 }
    {
        self.0 / 8
    }

    /// Whether it chooses the local descriptor table.
    pub fn is_local(&self) -> bool
        ensures { result ≡ (self.now.0 / 4 % 2 == 1) }
    {
        self.0 / 4 % 2 == 1
    }

    /// The requested privilege level, 0 to 3.
    pub fn rpl(&self) -> u16
        ensures { result ≡ self.now.0 % 4 }
    {
        self.0 % 4
    }
}
