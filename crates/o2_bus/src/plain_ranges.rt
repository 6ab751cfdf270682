// Ranges of the segments of a plain memory.
ghost use Rattle.std.specs.Prelude.{◌<◌};

use crate::{PlainBus, Ranges};
use o2_base::Selector;

impl Ranges for PlainBus<'_> {
    #[tactic(auto, unfolding(crate::specs::Plain::bus_view, o2_isa::specs::Pointers::is_ready, o2_isa::specs::Pointers::range_of))]
    fn range(&self, sel: Selector, offset: u16, count: u16) -> &[u8] {
        match self.plain.bound(self.pid, sel.0) {
            Some(grant) => {
                let from = offset as usize;
                &self.plain.bytes(grant.name)[from..from + count as usize]
            }
            None => &[],
        }
    }

    #[tactic(auto, unfolding(crate::specs::Plain::bus_view, o2_isa::specs::Pointers::is_ready, o2_isa::specs::Pointers::put_at_pointer))]
    fn put(&mut self, sel: Selector, offset: u16, part: &[u8]) {
        if let Some(grant) = self.plain.bound(self.pid, sel.0) {
            self.plain.put(grant.name, offset, part);
        }
    }
}
