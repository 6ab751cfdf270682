// Ranges behind pointers, of segments in memory.
ghost use Rattle.std.specs.Prelude.{◌<◌};

use crate::SegBus;
use crate::access::{range, write_bytes};
use crate::rules::loaded;
use o2_base::Selector;
use o2_bus::Ranges;

impl Ranges for SegBus<'_, '_> {
    fn range(&self, sel: Selector, offset: u16, count: u16) -> &[u8] {
        let descriptor = loaded(self.regions, self.pid, sel.0);
        range(self.store.memory(), &descriptor, offset, count)
    }

    fn put(&mut self, sel: Selector, offset: u16, part: &[u8]) {
        self.store.law();
        let descriptor = loaded(self.regions, self.pid, sel.0);
        write_bytes(self.store, descriptor.base + offset as u32, part);
    }
}
