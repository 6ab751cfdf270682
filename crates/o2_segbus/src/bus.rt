// What an instruction asks of a bus over a store.
ghost use Rattle.std.specs.Prelude.{◌<◌, ◌+◌, Some, None};
ghost use Rattle.o2_segbus.specs.Bus.{bus_view};
ghost use Rattle.o2_segbus.specs.Sized.{seg_sized};

use crate::access::{front, read, room, ten, write};
use crate::marking::mark_named;
use crate::registers::{code_size, descriptor_in, set_register};
use crate::rules::{loaded, named, size_named, target};
use crate::{SegBus, SegmentRegister};
use o2_base::Selector;
use o2_bus::{Bus, TenBytes, load_by, service, shown};
use o2_desc::Access;
use o2_isa::{Loaded, Purpose, Sreg, Width};

impl Bus for SegBus<'_, '_> {
    ghost view = { λ b. bus_view b.store.ghost_name b.regions.ghost_name b.store.now b.regions.now b.pid b.registers };

    ghost sized = { seg_sized };

    fn fetch(&self, ip: u16, into: &mut [u8; 10]) -> usize {
        front(self.store.memory(), &self.registers.cs.descriptor, ip, into)
    }

    #[inline(always)]
    fn ten(&self, ip: u16) -> Option<TenBytes> {
        ten(self.store.memory(), &self.registers.cs.descriptor, ip)
    }

    // In line, as the load behind it, so that both look the descriptor up once.
    #[inline(always)]
    fn probe(&mut self, purpose: Purpose, sel: Selector) -> Loaded {
        let descriptor = named(self.regions, self.pid, sel.0);
        self.store.law();
        let wanted = target(descriptor, self.store, self.regions, self.pid, sel.0);
        load_by(purpose, sel.0, wanted)
    }

    #[inline(always)]
    fn load(&mut self, reg: Sreg, sel: Selector) {
        let descriptor = loaded(self.regions, self.pid, sel.0);
        mark_named(self.regions, self.pid, sel.0);
        let register = SegmentRegister {
            selector: sel.0,
            descriptor,
        };
        set_register(&mut self.registers, reg, register);
    }

    #[inline(always)]
    fn read(&self, reg: Sreg, off: u16, width: Width) -> Result<u16, (u8, u16)> {
        let descriptor = descriptor_in(&self.registers, reg);
        read(self.store.memory(), descriptor, reg, off, width)
    }

    #[inline(always)]
    fn room(&self, reg: Sreg, off: u16, width: Width) -> Result<(), (u8, u16)> {
        let descriptor = descriptor_in(&self.registers, reg);
        room(descriptor, reg, off, width)
    }

    #[inline(always)]
    fn write(&mut self, reg: Sreg, off: u16, width: Width, value: u16) {
        self.store.law();
        let descriptor = descriptor_in(&self.registers, reg);
        write(self.store, descriptor.base + off as u32, width, value);
    }

    fn size_of(&self, sel: Selector) -> Option<u32> {
        match code_size(&self.registers, sel.0) {
            Some(size) => Some(size),
            None => size_named(self.regions, self.pid, sel.0),
        }
    }

    fn rights_of(&self, sel: Selector) -> Option<u8> {
        match named(self.regions, self.pid, sel.0) {
            Some(descriptor) => Some(shown(descriptor.access)),
            None => match service(sel.0) {
                Some(_) => Some(Access::CALL_GATE.0),
                None => None,
            },
        }
    }
}
