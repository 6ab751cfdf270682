// A bus over a plain memory of segments.
ghost use Rattle.std.specs.Prelude.{◌≡◌, ◌<◌, ◌≤◌, ◌+◌, length, IfOk, option_map, None, Some};
ghost use Rattle.o2_isa.specs.declared.instr.Width.TheVariants.{Byte};
ghost use Rattle.o2_isa.specs.View.{with_register, in_register, bound_registers, is_readable, is_writable, load_rules, width_len, put_at, reached, read_name, SameRoom};
ghost use Rattle.std.specs.Prelude.{slice_get};
ghost use Rattle.o2_bus.specs.Sized.{plain_sized};
ghost use Rattle.o2_bus.specs.Plain.{hold_of, held_in, bus_view, view_in, registers_of, target_in, segment_bytes, PutsBytes};

use crate::bytes::{first_bytes, len_of, outside_of, put_in, value_in};
use crate::loading::{LoadTarget, load_by, service, shown};
use crate::segment::Segment;
use crate::{Bus, Grant, Plain, TenBytes};
use o2_base::Selector;
use o2_desc::Access;
use o2_isa::{Cpu, Loaded, Purpose, Sreg, Width};

/// What the four segment registers hold.
#[derive(Clone, Copy)]
pub struct Holds {
    pub es: Option<Grant>,
    pub cs: Option<Grant>,
    pub ss: Option<Grant>,
    pub ds: Option<Grant>,
}

/// The bus of one process over a plain memory of segments.
#[derive(Drop)]
pub struct PlainBus<'p> {
    pub plain: &'p mut Plain,
    pub pid: u16,
    pub holds: Holds,
}

fn holds_of(plain: &Plain, pid: u16, cpu: &Cpu) -> Holds
    ensures { registers_of result ≡ bound_registers (held_in plain.now pid) cpu.now }
{
    Holds {
        es: plain.bound(pid, cpu.es),
        cs: plain.bound(pid, cpu.cs),
        ss: plain.bound(pid, cpu.ss),
        ds: plain.bound(pid, cpu.ds),
    }
}

impl Plain {
    /// The bus of a process whose processor has these registers. A register whose selector names nothing in the map holds
    /// nothing.
    pub fn bus(&mut self, pid: u16, cpu: &Cpu) -> PlainBus<'_>
        ensures same_reference { result.plain.ghost_name ≡ self.entry.ghost_name }
        ensures plain { result.plain.now ≡ self.old }
        ensures pid { result.pid ≡ pid }
        ensures registers { registers_of result.holds ≡ bound_registers (held_in self.old pid) cpu.now }
    {
        let holds = holds_of(self, pid, cpu);
        PlainBus {
            plain: self,
            pid,
            holds,
        }
    }
}

fn hold_in(holds: &Holds, reg: Sreg) -> Option<Grant>
    ensures { option_map hold_of result ≡ in_register (registers_of holds.now) reg }
{
    match reg {
        Sreg::Es => holds.es,
        Sreg::Cs => holds.cs,
        Sreg::Ss => holds.ss,
        Sreg::Ds => holds.ds,
    }
}

fn with_hold(holds: Holds, reg: Sreg, grant: Option<Grant>) -> Holds
    ensures { registers_of result ≡ with_register (registers_of holds) reg (option_map hold_of grant) }
{
    match reg {
        Sreg::Es => Holds { es: grant, ..holds },
        Sreg::Cs => Holds { cs: grant, ..holds },
        Sreg::Ss => Holds { ss: grant, ..holds },
        Sreg::Ds => Holds { ds: grant, ..holds },
    }
}

// Loads.

/// What a load asks of the segment that an index holds.
fn target_of(plain: &Plain, grant: Option<Grant>) -> Option<LoadTarget>
    ensures { result ≡ option_map (target_in plain.now) (option_map hold_of grant) }
{
    match grant {
        Some(g) => Some(LoadTarget {
            access: g.access,
            present: plain.is_shown(g.name),
            discarded: false,
        }),
        None => None,
    }
}

impl PlainBus<'_> {
    /// The load rules, and then the present test, for a selector and what it names.
    #[tactic(auto, using(crate::proofs::Ruled::plain_rules))]
    fn rules(&self, purpose: Purpose, sel: u16, grant: Option<Grant>) -> Loaded
        ensures { result ≡ load_rules (view_in self.now) purpose sel (option_map hold_of grant) }
    {
        load_by(purpose, sel, target_of(self.plain, grant))
    }
}

// Accesses.

impl PlainBus<'_> {
    #[tactic(auto, unfolding(crate::specs::Plain::bus_view))]
    fn room_with(
        &self,
        grant: Option<Grant>,
        reg: Sreg,
        off: u16,
        width: Width,
    ) -> Result<(), (u8, u16)>
        ensures { SameRoom result (reached (option_map hold_of grant) is_writable (view_in self.now) reg off width) }
    {
        match grant {
            Some(g) => {
                if !Access(g.access).is_writable() {
                    return Err((13, 0));
                }
                if off as usize + len_of(width) as usize <= self.plain.bytes(g.name).len() {
                    Ok(())
                } else {
                    Err(outside_of(reg))
                }
            }
            None => Err((13, 0)),
        }
    }

    #[tactic(auto, unfolding(crate::specs::Plain::bus_view))]
    fn read_with(
        &self,
        grant: Option<Grant>,
        reg: Sreg,
        off: u16,
        width: Width,
    ) -> Result<u16, (u8, u16)>
        ensures value { result ≡ read_name (view_in self.now) off width (reached (option_map hold_of grant) is_readable (view_in self.now) reg off width) }
        ensures fits { IfOk result (λ x. width ≡ Width.Byte → x < 256) }
    {
        match grant {
            Some(g) => {
                if !Access(g.access).is_readable() {
                    return Err((13, 0));
                }
                let bytes = self.plain.bytes(g.name);
                if off as usize + len_of(width) as usize <= bytes.len() {
                    Ok(value_in(bytes, off as usize, width))
                } else {
                    Err(outside_of(reg))
                }
            }
            None => Err((13, 0)),
        }
    }
}

fn put_segment(segments: &mut Vec<Segment>, name: usize, at: usize, width: Width, value: u16)
    requires named { name < length segments.old.items }
    requires room { at + width_len width ≤ length (segment_bytes (slice_get segments.old.items name)) }
    requires fits { width ≡ Width.Byte → value < 256 }
    ensures { PutsBytes segments.old.items segments.new.items name (put_at (segment_bytes (slice_get segments.old.items name)) at width value) }
{
    let segment = &mut segments[name];
    put_in(&mut segment.bytes, at, width, value);
}

impl Plain {
    /// A byte or word put into a name.
    fn put_value(&mut self, name: u32, at: u16, width: Width, value: u16)
        requires named { name < length self.old.segments.items }
        requires room { at + width_len width ≤ length (segment_bytes (slice_get self.old.segments.items name)) }
        requires fits { width ≡ Width.Byte → value < 256 }
        ensures bytes { PutsBytes self.old.segments.items self.new.segments.items name (put_at (segment_bytes (slice_get self.old.segments.items name)) at width value) }
        ensures maps { self.new.maps.items ≡ self.old.maps.items }
    {
        put_segment(&mut self.segments, name as usize, at as usize, width, value);
    }
}

impl Bus for PlainBus<'_> {
    ghost view = { λ b. view_in b };

    ghost sized = { plain_sized };

    #[tactic(auto, unfolding(crate::specs::Plain::bus_view, o2_isa::specs::View::fetched))]
    fn fetch(&self, ip: u16, into: &mut [u8; 10]) -> usize {
        match self.holds.cs {
            Some(grant) => first_bytes(self.plain.bytes(grant.name), ip as usize, into),
            None => 0,
        }
    }

    #[tactic(auto, unfolding(crate::specs::Plain::bus_view, o2_isa::specs::View::fetched))]
    fn ten(&self, ip: u16) -> Option<TenBytes> {
        match self.holds.cs {
            Some(grant) => TenBytes::at(self.plain.bytes(grant.name), ip),
            None => None,
        }
    }

    #[tactic(auto, unfolding(crate::specs::Plain::bus_view, o2_isa::specs::View::probe_of))]
    fn probe(&mut self, purpose: Purpose, sel: Selector) -> Loaded {
        let grant = self.plain.found(self.pid, sel.0);
        self.rules(purpose, sel.0, grant)
    }

    #[tactic(auto, unfolding(crate::specs::Plain::bus_view, o2_isa::specs::View::bind))]
    fn load(&mut self, reg: Sreg, sel: Selector) {
        let grant = self.plain.bound(self.pid, sel.0);
        self.holds = with_hold(self.holds, reg, grant);
    }

    #[tactic(auto, unfolding(crate::specs::Plain::bus_view, o2_isa::specs::View::read_of))]
    fn read(&self, reg: Sreg, off: u16, width: Width) -> Result<u16, (u8, u16)> {
        self.read_with(hold_in(&self.holds, reg), reg, off, width)
    }

    #[tactic(auto, unfolding(crate::specs::Plain::bus_view, o2_isa::specs::View::room_of))]
    fn room(&self, reg: Sreg, off: u16, width: Width) -> Result<(), (u8, u16)> {
        self.room_with(hold_in(&self.holds, reg), reg, off, width)
    }

    fn write(&mut self, reg: Sreg, off: u16, width: Width, value: u16) {
        match hold_in(&self.holds, reg) {
            Some(grant) => self.plain.put_value(grant.name, off, width, value),
            None => {}
        }
    }

    #[tactic(auto, unfolding(crate::specs::Plain::bus_view, o2_isa::specs::View::size_at))]
    fn size_of(&self, sel: Selector) -> Option<u32> {
        match self.plain.found(self.pid, sel.0) {
            Some(grant) => Some(self.plain.bytes(grant.name).len() as u32),
            None => None,
        }
    }

    #[tactic(auto, unfolding(crate::specs::Plain::bus_view, o2_isa::specs::View::rights_at))]
    fn rights_of(&self, sel: Selector) -> Option<u8> {
        match self.plain.found(self.pid, sel.0) {
            Some(grant) => Some(shown(grant.access)),
            None => match service(sel.0) {
                Some(_) => Some(Access::CALL_GATE.0),
                None => None,
            },
        }
    }
}
