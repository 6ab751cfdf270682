// What a world consists of.

use o2_base::NoMemory;
use o2_isa::Cpu;
use o2_world::State;
use std::alloc::Global;
use std::marker::Model;

/// How a process came to a selector.
#[derive(Clone, Copy, Debug, PartialEq, Eq)]
pub enum How {
    /// By its start.
    Load,
    /// By a call.
    Call,
    /// As an alias.
    Alias,
}

/// A live segment, of 65,536 bytes at most.
#[derive(Drop)]
pub struct Segment {
    pub bytes: Vec<u8>,
    /// Code or read-only data of a module, whose bytes never change.
    pub clean: bool,
    pub code: bool,
    /// Those of the call that made it.
    pub flags: u8,
    /// How often it is locked.
    pub lock: u8,
    pub shared: bool,
    pub discarded: bool,
}

impl Model for Segment {
    ghost use Rattle.std.specs.Prelude.{◌≤◌, length};
    ghost use Rattle.o2_world.specs.World.{Segment as SegmentThere};

    ghost Value = { SegmentThere };

    ghost view = { λ s. record {
      bytes = s.bytes.items;
      clean = s.clean;
      code = s.code;
      flags = s.flags;
      lock = s.lock;
      shared = s.shared;
      discarded = s.discarded;
    } };

    ghost invariant = { λ s. length s.bytes.items ≤ 65536 };
}

impl Segment {
    ghost use Rattle.std.specs.Prelude.{◌≡◌, ◌≤◌, length, IfOk};

    /// A copy.
    pub fn copy(&self, alloc: Global) -> Result<Segment, NoMemory>
        ensures { IfOk result (λ s. s ≡ self.now) }
    {
        let bytes = Vec::from_slice(alloc, &self.bytes)?;
        Ok(Segment {
            bytes,
            clean: self.clean,
            code: self.code,
            flags: self.flags,
            lock: self.lock,
            shared: self.shared,
            discarded: self.discarded,
        })
    }

    /// Its size in bytes, 65,536 at most.
    pub fn size(&self) -> usize
        ensures size { result ≡ length self.now.bytes }
        ensures most { result ≤ 65536 }
    {
        self.bytes.len()
    }
}

/// What a process holds under a selector.
#[derive(Drop)]
pub struct Held {
    /// The segment.
    pub name: u64,
    /// The access byte without the accessed bit.
    pub rights: u8,
    /// How often it is held.
    pub holds: u32,
    pub how: How,
    /// The first index of a huge allocation, and how many are reserved for it; both 0 outside of one.
    pub first: u16,
    pub reserved: u16,
}

impl Model for Held {
    ghost use Rattle.o2_world.specs.World.{Held as HeldThere};
    ghost use Rattle.o2_world_parts.specs.Causes.{cause_of};

    ghost Value = { HeldThere };

    ghost view = { λ h. record {
      name = h.name;
      rights = h.rights;
      holds = h.holds;
      cause = cause_of h.how;
      first = h.first;
      reserved = h.reserved;
    } };
}

impl Held {
    ghost use Rattle.std.specs.Prelude.{◌≡◌};

    /// A copy.
    pub fn copy(&self) -> Held
        ensures { result ≡ self.now }
    {
        Held {
            name: self.name,
            rights: self.rights,
            holds: self.holds,
            how: self.how,
            first: self.first,
            reserved: self.reserved,
        }
    }
}

/// Indexes that are reserved: so many from the first one on, of a process's region or, with 0, of the shared one.
#[derive(Drop)]
pub struct Reserve {
    pub region: u16,
    pub first: u16,
    pub count: u16,
    /// They are a library's, and stay.
    pub stays: bool,
}

impl Model for Reserve {
    ghost use Rattle.o2_world.specs.World.{Reserve as ReserveThere};

    ghost Value = { ReserveThere };

    ghost view = { λ r. record { region = r.region; first = r.first; count = r.count; stays = r.stays } };
}

impl Reserve {
    ghost use Rattle.std.specs.Prelude.{◌≡◌};

    /// A copy.
    pub fn copy(&self) -> Reserve
        ensures { result ≡ self.now }
    {
        Reserve {
            region: self.region,
            first: self.first,
            count: self.count,
            stays: self.stays,
        }
    }
}

/// A process.
#[derive(Drop)]
pub struct Process {
    pub cpu: Cpu,
    pub state: State,
    /// What it holds by index of its local descriptor table; of two pairs of one index the first counts.
    pub held: Vec<(u16, Held)>,
    /// The place of its module in the machine file.
    pub place: u16,
    /// The process that started it, 0 for one of the machine file.
    pub parent: u16,
    /// The selector of its environment.
    pub environment: u16,
}

impl Model for Process {
    ghost use Rattle.o2_world.specs.World.{Process as ProcessThere};

    ghost Value = { ProcessThere };

    ghost view = { λ p. record {
      cpu = p.cpu;
      state = p.state;
      held = p.held.items;
      place = p.place;
      parent = p.parent;
      environment = p.environment;
    } };
}

ghost use Rattle.std.specs.Prelude.{◌≡◌, IfOk};

fn copied_held(alloc: Global, held: &[(u16, Held)]) -> Result<Vec<(u16, Held)>, NoMemory>
    ensures { IfOk result (λ v. v.items ≡ held.now) }
{
    let mut copy = Vec::new(alloc);
    for pair in held {
        copy.push((pair.0, pair.1.copy()))?;
    }
    Ok(copy)
}

impl Process {
    /// A copy.
    pub fn copy(&self, alloc: Global) -> Result<Process, NoMemory>
        ensures { IfOk result (λ p. p ≡ self.now) }
    {
        let held = copied_held(alloc, &self.held)?;
        Ok(Process {
            cpu: self.cpu,
            state: self.state,
            held,
            place: self.place,
            parent: self.parent,
            environment: self.environment,
        })
    }
}
