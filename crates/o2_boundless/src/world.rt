// The world, and its copies.
ghost use Rattle.std.specs.Prelude.{◌≡◌, IfOk};
ghost use Rattle.o2_world.specs.Discards.{all_discarded};
ghost use Rattle.o2_boundless.specs.Bare.{bare_world};

use o2_base::{Bytes, NoMemory};
use o2_conf::Script;
use o2_world_parts::{Process, Reserve, Segment, discard_all};
use std::alloc::Global;
use std::marker::Model;

/// The world of the boundless machine, without places, memory and swap. Process n is the one at place n - 1. Of two pairs of one
/// key the first counts.
#[derive(Drop)]
pub struct World {
    /// The segments that live, by their names.
    pub names: Vec<(u64, Segment)>,
    /// A name is never used twice.
    pub next_name: u64,
    pub processes: Vec<Process>,
    pub reserved: Vec<Reserve>,
    /// The texts of shared segments, each with its segment's name.
    pub texts: Vec<(Bytes, u64)>,
    /// The input that is left.
    pub input: Bytes,
    /// What the console and the report have, without the report's last line.
    pub console: Bytes,
    pub lines: Bytes,
    /// Whose turn it is, which no call changes: the words of the script that are left, the process of the slice or turn with its
    /// steps left, the process of the last turn, and the budget left.
    pub script: Script,
    pub current: u16,
    pub left: u32,
    pub turn: u16,
    pub budget: u32,
    /// The most names that may live.
    pub segments: u32,
    /// The number that DosMemAvail gives.
    pub avail: u32,
}

impl Model for World {
    ghost use Rattle.std.specs.Prelude.{[]};
    ghost use Rattle.o2_boundless.specs.Shown.{Shown};

    ghost Value = { Shown };

    ghost view = { λ w. record {
      world = record {
        names = w.names.items;
        next_name = w.next_name;
        processes = w.processes.items;
        reserved = w.reserved.items;
        texts = w.texts.items;
        input = w.input;
        dispatch = record { script = w.script; current = w.current; left = w.left; turn = w.turn; budget = w.budget };
        console = w.console;
        lines = [];
      };
      report = w.lines;
      segments = w.segments;
      avail = w.avail;
    } };
}

fn copied_names(alloc: Global, names: &[(u64, Segment)]) -> Result<Vec<(u64, Segment)>, NoMemory>
    ensures { IfOk result (λ v. v.items ≡ names.now) }
{
    let mut copy = Vec::new(alloc);
    for pair in names {
        let segment = pair.1.copy(alloc)?;
        copy.push((pair.0, segment))?;
    }
    Ok(copy)
}

fn copied_processes(alloc: Global, processes: &[Process]) -> Result<Vec<Process>, NoMemory>
    ensures { IfOk result (λ v. v.items ≡ processes.now) }
{
    let mut copy = Vec::new(alloc);
    for process in processes {
        let process = process.copy(alloc)?;
        copy.push(process)?;
    }
    Ok(copy)
}

fn copied_reserves(alloc: Global, reserves: &[Reserve]) -> Result<Vec<Reserve>, NoMemory>
    ensures { IfOk result (λ v. v.items ≡ reserves.now) }
{
    let mut copy = Vec::new(alloc);
    for reserve in reserves {
        copy.push(reserve.copy())?;
    }
    Ok(copy)
}

fn copied_texts(alloc: Global, texts: &[(Bytes, u64)]) -> Result<Vec<(Bytes, u64)>, NoMemory>
    ensures { IfOk result (λ v. v.items ≡ texts.now) }
{
    let mut copy = Vec::new(alloc);
    for pair in texts {
        let text = Bytes::from_slice(alloc, pair.0.as_slice())?;
        copy.push((text, pair.1))?;
    }
    Ok(copy)
}

impl World {
    /// A world without processes, in which so many names may live, with the number that DosMemAvail gives.
    pub fn new(alloc: Global, segments: u32, avail: u32) -> Result<World, NoMemory>
        ensures { IfOk result (λ w. w ≡ bare_world segments avail) }
    {
        Ok(World {
            names: Vec::new(alloc),
            next_name: 0,
            processes: Vec::new(alloc),
            reserved: Vec::new(alloc),
            texts: Vec::new(alloc),
            input: Bytes::new(Vec::new(alloc)),
            console: Bytes::new(Vec::new(alloc)),
            lines: Bytes::new(Vec::new(alloc)),
            script: Script::new(Vec::new(alloc)),
            current: 0,
            left: 0,
            turn: 0,
            budget: 0,
            segments,
            avail,
        })
    }

    /// The script's word `discard`: the segments that may go lose their bytes. Whose turn it is stays.
    pub fn discard(&mut self)
        ensures { self.new ≡ record self.old { world = record self.old.world { names = all_discarded self.old.world.processes self.old.world.names } } }
    {
        discard_all(&mut self.names, &self.processes);
    }

    /// A copy.
    pub fn copy(&self, alloc: Global) -> Result<World, NoMemory>
        ensures { IfOk result (λ w. w ≡ self.now) }
    {
        let names = copied_names(alloc, &self.names)?;
        let processes = copied_processes(alloc, &self.processes)?;
        let reserved = copied_reserves(alloc, &self.reserved)?;
        let texts = copied_texts(alloc, &self.texts)?;
        let input = Bytes::from_slice(alloc, self.input.as_slice())?;
        let console = Bytes::from_slice(alloc, self.console.as_slice())?;
        let lines = Bytes::from_slice(alloc, self.lines.as_slice())?;
        let script = self.script.to_vec(alloc)?;
        Ok(World {
            names,
            next_name: self.next_name,
            processes,
            reserved,
            texts,
            input,
            console,
            lines,
            script: Script::new(script),
            current: self.current,
            left: self.left,
            turn: self.turn,
            budget: self.budget,
            segments: self.segments,
            avail: self.avail,
        })
    }
}
