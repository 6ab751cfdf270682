// Runs of a machine of the tests, which is stopped by whatever it is told to be stopped by.
ghost use Rattle.std.specs.Prelude.{◌≡◌, ◌≤◌, IsTrue};
ghost use Rattle.o2_outer.specs.Texts.{Rose};
ghost use Rattle.o2_outer.specs.Inputs.{GoesOn};
ghost use Rattle.o2_run.specs.Turn.{Caused};
ghost use Rattle.o2_run.specs.Faults.{turn_of};

use o2_base::{Bytes, NoMemory};
use o2_outer::{Dev, History, MemSink, MemSource, Sink, Source, SwapDevice, Took, read_block};
use o2_run::{Fault, Steps, Stop, Turn, put_stop, run};
use std::alloc::Global;
use test_fixtures::{Wrong, want, want_line};

/// A device of one block that always fails.
#[derive(Drop)]
struct Broken {
    faults: u64,
    // which blocks were asked for, for proofs
    asked: History<u32, u32, u32>,
}

impl SwapDevice for Broken {
    ghost use Rattle.std.specs.Prelude.{true, []};
    ghost use Rattle.o2_outer.specs.Asked.{asked_for};

    ghost blocks = { λ _. 1 };

    ghost told = { λ _. true };

    ghost block = { λ _ _. [] };

    ghost known = { λ _ _. true };

    ghost asked = { λ s. asked_for s.asked.items };

    ghost faults = { λ s. s.faults };

    fn count(&self) -> u32 {
        1
    }

    fn knows(&self, _i: u32) -> bool {
        true
    }

    fn read(&mut self, i: u32, _into: &mut [u8; 512]) -> Dev {
        self.asked = self.asked.and(&i, &i, &i);
        self.faults = self.faults.saturating_add(1);
        Dev::Failed
    }

    fn write(&mut self, _i: u32, _from: &[u8; 512]) -> Dev {
        self.faults = self.faults.saturating_add(1);
        Dev::Failed
    }
}

/// A machine that is stopped by this behind so many steps, in which it does nothing.
#[derive(Drop)]
struct Halting {
    steps: u32,
    why: Stop,
    last: Option<(Stop, bool)>,
}

/// What a machine of the tests asks before it stops so: the input for a byte, the device for a block. Where these don't fail it
/// is stopped for want of room.
#[tactic(auto, using(o2_outer::proofs::Inputs::goes_same, o2_outer::proofs::Inputs::goes_taken))]
fn found<I: Source, S: SwapDevice>(why: Stop, input: &mut I, swap: &mut S) -> Stop
    ensures blocks { S.blocks swap.new ≡ S.blocks swap.old }
    ensures told { IsTrue (S.told swap.new) → IsTrue (S.told swap.old) }
    ensures goes_on { GoesOn (I.past input.old) (I.past input.new) }
    ensures input_count { I.faults input.old ≤ I.faults input.new }
    ensures swap_count { S.faults swap.old ≤ S.faults swap.new }
    ensures cause { Caused ⊥ (Rose (I.faults input.old) (I.faults input.new)) (Rose (S.faults swap.old) (S.faults swap.new)) (turn_of result) }
{
    let mut byte = [0u8];
    let mut block = [0u8; 512];
    match why {
        Stop::Input => match input.take(&mut byte) {
            Took::Failed => Stop::Input,
            Took::Done(_) => Stop::NoRoom,
        },
        Stop::SwapFault => {
            if swap.count() == 0 {
                return Stop::NoRoom;
            }
            match read_block(0, &mut block, swap) {
                Dev::Failed => Stop::SwapFault,
                Dev::Done => Stop::NoRoom,
            }
        }
        _ => why,
    }
}

impl Steps for Halting {
    ghost use Rattle.std.specs.Prelude.{true, false, option_map};
    ghost use Rattle.std.specs.Option.{unwrap_or};
    ghost use Rattle.o2_run.specs.Faults.{turn_of};

    ghost stands = { λ m blocks block s w. ⊥ };

    ghost Fixed = { Unit {0} };

    ghost fixed = { λ m. tt };

    ghost fits = { λ m blocks. Unit {0} };

    ghost swaps = { true };

    ghost left = { λ m. m.steps };

    ghost stopped = { λ m. option_map (λ p. turn_of p.0) m.last };

    ghost line_put = { λ m. unwrap_or (option_map (λ p. p.1) m.last) false };

    ghost none_swapped = { λ m. Unit {0} };

    #[tactic(auto, using(o2_outer::proofs::Inputs::goes_same))]
    fn turn<I: Source, C: Sink, R: Sink, S: SwapDevice>(
        &mut self,
        input: &mut I,
        _console: &mut C,
        report: &mut R,
        swap: &mut S,
    ) -> Turn {
        if let Some((why, _)) = self.last {
            return why.answer();
        }
        if self.steps > 0 {
            self.steps -= 1;
            return Turn::Ran;
        }
        let why = found(self.why, input, swap);
        let put = put_stop(why, report);
        self.last = Some((why, put));
        why.answer()
    }

    fn slice(&mut self) -> u32 {
        if self.last.is_some() {
            return 0;
        }
        let done = self.steps / 2;
        self.steps -= done;
        done
    }
}

/// Whether two runs of one machine, one after the other, are stopped so.
fn are_stopped(
    machine: &mut Halting,
    input: &mut MemSource,
    console: &mut MemSink,
    report: &mut MemSink,
    why: Stop,
) -> bool {
    let mut swap = Broken {
        faults: 0,
        asked: History::new(),
    };
    for _run in 0..2 {
        if run(machine, input, console, report, &mut swap) != Err(Fault::Stopped(why)) {
            return false;
        }
    }
    true
}

/// The same of a machine that is stopped so behind three steps, over an input whose first take fails.
fn halts(
    alloc: Global,
    why: Stop,
    console: &mut MemSink,
    report: &mut MemSink,
) -> Result<bool, NoMemory> {
    let mut machine = Halting {
        steps: 3,
        why,
        last: None,
    };
    let fails = vec![in alloc; 1]?;
    let mut input = MemSource::new(Bytes::from_slice(alloc, b"abc")?, fails);
    Ok(are_stopped(&mut machine, &mut input, console, report, why))
}

/// No put.
const NEVER: (u64, usize) = (0, 0);

/// A sink with room for a line, of which this put fails behind so many bytes.
fn sink(alloc: Global, fails: (u64, usize)) -> Result<MemSink, NoMemory> {
    MemSink::new(alloc, 64, vec![in alloc; fails]?)
}

/// Whether both runs are stopped so, and the report is this.
fn is_stopped(
    alloc: Global,
    why: Stop,
    report: &mut MemSink,
    line: &str,
) -> Result<bool, NoMemory> {
    let mut console = sink(alloc, NEVER)?;
    let halts = halts(alloc, why, &mut console, report)?;
    Ok(halts && report.taken() == line.as_bytes())
}

/// Whether a report of which this put fails is this behind both runs.
fn puts(alloc: Global, why: Stop, fails: (u64, usize), line: &str) -> Result<bool, NoMemory> {
    let mut report = sink(alloc, fails)?;
    is_stopped(alloc, why, &mut report, line)
}

/// Each stop and its line.
static STOPS: [(Stop, &str); 4] = [
    (Stop::Input, "stop input fault\n"),
    (Stop::NoRoom, "stop room\n"),
    (Stop::SwapFull, "stop swap full\n"),
    (Stop::SwapFault, "stop swap fault\n"),
];

pub fn each_stop(alloc: Global) -> Result<(), Wrong> {
    for (row, (why, line)) in STOPS.iter().enumerate() {
        want_line(puts(alloc, *why, NEVER, line)?, line)?;
        want(puts(alloc, *why, (1, 4), "stop")?, row)?;
    }
    Ok(())
}
