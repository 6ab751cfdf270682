// Statements, one after the other.

use crate::acts::write_act;
use crate::answers::Answer;
use crate::changes::decimal;
use crate::images::image_line;
use crate::macros::Macros;
use crate::parts::Parts;
use crate::programs::program;
use crate::runs::{Devices, SURE, run_command};
use crate::sequences::is_shown;
use crate::walks::walk;
use o2_base::NoMemory;
use std::alloc::Global;

/// What statements have made so far.
#[derive(Drop)]
pub struct Bench {
    parts: Parts,
    macros: Macros,
    /// Whether the last macro goes on.
    is_open: bool,
    /// The statements that are still to be taken, the first one last.
    pending: Vec<String>,
    devices: Devices,
    /// How many runs came to what they must.
    right: u32,
    /// What is to be told.
    told: String,
}

/// The first word of a text, and what stands behind it.
fn parted(text: &str) -> (&str, &str) {
    text.split_once(' ').unwrap_or((text, ""))
}

/// Writes that a statement is wrong, and of which line it is.
fn write_wrong(text: &mut String, statement: &str, line: &str) -> Result<(), NoMemory> {
    text.push_str("wrong: ")?;
    text.push_str(statement)?;
    text.push_str(" of ")?;
    text.push_str(line)?;
    text.push('\n')?;
    Ok(())
}

/// Puts calls of a macro onto the statements that are to be taken, the first one last: one for each number from the first on up to the last, which
/// is its first argument, and as four hexadecimal digits its second.
fn put_calls(
    alloc: Global,
    pending: &mut Vec<String>,
    numbers: (usize, usize, usize),
    call: &str,
) -> Result<(), NoMemory> {
    let (first, last, step) = numbers;
    let (name, rest) = parted(call);
    let count = last
        .saturating_sub(first)
        .checked_div(step)
        .unwrap_or(0)
        .saturating_add(1);
    for k in 0..count {
        let number = first.saturating_add(step.saturating_mul(
            count.saturating_sub(1).saturating_sub(k),
        ));
        pending.push(format!(in alloc; "{name} {number} | {number:04X} | {rest}")?)?;
    }
    Ok(())
}

/// A decimal number below 65,536.
fn number(text: &str) -> u32 {
    (decimal(text) % 65_536) as u32
}

impl Bench {
    pub fn new(alloc: Global) -> Bench {
        Bench {
            parts: Parts::new(alloc),
            macros: Macros::new(alloc),
            is_open: false,
            pending: Vec::new(alloc),
            devices: SURE,
            right: 0,
            told: String::new(alloc),
        }
    }

    /// How many runs came to what they must since this was asked last.
    pub fn right(&mut self) -> u32 {
        let right = self.right;
        self.right = 0;
        right
    }

    /// What is to be told.
    pub fn told(&self) -> &str {
        self.told.as_str()
    }

    /// Nothing is to be told any more.
    pub fn forget(&mut self) {
        self.told.clear();
    }

    /// Takes a line.
    pub fn take(&mut self, alloc: Global, line: &str) -> Result<(), NoMemory> {
        if let Some(name) = line.strip_prefix("def ") {
            self.is_open = true;
            return self.macros.begin(alloc, name);
        }
        if line == "end" {
            self.is_open = false;
            return Ok(());
        }
        if self.is_open {
            return self.macros.add(alloc, line);
        }
        self.pending.push(String::from_str(alloc, line)?)?;
        self.go_on(alloc, line)
    }

    /// Takes all statements that are pending, of this line.
    fn go_on(&mut self, alloc: Global, line: &str) -> Result<(), NoMemory> {
        for _ in 0..u64::MAX {
            let Some(statement) = self.pending.pop() else {
                return Ok(());
            };
            if !self.step(alloc, statement.as_str())? {
                write_wrong(&mut self.told, statement.as_str(), line)?;
            }
        }
        Ok(())
    }

    /// Takes a statement, and tells whether it is one, and whether its run is right.
    fn step(&mut self, alloc: Global, statement: &str) -> Result<bool, NoMemory> {
        let (verb, rest) = parted(statement);
        match verb {
            "" | "#" => Ok(true),
            "run" | "ends" | "shows" | "tells" | "fronts" | "cuts" => self.run(alloc, verb, rest),
            "survives" => self.survives(alloc, rest),
            "walk" => self.walk(alloc, rest),
            "sequence" => self.sequence(alloc, rest),
            "is" => Ok(self.is(rest)),
            "image" => self.image(alloc, rest),
            "each" => self.each(alloc, rest),
            "acts" => self.acts(alloc, rest),
            "fail" => Ok(self.fail(rest)),
            "blocks" => {
                self.devices.blocks = (decimal(rest) % 65_536) as u16;
                Ok(true)
            }
            "new" => {
                self.parts.empty_all(rest);
                Ok(true)
            }
            _ => self.call(alloc, verb, rest),
        }
    }

    /// Takes a call of a macro, or a statement on parts.
    fn call(&mut self, alloc: Global, verb: &str, rest: &str) -> Result<bool, NoMemory> {
        if self.macros.call(alloc, &mut self.pending, verb, rest)? {
            return Ok(true);
        }
        let (name, rest) = parted(rest);
        match verb {
            "program" => self.program(alloc, name, rest),
            "copy" => self.copy(alloc, name, rest),
            _ => self.parts.change(alloc, verb, name, rest),
        }
    }

    /// The numbers of a macro's calls, and the call.
    fn each(&mut self, alloc: Global, rest: &str) -> Result<bool, NoMemory> {
        let (first, rest) = parted(rest);
        let (last, rest) = parted(rest);
        let (step, call) = parted(rest);
        let numbers = (decimal(first), decimal(last), decimal(step));
        put_calls(alloc, &mut self.pending, numbers, call)?;
        Ok(true)
    }

    /// Has a call of a device fail in the next run.
    fn fail(&mut self, rest: &str) -> bool {
        let (device, rest) = parted(rest);
        let (call, taken) = parted(rest);
        self.devices
            .fail(device, decimal(call) as u64, decimal(taken));
        true
    }

    /// Puts the code of what a process does behind a part of its number, and the slice of that behind the part `script`.
    fn act(&mut self, alloc: Global, process: &str, act: &str) -> Result<(), NoMemory> {
        let mut code = Vec::new(alloc);
        let steps = write_act(&mut code, act)?;
        self.parts.add(alloc, process, code.as_slice())?;
        let slice = format!(in alloc; "\"{process}:{steps}\",")?;
        self.parts.add(alloc, "script", slice.as_bytes())
    }

    /// The same of all acts that ` ; ` parts, each behind the number of its process.
    fn acts(&mut self, alloc: Global, rest: &str) -> Result<bool, NoMemory> {
        for part in rest.split(" ; ") {
            let (process, act) = parted(part.trim());
            self.act(alloc, process, act)?;
        }
        Ok(true)
    }

    /// The program of the code of a part.
    fn program(&mut self, alloc: Global, name: &str, from: &str) -> Result<bool, NoMemory> {
        let file = program(alloc, self.parts.bytes(from))?;
        self.parts.add(alloc, name, file.as_slice())?;
        Ok(true)
    }

    /// All bytes of a part behind another's, or so many lines with so many bytes behind them.
    fn copy(&mut self, alloc: Global, name: &str, rest: &str) -> Result<bool, NoMemory> {
        let (from, rest) = parted(rest);
        let (lines, more) = parted(rest);
        if lines.is_empty() {
            self.parts.copy(alloc, name, from, 0, usize::MAX)?;
        } else {
            self.parts
                .copy(alloc, name, from, decimal(lines), decimal(more))?;
        }
        Ok(true)
    }

    /// Counts a run that came to what it must, and makes all ready for the next one.
    fn end(&mut self, is_right: bool) -> bool {
        self.parts
            .empty_all("console report line lines stop counts pieces");
        self.devices = Devices {
            blocks: self.devices.blocks,
            ..SURE
        };
        if is_right {
            self.right = self.right.saturating_add(1);
        }
        is_right
    }

    /// Puts what a run has shown and told, and which byte it misses, in the place of what the last one had.
    fn keep(&mut self, alloc: Global, answer: &Answer) -> Result<(), NoMemory> {
        let missed = answer.missed(alloc)?;
        self.parts.empty_all("last-console last-report missed");
        self.parts
            .add(alloc, "last-console", answer.console.taken())?;
        self.parts.add(alloc, "last-report", answer.report.taken())?;
        self.parts.add(alloc, "missed", missed.as_bytes())
    }

    /// Runs a command, and tells whether it comes to what it must.
    fn run(&mut self, alloc: Global, verb: &str, rest: &str) -> Result<bool, NoMemory> {
        let (statuses, words) = parted(rest);
        let answer = run_command(alloc, words, &self.parts, &self.devices)?;
        self.keep(alloc, &answer)?;
        let is_right = answer.is_right(verb, statuses, &self.parts);
        Ok(self.end(is_right))
    }

    /// Runs a command, and tells whether a module of these names is refused or the run is over.
    fn survives(&mut self, alloc: Global, rest: &str) -> Result<bool, NoMemory> {
        let (names, words) = parted(rest);
        let answer = run_command(alloc, words, &self.parts, &self.devices)?;
        Ok(self.end(answer.is_told(names)))
    }

    /// Has each call of the swap device fail in turn: the first one behind so many lines at least, the last one behind so many at least, and there are so
    /// many at least.
    fn walk(&mut self, alloc: Global, rest: &str) -> Result<bool, NoMemory> {
        let (first, rest) = parted(rest);
        let (last, rest) = parted(rest);
        let (calls, words) = parted(rest);
        let is_right = match walk(alloc, words, &self.parts, &self.devices, decimal(first))? {
            Some(walked) => {
                decimal(last) <= walked.lines && decimal(calls) as u64 <= walked.calls
            }
            None => false,
        };
        Ok(self.end(is_right))
    }

    /// A sequence of calls at random, by its seed, how many calls each process makes, and which of them the world misses.
    fn sequence(&mut self, alloc: Global, rest: &str) -> Result<bool, NoMemory> {
        let (seed, rest) = parted(rest);
        let (calls, misses) = parted(rest);
        let is_right = is_shown(alloc, number(seed), number(calls), number(misses))?;
        Ok(self.end(is_right))
    }

    /// Whether this text stands under a name.
    fn is(&self, rest: &str) -> bool {
        let (name, text) = parted(rest);
        self.parts.bytes(name) == text.as_bytes()
    }

    /// Whether what stands under a name is a core image of which this is told, or none for this reason.
    fn image(&self, alloc: Global, rest: &str) -> Result<bool, NoMemory> {
        let (name, text) = parted(rest);
        let line = image_line(alloc, self.parts.bytes(name))?;
        Ok(line.as_str() == text)
    }
}
