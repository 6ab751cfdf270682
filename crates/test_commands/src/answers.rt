// What commands come to, and whether that is what they must.

use crate::parts::{Parts, front_len};
use o2_base::{Bytes, ModuleFault, NoMemory};
use o2_cli::{Status, number};
use o2_outer::MemSink;
use std::alloc::Global;

/// What a command came to.
#[derive(Drop)]
pub struct Answer {
    pub status: Status,
    pub line: Bytes,
    pub console: MemSink,
    pub report: MemSink,
    /// How many blocks were written, and how many calls of the swap device failed.
    pub writes: u64,
    pub faults: u64,
}

/// Whether a text has this number among its words.
fn has_number(text: &str, number: u8) -> bool {
    for word in text.split(',') {
        if word.parse::<u8>().ok() == Some(number) {
            return true;
        }
    }
    false
}

/// How many lines a text has.
fn line_count(text: &[u8]) -> usize {
    let mut lines = 0usize;
    for byte in text {
        if *byte == b'\n' {
            lines = lines.saturating_add(1);
        }
    }
    lines
}

/// How many bytes of the console belong to so many lines, where the lengths of their pieces are these; FFh is a line of the step of that in front of it.
fn console_len(pieces: &[u8], lines: usize) -> usize {
    let mut len = 0usize;
    for piece in pieces.iter().take(lines) {
        if *piece != 0xFF {
            len = len.saturating_add(usize::from(*piece));
        }
    }
    len
}

impl Answer {
    fn status(&self) -> u8 {
        number(&self.status)
    }

    /// Whether the command was done.
    pub fn is_fine(&self) -> bool {
        self.status() == 0
    }

    /// The first byte that a module misses, where it is refused for that, in decimal digits.
    pub fn missed(&self, alloc: Global) -> Result<String, NoMemory> {
        match &self.status {
            Status::BadModule(_, ModuleFault::Truncated(place)) => Ok(format!(in alloc;
                "{place}"
            )?),
            _ => Ok(String::new(alloc)),
        }
    }

    /// Whether the swap device counts what the part `counts` says: writes, and calls that failed.
    fn counts(&self, parts: &Parts) -> bool {
        match parts.bytes("counts").split_first() {
            None => true,
            Some((writes, rest)) => {
                self.writes == u64::from(*writes)
                    && self.faults == u64::from(rest.first().copied().unwrap_or(0))
            }
        }
    }

    /// Whether its line is that of the part `line`, where that says anything.
    fn has_line(&self, parts: &Parts) -> bool {
        let line = parts.bytes("line");
        line.is_empty() || self.line.as_slice() == line
    }

    /// Whether it has all of the part `console`.
    fn has_console(&self, parts: &Parts) -> bool {
        self.console.taken() == parts.bytes("console")
    }

    /// Whether it has all of the parts `console` and `report`.
    pub fn is_whole(&self, parts: &Parts) -> bool {
        self.has_console(parts) && self.report.taken() == parts.bytes("report")
    }

    /// Whether its report has so many lines as the part `lines` has, where that has any.
    fn has_lines(&self, parts: &Parts) -> bool {
        let lines = parts.bytes("lines");
        lines.is_empty() || line_count(self.report.taken()) == line_count(lines)
    }

    /// Whether its report ends with the part `report`, or is empty where that is.
    fn is_last(&self, parts: &Parts) -> bool {
        let report = parts.bytes("report");
        if report.is_empty() {
            return self.report.taken().is_empty();
        }
        self.report.taken().ends_with(report)
    }

    /// The lines of its report in front of the part `stop`, if that is behind them where it stopped.
    fn lines<'a>(&'a self, parts: &Parts) -> Option<&'a [u8]> {
        let stop: &[u8] = match self.status {
            Status::Fine => &[],
            _ => parts.bytes("stop"),
        };
        self.report.taken().strip_suffix(stop)
    }

    /// Whether it has all of the parts `console` and `report`, or, where it stopped, fronts of them and behind that the part `stop`.
    fn is_front(&self, parts: &Parts) -> bool {
        if self.is_fine() {
            return self.is_whole(parts);
        }
        match self.lines(parts) {
            Some(lines) => {
                parts.bytes("report").starts_with(lines)
                    && parts.bytes("console").starts_with(self.console.taken())
            }
            None => false,
        }
    }

    /// How many lines of the part `report` it has, if the console has what is put in front of these lines, and the next one isn't of
    /// the same step: the part `pieces` has the length of what is put in front of each line.
    pub fn lines_behind(&self, parts: &Parts) -> Option<usize> {
        let lines = self.lines(parts)?;
        let count = line_count(lines);
        let report = parts.bytes("report");
        let pieces = parts.bytes("pieces");
        let is_step = pieces.get(count) != Some(&0xFF);
        let shown = parts.bytes("console").get(..console_len(pieces, count));
        let is_told = report.get(..front_len(report, count, 0)) == Some(lines);
        if is_step && is_told && shown == Some(self.console.taken()) {
            Some(count)
        } else {
            None
        }
    }

    /// Whether nothing was written.
    fn is_quiet(&self) -> bool {
        self.console.taken().is_empty() && self.report.taken().is_empty() && self.writes == 0
    }

    /// Whether a module of one of these names is refused, with nothing written.
    fn is_refused(&self, names: &str) -> bool {
        let Status::BadModule(name, _) = &self.status else {
            return false;
        };
        for known in names.split(',') {
            if name.as_slice() == known.as_bytes() {
                return self.is_quiet();
            }
        }
        false
    }

    /// Whether the report is that of a run, with these last lines.
    fn has_run(&self, last: &[u8]) -> bool {
        let report = self.report.taken();
        report.starts_with(b"1 start ") && report.ends_with(last)
    }

    /// Whether a module of one of these names is refused, or the run is over, or stopped for want of memory or of swap blocks.
    pub fn is_told(&self, names: &str) -> bool {
        match self.status() {
            0 => self.has_run(b"\nall ended\n") || self.has_run(b"\nbudget spent\n"),
            4 => self.is_refused(names),
            8 => self.has_run(b"\nstop room\n"),
            9 => self.has_run(b"\nstop swap full\n"),
            _ => false,
        }
    }

    /// Whether it has one of these statuses, and by its word all of the parts, an end of the report, the console, both of these, fronts, or
    /// fronts with not all of the console.
    pub fn is_right(&self, verb: &str, statuses: &str, parts: &Parts) -> bool {
        let is_shown = match verb {
            "run" => self.is_whole(parts),
            "ends" => self.is_last(parts),
            "shows" => self.has_console(parts),
            "tells" => self.has_console(parts) && self.is_last(parts),
            "cuts" => self.is_front(parts) && !self.has_console(parts),
            _ => self.is_front(parts),
        };
        is_shown
            && has_number(statuses, self.status())
            && self.has_line(parts)
            && self.has_lines(parts)
            && self.counts(parts)
    }
}
