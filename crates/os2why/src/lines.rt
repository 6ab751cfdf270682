// Where a key stands in a machine file, as the reader of TOML itself sees it.
ghost use Rattle.std.specs.Prelude.{◌≤◌};

use o2_tool::unallocated;
use std::alloc::Global;
use std::io;
use toml::Table;

/// A key: of the file, or of one of its processes, from 0.
#[derive(Clone, Copy)]
pub enum Spot<'a> {
    /// A key of the file.
    Top(&'a str),
    /// A key of this process.
    Within(usize, &'a str),
    /// This process itself.
    Process(usize),
}

/// The lines of a key's value, from 1.
#[derive(Clone, Copy)]
pub struct Lines {
    pub first: usize,
    pub last: usize,
}

/// The most lines of a file in which a key is looked for.
const MOST_LINES: usize = 5_000;

/// The tables of the processes.
pub fn process_of(table: &Table, number: usize) -> Option<&Table> {
    let Some(found) = table.get("process") else {
        return None;
    };
    let Some(items) = found.as_array() else {
        return None;
    };
    let Some(item) = items.get(number) else {
        return None;
    };
    item.as_table()
}

/// Whether the document has this key.
fn has(table: &Table, spot: Spot<'_>) -> bool {
    match spot {
        Spot::Top(name) => table.get(name).is_some(),
        Spot::Process(number) => process_of(table, number).is_some(),
        Spot::Within(number, name) => match process_of(table, number) {
            Some(process) => process.get(name).is_some(),
            None => false,
        },
    }
}

/// What the front of a file is.
#[derive(Clone, Copy)]
enum Front {
    /// A document with the key that is looked for.
    HasKey,
    /// A document without it.
    LacksKey,
    /// No document.
    Broken,
}

/// What this front of a file is.
fn read_front(alloc: Global, front: &[u8], spot: Spot<'_>) -> io::Result<Front> {
    match toml::table_from_slice(alloc, front) {
        Ok(table) => Ok(if has(&table, spot) {
            Front::HasKey
        } else {
            Front::LacksKey
        }),
        Err(error) => {
            if error.is_memory() {
                Err(unallocated())
            } else {
                Ok(Front::Broken)
            }
        }
    }
}

/// The most bytes that are read in search of all keys, each time that they are read.
const MOST_BYTES: usize = 67_108_864;

/// A search for the lines of keys.
#[derive(Drop)]
pub struct Search {
    /// How many bytes may yet be read.
    left: usize,
}

impl Search {
    /// A search that has read nothing.
    pub fn new() -> Search {
        Search { left: MOST_BYTES }
    }

    /// Whether so many bytes may be read, which then are.
    fn takes(&mut self, count: usize) -> bool {
        if count > self.left {
            return false;
        }
        self.left -= count;
        true
    }

    /// The lines that give a key its value: the first front of the file, in whole lines, that reads as a document with this key ends
    /// with them, and the longest shorter front that reads as one ends before them. None where no front has it, behind very many
    /// lines, and where very much has been read.
    pub fn lines_of(
        &mut self,
        alloc: Global,
        text: &[u8],
        spot: Spot<'_>,
    ) -> io::Result<Option<Lines>> {
        let mut line = 0usize;
        let mut first = 1usize;
        for (at, byte) in text.iter().enumerate() {
            if *byte != b'\n' && at + 1 < text.len() {
                continue;
            }
            if line >= MOST_LINES || !self.takes(at + 1) {
                return Ok(None);
            }
            line += 1;
            match read_front(alloc, &text[..at + 1], spot)? {
                Front::HasKey => return Ok(Some(Lines { first, last: line })),
                Front::LacksKey => first = line + 1,
                Front::Broken => {}
            }
        }
        Ok(None)
    }
}
