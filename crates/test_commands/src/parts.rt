// Bytes under names: the files of a command, and what it must come to.

use crate::changes::change;
use o2_base::{Bytes, NoMemory};
use std::alloc::Global;

/// Bytes under a name.
#[derive(Drop)]
struct Part {
    name: String,
    bytes: Vec<u8>,
}

/// All that have a name.
#[derive(Drop)]
pub struct Parts {
    list: Vec<Part>,
}

/// The length of so many lines of a text with so many bytes behind them.
pub fn front_len(text: &[u8], lines: usize, more: usize) -> usize {
    let mut left = lines;
    let mut len = 0usize;
    for byte in text {
        if left == 0 {
            break;
        }
        len = len.saturating_add(1);
        if *byte == b'\n' {
            left = left.saturating_sub(1);
        }
    }
    len.saturating_add(more)
}

impl Parts {
    pub fn new(alloc: Global) -> Parts {
        Parts {
            list: Vec::new(alloc),
        }
    }

    fn place(&self, name: &str) -> Option<usize> {
        for (place, part) in self.list.iter().enumerate() {
            if part.name.as_str() == name {
                return Some(place);
            }
        }
        None
    }

    /// The bytes under a name; none where nothing has it.
    pub fn bytes(&self, name: &str) -> &[u8] {
        let Some(place) = self.place(name) else {
            return &[];
        };
        match self.list.get(place) {
            Some(part) => part.bytes.as_slice(),
            None => &[],
        }
    }

    /// The place of a name, which has no bytes where it is new.
    fn place_for(&mut self, alloc: Global, name: &str) -> Result<usize, NoMemory> {
        if let Some(place) = self.place(name) {
            return Ok(place);
        }
        let place = self.list.len();
        let name = String::from_str(alloc, name)?;
        self.list.push(Part {
            name,
            bytes: Vec::new(alloc),
        })?;
        Ok(place)
    }

    /// Changes the bytes under a name by a statement, and tells whether it is one.
    pub fn change(
        &mut self,
        alloc: Global,
        verb: &str,
        name: &str,
        rest: &str,
    ) -> Result<bool, NoMemory> {
        let place = self.place_for(alloc, name)?;
        match self.list.get_mut(place) {
            Some(part) => change(&mut part.bytes, verb, rest),
            None => Ok(false),
        }
    }

    /// Puts bytes behind those of a name.
    pub fn add(&mut self, alloc: Global, name: &str, more: &[u8]) -> Result<(), NoMemory> {
        let place = self.place_for(alloc, name)?;
        if let Some(part) = self.list.get_mut(place) {
            part.bytes.extend_from_slice(more)?;
        }
        Ok(())
    }

    /// Puts so many lines of the bytes of another name behind those of a name, and so many bytes more.
    pub fn copy(
        &mut self,
        alloc: Global,
        name: &str,
        from: &str,
        lines: usize,
        more: usize,
    ) -> Result<(), NoMemory> {
        let bytes = self.bytes(from);
        let len = front_len(bytes, lines, more);
        let front = bytes.get(..len).unwrap_or(bytes).to_vec(alloc)?;
        self.add(alloc, name, front.as_slice())
    }

    /// Takes all bytes of a name away.
    pub fn empty(&mut self, name: &str) {
        if let Some(place) = self.place(name) {
            if let Some(part) = self.list.get_mut(place) {
                part.bytes.clear();
            }
        }
    }

    /// Takes the bytes of each of these names away.
    pub fn empty_all(&mut self, names: &str) {
        for name in names.split_ascii_whitespace() {
            self.empty(name);
        }
    }

    /// Those whose names have a dot, as files.
    pub fn files(&self, alloc: Global) -> Result<Vec<(Bytes, Bytes)>, NoMemory> {
        let mut files = Vec::new(alloc);
        for part in self.list.iter() {
            if part.name.as_str().split_once('.').is_some() {
                files.push((
                    Bytes::from_slice(alloc, part.name.as_bytes())?,
                    Bytes::from_slice(alloc, part.bytes.as_slice())?,
                ))?;
            }
        }
        Ok(files)
    }
}
