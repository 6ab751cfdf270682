// Statements under a name, with places for arguments.

use o2_base::NoMemory;
use std::alloc::Global;

/// Statements under a name.
#[derive(Drop)]
struct Macro {
    name: String,
    lines: Vec<String>,
}

/// All that have a name.
#[derive(Drop)]
pub struct Macros {
    list: Vec<Macro>,
}

/// The n-th of arguments that bars part, counted from 1.
fn argument(arguments: &str, n: u8) -> &str {
    arguments
        .split('|')
        .nth(usize::from(n.saturating_sub(1)))
        .unwrap_or("")
        .trim()
}

/// Writes what stands behind a `$`: the argument that its first digit names, and the rest.
fn write_piece(line: &mut String, piece: &str, arguments: &str) -> Result<(), NoMemory> {
    if let Some(digit) = piece.as_bytes().first() {
        line.push_str(argument(arguments, digit.saturating_sub(b'0')))?;
        line.push_str(piece.strip_prefix(char::from(*digit)).unwrap_or(""))?;
    }
    Ok(())
}

/// Writes a statement with the arguments in the place of `$1` to `$9`.
fn write_statement(line: &mut String, statement: &str, arguments: &str) -> Result<(), NoMemory> {
    let (first, rest) = statement.split_once('$').unwrap_or((statement, ""));
    line.push_str(first)?;
    for piece in rest.split('$') {
        write_piece(line, piece, arguments)?;
    }
    Ok(())
}

/// Puts a statement with its arguments onto those that are to be taken.
fn put_statement(
    alloc: Global,
    pending: &mut Vec<String>,
    statement: &str,
    arguments: &str,
) -> Result<(), NoMemory> {
    let mut line = String::new(alloc);
    write_statement(&mut line, statement, arguments)?;
    pending.push(line)?;
    Ok(())
}

impl Macros {
    pub fn new(alloc: Global) -> Macros {
        Macros {
            list: Vec::new(alloc),
        }
    }

    /// A name without statements.
    pub fn begin(&mut self, alloc: Global, name: &str) -> Result<(), NoMemory> {
        let name = String::from_str(alloc, name)?;
        self.list.push(Macro {
            name,
            lines: Vec::new(alloc),
        })?;
        Ok(())
    }

    /// A statement more of the last name.
    pub fn add(&mut self, alloc: Global, statement: &str) -> Result<(), NoMemory> {
        let line = String::from_str(alloc, statement)?;
        if let Some(last) = self.list.last_mut() {
            last.lines.push(line)?;
        }
        Ok(())
    }

    fn place(&self, name: &str) -> Option<usize> {
        for (place, one) in self.list.iter().enumerate() {
            if one.name.as_str() == name {
                return Some(place);
            }
        }
        None
    }

    /// Puts the statements of a name onto those that are to be taken, the first one last, and tells whether there is such a name.
    pub fn call(
        &self,
        alloc: Global,
        pending: &mut Vec<String>,
        name: &str,
        arguments: &str,
    ) -> Result<bool, NoMemory> {
        let Some(place) = self.place(name) else {
            return Ok(false);
        };
        if let Some(found) = self.list.get(place) {
            for line in found.lines.iter().rev() {
                put_statement(alloc, pending, line.as_str(), arguments)?;
            }
        }
        Ok(true)
    }
}
