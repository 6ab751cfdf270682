// The lists of a setting. Contracts see each as its list.
ghost use Rattle.std.specs.Prelude.{◌≡◌, length, slice_get, option_map, IfOk};

use crate::process::Process;
use crate::script::Word;
use o2_base::{Bytes, NoMemory};
use std::alloc::Global;
use std::marker::Model;

/// A list of texts.
#[derive(Debug, Drop)]
pub struct Texts {
    items: Vec<Bytes>,
}

impl Model for Texts {
    ghost use Rattle.std.specs.Prelude.{List, ℕ};

    ghost Value = { List (List ℕ) };

    ghost view = { λ a. a.items.items };
}

impl Texts {
    /// The list of these items.
    pub fn new(items: Vec<Bytes>) -> Texts
        ensures { result ≡ items.items }
    {
        Texts { items }
    }

    /// The items.
    pub fn as_slice(&self) -> &[Bytes]
        ensures { result.now ≡ self.now }
    {
        self.items.as_slice()
    }

    /// How many items there are.
    pub fn len(&self) -> usize
        ensures { result ≡ length self.now }
    {
        self.items.len()
    }

    /// The text at a place from 0; none exactly past the end.
    pub fn get(&self, k: usize) -> Option<&Bytes>
        ensures { option_map (λ x. x.now) result ≡ slice_get self.now k }
    {
        self.items.get(k)
    }
}

/// A list of processes.
#[derive(Debug, Drop)]
pub struct Processes {
    items: Vec<Process>,
}

impl Model for Processes {
    ghost use Rattle.std.specs.Prelude.{List};
    ghost use Rattle.o2_conf.specs.declared.process.Process.{Process};

    ghost Value = { List (Process) };

    ghost view = { λ a. a.items.items };
}

impl Processes {
    /// The list of these items.
    pub fn new(items: Vec<Process>) -> Processes
        ensures { result ≡ items.items }
    {
        Processes { items }
    }

    /// The items.
    pub fn as_slice(&self) -> &[Process]
        ensures { result.now ≡ self.now }
    {
        self.items.as_slice()
    }

    /// How many items there are.
    pub fn len(&self) -> usize
        ensures { result ≡ length self.now }
    {
        self.items.len()
    }

    /// The process at a place from 0; none exactly past the end.
    pub fn get(&self, k: usize) -> Option<&Process>
        ensures { option_map (λ x. x.now) result ≡ slice_get self.now k }
    {
        self.items.get(k)
    }
}

/// A list of services with their ordinals.
#[derive(Debug, Drop)]
pub struct Ordinals {
    items: Vec<(u16, u16)>,
}

impl Model for Ordinals {
    ghost use Rattle.std.specs.Prelude.{List, ℕ};

    ghost Value = { List (ℕ × ℕ) };

    ghost view = { λ a. a.items.items };
}

impl Ordinals {
    /// The list of these items.
    pub fn new(items: Vec<(u16, u16)>) -> Ordinals
        ensures { result ≡ items.items }
    {
        Ordinals { items }
    }

    /// The items.
    pub fn as_slice(&self) -> &[(u16, u16)]
        ensures { result.now ≡ self.now }
    {
        self.items.as_slice()
    }

    /// How many items there are.
    pub fn len(&self) -> usize
        ensures { result ≡ length self.now }
    {
        self.items.len()
    }

    /// The service with its ordinal at a place from 0; none exactly past the end.
    pub fn get(&self, k: usize) -> Option<&(u16, u16)>
        ensures { option_map (λ x. x.now) result ≡ slice_get self.now k }
    {
        self.items.get(k)
    }
}

/// A list of script words.
#[derive(Debug, Drop)]
pub struct Script {
    items: Vec<Word>,
}

impl Model for Script {
    ghost use Rattle.std.specs.Prelude.{List};
    ghost use Rattle.o2_conf.specs.declared.script.Word.{Word};

    ghost Value = { List (Word) };

    ghost view = { λ a. a.items.items };
}

impl Script {
    /// The list of these items.
    pub fn new(items: Vec<Word>) -> Script
        ensures { result ≡ items.items }
    {
        Script { items }
    }

    /// How many items there are.
    pub fn len(&self) -> usize
        ensures { result ≡ length self.now }
    {
        self.items.len()
    }

    /// The word at a place from 0; none exactly past the end.
    pub fn get(&self, k: usize) -> Option<&Word>
        ensures { option_map (λ x. x.now) result ≡ slice_get self.now k }
    {
        self.items.get(k)
    }

    /// A copy of the words.
    pub fn to_vec(&self, alloc: Global) -> Result<Vec<Word>, NoMemory>
        ensures { IfOk result (λ v. v.items ≡ self.now) }
    {
        copied(alloc, self.items.as_slice())
    }
}

fn copied(alloc: Global, words: &[Word]) -> Result<Vec<Word>, NoMemory>
    ensures { IfOk result (λ v. v.items ≡ words.now) }
{
    let mut copy = Vec::new(alloc);
    for word in words {
        copy.push(*word)?;
    }
    Ok(copy)
}
