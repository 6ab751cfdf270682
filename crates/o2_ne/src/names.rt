// The names of a module.
ghost use Rattle.std.specs.Prelude.{◌≡◌, ◌==◌, ◌+◌, ◌≤◌, ◌<◌, [], IfOk, length};
ghost use Rattle.std.specs.List.{list_any};
ghost use Rattle.o2_ne.specs.Steps.{Gives};
ghost use Rattle.o2_ne.specs.NameTable.{IsOwnName, exports_of, nonresident, ordinal_of, own_name, own_text, same_name};
ghost use Rattle.o2_ne.specs.NamePlaces.{ExportsStand, NamesStand, StringStands};
ghost use Rattle.o2_ne.specs.NameOrder.{IsTable, names_of};
ghost use Rattle.o2_ne.specs.NameTable.{exports};
ghost use Rattle.o2_ne.specs.Words.{byte_at};

use crate::bytes::need;
use crate::head::Head;
use crate::table::Table;
use o2_base::{Bytes, Fail, NeFault, Which};
use std::alloc::Global;
use std::marker::Model;

/// A name and its ordinal.
#[derive(Debug, Drop)]
pub struct Name {
    /// The name, of 1 to 255 bytes.
    pub text: Bytes,
    /// The ordinal of the entry that it names.
    pub ordinal: u16,
}

/// Whether two names are the same, with ASCII letters folded.
pub fn is_same_name(a: &[u8], b: &[u8]) -> bool
    ensures { result ≡ same_name a.now b.now }
{
    a.eq_ignore_ascii_case(b)
}

fn has_line_end(text: &[u8]) -> bool
    ensures { result ≡ list_any (λ b. b == 10) text.now }
{
    text.contains(&10)
}

// The module's name, of this many bytes, with which the table at a place begins.
fn own_text(alloc: Global, file: &[u8], at: u32, len: u8) -> Result<Bytes, Fail<NeFault>>
    requires small { length file.now ≤ 4194304 }
    requires place { at < length file.now }
    requires len { len ≡ byte_at file.now at }
    ensures exact { Gives (λ b. b) result (own_text file.now at len) }
    ensures stands { IfOk result (λ b. StringStands file.now at b) }
    ensures own { IfOk result IsOwnName }
{
    if len == 0 {
        return Err(Fail::Bad(NeFault::BadTable(Which::Names)));
    }
    let start = at + 1;
    need(file, start, u32::from(len) + 2)?;
    let (_, rest) = file.split_at(start as usize);
    let (text, _) = rest.split_at(usize::from(len));
    if has_line_end(text) {
        return Err(Fail::Bad(NeFault::BadTable(Which::Names)));
    }
    Ok(Bytes::from_slice(alloc, text)?)
}

// The module's name, with which the table at a place begins.
fn own_name(alloc: Global, file: &[u8], at: u32) -> Result<Bytes, Fail<NeFault>>
    requires { length file.now ≤ 4194304 }
    ensures exact { Gives (λ b. b) result (own_name file.now at) }
    ensures stands { IfOk result (λ b. StringStands file.now at b) }
    ensures own { IfOk result IsOwnName }
{
    need(file, at, 1)?;
    own_text(alloc, file, at, file[at as usize])
}

// The nonresident names.
fn nonresident(alloc: Global, file: &[u8], head: &Head) -> Result<Table, Fail<NeFault>>
    requires small { length file.now ≤ 4194304 }
    requires some { 0 < length file.now }
    ensures exact { Gives (names_of file.now) result (nonresident file.now head.now) }
    ensures index { IfOk result (IsTable file.now) }
    ensures none { head.now.nonresident_len ≡ 0 → IfOk result (λ t. names_of file.now t ≡ []) }
    ensures stand { 0 < head.now.nonresident_len → IfOk result (λ t. NamesStand file.now head.now.nonresident_at (names_of file.now t)) }
{
    if head.nonresident_len == 0 {
        return Ok(Table::empty(alloc));
    }
    Table::read(alloc, file, head.nonresident_at)
}

/// A module's own name, and the names that it exports: the resident ones behind its own, then the nonresident ones. The file is
/// kept with them, since a name is kept as its place in the file.
#[derive(Drop)]
pub struct Names {
    file: Bytes,
    own: Bytes,
    resident: Table,
    others: Table,
}

impl Model for Names {
    ghost use Rattle.std.specs.Prelude.{◌++◌};
    ghost use Rattle.o2_ne.specs.NameOrder.{IsTable, names_of};
    ghost use Rattle.o2_ne.specs.NameTable.{IsOwnName, Named};

    ghost Value = { Named };

    ghost view = { λ a. record { file = a.file; own = a.own; names = names_of a.file a.resident ++ names_of a.file a.others } };

    ghost invariant = { λ a. IsOwnName a.own × IsTable a.file a.resident × IsTable a.file a.others };
}

impl Names {
    /// The names of a file of at most 4,194,304 bytes with this header, or the fault of the first check that fails. The file is
    /// copied: who owns its bytes calls `of_file`.
    pub fn read(alloc: Global, file: &[u8], head: &Head) -> Result<Names, Fail<NeFault>>
        requires small { length file.now ≤ 4194304 }
        requires inside { head.now.at + 64 ≤ length file.now }
        ensures exact { Gives exports result (exports_of file.now head.now) }
        ensures file { IfOk result (λ ns. ns.file ≡ file.now) }
        ensures stand { IfOk result (λ ns. ExportsStand file.now head.now (exports ns)) }
    {
        let kept = Bytes::from_slice(alloc, file)?;
        Names::of_file(alloc, kept, head)
    }

    /// The names of a file of at most 4,194,304 bytes with this header, with its bytes, or the fault of the first check that
    /// fails.
    #[tactic(auto, unfolding(crate::specs::NameTable::exports_of))]
    pub fn of_file(alloc: Global, file: Bytes, head: &Head) -> Result<Names, Fail<NeFault>>
        requires small { length file ≤ 4194304 }
        requires inside { head.now.at + 64 ≤ length file }
        ensures exact { Gives exports result (exports_of file head.now) }
        ensures file { IfOk result (λ ns. ns.file ≡ file) }
        ensures stand { IfOk result (λ ns. ExportsStand file head.now (exports ns)) }
    {
        let bytes = file.as_slice();
        let at = head.at + u32::from(head.resident_at);
        let own = own_name(alloc, bytes, at)?;
        let resident = Table::read(alloc, bytes, at + own.len() as u32 + 3)?;
        let others = nonresident(alloc, bytes, head)?;
        Ok(Names {
            file,
            own,
            resident,
            others,
        })
    }

    /// The file in which the names stand.
    pub fn file(&self) -> &Bytes
        ensures { result.now ≡ self.now.file }
    {
        &self.file
    }

    /// The module's name, of 1 to 255 bytes without a line end.
    pub fn module(&self) -> &Bytes
        ensures value { result.now ≡ self.now.own }
        ensures own { IsOwnName self.now.own }
    {
        &self.own
    }

    /// The ordinal of a name, with ASCII letters folded; the first match counts. None exactly where no name matches.
    pub fn ordinal(&self, name: &[u8]) -> Option<u16>
        ensures { result ≡ ordinal_of name.now self.now.names }
    {
        let file = self.file.as_slice();
        match self.resident.ordinal(file, name) {
            Some(ordinal) => Some(ordinal),
            None => self.others.ordinal(file, name),
        }
    }
}
