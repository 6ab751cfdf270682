// Looking up what an instruction is: its opcode, and its ModRM byte where it takes one.

ghost use Rattle.std.specs.Prelude.{◌≡◌, ◌<◌, ◌≤◌, [], slice_index_or};
ghost use Rattle.o2_isa.specs.Table.{table, table_0f, groups};
ghost use Rattle.o2_isa.specs.Operands.{slot_takes, row_takes};
ghost use Rattle.o2_isa.specs.Spelling.{checked, row_of};
ghost use Rattle.o2_isa.specs.Reading.{head_with, head_after, head_of};
ghost use Rattle.o2_decode.specs.Heads.{IsHead};
ghost use Rattle.o2_isa.specs.declared.rows.Entry.TheVariants.{Unused};

use crate::table::{GROUPS, TABLE, TABLE_0F};
use o2_isa::{Entry, Row, Slot};

/// What stands between the prefixes and the bytes of the displacement and the immediates.
#[derive(Clone, Copy)]
pub enum Head {
    /// Too few bytes to tell.
    More,
    /// Bytes that no instruction has.
    Bad,
    /// A row, its ModRM byte (0 where it takes none), and how many bytes they have.
    Whole(&'static Row, u8, usize),
}

static NO_ENTRY: Entry = Entry::Unused;

static NO_ROW: Option<Row> = None;

/// What the table has for an opcode.
#[tactic(auto, unfolding(o2_isa::specs::Table::table))]
#[inline(always)]
fn entry(b: u8) -> &'static Entry
    ensures { result.now ≡ slice_index_or table b Unused }
{
    &TABLE[b as usize]
}

/// What the table has for the second byte of an opcode, behind 0F.
#[tactic(auto, unfolding(o2_isa::specs::Table::table_0f))]
#[inline(always)]
fn second_entry(b: u8) -> &'static Entry
    ensures { result.now ≡ slice_index_or table_0f b Unused }
{
    if (b as usize) < TABLE_0F.len() {
        &TABLE_0F[b as usize]
    } else {
        &NO_ENTRY
    }
}

/// The row of a group, by reg of the ModRM byte.
#[tactic(auto, unfolding(o2_isa::specs::Table::groups))]
#[inline(always)]
fn group_row(group: u8, reg: u8) -> &'static Option<Row>
    requires { reg < 8 }
    ensures { result.now ≡ slice_index_or (slice_index_or groups group []) reg None }
{
    if (group as usize) < GROUPS.len() {
        &GROUPS[group as usize][reg as usize]
    } else {
        &NO_ROW
    }
}

#[inline(always)]
fn takes(slot: Slot, modrm: u8) -> bool
    ensures { result ≡ slot_takes slot modrm }
{
    let reg = modrm / 8 % 8;
    match slot {
        Slot::Memory => modrm / 64 != 3,
        Slot::Segment => reg < 4,
        Slot::SegmentNotCs => reg < 4 && reg != 1,
        _ => true,
    }
}

#[inline(always)]
fn takes_modrm(row: &Row, modrm: u8) -> bool
    ensures { result ≡ row_takes row.now modrm }
{
    takes(row.left, modrm) && takes(row.right, modrm)
}

// the row, if it takes the ModRM byte, which is the last of `len` bytes
#[inline(always)]
fn checked_head(row: &'static Row, modrm: u8, len: usize) -> Head
    requires { len ≤ 3 }
    ensures { IsHead result (head_with (checked (Some row.now) modrm) modrm len) }
{
    if takes_modrm(row, modrm) {
        Head::Whole(row, modrm, len)
    } else {
        Head::Bad
    }
}

// the entry with its ModRM byte, which is the last of `len` bytes
#[inline(always)]
fn modrm_head(entry: &'static Entry, modrm: u8, len: usize) -> Head
    requires { len ≤ 3 }
    ensures { IsHead result (head_with (row_of entry.now modrm) modrm len) }
{
    match entry {
        Entry::Modrm(row) => checked_head(row, modrm, len),
        Entry::Group(group) => match group_row(*group, modrm / 8 % 8) {
            Some(row) => checked_head(row, modrm, len),
            None => Head::Bad,
        },
        _ => Head::Bad,
    }
}

// the entry, whose opcode has `len` bytes, with the bytes behind it
#[inline(always)]
fn entry_head(entry: &'static Entry, bytes: &[u8], len: usize) -> Head
    requires { len ≤ 2 }
    ensures { IsHead result (head_after entry.now bytes.now len) }
{
    match entry {
        Entry::Unused => Head::Bad,
        Entry::Bare(row) => Head::Whole(row, 0, len),
        _ => match bytes {
            [] => Head::More,
            [modrm, ..] => modrm_head(entry, *modrm, len + 1),
        },
    }
}

/// The head at the front of bytes that begin with no prefix.
#[tactic(auto, unfolding(o2_isa::specs::Reading::head_of))]
#[inline(always)]
pub fn head_at(bytes: &[u8]) -> Head
    ensures { IsHead result (head_of bytes.now) }
{
    match bytes {
        [] => Head::More,
        [0x0F] => Head::More,
        [0x0F, b, rest @ ..] => entry_head(second_entry(*b), rest, 2),
        [b, rest @ ..] => entry_head(entry(*b), rest, 1),
    }
}
