// The integers of a machine file.
ghost use Rattle.std.specs.Prelude.{◌≡◌, ◌%◌, IfOk};
ghost use Rattle.toml.specs.View.{table_view};
ghost use Rattle.o2_conf.specs.Values.{value_at};
ghost use Rattle.o2_conf.specs.Limits.{IsFrom, NumbersLimits};
ghost use Rattle.o2_conf.specs.Setting.{avail_or, memory_at, numbers_at};

use crate::table::{integer, integer_in, value};
use o2_base::{Key, MachineFault};
use toml::Table;

/// The integers that stand at the top of a machine file, as `Conf` has them.
#[derive(Clone, Copy)]
pub struct Numbers {
    pub memory: u32,
    pub swap: u32,
    pub segments: u32,
    pub budget: u32,
    pub quantum: u32,
    pub avail: u32,
}

#[tactic(auto, unfolding(crate::specs::Setting::memory_at))]
fn memory(table: &Table) -> Result<u32, MachineFault>
    ensures exact { result ≡ memory_at (table_view table.now) }
    ensures within { IfOk result (λ n. IsFrom 4096 16777216 n × (n % 16 ≡ 0)) }
{
    let size = integer_in(table, Key::Memory, 4096, 16777216)?;
    if size % 16 != 0 {
        return Err(MachineFault::Limit(Key::Memory));
    }
    Ok(size)
}

fn avail(table: &Table) -> Result<u32, MachineFault>
    ensures { result ≡ avail_or (value_at (table_view table.now) Key.Avail) }
{
    let Some(found) = value(table, Key::Avail) else {
        return Ok(0);
    };
    integer(found, Key::Avail, 0, 4294967295)
}

/// The integers in the order in which they are read.
#[tactic(auto, unfolding(crate::specs::Setting::numbers_at))]
pub fn read_numbers(table: &Table) -> Result<Numbers, MachineFault>
    ensures exact { result ≡ numbers_at (table_view table.now) }
    ensures within { IfOk result NumbersLimits }
{
    let memory = memory(table)?;
    let swap = integer_in(table, Key::Swap, 0, 65536)?;
    let segments = integer_in(table, Key::Segments, 1, 65535)?;
    let budget = integer_in(table, Key::Budget, 0, 4000000000)?;
    let quantum = integer_in(table, Key::Quantum, 1, 1000000)?;
    let avail = avail(table)?;
    Ok(Numbers {
        memory,
        swap,
        segments,
        budget,
        quantum,
        avail,
    })
}
