// Steps over a store.
ghost use Rattle.test_bus_parts.specs.Trials.{IsReady};

use crate::stepping::start;
use o2_base::NoMemory;
use o2_desc::Access;
use std::alloc::Global;
use test_bus_parts::Bench;

/// Whether process 1 has got this code, data and stack, which are in memory together.
fn has_all(bench: &mut Bench, code: &[u8]) -> bool
    requires { IsReady bench.old }
    ensures { IsReady bench.new }
{
    let zeros = [0u8; 4096];
    let Some(first) = bench.insert(code, Access::READABLE_CODE.0) else {
        return false;
    };
    let Some(second) = bench.insert(&zeros, Access::WRITABLE_DATA.0) else {
        return false;
    };
    let Some(third) = bench.insert(&zeros, Access::WRITABLE_DATA.0) else {
        return false;
    };
    bench.bring(&[(first, 0), (second, 0), (third, 0)])
}

/// So many steps of this code, over one bus or with a bus for each; the answer is how many were done.
pub fn store_many(alloc: Global, code: &[u8], steps: u64, each: bool) -> Result<u64, NoMemory> {
    let mut bench = Bench::new(alloc, 65_536, 16, 4)?;
    if !has_all(&mut bench, code) {
        return Err(NoMemory);
    }
    let mut cpu = start();
    Ok(if each {
        bench.run_each(&mut cpu, steps)
    } else {
        bench.run(&mut cpu, steps)
    })
}
