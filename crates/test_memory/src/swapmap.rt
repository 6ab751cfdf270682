// Blocks of owners, taken and given back.
ghost use Rattle.std.specs.Prelude.{◌≡◌};

use o2_swapmap::SwapMap;
use std::alloc::Global;
use test_fixtures::{Wrong, want};

// Five of eight blocks are taken, and four more aren't there.
fn takes(map: &mut SwapMap) -> bool
    requires { map.old.most ≡ 3 }
    ensures { map.new.most ≡ 3 }
{
    let none = map.taken();
    let takes = [map.take(0, 3), map.take(1, 2), map.take(2, 4)];
    none == 0 && takes == [Some(()), Some(()), None] && map.taken() == 5
}

// The list of an owner's blocks has them in order, and no other place is written.
fn lists(map: &SwapMap) -> bool
    requires { map.now.most ≡ 3 }
{
    let mut list = [9; 8];
    if map.count(0) > 8 || map.list(0, &mut list) != 3 {
        return false;
    }
    let (first, second) = (map.nth(0, 0), map.nth(0, 1));
    let listed = [Some(list[0]), Some(list[1])] == [first, second];
    listed && first != second && map.nth(0, 3).is_none() && list[3] == 9
}

// An owner keeps its first block, and another takes all that are free.
fn gives(map: &mut SwapMap) -> bool
    requires { map.old.most ≡ 3 }
    ensures { map.new.most ≡ 3 }
{
    let first = map.nth(0, 0);
    map.give(0, 1);
    let kept = [map.nth(0, 0), map.nth(0, 1)] == [first, None];
    let takes = [map.take(2, 5), map.take(1, 1)];
    kept && first.is_some() && takes == [Some(()), None] && map.taken() == 8
}

// An owner that has less than it keeps has them all, and then gives them all.
fn gives_all(map: &mut SwapMap) -> bool
    requires { map.old.most ≡ 3 }
{
    map.give(2, 7);
    let kept = map.count(2);
    map.give(2, 0);
    let took = map.take(1, 1);
    kept == 5 && took == Some(()) && map.count(1) == 3
}

pub fn blocks_come_and_go(alloc: Global) -> Result<(), Wrong> {
    let mut map = SwapMap::new(alloc, 8, 3)?;
    let first = takes(&mut map) && lists(&map);
    want(first && gives(&mut map) && gives_all(&mut map), 0)?;
    Ok(())
}
