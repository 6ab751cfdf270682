// What is needed comes into small memories, over a device that may fail.

use crate::scripts::first_wrong;
use o2_place::SegId;
use o2_service::Need;
use std::alloc::Global;
use test_fixtures::{Wrong, want, want_line};

pub fn a_need_has_sixteen_segments() -> Result<(), Wrong> {
    let (id, other) = (SegId { key: 1, age: 2 }, SegId { key: 4, age: 5 });
    let Some(mut need) = Need::new(&[(id, 3); 15]) else {
        return Err(Wrong::Row(3));
    };
    let pushes = [need.push(other, 6), need.push(id, 7)];
    want(
        pushes == [true, false] && Need::new(&[(id, 0); 17]).is_none(),
        0,
    )?;
    if need.pairs().len() != 16 {
        return Err(Wrong::Row(1));
    }
    want(need.ids()[14] == id && need.pairs()[15] == (other, 6), 2)
}

/// How many blocks the device has, the call of it that fails, and a script: a device that fails changes nothing, a full one is told, and
/// what is needed is in memory together. A call that never comes fails nothing.
static SCRIPTS: [(u16, u64, &str); 3] = [
    (
        8,
        1,
        "a b = here c / write / c a = fault c / c a = here b / b a = here c",
    ),
    (0, 0, "a b = here c / write / c a = full c"),
    (
        8,
        0,
        "a b = here c / c a c:32 = here b / b:17 a = here c / a b:33 = room c / a b c = room c",
    ),
];

pub fn what_is_needed_comes_in_or_nothing_changes(alloc: Global) -> Result<(), Wrong> {
    for (blocks, fails, script) in SCRIPTS.iter() {
        let line = first_wrong(alloc, *blocks, vec![in alloc; *fails]?, script)?;
        want_line(line.is_empty(), line)?;
    }
    Ok(())
}
