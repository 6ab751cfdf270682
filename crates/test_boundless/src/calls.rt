// Calls of one process, one behind another.
use o2_base::{Bytes, NoMemory};
use o2_boundless::{Process, Segment, World};
use std::alloc::Global;
use std::test::Fail;
use test_sequences::{process, segment};

/// A service and its arguments in hexadecimal, and the error number. A call that waits answers 0, and has no line: a second request, and a
/// wait for a semaphore that has an owner.
static CALLS: &str = "5 0 17 0 0 = 0
8 27 17 4 = 0
8 23 17 4 = 5
5 10 17 0 10 = 87
5 10 17 0 F = 0
E 8007 1 17 0 = 0
F 8007 = 0
D 17 0 17 C = 123
C 10 17 0 17 C = 123
6 F 8004 = 0
6 0 8007 = 0
A 8007 = 0
A 8007 = 158
9 8007 = 0
9 17 = 5
B 27 17 0 = 0
7 27 = 0
7 1F = 5
4 1 17 D 3 17 8 = 0
4 7 17 D 3 17 8 = 6
3 0 17 0 9 17 C = 0
2 17 0 = 0
13 17 0 = 0
10 1 1 17 0 3 0 = 0
10 0 0 17 0 0 0 = 87
10 1 0 17 0 0 4 = 87
10 FFFF 1 17 0 0 0 = 8
11 3 0 37 = 0
11 4 0 37 = 8
11 0 0 37 = 87
11 1 0 3F = 5
11 1 0 37 = 0
12 17 0 = 0
C 10 1F 0 17 C = 0
6 F 800F = 5
C 20 1F C 17 C = 183
D 1F C 17 C = 0
D 1F 18 17 C = 2
D 1F 23 17 C = 123
7 8008 = 5
7 800C = 0
7 800F = 0
D 1F 0 17 C = 2
7 3F = 5
7 37 = 0
10 0 2 17 0 0 2 = 0
1A 17 4 = 0
19 17 4 FFFF FFFF = 0
19 17 4 0 0 = 121
19 17 4 FFFF FFFF = 0
1B 17 4 0 0 = 121
1B 17 4 FFFF FFFF = 0
19 17 4 0 1 = 87
1C 17 4 = 0
1B 17 4 FFFF FFFE = 87
1A 17 4 = 0
1B 17 4 FFFF FFFF = 0
4 1 F 0 3 F 0 = 0";

/// What they tell.
static REPORT: &str = "1 call DosAllocSeg 0000 0017:0000 0000 = 0 0027
1 hold 0027 by DosAllocSeg
1 call DosSizeSeg 0027 0017:0004 = 0 00010000
1 call DosSizeSeg 0023 0017:0004 = 5
1 call DosAllocSeg 0010 0017:0000 0010 = 87
1 call DosAllocSeg 0010 0017:0000 000F = 0 8007
1 hold 8007 by DosAllocSeg
1 call DosGiveSeg 8007 0001 0017:0000 = 0 8007
1 hold 8007 by DosGiveSeg
1 call DosGetSeg 8007 = 0
1 hold 8007 by DosGetSeg
1 call DosGetShrSeg 0017:0000 0017:000C = 123
1 call DosAllocShrSeg 0010 0017:0000 0017:000C = 123
1 call DosReallocSeg 000F 8004 = 0
1 call DosReallocSeg 0000 8007 = 0
1 call DosUnlockSeg 8007 = 0
1 call DosUnlockSeg 8007 = 158
1 call DosLockSeg 8007 = 0
1 call DosLockSeg 0017 = 5
1 call DosCreateCSAlias 0027 0017:0000 = 0 002F
1 hold 002F by DosCreateCSAlias
1 call DosFreeSeg 0027 = 0
1 drop 0027 by DosFreeSeg
1 call DosFreeSeg 001F = 5
1 call DosWrite 0001 0017:000D 0003 0017:0008 = 0 0003
1 call DosWrite 0007 0017:000D 0003 0017:0008 = 6
1 call DosRead 0000 0017:0000 0009 0017:000C = 0 0003
1 call DosGetPID 0017:0000 = 0 0001 0001 0000
1 call DosMemAvail 0017:0000 = 0 12345678
1 call DosAllocHuge 0001 0001 0017:0000 0003 0000 = 0 0037
1 hold 0037 by DosAllocHuge
1 hold 003F by DosAllocHuge
1 call DosAllocHuge 0000 0000 0017:0000 0000 0000 = 87
1 call DosAllocHuge 0001 0000 0017:0000 0000 0004 = 87
1 call DosAllocHuge FFFF 0001 0017:0000 0000 0000 = 8
1 call DosReallocHuge 0003 0000 0037 = 0
1 hold 0047 by DosReallocHuge
1 call DosReallocHuge 0004 0000 0037 = 8
1 call DosReallocHuge 0000 0000 0037 = 87
1 call DosReallocHuge 0001 0000 003F = 5
1 call DosReallocHuge 0001 0000 0037 = 0
1 drop 003F by DosReallocHuge
1 drop 0047 by DosReallocHuge
1 call DosGetHugeShift 0017:0000 = 0 0003
1 call DosAllocShrSeg 0010 001F:0000 0017:000C = 0 800F
1 hold 800F by DosAllocShrSeg
1 call DosReallocSeg 000F 800F = 5
1 call DosAllocShrSeg 0020 001F:000C 0017:000C = 183
1 call DosGetShrSeg 001F:000C 0017:000C = 0 800F
1 hold 800F by DosGetShrSeg
1 call DosGetShrSeg 001F:0018 0017:000C = 2
1 call DosGetShrSeg 001F:0023 0017:000C = 123
1 call DosFreeSeg 8008 = 5
1 call DosFreeSeg 800C = 0
1 drop 800F by DosFreeSeg
1 call DosFreeSeg 800F = 0
1 drop 800F by DosFreeSeg
1 call DosGetShrSeg 001F:0000 0017:000C = 2
1 call DosFreeSeg 003F = 5
1 call DosFreeSeg 0037 = 0
1 drop 0037 by DosFreeSeg
1 call DosAllocHuge 0000 0002 0017:0000 0000 0002 = 0 800F
1 hold 800F by DosAllocHuge
1 call DosSemClear 0017:0004 = 0
1 call DosSemRequest 0017:0004 FFFFFFFF = 0
1 call DosSemRequest 0017:0004 00000000 = 121
1 call DosSemWait 0017:0004 00000000 = 121
1 call DosSemRequest 0017:0004 00000001 = 87
1 call DosSemSet 0017:0004 = 0
1 call DosSemWait 0017:0004 FFFFFFFE = 87
1 call DosSemClear 0017:0004 = 0
1 call DosSemWait 0017:0004 FFFFFFFF = 0
1 end trap 13 at 000F:0100
";

/// The same with the word of a script: a locked segment stays, one that isn't goes, and is zeros once it is made anew.
static WORDS: &str = "5 10 17 0 4 = 0
3 0 27 0 3 17 C = 0
discard
4 1 27 0 2 17 C = 0
A 27 = 0
discard
9 27 = 157
A 27 = 158
8 27 17 4 = 0
B 27 17 0 = 0
6 20 2F = 5
6 20 27 = 0
4 1 27 0 2 17 C = 0
A 27 = 0
discard
6 20 27 = 0
9 27 = 0
A 27 = 0
A 27 = 0
A 27 = 158
discard
4 1 27 0 2 17 C = 0";

/// Their lines.
static WORDED: &str = "1 call DosAllocSeg 0010 0017:0000 0004 = 0 0027
1 hold 0027 by DosAllocSeg
1 call DosRead 0000 0027:0000 0003 0017:000C = 0 0003
1 call DosWrite 0001 0027:0000 0002 0017:000C = 0 0002
1 call DosUnlockSeg 0027 = 0
1 call DosLockSeg 0027 = 157
1 call DosUnlockSeg 0027 = 158
1 call DosSizeSeg 0027 0017:0004 = 0 00000010
1 call DosCreateCSAlias 0027 0017:0000 = 0 002F
1 hold 002F by DosCreateCSAlias
1 call DosReallocSeg 0020 002F = 5
1 call DosReallocSeg 0020 0027 = 0
1 call DosWrite 0001 0027:0000 0002 0017:000C = 0 0002
1 call DosUnlockSeg 0027 = 0
1 call DosReallocSeg 0020 0027 = 0
1 call DosLockSeg 0027 = 0
1 call DosUnlockSeg 0027 = 0
1 call DosUnlockSeg 0027 = 0
1 call DosUnlockSeg 0027 = 158
1 end trap 13 at 000F:0100
";

/// Three texts, two of which are the same name.
static TEXTS: &[u8; 36] = b"\\SHAREMEM\\A\0\\sharemem\\a\0\\SHAREMEM\\B\0";

/// Adds a segment of this size that begins with these bytes.
fn add_segment(
    alloc: Global,
    names: &mut Vec<(u64, Segment)>,
    name: u64,
    front: &[u8],
    size: u16,
) -> Result<(), NoMemory> {
    names.push((name, segment(alloc, front, size, false)?))?;
    Ok(())
}

/// Adds the process.
fn add_process(alloc: Global, processes: &mut Vec<Process>) -> Result<(), NoMemory> {
    let mut process = process(alloc, 1, 0)?;
    process.cpu.ip = 0x100;
    processes.push(process)?;
    Ok(())
}

/// Gives a bare world one process with code, 16 bytes of data and an environment of these texts, under the indexes 1 to 3.
fn begin(alloc: Global, world: &mut World) -> Result<(), NoMemory> {
    add_segment(alloc, &mut world.names, 0, b"code", 4)?;
    add_segment(alloc, &mut world.names, 1, b"hello, world ...", 16)?;
    add_segment(alloc, &mut world.names, 2, TEXTS, 36)?;
    world.next_name = 3;
    add_process(alloc, &mut world.processes)?;
    world.input = Bytes::from_slice(alloc, b"abc")?;
    Ok(())
}

/// Writes hexadecimal words as numbers, and tells whether all of them are.
fn write_numbers(numbers: &mut Vec<u16>, words: &str) -> Result<bool, NoMemory> {
    for word in words.split(' ') {
        match u16::from_str_radix(word, 16) {
            Ok(number) => numbers.push(number)?,
            Err(_) => return Ok(false),
        }
    }
    Ok(true)
}

/// What a call of the first process answers, by its service and arguments; none where it has ended.
fn call(alloc: Global, world: &mut World, numbers: &[u16]) -> Result<Option<u16>, NoMemory> {
    let Some((service, args)) = numbers.split_first() else {
        return Ok(None);
    };
    if !world.lives(1) {
        return Ok(None);
    }
    let error = world.call(alloc, 1, *service, args)?;
    Ok(Some(error))
}

/// Whether a row answers as it says. The word is done, and answers nothing.
fn is_right(alloc: Global, world: &mut World, row: &str) -> Result<bool, NoMemory> {
    if row == "discard" {
        world.discard();
        return Ok(true);
    }
    let (words, error) = row.split_once(" = ").unwrap_or((row, ""));
    let mut numbers = Vec::new(alloc);
    if !write_numbers(&mut numbers, words)? {
        return Ok(false);
    }
    let answer = call(alloc, world, &numbers)?;
    Ok(answer.is_some() && answer == error.parse::<u16>().ok())
}

/// How many rows answer as they say.
fn run(alloc: Global, world: &mut World, rows: &str) -> Result<usize, NoMemory> {
    let mut right = 0usize;
    for row in rows.split('\n') {
        if is_right(alloc, world, row)? {
            right = right.saturating_add(1);
        }
    }
    Ok(right)
}

/// Whether the process has ended, and the world has these lines, this console and so many bytes of input.
fn is_over(world: &World, lines: &str, console: &str, input: usize) -> bool {
    !world.lives(1)
        && world.lines.as_slice() == lines.as_bytes()
        && world.console.as_slice() == console.as_bytes()
        && world.input.len() == input
}

/// How many rows answer as they say in a bare world, and whether it is over behind them as it must.
fn come_to(
    alloc: Global,
    world: &mut World,
    rows: &str,
    lines: &str,
    console: &str,
    input: usize,
) -> Result<(usize, bool), NoMemory> {
    begin(alloc, world)?;
    let right = run(alloc, world, rows)?;
    Ok((right, is_over(world, lines, console, input)))
}

/// The same in a world of its own.
fn calls(
    alloc: Global,
    rows: &str,
    lines: &str,
    console: &str,
    input: usize,
) -> Result<(usize, bool), NoMemory> {
    let mut world = World::new(alloc, 100, 0x1234_5678)?;
    come_to(alloc, &mut world, rows, lines, console, input)
}

#[test]
fn calls_answer_and_tell(rt: HostRuntime) -> Result<(), Fail> {
    assert_eq!(rt; calls(rt.alloc(), CALLS, REPORT, "...", 0)?, (58, true));
    Ok(())
}

#[test]
fn a_word_takes_what_a_program_can_make_anew(rt: HostRuntime) -> Result<(), Fail> {
    assert_eq!(rt; calls(rt.alloc(), WORDS, WORDED, "ab\0\0", 0)?, (22, true));
    Ok(())
}

#[test]
fn a_number_without_a_row_ends_its_process(rt: HostRuntime) -> Result<(), Fail> {
    let report = "1 end trap 13 at 000F:0100\n";
    assert_eq!(rt; calls(rt.alloc(), "1F 1 2 = 0", report, "", 3)?, (1, true));
    Ok(())
}
