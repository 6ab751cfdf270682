// The report that the programs come to, and what it tells of who holds what, read line by line.
use crate::files::first;
use crate::sequence::Sequence;
use o2_base::NoMemory;
use test_fixtures::hex;

/// Process, selector, and how often it holds it.
type Row = (u16, u16, u32);

/// The first word of a text, and what stands behind it.
fn parted(text: &str) -> (&str, &str) {
    text.split_once(' ').unwrap_or((text, ""))
}

/// The process, the verb and the selector of a line `P hold SEL by ..` or `P drop SEL by ..`; any other line has the first two.
fn words(line: &str) -> (usize, &str, usize) {
    let (process, rest) = parted(line);
    let (verb, rest) = parted(rest);
    let (selector, _) = parted(rest);
    (hex(process), verb, hex(selector))
}

/// How often a process holds a selector behind these lines.
fn holds(report: &str, process: usize, selector: usize) -> u32 {
    let mut count = 0u32;
    for line in report.split('\n') {
        let (of, verb, word) = words(line);
        if of == process {
            match verb {
                "end" => count = 0,
                "hold" if word == selector => count = count.saturating_add(1),
                "drop" if word == selector => count = count.saturating_sub(1),
                _ => {}
            }
        }
    }
    count
}

/// How often the row of this process and selector says that it is held; 0 where there is none.
fn said(rows: &[Row], process: usize, selector: usize) -> u32 {
    for row in rows {
        if row.0 as usize == process && row.1 as usize == selector {
            return row.2;
        }
    }
    0
}

/// Whether each row is told.
fn are_told(report: &str, rows: &[Row]) -> bool {
    for row in rows {
        if row.2 == 0 || holds(report, row.0 as usize, row.1 as usize) != row.2 {
            return false;
        }
    }
    true
}

/// Whether what each line takes is held behind all of them as the rows say.
fn are_all(report: &str, rows: &[Row]) -> bool {
    for line in report.split('\n') {
        let (process, verb, selector) = words(line);
        if verb == "hold" && holds(report, process, selector) != said(rows, process, selector) {
            return false;
        }
    }
    true
}

/// Whether the lines tell that just this is held, of fewer than ten processes.
fn tells(report: &[u8], held: &[Row]) -> bool {
    match str::from_utf8(report) {
        Ok(report) => are_told(report, held) && are_all(report, held),
        Err(_) => false,
    }
}

/// The lines of the start, 72 bytes of each process.
static STARTS: &[u8; 576] = b"1 start CAL
1 hold 000F by load
1 hold 0017 by load
1 hold 001F by load
2 start CBL
2 hold 000F by load
2 hold 0017 by load
2 hold 001F by load
3 start CCL
3 hold 000F by load
3 hold 0017 by load
3 hold 001F by load
4 start CDL
4 hold 000F by load
4 hold 0017 by load
4 hold 001F by load
5 start CEL
5 hold 000F by load
5 hold 0017 by load
5 hold 001F by load
6 start CFL
6 hold 000F by load
6 hold 0017 by load
6 hold 001F by load
7 start CGL
7 hold 000F by load
7 hold 0017 by load
7 hold 001F by load
8 start CHL
8 hold 000F by load
8 hold 0017 by load
8 hold 001F by load
";

/// Writes the whole report of the boundless machine.
pub fn write_report(report: &mut Vec<u8>, sequence: &Sequence) -> Result<(), NoMemory> {
    report.extend_from_slice(first(STARTS, 72, sequence.codes.len()))?;
    report.extend_from_slice(sequence.world.lines.as_slice())?;
    report.extend_from_slice(b"all ended\n")?;
    Ok(())
}

/// Whether the lines of the boundless machine tell what it held when that was noted.
pub fn is_told(sequence: &Sequence, report: &[u8]) -> bool {
    let told = sequence
        .codes
        .len()
        .saturating_mul(72)
        .saturating_add(sequence.told);
    tells(report.get(..told).unwrap_or(report), &sequence.noted)
}
