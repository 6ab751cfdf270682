// Takes rows of commands over files, an input, sinks and a swap device in memory: the rows stand on the standard input. Printed are the
// headings, each row that comes to anything else than it says, and how many runs below a heading are right.
#![tactic(auto)]

mod acts;
mod answers;
mod bench;
mod changes;
mod images;
mod macros;
mod outside;
mod parts;
mod programs;
mod runs;
mod sequences;
mod walks;

use bench::Bench;
use std::io;

/// Takes a line, and tells what is wrong with it.
fn take(rt: &HostRuntime, bench: &mut Bench, line: &str) -> io::Result<()> {
    if bench.take(rt.alloc(), line).is_err() {
        println!(rt; "no memory: {line}")?;
    }
    if !bench.told().is_empty() {
        print!(rt; "{}", bench.told())?;
        bench.forget();
    }
    Ok(())
}

/// Tells how many runs are right, where there are any.
fn tell(rt: &HostRuntime, bench: &mut Bench) -> io::Result<()> {
    let right = bench.right();
    if right > 0 {
        println!(rt; "{right} are right")?;
    }
    Ok(())
}

fn main(rt: HostRuntime) -> io::Result<()> {
    let mut bench = Bench::new(rt.alloc());
    for line in rt.lines(rt.alloc()) {
        let line = line?;
        match line.as_str().strip_prefix("= ") {
            Some(heading) => {
                tell(&rt, &mut bench)?;
                println!(rt; "{heading}")?;
            }
            None => take(&rt, &mut bench, line.as_str())?,
        }
    }
    tell(&rt, &mut bench)
}
