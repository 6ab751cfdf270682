// Whose steps come, as scripts, turns, ends and budgets order them.
use o2_base::NoMemory;
use o2_conf::Conf;
use o2_sched::{Pick, Sched};
use std::alloc::Global;
use test_fixtures::{Wrong, want, want_line};

/// A machine file without its budget, script and processes.
static HEAD: &str = "memory = 4096\nswap = 0\nsegments = 1\nmodules = ['m']\n";

/// The lines of a process.
static PROCESS: &str = "[[process]]\nmodule = 'm'\n";

/// A line each, and in it the rest of the file, where ` / ` ends a line; how many steps each process has; and whose steps
/// come, with what comes then, twice.
static CASES: &str = "
budget = 9 / quantum = 1000 | 10 | 1 1 1 1 1 1 1 1 1 spent spent
budget = 0 / quantum = 1000 | 10 | spent spent
budget = 20 / quantum = 1000 / script = ['9:5', '1:10', '1:3'] | 10 | 1 1 1 1 1 1 1 1 1 1 ended ended
- the budget is spent with the last step of all, and all have ended
budget = 10 / quantum = 1000 | 10 | 1 1 1 1 1 1 1 1 1 1 ended ended
- turns in rising number, without and with an end
budget = 9 / quantum = 2 | 9 9 9 | 1 1 2 2 3 3 1 1 2 spent spent
budget = 20 / quantum = 2 | 3 1 4 | 1 1 2 3 3 1 3 3 ended ended
- slices first, and the first turn goes to the lowest
budget = 8 / quantum = 2 / script = ['2:3', '3:1'] | 9 9 9 | 2 2 2 3 1 1 2 2 spent spent
- a slice ends with its process, and slices of an ended process are passed
budget = 7 / quantum = 2 / script = ['2:5', '4:1', '3:1', '2:2', '1:1'] | 9 2 9 | 2 2 3 1 1 1 3 spent spent
- short slices aren't passed
budget = 4 / quantum = 1 / script = ['2:1', '1:1', '2:1'] | 9 9 | 2 1 2 1 spent spent
- a word comes before the step behind it, and takes none
budget = 4 / quantum = 1 / script = ['discard', '2:1', 'discard', 'discard', '3:4', '1:1', 'discard'] | 9 9 | word 2 word word 1 word 1 2 spent spent
- it waits for the slice before it, and for the end of a process in it
budget = 5 / quantum = 1000 / script = ['1:2', 'discard', '1:1'] | 9 | 1 1 word 1 1 1 spent
budget = 4 / quantum = 1000 / script = ['1:5', 'discard'] | 2 9 | 1 1 word 2 2 spent
- a word behind which no step comes doesn't come
budget = 2 / quantum = 1000 / script = ['1:1', '1:1', 'discard'] | 9 | 1 1 spent spent
budget = 9 / quantum = 1000 / script = ['1:5', 'discard'] | 2 | 1 1 ended ended
";

/// Writes a file with a process for each number of steps.
fn write_file(file: &mut String, rest: &str, steps: &str) -> Result<(), NoMemory> {
    file.push_str(HEAD)?;
    for line in rest.split(" / ") {
        file.push_str(line)?;
        file.push('\n')?;
    }
    for _ in steps.split_ascii_whitespace() {
        file.push_str(PROCESS)?;
    }
    Ok(())
}

/// The schedule of such a file.
fn sched_of(alloc: Global, rest: &str, steps: &str) -> Result<Sched, NoMemory> {
    let mut file = String::new(alloc);
    write_file(&mut file, rest, steps)?;
    match Conf::read(alloc, file.as_bytes()) {
        Ok(conf) => Sched::make(alloc, &conf),
        Err(_) => Err(NoMemory),
    }
}

/// The next step, after which its process ends where it has no steps left.
#[tactic(auto, using(o2_conf::proofs::Choice::lives_within))]
fn step(sched: &mut Sched, left: &mut [u32]) -> Pick {
    let pick = sched.next();
    if let Pick::Step(pid) = pick {
        sched.stepped();
        if let Some(steps) = left.get_mut(pid.saturating_sub(1) as usize) {
            *steps = steps.saturating_sub(1);
            if *steps == 0 {
                sched.ended(pid);
            }
        }
    }
    pick
}

/// How many steps each of three processes has.
fn lengths(text: &str) -> [u32; 3] {
    let mut left = [0u32; 3];
    for (word, steps) in text.split_ascii_whitespace().zip(left.iter_mut()) {
        *steps = word.parse::<u32>().unwrap_or(0);
    }
    left
}

/// Whether a pick is what the table has.
fn is_pick(pick: Pick, wanted: &str) -> bool {
    match pick {
        Pick::Step(pid) => wanted.parse::<u16>().unwrap_or(0) == pid,
        Pick::Discard => wanted == "word",
        Pick::AllEnded => wanted == "ended",
        Pick::BudgetSpent => wanted == "spent",
    }
}

/// Whether a schedule's picks are these.
fn are_picked(alloc: Global, rest: &str, steps: &str, picks: &str) -> Result<bool, NoMemory> {
    let mut sched = sched_of(alloc, rest, steps)?;
    let mut left = lengths(steps);
    for wanted in picks.split_ascii_whitespace() {
        if !is_pick(step(&mut sched, &mut left), wanted) {
            return Ok(false);
        }
    }
    Ok(true)
}

/// The three parts of a line.
fn parts(line: &str) -> Option<(&str, &str, &str)> {
    let (rest, line) = line.split_once(" | ")?;
    let (steps, picks) = line.split_once(" | ")?;
    Some((rest, steps, picks))
}

pub fn whose_steps_come(alloc: Global) -> Result<(), Wrong> {
    let mut count = 0u32;
    for line in CASES.lines() {
        if let Some((rest, steps, picks)) = parts(line) {
            want_line(are_picked(alloc, rest, steps, picks)?, line)?;
            count = count.saturating_add(1);
        }
    }
    want(count == 14, 1)?;
    Ok(())
}
