// Words with the command that they are, by the rule of the program's words.
use o2_base::NoMemory;
use o2_words::{Command, Verb, command, is_command};
use std::alloc::Global;
use test_fixtures::{Wrong, want, want_line};

/// Words that are a command, its verb and its operand.
static COMMANDS: &str =
    "exe;x|run;x|exe;exe|exe;run|run;help|exe;my file.exe|exe; -x|run;a=b|exe;=|run;x--help|exe;größe.exe|run;機械.toml|\
     exe;\u{2212}x|exe;a,b\n@c|check;x|check;check|run;check|dump;x|dump;dump|bench;1|bench;9|bench;10|bench;64";

/// Words that are none; a dot is no word at all.
static OTHERS: &str =
    ".|exe|run|x|exe;x;y|run;x;y|exe;run;x|exe;-x|run;-x|exe;-|exe;--|exe;--;x|exe;|run;|;x|EXE;x|Run;x|exe ;x|ex;x|\
     check|check;|check;-x|check;x;y|chec;x|dump|dump;|dump;-x|exe;--help|run;--version|help;exe|--help;x|x;exe|bench|\
     bench;0|bench;65|bench;00|bench;01|bench;001|bench;+1|bench;-1|bench; 1|bench;1 |bench;1;2|bench;x|bench;|\
     bench;100|bench;65537|bench;1x|bench;0x1|bench;\u{0661}|Bench;1|1;bench";

/// The words as the program has them.
fn owned(alloc: Global, row: &str) -> Result<Vec<String>, NoMemory> {
    let mut list = Vec::new(alloc);
    if row == "." {
        return Ok(list);
    }
    for word in row.split(';') {
        list.push(String::from_str(alloc, word)?)?;
    }
    Ok(list)
}

fn verb_of(word: &str, operand: &str) -> Verb {
    match word {
        "exe" => Verb::Exe,
        "run" => Verb::Run,
        "bench" => Verb::Bench(operand.parse().unwrap_or(0)),
        "dump" => Verb::Dump,
        _ => Verb::Check,
    }
}

/// Whether a command has the verb and the operand of its words.
fn is_of(found: &Command<'_>, row: &str) -> bool {
    match row.split_once(';') {
        Some((verb, operand)) => found.verb == verb_of(verb, operand) && found.operand == operand,
        None => false,
    }
}

pub fn words_of_a_command(alloc: Global) -> Result<(), Wrong> {
    let mut count = 0u32;
    for row in COMMANDS.split('|') {
        let list = owned(alloc, row)?;
        if !is_command(list.as_slice()) {
            return want_line(false, row);
        }
        let found = command(alloc, list.as_slice())?;
        want_line(is_of(&found, row), row)?;
        count = count.saturating_add(1);
    }
    want(count == 23, 2)?;
    Ok(())
}

pub fn other_words(alloc: Global) -> Result<(), Wrong> {
    let mut count = 0u32;
    for row in OTHERS.split('|') {
        let list = owned(alloc, row)?;
        want_line(!is_command(list.as_slice()), row)?;
        count = count.saturating_add(1);
    }
    want(count == 52, 1)?;
    Ok(())
}

/// Whichever allocation fails, the answer is the command or want of memory. `rt try --fail-alloc N`
/// makes the Nth fail.
pub fn want_of_memory_alone(alloc: Global) -> Result<(), Wrong> {
    let Ok(list) = owned(alloc, "run;machine.toml") else {
        return Err(Wrong::NoMemory);
    };
    let words = list.as_slice();
    if !is_command(words) {
        return want(false, 0);
    }
    if let Ok(found) = command(alloc, words) {
        want(is_of(&found, "run;machine.toml"), 1)?;
    }
    Ok(())
}
