// The words of a command, taken apart by `clap`.
ghost use Rattle.std.specs.Prelude.{◌≡◌, ℕ, List, IfErr, IfOk, false};
ghost use Rattle.clap.specs.Words.{app_of, kind_of};
ghost use Rattle.clap.specs.declared.builder.command.Command.TheViews.{out-Command};
ghost use Rattle.clap.specs.declared.error.kind.ErrorKind.TheVariants.{OutOfMemory};
ghost use Rattle.o2_words.specs.Words.{HasCount, IsCommand, IsCommandFor, IsOperand};
ghost use Rattle.o2_words.specs.Grammar.{HasFound, IsFound, operand_app, program_app, starting_app};
ghost use Rattle.o2_words.specs.declared.words.Verb.{Verb};

use crate::words::{Command, Verb, verb_of};
use clap::{Arg, ArgMatches, Error};
use o2_base::NoMemory;
use std::alloc::{AllocError, Global};

// The subcommand of this name, with an operand as its only argument.
fn with_operand<'a>(alloc: Global, name: &'a str) -> Result<clap::Command<'a>, AllocError>
    ensures app { IfOk result (λ c. app_of c ≡ operand_app name.entry.now) }
    ensures local { IfOk result (λ c. (out-Command c).has_globals ≡ false) }
{
    clap::Command::new(alloc, name)
        .disable_help_flag(true)
        .disable_version_flag(true)
        .arg(Arg::new(alloc, "OPERAND").required(true))
}

// The program, with a subcommand for each verb that runs what a file says.
fn starting<'a>(alloc: Global) -> Result<clap::Command<'a>, AllocError>
    ensures { IfOk result (λ c. app_of c ≡ starting_app) }
{
    clap::Command::new(alloc, "os2run")
        .no_binary_name(true)
        .disable_help_flag(true)
        .disable_help_subcommand(true)
        .disable_version_flag(true)
        .subcommand_required(true)
        .subcommand(with_operand(alloc, "exe")?)?
        .subcommand(with_operand(alloc, "run")?)
}

// The program, with a subcommand for each verb.
fn program<'a>(alloc: Global) -> Result<clap::Command<'a>, AllocError>
    ensures { IfOk result (λ c. app_of c ≡ program_app) }
{
    starting(alloc)?
        .subcommand(with_operand(alloc, "check")?)?
        .subcommand(with_operand(alloc, "bench")?)?
        .subcommand(with_operand(alloc, "dump")?)
}

// What `clap` finds in the words of a command. Memory is the only thing that it can want.
fn parse<'a>(alloc: Global, words: &'a [String]) -> Result<ArgMatches<'a>, Error>
    requires { IsCommand words.now }
    ensures ok { IfOk result (λ m. (verb : Verb) → (operand : List ℕ) → IsCommandFor words.now verb operand
        → IsFound m verb operand) }
    ensures err { IfErr result (λ e. kind_of e ≡ OutOfMemory) }
{
    program(alloc)?.try_get_matches_from(words)
}

// The command in what `clap` found.
fn read<'a>(matches: &ArgMatches<'a>) -> Command<'a>
    requires { HasFound matches.now }
    ensures found { IsFound matches.now result.verb result.operand.now }
    ensures is_operand { IsOperand result.verb result.operand.now }
    ensures count { HasCount result.verb }
{
    let (word, found) = matches.subcommand().unwrap();
    let operand = found.get_str("OPERAND").unwrap();
    let verb = verb_of(word.as_bytes(), operand).unwrap();
    Command { verb, operand }
}

/// The command that the words are. The words are taken apart by `clap`, which fails only for want of memory here.
pub fn command<'a>(alloc: Global, words: &'a [String]) -> Result<Command<'a>, NoMemory>
    requires { IsCommand words.now }
    ensures exact { IfOk result (λ c. IsCommandFor words.now c.verb c.operand.now) }
    ensures count { IfOk result (λ c. HasCount c.verb) }
{
    let Ok(matches) = parse(alloc, words) else {
        return Err(NoMemory);
    };
    Ok(read(&matches))
}
