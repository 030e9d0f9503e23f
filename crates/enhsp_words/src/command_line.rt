//! The command line, as clap reads it.

ghost use Rattle.std.specs.Prelude.{◌≡◌, ◌≢◌, IfOk, MatchResult, false, map, string_bytes, true};
ghost use Rattle.clap.specs.Matches.{first_value, found_of};
ghost use Rattle.clap.specs.Simple.{app_of};
ghost use Rattle.clap.specs.Values.{kind_of};
ghost use Rattle.clap.specs.Walk.{rule_of};
ghost use Rattle.enhsp_words.specs.CommandLine.{bare, is_command_line, command_line, long_option, positional, short_option, value_in};

use crate::job::WordsFault;
use clap::error::ErrorKind;
use clap::{Arg, ArgMatches, Command, Error};
use std::alloc::{AllocError, Global};

/// The one positional word.
fn positional<'a>(alloc: Global, id: &'a str) -> Arg<'a>
    ensures rule { rule_of result ≡ positional id.entry.now }
    ensures own { result.global ≡ false }
{
    Arg::new(alloc, id)
}

/// An option with a letter and one value.
fn short_option<'a>(alloc: Global, id: &'a str, letter: char) -> Arg<'a>
    ensures rule { rule_of result ≡ short_option id.entry.now letter }
    ensures own { result.global ≡ false }
{
    Arg::new(alloc, id).short(letter)
}

/// An option with a name and one value.
fn long_option<'a>(alloc: Global, name: &'a str) -> Arg<'a>
    ensures rule { rule_of result ≡ long_option name.entry.now }
    ensures own { result.global ≡ false }
{
    Arg::new(alloc, name).long(name)
}

/// A command that takes no word yet.
fn bare<'a>(alloc: Global) -> Command<'a>
    ensures { app_of result ≡ bare }
{
    Command::new(alloc, "enhsp")
        .no_binary_name(true)
        .disable_help_flag(true)
        .disable_version_flag(true)
}

/// The command line.
fn command_line<'a>(alloc: Global) -> Result<Command<'a>, AllocError>
    ensures { IfOk result (λ command. app_of command ≡ command_line) }
{
    bare(alloc)
        .arg(positional(alloc, "command"))?
        .arg(short_option(alloc, "domain", 'o'))?
        .arg(short_option(alloc, "problem", 'f'))?
        .arg(short_option(alloc, "plan", 'p'))?
        .arg(short_option(alloc, "certificate", 'c'))?
        .arg(long_option(alloc, "limit"))?
        .arg(long_option(alloc, "workers"))?
        .arg(long_option(alloc, "relaxers"))?
        .arg(long_option(alloc, "size"))
}

/// Whether a parse failed by the words or for want of memory.
fn cause_of(error: &Error) -> WordsFault
    ensures { result ≡ WordsFault.Usage → kind_of error.now ≢ ErrorKind.OutOfMemory }
{
    if error.kind() == ErrorKind::OutOfMemory {
        WordsFault::NoMemory
    } else {
        WordsFault::Usage
    }
}

/// What stands in the words, by the ids.
pub(crate) fn parse<'a>(alloc: Global, words: &'a [String]) -> Result<ArgMatches<'a>, WordsFault>
    ensures { MatchResult result
        (λ m. (is_command_line (map string_bytes words.entry.now) ≡ true)
        × (first_value (found_of m) ≡ value_in (map string_bytes words.entry.now)))
        (λ fault. fault ≡ WordsFault.Usage → is_command_line (map string_bytes words.entry.now) ≡ false) }
{
    let Ok(command) = command_line(alloc) else {
        return Err(WordsFault::NoMemory);
    };
    match command.try_get_matches_from(words) {
        Ok(matches) => Ok(matches),
        Err(error) => Err(cause_of(&error)),
    }
}
