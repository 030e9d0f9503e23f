//! The words as a job.

ghost use Rattle.std.specs.Prelude.{◌≡◌, map, string_bytes};
ghost use Rattle.clap.specs.Matches.{first_value, found_of};
ghost use Rattle.enhsp_words.specs.Jobs.{Gives, has_its_options, job_of, job_of_values, job_with};

use crate::command_line::parse;
use crate::job::{Command, Job, WordsFault};
use crate::values::{Bounds, file_name, number};
use clap::ArgMatches;
use std::alloc::Global;

const LIMIT: Bounds = Bounds {
    least: 1,
    most: 1_000_000,
    default: 100_000,
};

const THREADS: Bounds = Bounds {
    least: 1,
    most: 16,
    default: 1,
};

const SIZE: Bounds = Bounds {
    least: 2,
    most: 64,
    default: 0,
};

/// The job that the words after the program's name ask for.
///
/// # Errors
/// `Usage` where the words are no job, and `NoMemory`.
pub fn read_words(alloc: Global, words: &[String]) -> Result<Job, WordsFault>
    ensures { Gives result (job_of (map string_bytes words.now)) }
{
    let matches = parse(alloc, words)?;
    job(alloc, &matches)
}

/// The job of a command line.
fn job(alloc: Global, matches: &ArgMatches) -> Result<Job, WordsFault>
    ensures { Gives result (job_of_values (first_value (found_of matches.now))) }
{
    let Some(command) = matches.get_str("command").and_then(Command::from_word) else {
        return Err(WordsFault::Usage);
    };
    if !has_its_options(command, matches) {
        return Err(WordsFault::Usage);
    }
    job_with(alloc, command, matches)
}

/// Whether the command has each option that it needs, and no other than it may have.
fn has_its_options(command: Command, matches: &ArgMatches) -> bool
    ensures { result ≡ has_its_options command (first_value (found_of matches.now)) }
{
    let options = command.options();
    options.domain.fits(matches.get_str("domain"))
        && options.problem.fits(matches.get_str("problem"))
        && options.plan.fits(matches.get_str("plan"))
        && options.certificate.fits(matches.get_str("certificate"))
        && options.limit.fits(matches.get_str("limit"))
        && options.workers.fits(matches.get_str("workers"))
        && options.relaxers.fits(matches.get_str("relaxers"))
        && options.size.fits(matches.get_str("size"))
}

/// The job of a command that has its options.
#[tactic(auto, unfolding(crate::specs::Jobs::job_with))]
fn job_with(alloc: Global, command: Command, matches: &ArgMatches) -> Result<Job, WordsFault>
    ensures { Gives result (job_with command (first_value (found_of matches.now))) }
{
    let third = matches.get_str("plan").or(matches.get_str("certificate"));
    Ok(Job {
        command,
        domain: file_name(alloc, matches.get_str("domain"))?,
        problem: file_name(alloc, matches.get_str("problem"))?,
        third: file_name(alloc, third)?,
        limit: number(LIMIT, matches.get_str("limit"))?,
        workers: number(THREADS, matches.get_str("workers"))?,
        relaxers: number(THREADS, matches.get_str("relaxers"))?,
        size: number(SIZE, matches.get_str("size"))?,
    })
}
