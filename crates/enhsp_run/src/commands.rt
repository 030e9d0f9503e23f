//! The commands, the files that each reads, and its answer to their texts.

ghost use Rattle.std.specs.Prelude.{◌≡◌, ◌≤◌, IfOk, Some, length, map, option_map};
ghost use Rattle.std.specs.List.{AllZip};
ghost use Rattle.enhsp_run.specs.Answers.{file_fault};
ghost use Rattle.enhsp_run.specs.Commands.{entry_of, files_in, most_bytes, name_in, wanted_file};

use enhsp_words::{Command, Job};
use num_ends::{List, NoMemory, Text};
use pair_text::Source;
use run_answers::Answer;
use std::alloc::Global;
use whole_files::Wanted;

static NONE: [Source; 0] = [];

static PAIR: [Source; 2] = [Source::Domain, Source::Problem];

static PAIR_AND_PLAN: [Source; 3] = [Source::Domain, Source::Problem, Source::Plan];

static PAIR_AND_CERTIFICATE: [Source; 3] = [Source::Domain, Source::Problem, Source::Certificate];

/// The files that a command reads, in their order; `None` where it isn't there yet.
pub(crate) fn files_of(command: Command) -> Option<&'static [Source]>
    ensures { option_map (λ files. files.now) result ≡ files_in (entry_of command) }
{
    match command {
        Command::Plan | Command::Relax => Some(&PAIR),
        Command::Validate => Some(&PAIR_AND_PLAN),
        Command::Certify | Command::Upgrade => Some(&PAIR_AND_CERTIFICATE),
        Command::Generate => Some(&NONE),
        _ => None,
    }
}

/// The name of a file of a job.
fn name_in(job: &Job, file: Source) -> &[u8]
    ensures { result.now ≡ name_in job.now file }
{
    match file {
        Source::Domain => job.domain.as_slice(),
        Source::Problem => job.problem.as_slice(),
        Source::Plan | Source::Certificate => job.third.as_slice(),
    }
}

/// The most bytes that a file may have: 1 MiB, and 1 GiB for a certificate.
fn most_bytes(file: Source) -> u32
    ensures { result ≡ most_bytes file }
{
    match file {
        Source::Domain | Source::Problem | Source::Plan => 1_048_576,
        Source::Certificate => 1_073_741_824,
    }
}

/// A file of a job, as one that is to be read.
fn wanted_file(alloc: Global, job: &Job, file: Source) -> Result<Wanted, NoMemory>
    ensures { IfOk result (λ wanted. wanted ≡ wanted_file job.now file) }
{
    let name = Text::from_vec(Vec::from_slice(alloc, name_in(job, file))?);
    Ok(Wanted {
        name,
        limit: most_bytes(file),
    })
}

/// The files of a job, as those that are to be read.
pub(crate) fn wanted_files(
    alloc: Global,
    job: &Job,
    files: &[Source],
) -> Result<List<Wanted>, NoMemory>
    ensures { IfOk result (λ wanted. wanted ≡ map (wanted_file job.now) files.now) }
{
    let mut wanted = List::new(alloc);
    'each: for file in files {
        wanted.push(wanted_file(alloc, job, *file)?)?;
    }
    Ok(wanted)
}

/// The answer where a file of a job could not be read.
fn file_fault(alloc: Global, job: &Job, file: Source) -> Result<Answer, NoMemory>
    ensures { IfOk result (λ answer. answer ≡ file_fault (name_in job.now file)) }
{
    let mut text = List::new(alloc);
    text.extend_from_slice(b"FILE FAULT ")?;
    text.extend_from_slice(name_in(job, file))?;
    text.push(b'\n')?;
    Ok(Answer { status: 6, text })
}

/// The answers where one of the files of a job could not be read, file by file.
pub(crate) fn file_faults(
    alloc: Global,
    job: &Job,
    files: &[Source],
) -> Result<List<Answer>, NoMemory>
    ensures { IfOk result (λ faults. faults ≡ map (λ file. file_fault (name_in job.now file)) files.now) }
{
    let mut faults = List::new(alloc);
    'each: for file in files {
        faults.push(file_fault(alloc, job, *file)?)?;
    }
    Ok(faults)
}
