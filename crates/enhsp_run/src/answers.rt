//! Which answer a call gives.

ghost use Rattle.std.specs.Prelude.{◌≡◌, ◌<◌, ◌≤◌, IfOk, OnErr, Some, length, map, option_map, slice_get, string_bytes};
ghost use Rattle.enhsp_run.specs.Answers.{AnswersJob, AnswersTexts, IsAnswer, file_fault, usage};
ghost use Rattle.enhsp_run.specs.Commands.{FitFiles, certify_rules, entry_of, files_in, generate_rules, name_in, plan_rules, relax_rules, upgrade_rules, validate_rules};
ghost use Rattle.enhsp_run.specs.Outcomes.{CanTell, IsFaultOutcome, IsJob, IsMade, IsOutcomeOf};
ghost use Rattle.pair_text.specs.declared.refusals.Refusal.TheVariants.{TooLarge};
ghost use Rattle.run_answers.specs.Refused.{refused};
ghost use Rattle.enhsp_run.specs.declared.outcomes.Outcome.TheVariants.{Found, Upgraded, Written};
ghost use Rattle.whole_files.specs.Seen.{saw};

use crate::commands::{file_faults, files_of, wanted_files};
use crate::outcomes::{Form, Outcome};
use certify_command::good_certificates_are_certified;
use edge_io::Files;
use enhsp_words::{Command, Job, WordsFault, read_words};
use num_ends::{List, NoMemory, Text};
use pair_certificate::TaskCertificate;
use pair_text::{PairFault, Refusal, Source};
use run_answers::{Answer, refused};
use search_records::Record;
use std::alloc::Global;
use whole_files::{Gathered, read_all};

/// The answer to words that are no job.
fn usage(alloc: Global) -> Result<Answer, NoMemory>
    ensures { IfOk result (λ answer. answer ≡ usage) }
{
    let mut text = List::new(alloc);
    text.extend_from_slice(b"USAGE\n")?;
    Ok(Answer { status: 5, text })
}

/// What comes of a fault: the refusal that it is.
fn faulted(alloc: Global, fault: PairFault) -> Result<Outcome, NoMemory>
    ensures { IfOk result (IsFaultOutcome fault) }
{
    match fault {
        PairFault::Refused(refusal) => Ok(Outcome::Written(refused(alloc, &refusal)?)),
        PairFault::NoMemory => Err(NoMemory),
    }
}

/// What comes of a search: its record, to be told in this form, or why there is none.
fn searched(
    alloc: Global,
    form: Form,
    found: Result<Record, PairFault>,
) -> Result<Outcome, NoMemory>
    ensures { IfOk result (IsOutcomeOf (Found form) found) }
{
    match found {
        Ok(record) => Ok(Outcome::Found(form, record)),
        Err(fault) => faulted(alloc, fault),
    }
}

/// What comes of a certificate: its text in version 2, or why there is none.
fn upgraded(alloc: Global, read: Result<TaskCertificate, PairFault>) -> Result<Outcome, NoMemory>
    ensures { IfOk result (IsOutcomeOf Upgraded read) }
{
    match read {
        Ok(certificate) => Ok(Outcome::Upgraded(certificate)),
        Err(fault) => faulted(alloc, fault),
    }
}

/// What `plan` answers to these texts.
fn of_plan(alloc: Global, job: &Job, texts: &[Text]) -> Result<Outcome, NoMemory>
    requires { FitFiles (Some plan_rules.files) texts.now }
    ensures { IfOk result (CanTell (plan_rules.IsAnswer job.now texts.now)) }
{
    let found = plan_command::search(alloc, texts[0].as_slice(), texts[1].as_slice(), job.limit);
    searched(alloc, Form::Whole, found)
}

/// What `relax` answers to these texts.
fn of_relax(alloc: Global, job: &Job, texts: &[Text]) -> Result<Outcome, NoMemory>
    requires { FitFiles (Some relax_rules.files) texts.now }
    ensures { IfOk result (CanTell (relax_rules.IsAnswer job.now texts.now)) }
{
    let answer = relax_command::answer(alloc, texts[0].as_slice(), texts[1].as_slice())?;
    Ok(Outcome::Written(answer))
}

/// What `validate` answers to these texts.
fn of_validate(alloc: Global, job: &Job, texts: &[Text]) -> Result<Outcome, NoMemory>
    requires { FitFiles (Some validate_rules.files) texts.now }
    ensures { IfOk result (CanTell (validate_rules.IsAnswer job.now texts.now)) }
{
    let (domain, problem, plan) = (
        texts[0].as_slice(),
        texts[1].as_slice(),
        texts[2].as_slice(),
    );
    let answer = validate_command::answer(alloc, domain, problem, plan)?;
    Ok(Outcome::Written(answer))
}

/// What `certify` answers to these texts.
fn of_certify(alloc: Global, job: &Job, texts: &[Text]) -> Result<Outcome, NoMemory>
    requires { FitFiles (Some certify_rules.files) texts.now }
    ensures { IfOk result (CanTell (certify_rules.IsAnswer job.now texts.now)) }
{
    good_certificates_are_certified();
    let (domain, problem, certificate) = (
        texts[0].as_slice(),
        texts[1].as_slice(),
        texts[2].as_slice(),
    );
    let answer = certify_command::answer(alloc, domain, problem, certificate)?;
    Ok(Outcome::Written(answer))
}

/// What `upgrade` answers to these texts.
fn of_upgrade(alloc: Global, job: &Job, texts: &[Text]) -> Result<Outcome, NoMemory>
    requires { FitFiles (Some upgrade_rules.files) texts.now }
    ensures { IfOk result (CanTell (upgrade_rules.IsAnswer job.now texts.now)) }
{
    let (domain, problem, certificate) = (
        texts[0].as_slice(),
        texts[1].as_slice(),
        texts[2].as_slice(),
    );
    let read = upgrade_command::read(alloc, domain, problem, certificate);
    upgraded(alloc, read)
}

/// What `generate` answers.
fn of_generate(alloc: Global, job: &Job, texts: &[Text]) -> Result<Outcome, NoMemory>
    requires texts { FitFiles (Some generate_rules.files) texts.now }
    requires some { 2 ≤ job.now.size }
    requires few { job.now.size ≤ 64 }
    ensures { IfOk result (CanTell (generate_rules.IsAnswer job.now texts.now)) }
{
    let found = generate_command::search(alloc, job.size, job.limit);
    searched(alloc, Form::Summary(job.size), found)
}

/// What the texts of the files of a job are answered.
fn of_texts(alloc: Global, job: &Job, texts: &[Text]) -> Result<Outcome, NoMemory>
    requires job { IsJob job.now }
    requires texts { FitFiles (files_in (entry_of job.now.command)) texts.now }
    ensures { IfOk result (CanTell (AnswersTexts (entry_of job.now.command) job.now texts.now)) }
{
    match job.command {
        Command::Plan => of_plan(alloc, job, texts),
        Command::Relax => of_relax(alloc, job, texts),
        Command::Validate => of_validate(alloc, job, texts),
        Command::Certify => of_certify(alloc, job, texts),
        Command::Upgrade => of_upgrade(alloc, job, texts),
        Command::Generate => of_generate(alloc, job, texts),
        _ => unreachable!(),
    }
}

/// Takes one of these answers.
fn taken(answers: List<Answer>, place: u32) -> Answer
    requires { place < length answers }
    ensures { slice_get answers place ≡ Some result }
{
    let mut answers = answers.into_vec();
    answers.swap_remove(place as usize)
}

/// The answer where a file has more bytes than it may have.
fn too_large(alloc: Global, file: Source) -> Result<Outcome, NoMemory>
    ensures { IfOk result (λ outcome. outcome ≡ Written (refused (TooLarge file))) }
{
    Ok(Outcome::Written(refused(alloc, &Refusal::TooLarge(file))?))
}

/// The answer to a job whose command reads these files.
///
/// The answers to files that can't be read are made before one is begun, so that a fault is told even where no memory is left.
fn of_files<F: Files>(
    alloc: Global,
    job: &Job,
    sources: &[Source],
    files: &mut F,
) -> Result<Outcome, NoMemory>
    requires job { IsJob job.now }
    requires sources { files_in (entry_of job.now.command) ≡ Some sources.now }
    ensures answer { IfOk result (CanTell (AnswersJob (entry_of job.now.command) (saw F.Files files.old files.new) job.now)) }
    ensures made { IfOk result (λ outcome. IsMade outcome → F.faults files.new ≡ F.faults files.old) }
    ensures memory { OnErr result (F.faults files.new ≡ F.faults files.old) }
{
    let wanted = wanted_files(alloc, job, sources)?;
    let faults = file_faults(alloc, job, sources)?;
    match read_all(alloc, files, wanted.as_slice())? {
        Gathered::Texts(texts) => of_texts(alloc, job, texts.as_slice()),
        Gathered::Missing(place) => Ok(Outcome::Written(taken(faults, place))),
        Gathered::TooLarge(place) => too_large(alloc, sources[place as usize]),
    }
}

/// The answer to a job. A command that isn't there yet is refused before a file is begun.
fn of_job<F: Files>(alloc: Global, job: &Job, files: &mut F) -> Result<Outcome, NoMemory>
    requires { IsJob job.now }
    ensures answer { IfOk result (CanTell (AnswersJob (entry_of job.now.command) (saw F.Files files.old files.new) job.now)) }
    ensures made { IfOk result (λ outcome. IsMade outcome → F.faults files.new ≡ F.faults files.old) }
    ensures memory { OnErr result (F.faults files.new ≡ F.faults files.old) }
{
    match files_of(job.command) {
        Some(sources) => of_files(alloc, job, sources, files),
        None => Ok(Outcome::Written(refused(alloc, &Refusal::Unbuilt)?)),
    }
}

/// The answer to the words, by the files that they name.
pub(crate) fn answer<F: Files>(
    alloc: Global,
    words: &[String],
    files: &mut F,
) -> Result<Outcome, NoMemory>
    ensures answer { IfOk result (CanTell (IsAnswer (saw F.Files files.old files.new) (map string_bytes words.now))) }
    ensures made { IfOk result (λ outcome. IsMade outcome → F.faults files.new ≡ F.faults files.old) }
    ensures memory { OnErr result (F.faults files.new ≡ F.faults files.old) }
{
    match read_words(alloc, words) {
        Err(WordsFault::NoMemory) => Err(NoMemory),
        Err(WordsFault::Usage) => Ok(Outcome::Written(usage(alloc)?)),
        Ok(job) => of_job(alloc, &job, files),
    }
}
