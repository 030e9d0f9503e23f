//! Command lines with their jobs, and words that are none.

use enhsp_words::{Job, WordsFault, read_words};
use num_ends::Text;
use std::alloc::{AllocError, Global};
use std::str::from_utf8;
use std::test::Fail;

/// Words that are no job.
const NONE: &str = "no job";

// Words, parted by single spaces, where `''` is the empty word, and their job: the command, the names of the three files, the
// limit, the workers, the relaxers and the size.
static LINES: [(&str, &str); 85] = [
    ("plan -o d -f p", "Plan d p '' 100000 1 1 0"),
    ("-o d plan -f p", "Plan d p '' 100000 1 1 0"),
    ("-o d -f p plan", "Plan d p '' 100000 1 1 0"),
    ("plan -f p -o d", "Plan d p '' 100000 1 1 0"),
    ("plan -o=d -f=p", "Plan d p '' 100000 1 1 0"),
    ("plan -od -fp", "Plan d p '' 100000 1 1 0"),
    ("plan -o==d -f-p", "Plan =d -p '' 100000 1 1 0"),
    ("plan -oplan -frelax", "Plan plan relax '' 100000 1 1 0"),
    ("plan -o - -f p", "Plan - p '' 100000 1 1 0"),
    ("plan -o d -f p --", "Plan d p '' 100000 1 1 0"),
    ("-o d -f p -- plan", "Plan d p '' 100000 1 1 0"),
    (
        "plan -o d -f p --limit 5 --workers 2 --relaxers 3",
        "Plan d p '' 5 2 3 0",
    ),
    (
        "plan --limit=1000000 --workers=16 --relaxers=16 -o d -f p",
        "Plan d p '' 1000000 16 16 0",
    ),
    ("plan -o d -f p --limit 0000010", "Plan d p '' 10 1 1 0"),
    (
        "plan -o d -f p --limit 1 --workers 0000001",
        "Plan d p '' 1 1 1 0",
    ),
    ("relax -o d -f p --relaxers 4", "Relax d p '' 100000 1 4 0"),
    ("validate -o d -f p -p s", "Validate d p s 100000 1 1 0"),
    ("certify -o d -f p -c s", "Certify d p s 100000 1 1 0"),
    ("generate --size 2", "Generate '' '' '' 100000 1 1 2"),
    ("generate --limit 7 --size=64", "Generate '' '' '' 7 1 1 64"),
    ("upgrade -o d -f p -cs", "Upgrade d p s 100000 1 1 0"),
    (
        "adl -o d -f p --limit 5 --workers 2 --relaxers 3",
        "Adl d p '' 5 2 3 0",
    ),
    ("expand -o d -f p", "Expand d p '' 100000 1 1 0"),
    (
        "optimal -o d -f p --limit 5 --workers 2",
        "Optimal d p '' 5 2 1 0",
    ),
    (
        "certify-cost -o d -f p -c s",
        "CertifyCost d p s 100000 1 1 0",
    ),
    ("steps -o d -f p -p s", "Steps d p s 100000 1 1 0"),
    ("look -o d -f p --relaxers 2", "Look d p '' 100000 1 2 0"),
    ("", NONE),
    ("plan", NONE),
    ("plan -o d.pddl", NONE),
    ("plan -f p", NONE),
    ("-o d -f p", NONE),
    ("validate -o d -f p", NONE),
    ("certify -o d -f p -p s", NONE),
    ("generate --limit 5", NONE),
    ("generate -o d -f p", NONE),
    ("upgrade -o d -f p", NONE),
    ("certify-cost -o d -f p", NONE),
    ("steps -o d -f p -c s", NONE),
    ("plan -o d -f p -p s", NONE),
    ("plan -o d -f p --size 2", NONE),
    ("relax -o d -f p --limit 10", NONE),
    ("relax -o d -f p --workers 1", NONE),
    ("validate -o d -f p -p s --relaxers 1", NONE),
    ("generate --size 2 --workers 1", NONE),
    ("generate --size 2 -o d", NONE),
    ("expand -o d -f p --limit 1", NONE),
    ("optimal -o d -f p --relaxers 1", NONE),
    ("look -o d -f p --workers 1", NONE),
    ("Plan -o d -f p", NONE),
    ("plans -o d -f p", NONE),
    ("certifycost -o d -f p -c s", NONE),
    ("- -o d -f p", NONE),
    ("plan relax -o d -f p", NONE),
    ("-- plan -o d -f p", NONE),
    ("plan -o d -f p -- s", NONE),
    ("plan -o d -o d -f p", NONE),
    ("plan -o d -f p --limit 5 --limit 5", NONE),
    ("plan -o -f p", NONE),
    ("plan -o -- d -f p", NONE),
    ("plan -f p -o", NONE),
    ("plan -o d -f p --limit", NONE),
    ("plan -o '' -f p", NONE),
    ("plan -o= -f p", NONE),
    ("validate -o d -f p -p ''", NONE),
    ("plan -o d -f p --limit 0", NONE),
    ("plan -o d -f p --limit 1000001", NONE),
    ("plan -o d -f p --limit 00000010", NONE),
    ("plan -o d -f p --limit +5", NONE),
    ("plan -o d -f p --limit -5", NONE),
    ("plan -o d -f p --limit=-5", NONE),
    ("plan -o d -f p --limit 5x", NONE),
    ("plan -o d -f p --limit=", NONE),
    ("plan -o d -f p --workers 0", NONE),
    ("plan -o d -f p --workers 17", NONE),
    ("plan -o d -f p --relaxers 0", NONE),
    ("plan -o d -f p --relaxers 17", NONE),
    ("generate --size 1", NONE),
    ("generate --size 65", NONE),
    ("plan -o d -f p --lim 5", NONE),
    ("plan --domain d -f p", NONE),
    ("plan -o d -f p -x", NONE),
    ("plan -o d -f p -h", NONE),
    ("plan -o d -f p --help", NONE),
    ("plan -o d -f p --version", NONE),
];

fn words_of(alloc: Global, line: &str) -> Result<Vec<String>, AllocError> {
    let mut words = Vec::new(alloc);
    if line.is_empty() {
        return Ok(words);
    }
    for word in line.split(' ') {
        let word = if word == "''" { "" } else { word };
        words.push(word.to_string(alloc)?)?;
    }
    Ok(words)
}

fn name_of(text: &Text) -> &str {
    match from_utf8(text.as_slice()) {
        Ok("") => "''",
        Ok(name) => name,
        Err(_) => "?",
    }
}

fn line_of(alloc: Global, job: &Job) -> Result<String, AllocError> {
    let command = job.command;
    let (domain, problem, third) = (
        name_of(&job.domain),
        name_of(&job.problem),
        name_of(&job.third),
    );
    let (limit, workers, relaxers, size) = (job.limit, job.workers, job.relaxers, job.size);
    format!(in alloc; "{command:?} {domain} {problem} {third} {limit} {workers} {relaxers} {size}")
}

/// The job of a line, or that it is none.
fn read(alloc: Global, line: &str) -> Result<String, AllocError> {
    match read_words(alloc, words_of(alloc, line)?.as_slice()) {
        Ok(job) => line_of(alloc, &job),
        Err(WordsFault::Usage) => NONE.to_string(alloc),
        Err(WordsFault::NoMemory) => Err(AllocError),
    }
}

#[test]
fn words_and_their_jobs(rt: HostRuntime) -> Result<(), Fail> {
    let alloc = rt.alloc();
    for &(line, job) in LINES.iter() {
        assert_eq!(rt; read(alloc, line)?.as_str(), job, "at {line}");
    }
    Ok(())
}
