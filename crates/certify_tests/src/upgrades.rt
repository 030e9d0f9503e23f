//! Certificates in the second version.

ghost use Rattle.std.specs.Prelude.{◌≤◌, length};
ghost use Rattle.answer_text.specs.Texts.{IsCertOf};

use crate::tasks::{LAMPS, Pair, SCALES, TANK, UNSET};
use answer_text::write_upgrade;
use edge_io::MemorySink;
use num_ends::{List, NoMemory};
use pair_certificate::TaskCertificate;
use pair_text::PairFault;
use run_answers::{Answer, refused};
use std::alloc::Global;
use std::test::Fail;
use upgrade_command::read;

/// The most bytes of a text of a row.
const MOST: usize = 2048;

// The task, the text of the certificate, and the status and the text of the answer.
static UPGRADES: [(Pair, &str, u8, &str); 9] = [
    // of the first version: what tells nothing is left out
    (
        SCALES,
        "UNSOLVABLE 1\nbox (level)=false (left)=(-inf,1.5] (right)=(-inf,inf)\nbox (level)=any (left)=(-inf,inf) (right)=(-inf,inf)\nend\n",
        0,
        "UNSOLVABLE 2\nbox (level)=false (left)=(-inf,1.5]\nbox\nend\n",
    ),
    (
        LAMPS,
        "UNSOLVABLE 1\nbox (lit a)=any (lit b)=false (wired a)=any (wired b)=true\nend\n",
        0,
        "UNSOLVABLE 2\nbox (lit b)=false (wired b)=true\nend\n",
    ),
    (TANK, "UNSOLVABLE 1\nend\n", 0, "UNSOLVABLE 2\nend\n"),
    // of the second version: to itself
    (
        SCALES,
        "UNSOLVABLE 2\nbox (level)=false (left)=(-inf,1.5]\nbox\nstate (level)=true (left)=0 (right)=0.25\nend\n",
        0,
        "UNSOLVABLE 2\nbox (level)=false (left)=(-inf,1.5]\nbox\nstate (level)=true (left)=0 (right)=0.25\nend\n",
    ),
    // boxes and states in their order, numbers without needless zeros
    (
        SCALES,
        "UNSOLVABLE 2\nbox (level)=any (left)=[00.50,1.) (right)=(-.250,inf)\nbox (left)=(-inf,inf) (right)=[-0,0]\nstate (level)=true (left)=1 (right)=0.250\nstate (level)=false (left)=-0.0 (right)=.1\nstate (level)=true (left)=1 (right)=0.25\nend\n",
        0,
        "UNSOLVABLE 2\nbox (left)=[0.5,1) (right)=(-0.25,inf)\nbox (right)=[0,0]\nstate (level)=true (left)=1 (right)=0.25\nstate (level)=false (left)=0 (right)=0.1\nstate (level)=true (left)=1 (right)=0.25\nend\n",
    ),
    // nothing of it is checked
    (
        TANK,
        "UNSOLVABLE 1\nbox (water)=[1,1]\nstate (water)=1\nend\n",
        0,
        "UNSOLVABLE 2\nbox (water)=[1,1]\nstate (water)=1\nend\n",
    ),
    // refusals
    (
        TANK,
        "UNSOLVABLE 1\nbox (water)=[1,1]\nstate (water)=1\nend",
        4,
        "REFUSED certificate 4 ENDSEARLY\n",
    ),
    (
        TANK,
        "UNSOLVABLE 1\nbox (water)=[1,1]\nstate\nend\n",
        4,
        "REFUSED certificate 3 BADLINE\n",
    ),
    (UNSET, "", 4, "REFUSED UNSET (x)\n"),
];

// The text of a certificate in the second version, with the status of the answer.
fn written(alloc: Global, read: &TaskCertificate) -> Result<Answer, NoMemory>
    requires { IsCertOf read.now.task read.now.cert }
{
    let mut sink = MemorySink::new(alloc, 1024, List::new(alloc))?;
    match write_upgrade(alloc, &read.task, &read.cert, &mut sink) {
        Ok(()) => Ok(Answer {
            status: 0,
            text: List::from_vec(Vec::from_slice(alloc, sink.bytes())?),
        }),
        Err(_) => Err(NoMemory),
    }
}

// What `upgrade` answers.
fn answer(
    alloc: Global,
    domain: &[u8],
    problem: &[u8],
    certificate: &[u8],
) -> Result<Answer, NoMemory>
    requires domain_size { length domain.now ≤ 2048 }
    requires problem_size { length problem.now ≤ 2048 }
    requires certificate_size { length certificate.now ≤ 2048 }
{
    match read(alloc, domain, problem, certificate) {
        Ok(read) => {
            let answer = written(alloc, &read);
            read.discard();
            answer
        }
        Err(PairFault::Refused(refusal)) => refused(alloc, &refusal),
        Err(PairFault::NoMemory) => Err(NoMemory),
    }
}

// Whether `upgrade` answers the texts of a task and a certificate with this status and this text.
fn is_answer(
    alloc: Global,
    task: Pair,
    certificate: &str,
    status: u8,
    text: &str,
) -> Result<bool, NoMemory> {
    let (domain, problem) = task;
    if domain.len() > MOST || problem.len() > MOST || certificate.len() > MOST {
        return Ok(false);
    }
    let found = answer(
        alloc,
        domain.as_bytes(),
        problem.as_bytes(),
        certificate.as_bytes(),
    )?;
    Ok(found.status == status && found.text.as_slice() == text.as_bytes())
}

#[test]
fn certificates_are_upgraded(rt: HostRuntime) -> Result<(), Fail> {
    let alloc = rt.alloc();
    for &(task, certificate, status, text) in UPGRADES.iter() {
        assert!(rt;
            is_answer(alloc, task, certificate, status, text)?,
            "{certificate}{text}"
        );
    }
    Ok(())
}
