//! What the command answers.

ghost use Rattle.std.specs.Prelude.{◌≤◌, ◌^◌, All, IfOk, length};
ghost use Rattle.ground_task.specs.Tasks.{IsStateOf};
ghost use Rattle.box_model.specs.Boxes.{IsBoxOf};
ghost use Rattle.certify_command.specs.Answers.{IsAnswer};
ghost use Rattle.certify_command.specs.Verdicts.{IsTaskVerdict};

use crate::verdicts::checked_answer;
use cert_check::check;
use cert_text::Cert;
use ground_task::Task;
use num_ends::NoMemory;
use pair_certificate::read_certificate;
use pair_text::PairFault;
use run_answers::{Answer, refused};
use std::alloc::Global;

/// What is answered of a certificate of a task.
fn task_answer(alloc: Global, task: &Task, cert: &Cert) -> Result<Answer, NoMemory>
    requires boxes { All (IsBoxOf task.now) cert.now.boxes }
    requires states { All (IsStateOf task.now) cert.now.states }
    requires few_boxes { length cert.now.boxes ≤ 40000 }
    requires few_states { length cert.now.states ≤ 500000 }
    ensures { IfOk result (IsTaskVerdict task.now cert.now) }
{
    let checked = check(alloc, task, cert)?;
    checked_answer(alloc, task, checked)
}

/// What `certify` answers to the texts of a domain, a problem and a certificate, of at most 2^30 bytes each: status 0 exactly
/// where the certificate that the third text reads as for the ground task of their pair is good, and no number leaves its
/// range on a state line, and then the pair has no plan; status 1 with the first line against which something stands, and
/// what stands first against it; else why the texts are refused.
///
/// # Errors
/// `NoMemory` where there is none for the pair, its task, the certificate or the text.
pub fn answer(
    alloc: Global,
    domain: &[u8],
    problem: &[u8],
    certificate: &[u8],
) -> Result<Answer, NoMemory>
    requires domain_size { length domain.now ≤ 2 ^ 30 }
    requires problem_size { length problem.now ≤ 2 ^ 30 }
    requires certificate_size { length certificate.now ≤ 2 ^ 30 }
    ensures { IfOk result (IsAnswer domain.now problem.now certificate.now) }
{
    match read_certificate(alloc, domain, problem, certificate) {
        Ok(read) => {
            let answer = task_answer(alloc, &read.task, &read.cert);
            read.discard();
            answer
        }
        Err(PairFault::Refused(refusal)) => refused(alloc, &refusal),
        Err(PairFault::NoMemory) => Err(NoMemory),
    }
}
