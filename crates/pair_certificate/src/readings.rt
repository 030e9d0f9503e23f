//! A pair's ground task, and the certificate that a text reads as for it.

ghost use Rattle.std.specs.Prelude.{◌≡◌, ◌≤◌, ◌^◌, All, IfErr, IfOk, length};
ghost use Rattle.std.specs.Option.{option_map_or};
ghost use Rattle.ground_task.specs.Tasks.{IsStateOf};
ghost use Rattle.box_model.specs.Boxes.{IsBoxOf};
ghost use Rattle.pair_text.specs.declared.refusals.PairFault.TheVariants as answer;
ghost use Rattle.pair_certificate.specs.Readings.{IsFault, IsReading, line_refusal};

use cert_reader::{CertFault, read_cert};
use cert_text::Cert;
use ground_task::Task;
use pair_task::read_whole_task;
use pair_text::{LineReason, PairFault, Refusal};
use std::alloc::Global;

/// A ground task, and a certificate whose boxes and states are the task's.
#[derive(Drop)]
pub struct TaskCertificate {
    pub task: Task,
    pub cert: Cert,
}

impl TaskCertificate {
    /// Lets both go.
    pub fn discard(self) {}
}

/// What reading answers where the text of a certificate has a fault.
fn line_fault(fault: CertFault) -> PairFault
    ensures { result ≡ option_map_or answer.Refused (line_refusal fault) answer.NoMemory }
{
    let (line, reason) = match fault {
        CertFault::BadLine(line) => (line, LineReason::BadLine),
        CertFault::EndsEarly(line) => (line, LineReason::EndsEarly),
        CertFault::TooMany(line) => (line, LineReason::TooMany),
        CertFault::NoMemory => return PairFault::NoMemory,
    };
    PairFault::Refused(Refusal::InCertificate(line, reason))
}

// Lets a task go.
fn discard(_task: Task) {}

/// The ground task of the pair that the texts of a domain and a problem spell, and the certificate that a text reads as for
/// it. Each text has at most 2^30 bytes. Other texts are answered by the first reason against them: one against the pair or
/// its ground task comes before the first fault of the certificate's text.
pub fn read_certificate(
    alloc: Global,
    domain: &[u8],
    problem: &[u8],
    certificate: &[u8],
) -> Result<TaskCertificate, PairFault>
    requires domain_size { length domain.now ≤ 2 ^ 30 }
    requires problem_size { length problem.now ≤ 2 ^ 30 }
    requires certificate_size { length certificate.now ≤ 2 ^ 30 }
    ensures read { IfOk result (λ r. IsReading domain.now problem.now certificate.now r.task r.cert) }
    ensures boxes { IfOk result (λ r. All (IsBoxOf r.task) r.cert.boxes) }
    ensures states { IfOk result (λ r. All (IsStateOf r.task) r.cert.states) }
    ensures few_boxes { IfOk result (λ r. length r.cert.boxes ≤ 40000) }
    ensures few_states { IfOk result (λ r. length r.cert.states ≤ 500000) }
    ensures fault { IfErr result (IsFault domain.now problem.now certificate.now) }
{
    match read_whole_task(alloc, domain, problem) {
        Ok(task) => match read_cert(alloc, &task, certificate) {
            Ok(cert) => Ok(TaskCertificate { task, cert }),
            Err(fault) => {
                discard(task);
                Err(line_fault(fault))
            }
        },
        Err(fault) => Err(fault),
    }
}
