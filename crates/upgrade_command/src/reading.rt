//! The certificate that the command writes.

ghost use Rattle.std.specs.Prelude.{◌≤◌, ◌^◌, IfErr, IfOk, length};
ghost use Rattle.answer_text.specs.Texts.{IsCertOf};
ghost use Rattle.pair_certificate.specs.Readings.{IsFault};
ghost use Rattle.upgrade_command.specs.Answers.{IsAnswer, upgraded};

use pair_certificate::{TaskCertificate, read_certificate};
use pair_text::PairFault;
use std::alloc::Global;

/// The certificate that `upgrade` writes in version 2, with its task, for the texts of a domain, a problem and a certificate,
/// of at most 2^30 bytes each. Nothing of it is checked.
///
/// # Errors
/// The refusal of other texts, or `NoMemory` where there is none for the pair, its task or the certificate.
pub fn read(
    alloc: Global,
    domain: &[u8],
    problem: &[u8],
    certificate: &[u8],
) -> Result<TaskCertificate, PairFault>
    requires domain_size { length domain.now ≤ 2 ^ 30 }
    requires problem_size { length problem.now ≤ 2 ^ 30 }
    requires certificate_size { length certificate.now ≤ 2 ^ 30 }
    ensures answer { IfOk result (λ r. IsAnswer domain.now problem.now certificate.now (upgraded r.task r.cert)) }
    ensures cert { IfOk result (λ r. IsCertOf r.task r.cert) }
    ensures fault { IfErr result (IsFault domain.now problem.now certificate.now) }
{
    read_certificate(alloc, domain, problem, certificate)
}
