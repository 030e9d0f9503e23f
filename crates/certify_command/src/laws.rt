//! The law of the answers to accepted texts. The function states it and does nothing.

ghost use Rattle.std.specs.Prelude.{◌≡◌, ◌↔◌, ℕ, List};
ghost use Rattle.dead_ends.specs.Certificates.{IsGood, IsNowhereOver};
ghost use Rattle.run_answers.specs.declared.answers.Answer.{Answer};
ghost use Rattle.certify_command.specs.Answers.{IsAccepted, IsAnswer};

use cert_check::laws::refused_certificates;

/// To accepted texts the command answers with status 0 exactly where the certificate that they give is good and no number
/// leaves its range on a state line of it.
pub fn good_certificates_are_certified()
    ensures { (domain problem certificate : List ℕ) (accepted : IsAccepted domain problem certificate) (answer : Answer) → IsAnswer domain problem certificate answer
        → answer.status ≡ 0 ↔ (IsGood accepted.groundable.task accepted.cert.boxes accepted.cert.states × IsNowhereOver accepted.groundable.task accepted.cert.states) }
{
    refused_certificates();
}
