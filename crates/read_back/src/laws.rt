//! Laws of certificates that are written and read again. Each function states some and does nothing.

ghost use Rattle.std.specs.Prelude.{◌≡◌, ◌≢◌, ◌↔◌, ℕ, List, length, map};
ghost use Rattle.ground_task.specs.Placed.{IsPlaced};
ghost use Rattle.ground_task.specs.States.{StateValue};
ghost use Rattle.ground_task.specs.Tasks.{AreFirstInRange, TaskValue};
ghost use Rattle.ground_task.specs.Valid.{IsValid};
ghost use Rattle.box_model.specs.Boxes.{Contains};
ghost use Rattle.box_model.specs.Least.{IsDead};
ghost use Rattle.box_model.specs.declared.state_box.StateBox.{StateBox};
ghost use Rattle.cert_text.specs.declared.cert.Cert.{Cert};
ghost use Rattle.cert_reader.specs.Certificates.{IsFirstFault, ReadsAs};
ghost use Rattle.cert_reader.specs.declared.faults.CertFault.{CertFault};
ghost use Rattle.cert_reader.specs.declared.faults.CertFault.TheVariants.{NoMemory};
ghost use Rattle.cert_check.specs.Checks.{IsChecked};
ghost use Rattle.cert_check.specs.declared.answers.Checked.{Checked};
ghost use Rattle.cert_check.specs.declared.answers.Checked.TheVariants.{Certified};
ghost use Rattle.dead_ends.specs.Certificates.{IsGood, IsNowhereOver};
ghost use Rattle.answer_text.specs.Texts.{certificate_text};
ghost use Rattle.read_back.specs.Certificates.{IsExhaustedText, IsWritable, trimmed_box};

use cert_check::laws::refused_certificates;
use cert_reader::laws::answers;

/// A box whose ends are brought to the fewest places has the same states, and is dead exactly where the box is. So a certificate is
/// good exactly where the one with such boxes is.
pub fn fewest_places_change_nothing()
    ensures contains { (places : List ℕ) (b : StateBox) (s : StateValue) → Contains places (trimmed_box b) s ↔ Contains places b s }
    ensures dead { (t : TaskValue) (b : StateBox) → IsDead t (trimmed_box b) ↔ IsDead t b }
    ensures good { (t : TaskValue) (boxes : List StateBox) (states : List StateValue)
        → IsGood t (map trimmed_box boxes) states ↔ IsGood t boxes states }
{}

/// The text of a certificate in version 2 reads as its boxes and its states, in their order, and as nothing else. The ends of the
/// boxes that are read have the fewest places. Those of a certificate that was read have them already, so it is the same when it
/// is written and read again.
pub fn certificates_are_read_back()
    ensures reads { (t : TaskValue) (cert : Cert) → IsValid t.raw → IsPlaced t.raw t.places → IsWritable t cert
        → ReadsAs t (certificate_text t cert) (map trimmed_box cert.boxes) cert.states }
    ensures only { (t : TaskValue) (cert : Cert) (boxes : List StateBox) (states : List StateValue) → IsValid t.raw
        → IsPlaced t.raw t.places → IsWritable t cert → ReadsAs t (certificate_text t cert) boxes states
        → (boxes ≡ map trimmed_box cert.boxes) × (states ≡ cert.states) }
    ensures faultless { (t : TaskValue) (cert : Cert) (fault : CertFault) → IsValid t.raw → IsPlaced t.raw t.places
        → IsWritable t cert → fault ≢ NoMemory → IsFirstFault t (certificate_text t cert) fault → ⊥ }
    ensures again { (t : TaskValue) (text : List ℕ) (cert : Cert) → IsValid t.raw → IsPlaced t.raw t.places
        → ReadsAs t text cert.boxes cert.states → ReadsAs t (certificate_text t cert) cert.boxes cert.states }
{
    answers();
}

/// The text of a search that shows that no plan exists reads as a certificate, and whatever it reads as is good, with no number out of
/// its range. So a check of it answers that it is certified.
pub fn exhausted_records_are_read_back()
    ensures reads { (t : TaskValue) (text : List ℕ) → IsValid t.raw → IsPlaced t.raw t.places
        → AreFirstInRange t.places t.raw.values (length t.raw.fluents) → IsExhaustedText t text
        → (boxes : List StateBox) × (states : List StateValue) × ReadsAs t text boxes states }
    ensures good { (t : TaskValue) (text : List ℕ) (boxes : List StateBox) (states : List StateValue) → IsValid t.raw
        → IsPlaced t.raw t.places → AreFirstInRange t.places t.raw.values (length t.raw.fluents) → IsExhaustedText t text
        → ReadsAs t text boxes states → IsGood t boxes states × IsNowhereOver t states }
    ensures certified { (t : TaskValue) (text : List ℕ) (boxes : List StateBox) (states : List StateValue) (checked : Checked)
        → IsValid t.raw → IsPlaced t.raw t.places → AreFirstInRange t.places t.raw.values (length t.raw.fluents)
        → IsExhaustedText t text → ReadsAs t text boxes states → IsChecked t boxes states checked → checked ≡ Certified }
{
    answers();
    refused_certificates();
}
