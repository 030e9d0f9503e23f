//! Laws of texts read as certificates. Each function states some and does nothing.

ghost use Rattle.std.specs.Prelude.{◌≡◌, ◌≢◌, ℕ, List};
ghost use Rattle.ground_task.specs.States.{StateValue};
ghost use Rattle.ground_task.specs.Tasks.{TaskValue};
ghost use Rattle.ground_task.specs.Valid.{IsValid};
ghost use Rattle.box_model.specs.declared.state_box.StateBox.{StateBox};
ghost use Rattle.cert_reader.specs.declared.faults.CertFault.{CertFault};
ghost use Rattle.cert_reader.specs.declared.faults.CertFault.TheVariants.{NoMemory};
ghost use Rattle.cert_reader.specs.Certificates.{IsFirstFault, ReadsAs};

/// Each text reads as one certificate, or has one first fault, and not both.
pub fn answers()
    ensures one_certificate { (t : TaskValue) (text : List ℕ) (boxes others : List StateBox) (states further : List StateValue) → IsValid t.raw
        → ReadsAs t text boxes states → ReadsAs t text others further → (boxes ≡ others) × (states ≡ further) }
    ensures one_fault { (t : TaskValue) (text : List ℕ) (fault other : CertFault) → IsValid t.raw → fault ≢ NoMemory → other ≢ NoMemory
        → IsFirstFault t text fault → IsFirstFault t text other → fault ≡ other }
    ensures not_both { (t : TaskValue) (text : List ℕ) (boxes : List StateBox) (states : List StateValue) (fault : CertFault) → IsValid t.raw
        → fault ≢ NoMemory → ReadsAs t text boxes states → IsFirstFault t text fault → ⊥ }
    ensures not_neither { (t : TaskValue) (text : List ℕ) → ((boxes : List StateBox) (states : List StateValue) → ReadsAs t text boxes states → ⊥)
        → ((fault : CertFault) → fault ≢ NoMemory → IsFirstFault t text fault → ⊥) → ⊥ }
{}
