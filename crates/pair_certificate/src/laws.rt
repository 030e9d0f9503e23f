//! Laws of certificates for the tasks of texts. Each function states one and does nothing.

ghost use Rattle.std.specs.Prelude.{◌≡◌, ◌≤◌, ◌^◌, ℕ, List, length};
ghost use Rattle.cert_text.specs.declared.cert.Cert.{Cert};
ghost use Rattle.ground_task.specs.Tasks.{TaskValue};
ghost use Rattle.pair_text.specs.declared.refusals.Refusal.{Refusal};
ghost use Rattle.pair_certificate.specs.Readings.{IsAccepted, IsReading, IsRefusal};

/// Three texts give at most one task with one certificate.
pub fn texts_have_one_reading()
    ensures { (domain problem certificate : List ℕ) (task other : TaskValue) (cert further : Cert) → length domain ≤ 2 ^ 30 → length problem ≤ 2 ^ 30
        → IsReading domain problem certificate task cert → IsReading domain problem certificate other further
        → (task ≡ other) × (cert.boxes ≡ further.boxes) × (cert.states ≡ further.states) }
{}

/// Texts that give a task and a certificate for it aren't refused.
pub fn reading_or_refusal()
    ensures { (domain problem certificate : List ℕ) (refusal : Refusal) → IsAccepted domain problem certificate → IsRefusal domain problem certificate refusal → ⊥ }
{}
