//! Laws of answers on certificates. Each function states some and does nothing.

ghost use Rattle.std.specs.Prelude.{◌≡◌, ℕ, List};
ghost use Rattle.ground_task.specs.Placed.{IsPlaced};
ghost use Rattle.ground_task.specs.States.{StateValue};
ghost use Rattle.ground_task.specs.Tasks.{TaskValue};
ghost use Rattle.box_model.specs.declared.state_box.StateBox.{StateBox};
ghost use Rattle.dead_ends.specs.Certificates.{IsCovered, IsGood, IsNowhereOver};
ghost use Rattle.dead_ends.specs.Reachable.{initial_state};
ghost use Rattle.cert_check.specs.declared.answers.Reason.{Reason};
ghost use Rattle.cert_check.specs.Checks.{AreBoxesDead, AreStatesGood, IsRefused};

use dead_ends::laws::proved_certificates_are_the_good_ones;

/// Where nothing stands against a line, the certificate is good and no number leaves its range on a state line.
pub fn good_lines()
    ensures { (t : TaskValue) (boxes : List StateBox) (states : List StateValue) → IsPlaced t.raw t.places
        → AreBoxesDead t boxes → AreStatesGood t boxes states → IsCovered t boxes states (initial_state t)
        → IsGood t boxes states × IsNowhereOver t states }
{
    proved_certificates_are_the_good_ones();
}

/// Where something stands against a line, the certificate isn't good, or a number leaves its range on a state line.
pub fn refused_certificates()
    ensures { (t : TaskValue) (boxes : List StateBox) (states : List StateValue) (line : ℕ) (reason : Reason)
        → IsPlaced t.raw t.places → IsRefused t boxes states line reason → IsGood t boxes states → IsNowhereOver t states → ⊥ }
{
    proved_certificates_are_the_good_ones();
}
