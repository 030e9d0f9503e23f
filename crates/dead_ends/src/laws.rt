//! Laws of dead ends. The functions state them and do nothing.

ghost use Rattle.std.specs.Prelude.{◌≡◌, false, true, ℕ, List, IsTrue};
ghost use Rattle.ground_task.specs.Meaning.{holds};
ghost use Rattle.ground_task.specs.Placed.{IsPlaced};
ghost use Rattle.ground_task.specs.States.{StateValue};
ghost use Rattle.ground_task.specs.Steps.{StepLeads, IsTaskPlan};
ghost use Rattle.ground_task.specs.Tasks.{TaskValue};
ghost use Rattle.box_model.specs.declared.state_box.StateBox.{StateBox};
ghost use Rattle.box_model.specs.Hold.{may_hold};
ghost use Rattle.box_model.specs.Least.{IsLeastClosed};
ghost use Rattle.dead_ends.specs.Certificates.{IsGood, IsNowhereOver, IsProved};
ghost use Rattle.dead_ends.specs.Reachable.{IsDeadState, IsLive, IsLiveReachable};

use box_model::{dead_boxes_have_no_plan, least_boxes_in_dead_ones_are_dead};
use ground_task::laws::initial;

/// A state in which the goal holds is live.
pub fn goal_states_are_live()
    ensures { (t : TaskValue) (s : StateValue) → IsTrue (holds t.places s t.raw.goal) → IsLive t s }
{
    dead_boxes_have_no_plan();
}

/// The least closed box of a state tells whether the state is dead.
pub fn least_boxes_tell_the_dead()
    ensures live { (t : TaskValue) (s : StateValue) (b : StateBox) → IsLeastClosed t s b
        → may_hold t.places b t.raw.goal ≡ true → IsLive t s }
    ensures dead { (t : TaskValue) (s : StateValue) (b : StateBox) → IsLeastClosed t s b
        → may_hold t.places b t.raw.goal ≡ false → IsDeadState t s }
{
    least_boxes_in_dead_ones_are_dead();
}

/// A step from a live reachable state to a live one reaches a live reachable one.
pub fn live_steps_reach()
    ensures { (t : TaskValue) (s next : StateValue) (a : ℕ) → IsLiveReachable t s
        → StepLeads t a s next → IsLive t next → IsLiveReachable t next }
{}

/// Where a certificate is good, no plan exists.
pub fn good_certificates_exclude_plans()
    ensures { (t : TaskValue) (boxes : List StateBox) (states : List StateValue) (plan : List ℕ)
        → IsPlaced t.raw t.places → IsGood t boxes states → IsTaskPlan t plan → ⊥ }
{
    initial();
    dead_boxes_have_no_plan();
}

/// A certificate is proved within the range exactly where it is good and no number leaves its range in a state on its
/// list.
pub fn proved_certificates_are_the_good_ones()
    ensures good { (t : TaskValue) (boxes : List StateBox) (states : List StateValue)
        → IsPlaced t.raw t.places → IsProved t boxes states → IsGood t boxes states }
    ensures nowhere_over { (t : TaskValue) (boxes : List StateBox) (states : List StateValue)
        → IsProved t boxes states → IsNowhereOver t states }
    ensures proved { (t : TaskValue) (boxes : List StateBox) (states : List StateValue)
        → IsPlaced t.raw t.places → IsGood t boxes states → IsNowhereOver t states → IsProved t boxes states }
{}
