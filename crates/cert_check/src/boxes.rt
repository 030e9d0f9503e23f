//! The boxes of a certificate.

ghost use Rattle.std.specs.Prelude.{◌≤◌, length, All, IfSome, IfNone};
ghost use Rattle.box_model.specs.Boxes.{IsBoxOf};
ghost use Rattle.box_model.specs.Least.{IsDead};
ghost use Rattle.cert_check.specs.Checks.{AreBoxesDead, IsAgainstBox, IsBoxLine};

use crate::answers::Reason;
use box_model::StateBox;
use ground_task::Task;

/// What stands first against a box.
fn against_box(task: &Task, one: &StateBox) -> Option<Reason>
    requires a_box { IsBoxOf task.now one.now }
    ensures some { IfSome result (IsAgainstBox task.now one.now) }
    ensures none { IfNone result (IsDead task.now one.now) }
{
    if let Some(action) = one.first_unmet(task) {
        return Some(Reason::Unmet(action));
    }
    if one.misses_goal(task) {
        return None;
    }
    Some(Reason::MayGoal)
}

/// The line of the first box that isn't dead, and what stands first against it.
pub(crate) fn first_against_boxes(task: &Task, boxes: &[StateBox]) -> Option<(u32, Reason)>
    requires boxes { All (IsBoxOf task.now) boxes.now }
    requires few { length boxes.now ≤ 1000000000 }
    ensures some { IfSome result (λ found. IsBoxLine task.now boxes.now found.0 found.1) }
    ensures none { IfNone result (AreBoxesDead task.now boxes.now) }
{
    'each: for number in 0..boxes.len() {
        if let Some(reason) = against_box(task, &boxes[number]) {
            return Some((2 + number as u32, reason));
        }
    }
    None
}
