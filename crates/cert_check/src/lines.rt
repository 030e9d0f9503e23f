//! The lines of a certificate behind its boxes.

ghost use Rattle.std.specs.Prelude.{◌≤◌, length, All, IfSome, IfNone};
ghost use Rattle.ground_task.specs.Tasks.{IsStateOf};
ghost use Rattle.box_model.specs.Boxes.{IsBoxOf};
ghost use Rattle.cert_check.specs.Checks.{AreBoxesDead, AreStatesGood, IsStateLine};

use crate::answers::Reason;
use crate::index::Index;
use crate::states::against_state;
use ground_task::{StateBuffer, Task};

/// The line of the first state against which something stands, and what stands first against it.
pub(crate) fn first_against_states(
    task: &Task,
    index: &Index,
    next: &mut StateBuffer,
) -> Option<(u32, Reason)>
    requires boxes { All (IsBoxOf task.now) index.now.boxes }
    requires states { All (IsStateOf task.now) index.now.states }
    requires few_boxes { length index.now.boxes ≤ 1000000000 }
    requires few_states { length index.now.states ≤ 1000000000 }
    requires dead { AreBoxesDead task.now index.now.boxes }
    requires room { IsStateOf task.now next.old }
    ensures some { IfSome result (λ found. IsStateLine task.now index.now.boxes index.now.states found.0 found.1) }
    ensures none { IfNone result (AreStatesGood task.now index.now.boxes index.now.states) }
{
    let before = 2 + index.cert().boxes.len() as u32;
    let states = index.cert().states.as_slice();
    'each: for number in 0..states.len() {
        if let Some(reason) = against_state(task, index, &states[number], next) {
            return Some((before + number as u32, reason));
        }
    }
    None
}
