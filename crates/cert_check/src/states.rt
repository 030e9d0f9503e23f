//! The states of a certificate.

ghost use Rattle.std.specs.Prelude.{◌<◌, ℕ, length, All, IfSome, IfNone};
ghost use Rattle.ground_task.specs.Tasks.{IsStateOf};
ghost use Rattle.box_model.specs.Boxes.{IsBoxOf};
ghost use Rattle.cert_check.specs.Checks.{AreActionsGood, IsActionGood, IsAgainstAction, IsAgainstState, IsFirstAgainst, IsStateGood};

use crate::answers::Reason;
use crate::index::Index;
use ground_task::{Advanced, State, StateBuffer, Task, Truth};
use search_runs::Site;

/// What stands against an action in a state.
fn against_action(
    task: &Task,
    index: &Index,
    state: &State,
    action: u32,
    next: &mut StateBuffer,
) -> Option<Reason>
    requires boxes { All (IsBoxOf task.now) index.now.boxes }
    requires of_task { IsStateOf task.now state.now }
    requires known { action < length task.now.raw.actions }
    requires room { IsStateOf task.now next.old }
    ensures some { IfSome result (IsAgainstAction task.now index.now.boxes index.now.states state.now action) }
    ensures none { IfNone result (IsActionGood task.now index.now.boxes index.now.states state.now action) }
    ensures room { IsStateOf task.now next.new }
{
    match task.apply_into(state, action, next) {
        Advanced::Blocked => None,
        Advanced::Over => Some(Reason::Over(Site::Action(action))),
        Advanced::Next => {
            if index.covers(task, next.state()) {
                None
            } else {
                Some(Reason::Successor(action))
            }
        }
    }
}

/// What stands against the first action that isn't good in a state.
fn first_against_actions(
    task: &Task,
    index: &Index,
    state: &State,
    next: &mut StateBuffer,
) -> Option<Reason>
    requires boxes { All (IsBoxOf task.now) index.now.boxes }
    requires of_task { IsStateOf task.now state.now }
    requires room { IsStateOf task.now next.old }
    ensures some { IfSome result (IsFirstAgainst task.now index.now.boxes index.now.states state.now) }
    ensures none { IfNone result (AreActionsGood task.now index.now.boxes index.now.states state.now) }
    ensures room { IsStateOf task.now next.new }
{
    let count = task.raw().actions.len() as u32;
    'each: for action in 0..count {
        if let Some(reason) = against_action(task, index, state, action, next) {
            return Some(reason);
        }
    }
    None
}

/// What stands first against a state.
pub(crate) fn against_state(
    task: &Task,
    index: &Index,
    state: &State,
    next: &mut StateBuffer,
) -> Option<Reason>
    requires boxes { All (IsBoxOf task.now) index.now.boxes }
    requires of_task { IsStateOf task.now state.now }
    requires room { IsStateOf task.now next.old }
    ensures some { IfSome result (IsAgainstState task.now index.now.boxes index.now.states state.now) }
    ensures none { IfNone result (IsStateGood task.now index.now.boxes index.now.states state.now) }
    ensures room { IsStateOf task.now next.new }
{
    match task.goal_in(state) {
        Truth::Over => Some(Reason::Over(Site::Goal)),
        Truth::Yes => Some(Reason::GoalHolds),
        Truth::No => first_against_actions(task, index, state, next),
    }
}
