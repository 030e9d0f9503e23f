//! Views of the states of a task.

ghost use Rattle.std.specs.Prelude.{◌≡◌, IfOk, IfSome, MatchOption};
ghost use Rattle.ground_task.specs.Tasks.{IsStateOf};
ghost use Rattle.dead_ends.specs.Reachable.{IsLive};
ghost use Rattle.subgoal.specs.Estimates.{IsEstimate};
ghost use Rattle.search_records.specs.Spaces.{LeastDead};
ghost use Rattle.search_core.specs.Views.{IsRightView};

use box_model::StateBox;
use dead_ends::laws::least_boxes_tell_the_dead;
use ground_task::{State, Task, Truth};
use num_ends::NoMemory;
use relax_plain::least_box;
use search_core::Viewer;
use search_nodes::View;
use std::alloc::Global;
use std::marker::Model;
use subgoal::Estimator;

/// Finds out views of the states of a task, by least closed boxes and estimates. Contracts see it as its task.
#[derive(Drop)]
pub struct TaskViewer<'a> {
    task: &'a Task,
    estimator: Estimator<'a>,
}

impl<'a> Model for TaskViewer<'a> {
    ghost use Rattle.ground_task.specs.contracts.raw.GCond as cond;
    ghost use Rattle.ground_task.specs.contracts.raw.GExpr as expr;
    ghost use Rattle.std.specs.Coded.{codes};
    ghost use Rattle.std.specs.Prelude.{◌≡◌};
    ghost use Rattle.ground_task.specs.Tasks.{TaskValue};

    ghost Value = { TaskValue };

    ghost coded = { Prim.hlevel (codes, cond.the_row.coded, expr.the_row.coded) };

    ghost view = { λ v. v.task.now };

    ghost invariant = { λ v. v.estimator ≡ v.task.now };
}

fn discard_box(_own: StateBox) {}

// the least closed box of a dead state
#[tactic(auto, using(crate::proofs::Views::dead_by_box, crate::proofs::Views::may_by_box))]
fn dead_box(alloc: Global, task: &Task, state: &State) -> Result<Option<StateBox>, NoMemory>
    requires { IsStateOf task.now state.now }
    ensures { IfOk result (λ found. MatchOption found (IsLive task.now state.now) (LeastDead task.now state.now)) }
{
    let own = least_box(alloc, task, state)?;
    if own.misses_goal(task) {
        return Ok(Some(own));
    }
    least_boxes_tell_the_dead();
    discard_box(own);
    Ok(None)
}

// the view of a state in which the goal holds
fn goal_view(task: &Task, state: &State) -> Option<View>
    requires { IsStateOf task.now state.now }
    ensures { IfSome result (IsRightView LeastDead task.now state.now) }
{
    match task.goal_in(state) {
        Truth::Yes => Some(View::Goal),
        Truth::No => None,
        Truth::Over => None,
    }
}

// the view of a live state
fn live_view(task: &Task, state: &State, estimate: u32) -> View
    requires of_task { IsStateOf task.now state.now }
    requires live { IsLive task.now state.now }
    requires estimate { IsEstimate task.now state.now estimate }
    ensures { IsRightView LeastDead task.now state.now result }
{
    match task.goal_in(state) {
        Truth::Yes => View::Goal,
        Truth::No => View::Live(estimate),
        Truth::Over => View::LiveOver(estimate),
    }
}

impl<'a> TaskViewer<'a> {
    /// A viewer of the states of this task.
    pub fn new(alloc: Global, task: &'a Task) -> Result<TaskViewer<'a>, NoMemory>
        ensures { IfOk result (λ viewer. viewer ≡ task.now) }
    {
        let estimator = Estimator::new(alloc, task)?;
        Ok(TaskViewer { task, estimator })
    }
}

impl<'a> Viewer for TaskViewer<'a> {
    ghost of = { λ viewer. viewer };

    fn quick(&mut self, _alloc: Global, state: &State) -> Result<Option<View>, NoMemory> {
        Ok(goal_view(self.task, state))
    }

    fn full(&mut self, alloc: Global, state: &State) -> Result<View, NoMemory> {
        match dead_box(alloc, self.task, state)? {
            Some(own) => Ok(View::Dead(own)),
            None => {
                let estimate = self.estimator.estimate(state);
                Ok(live_view(self.task, state, estimate))
            }
        }
    }
}
