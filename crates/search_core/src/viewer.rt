//! What finds out views of states.

ghost use Rattle.std.specs.Prelude.{◌≡◌, IfOk, IfSome};
ghost use Rattle.ground_task.specs.Tasks.{IsStateOf, TaskValue};
ghost use Rattle.search_records.specs.Spaces.{LeastDead};
ghost use Rattle.search_core.specs.Views.{IsRightView};

use ground_task::State;
use num_ends::NoMemory;
use search_nodes::View;
use std::alloc::Global;

/// Finds out views of the states of a task. The box of a dead state is its least closed box.
pub trait Viewer {
    // The task.
    ghost of: { Self → TaskValue };

    /// The view, where it is found out without the least closed box: the goal holds, or the state is shown to be live.
    fn quick(&mut self, alloc: Global, state: &State) -> Result<Option<View>, NoMemory>
        requires { IsStateOf (of self.old) state.now }
        ensures same { of self.new ≡ of self.old }
        ensures right { IfOk result (λ found. IfSome found (IsRightView LeastDead (of self.old) state.now)) };

    /// The view.
    fn full(&mut self, alloc: Global, state: &State) -> Result<View, NoMemory>
        requires { IsStateOf (of self.old) state.now }
        ensures same { of self.new ≡ of self.old }
        ensures right { IfOk result (IsRightView LeastDead (of self.old) state.now) };
}
