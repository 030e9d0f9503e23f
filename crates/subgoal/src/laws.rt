//! Laws of the estimate. Each function states one and does nothing.

ghost use Rattle.std.specs.Prelude.{◌≡◌, ◌≤◌, ℕ, List};
ghost use Rattle.ground_task.specs.States.{StateValue};
ghost use Rattle.ground_task.specs.Tasks.{TaskValue};
ghost use Rattle.simple_atoms.specs.declared.linear.TheConstants.{FAR};
ghost use Rattle.subgoal.specs.Estimates.{AreValues, IsEstimate};

/// The equations of a state have one solution at most, so a state has one estimate, which is at most `FAR`.
pub fn one_solution()
    ensures values { (t : TaskValue) (s : StateValue) (v w : List ℕ) → AreValues t s v → AreValues t s w → v ≡ w }
    ensures estimate { (t : TaskValue) (s : StateValue) (h k : ℕ) → IsEstimate t s h → IsEstimate t s k → h ≡ k }
    ensures most { (t : TaskValue) (s : StateValue) (h : ℕ) → IsEstimate t s h → h ≤ FAR }
{}
