//! Laws of states, of the initial state and of steps. Each function states some and does nothing.

ghost use Rattle.std.specs.Prelude.{◌≡◌, ℕ, true, false, IsTrue, Some, slice_get};
ghost use Rattle.ground_task.specs.declared.answers.Applied.TheVariants as step;
ghost use Rattle.ground_task.specs.declared.answers.Truth.TheVariants as truth;
ghost use Rattle.ground_task.specs.declared.raw.GCond.{GCond};
ghost use Rattle.ground_task.specs.declared.raw.GExpr.{GExpr};
ghost use Rattle.ground_task.specs.declared.raw.Ground.{Ground};
ghost use Rattle.ground_task.specs.Meaning.{holds, value_of};
ghost use Rattle.ground_task.specs.Orders.{is_same_state, state_cmp};
ghost use Rattle.ground_task.specs.Placed.{places_of, IsPlaced};
ghost use Rattle.ground_task.specs.Ranged.{ranged_step, ranged_truth};
ghost use Rattle.ground_task.specs.States.{StateValue};
ghost use Rattle.ground_task.specs.Steps.{next_state, StepLeads};
ghost use Rattle.ground_task.specs.Tasks.{first_state, IsInitialState, IsStateOf, TaskValue};

use crate::state::State;

/// The equality and the order of states, and that equal states are one.
pub fn states()
    ensures equality { (x y : StateValue) → ⟦<State as Eq>⟧.eq x y ≡ is_same_state x y }
    ensures same { (x y : StateValue) → is_same_state x y ≡ true → x ≡ y }
    ensures itself { (x : StateValue) → is_same_state x x ≡ true }
    ensures order { (x y : StateValue) → ⟦<State as Ord>⟧.cmp x y ≡ state_cmp x y }
{}

/// The value of an expression in a state has the places of the expression.
pub fn places()
    ensures { (t : TaskValue) (s : StateValue) (e : GExpr) → (value_of t.places s e).p ≡ places_of t.places e }
{}

/// Where the places suffice, the initial state is the one by the numbers at the fluents' places, and no other.
pub fn initial()
    ensures made { (t : TaskValue) → IsPlaced t.raw t.places → IsInitialState t (first_state t.raw t.places) }
    ensures only { (t : TaskValue) (s : StateValue) → IsPlaced t.raw t.places → IsInitialState t s → s ≡ first_state t.raw t.places }
{}

/// Where the places suffice, an action whose precondition holds leads to the one state by the numbers at the fluents'
/// places, and an action leads nowhere else. A step keeps the numbers of facts and values.
pub fn steps()
    ensures made { (t : TaskValue) (s : StateValue) (number : ℕ) (a : Ground)
        → IsPlaced t.raw t.places → slice_get t.raw.actions number ≡ Some a → IsTrue (holds t.places s a.pre)
        → StepLeads t number s (next_state t.places s a) }
    ensures only { (t : TaskValue) (s next : StateValue) (number : ℕ) (a : Ground)
        → IsPlaced t.raw t.places → slice_get t.raw.actions number ≡ Some a → StepLeads t number s next
        → IsTrue (holds t.places s a.pre) × (next ≡ next_state t.places s a) }
    ensures sizes { (t : TaskValue) (s next : StateValue) (number : ℕ)
        → IsStateOf t s → StepLeads t number s next → IsStateOf t next }
{}

/// What isn't over within the range is the same without bounds: a next state is the one to which the action leads, a
/// blocked action leads nowhere, and a condition holds or doesn't.
pub fn ranged()
    ensures next { (t : TaskValue) (s : StateValue) (number : ℕ) (next : StateValue)
        → IsPlaced t.raw t.places → ranged_step t s number ≡ step.Next next → StepLeads t number s next }
    ensures only { (t : TaskValue) (s : StateValue) (number : ℕ) (next other : StateValue)
        → IsPlaced t.raw t.places → ranged_step t s number ≡ step.Next next → StepLeads t number s other → other ≡ next }
    ensures blocked { (t : TaskValue) (s : StateValue) (number : ℕ) (next : StateValue)
        → ranged_step t s number ≡ step.Blocked → StepLeads t number s next → ⊥ }
    ensures yes { (t : TaskValue) (s : StateValue) (c : GCond) → ranged_truth t s c ≡ truth.Yes → IsTrue (holds t.places s c) }
    ensures no { (t : TaskValue) (s : StateValue) (c : GCond) → ranged_truth t s c ≡ truth.No → holds t.places s c ≡ false }
{}
