//! What boxes tell of states, steps and plans, as laws: the functions do nothing, and their
//! contracts hold for all boxes and states.

ghost use Rattle.std.specs.Prelude.{ℕ, List, IsTrue};
ghost use Rattle.ground_task.specs.declared.raw.GCond.{GCond};
ghost use Rattle.ground_task.specs.Meaning.{holds};
ghost use Rattle.ground_task.specs.States.{StateValue};
ghost use Rattle.ground_task.specs.Steps.{StepLeads, PlanLeads, IsPlanFrom};
ghost use Rattle.ground_task.specs.Tasks.{TaskValue};
ghost use Rattle.box_model.specs.declared.state_box.StateBox.{StateBox};
ghost use Rattle.box_model.specs.Boxes.{Contains, IsBoxOf, LiesWithin};
ghost use Rattle.box_model.specs.Demands.{is_closed};
ghost use Rattle.box_model.specs.Hold.{may_hold};
ghost use Rattle.box_model.specs.Least.{IsDead, IsLeastClosed};

/// A condition that holds in a state of a box may hold in the box.
pub fn held_conditions_may_hold()
    ensures { (t : TaskValue) (b : StateBox) (s : StateValue) (c : GCond)
        → IsBoxOf t b → Contains t.places b s
        → IsTrue (holds t.places s c) → IsTrue (may_hold t.places b c) }
{}

/// What may hold in a box may hold in each box around it.
pub fn wider_boxes_hold_more()
    ensures { (t : TaskValue) (b c : StateBox) (g : GCond)
        → IsBoxOf t b → IsBoxOf t c → LiesWithin b c
        → IsTrue (may_hold t.places b g) → IsTrue (may_hold t.places c g) }
{}

/// A step from a state in a closed box leads into the box.
pub fn steps_stay_in_closed_boxes()
    ensures { (t : TaskValue) (b : StateBox) (s next : StateValue) (number : ℕ)
        → IsBoxOf t b → IsTrue (is_closed t b) → Contains t.places b s
        → StepLeads t number s next → Contains t.places b next }
{}

/// A list of actions from a state in a closed box leads into the box.
pub fn plans_stay_in_closed_boxes()
    ensures { (t : TaskValue) (b : StateBox) (s last : StateValue) (numbers : List ℕ)
        → IsBoxOf t b → IsTrue (is_closed t b) → Contains t.places b s
        → PlanLeads t numbers s last → Contains t.places b last }
{}

/// No list of actions leads from a state in a dead box to the goal.
pub fn dead_boxes_have_no_plan()
    ensures { (t : TaskValue) (b : StateBox) (s : StateValue) (numbers : List ℕ)
        → IsDead t b → Contains t.places b s
        → IsPlanFrom t s numbers → ⊥ }
{}

/// The least closed box above a state is dead where some dead box contains the state.
pub fn least_boxes_in_dead_ones_are_dead()
    ensures { (t : TaskValue) (b c : StateBox) (s : StateValue)
        → IsLeastClosed t s b → IsDead t c → Contains t.places c s → IsDead t b }
{}

/// Two least closed boxes of one state lie within each other.
pub fn least_boxes_lie_within_each_other()
    ensures { (t : TaskValue) (b c : StateBox) (s : StateValue)
        → IsLeastClosed t s b → IsLeastClosed t s c → LiesWithin b c }
{}
