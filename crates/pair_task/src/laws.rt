//! Laws of the tasks of two texts.

ghost use Rattle.std.specs.Prelude.{◌≡◌, ◌⊎◌, ◌≤◌, ◌^◌, ℕ, List, length};
ghost use Rattle.ground_meaning.specs.Plans.{AreNamed};
ghost use Rattle.ground_meaning.specs.Worlds.{StandsFor};
ghost use Rattle.ground_task.specs.States.{StateValue};
ghost use Rattle.ground_task.specs.Steps.{IsPlanFrom, IsTaskPlan};
ghost use Rattle.ground_task.specs.Tasks.{IsInitialState, TaskValue};
ghost use Rattle.pair_text.specs.declared.refusals.Refusal.{Refusal};
ghost use Rattle.pair_task.specs.Refusals.{IsGroundingRefusal, IsRefusal};
ghost use Rattle.pair_task.specs.Tasks.{IsAccepted, IsGroundable, IsPlanOfTexts, IsWholeTaskOf};

/// Two texts have at most one ground task.
pub fn texts_have_one_task()
    ensures { (domain problem : List ℕ) (task other : TaskValue) → length domain ≤ 2 ^ 30 → length problem ≤ 2 ^ 30 → IsWholeTaskOf domain problem task
        → IsWholeTaskOf domain problem other → task ≡ other }
{}

/// Two texts that have a ground task aren't refused by grounding, and where it has few enough supporters by nothing.
pub fn task_or_refusal()
    ensures grounding { (domain problem : List ℕ) (refusal : Refusal) → IsGroundable domain problem → IsGroundingRefusal domain problem refusal → ⊥ }
    ensures any { (domain problem : List ℕ) (refusal : Refusal) → IsAccepted domain problem → IsRefusal domain problem refusal → ⊥ }
{}

/// Two texts that have no ground task are refused by grounding, and those that aren't accepted by something.
pub fn texts_have_an_answer()
    ensures grounding { (domain problem : List ℕ) → length domain ≤ 2 ^ 30 → length problem ≤ 2 ^ 30
        → IsGroundable domain problem ⊎ ((refusal : Refusal) × IsGroundingRefusal domain problem refusal) }
    ensures any { (domain problem : List ℕ) → length domain ≤ 2 ^ 30 → length problem ≤ 2 ^ 30
        → IsAccepted domain problem ⊎ ((refusal : Refusal) × IsRefusal domain problem refusal) }
{}

/// Two texts have at most one refusal.
pub fn texts_have_one_refusal()
    ensures grounding { (domain problem : List ℕ) (refusal other : Refusal) → length domain ≤ 2 ^ 30 → length problem ≤ 2 ^ 30 → IsGroundingRefusal domain problem refusal
        → IsGroundingRefusal domain problem other → refusal ≡ other }
    ensures any { (domain problem : List ℕ) (refusal other : Refusal) → length domain ≤ 2 ^ 30 → length problem ≤ 2 ^ 30 → IsRefusal domain problem refusal
        → IsRefusal domain problem other → refusal ≡ other }
{}

/// The ground task of two texts stands for the pair that they spell.
pub fn tasks_stand()
    ensures { (domain problem : List ℕ) (task : TaskValue) → length domain ≤ 2 ^ 30 → length problem ≤ 2 ^ 30 → (is : IsWholeTaskOf domain problem task)
        → StandsFor is.pair task }
{}

/// A plan of the ground task of two texts is, action by action, a plan of the pair that they spell.
pub fn task_plans_are_plans()
    ensures { (domain problem : List ℕ) (task : TaskValue) → length domain ≤ 2 ^ 30 → length problem ≤ 2 ^ 30 → IsWholeTaskOf domain problem task
        → (numbers : List ℕ) → IsTaskPlan task numbers → (steps : List (List ℕ × List (List ℕ))) × IsPlanOfTexts domain problem steps × AreNamed task numbers steps }
{}

/// A plan of the pair that two texts spell is, action by action, a plan of their ground task, from each of its initial states.
pub fn plans_are_task_plans()
    ensures { (domain problem : List ℕ) (task : TaskValue) → length domain ≤ 2 ^ 30 → length problem ≤ 2 ^ 30 → IsWholeTaskOf domain problem task
        → (steps : List (List ℕ × List (List ℕ))) → IsPlanOfTexts domain problem steps → (state : StateValue) → IsInitialState task state
        → (numbers : List ℕ) × IsPlanFrom task state numbers × AreNamed task numbers steps }
{}

/// Where the ground task of two texts has no plan, the pair that they spell has none.
pub fn no_task_no_plan()
    ensures { (domain problem : List ℕ) (task : TaskValue) → length domain ≤ 2 ^ 30 → length problem ≤ 2 ^ 30 → IsWholeTaskOf domain problem task
        → ((numbers : List ℕ) → IsTaskPlan task numbers → ⊥) → (steps : List (List ℕ × List (List ℕ))) → IsPlanOfTexts domain problem steps → ⊥ }
{}
