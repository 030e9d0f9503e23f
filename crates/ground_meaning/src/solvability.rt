//! Laws: a ground task leads nowhere where its pair doesn't lead, and the one is solvable exactly where the other is.

ghost use Rattle.std.specs.Prelude.{ℕ, List, ◌≡◌, ◌↔◌};
ghost use Rattle.pddl_terms.specs.Readable.{IsReadable};
ghost use Rattle.pddl_types.specs.declared.pairs.Pair.{Pair};
ghost use Rattle.pddl_types.specs.WellFormed.{WellFormed};
ghost use Rattle.pddl_meaning.specs.Worlds.{WorldValue};
ghost use Rattle.pddl_meaning.specs.Steps.{IsPlan, IsStep};
ghost use Rattle.ground_task.specs.Placed.{IsPlaced};
ghost use Rattle.ground_task.specs.States.{StateValue};
ghost use Rattle.ground_task.specs.Steps.{IsPlanFrom, IsTaskPlan, StepLeads};
ghost use Rattle.ground_task.specs.Tasks.{IsInitialState, TaskValue};
ghost use Rattle.ground_meaning.specs.Plans.{AreNamed};
ghost use Rattle.ground_meaning.specs.Tasks.{IsGroundTask};
ghost use Rattle.ground_meaning.specs.Worlds.{IsNamed, StandsAt, StandsFor};

/// Where an action of the task of a pair leads from a state at which a world stands, the pair's action of its name leads from
/// that world to one that stands at the next state.
pub fn steps_come_back()
    ensures { (pair : Pair) (task : TaskValue) → IsReadable pair.domain pair.problem → WellFormed pair → IsGroundTask pair task.raw
        → (world : WorldValue) (state : StateValue) (number : ℕ) (later : StateValue) → StandsAt pair task world state → StepLeads task number state later
        → (name : List ℕ) × (objects : List (List ℕ)) × (next : WorldValue) × IsNamed task number name objects × IsStep pair world name objects next × StandsAt pair task next later }
{}

/// The task of a readable, well-formed pair stands for it, where its places suffice.
pub fn ground_tasks_stand()
    ensures { (pair : Pair) (task : TaskValue) → IsReadable pair.domain pair.problem → WellFormed pair → IsGroundTask pair task.raw → IsPlaced task.raw task.places → StandsFor pair task }
{}

/// A plan of a task that stands for a pair is, action by action, a plan of the pair.
pub fn task_plans_are_plans()
    ensures { (pair : Pair) (task : TaskValue) → StandsFor pair task → (numbers : List ℕ) → IsTaskPlan task numbers
        → (steps : List (List ℕ × List (List ℕ))) × IsPlan pair steps × AreNamed task numbers steps }
{}

/// A plan of a pair is, action by action, a plan of a task that stands for it, from each of the task's initial states.
pub fn plans_are_task_plans()
    ensures { (pair : Pair) (task : TaskValue) → StandsFor pair task → (steps : List (List ℕ × List (List ℕ))) → IsPlan pair steps → (state : StateValue) → IsInitialState task state
        → (numbers : List ℕ) × IsPlanFrom task state numbers × AreNamed task numbers steps }
{}

/// A pair has a plan exactly where a task that stands for it, and that has an initial state, has one.
pub fn same_solvability()
    ensures { (pair : Pair) (task : TaskValue) → StandsFor pair task → (state : StateValue) → IsInitialState task state
        → ((steps : List (List ℕ × List (List ℕ))) × IsPlan pair steps) ↔ ((numbers : List ℕ) × IsTaskPlan task numbers) }
{}
