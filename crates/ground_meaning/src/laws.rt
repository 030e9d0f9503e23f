//! Laws: a ground task does what its pair does.

ghost use Rattle.std.specs.Prelude.{ℕ, List, ◌≡◌};
ghost use Rattle.pddl_terms.specs.Readable.{IsReadable};
ghost use Rattle.pddl_types.specs.declared.pairs.Pair.{Pair};
ghost use Rattle.pddl_types.specs.WellFormed.{WellFormed};
ghost use Rattle.pddl_meaning.specs.Worlds.{WorldValue};
ghost use Rattle.pddl_meaning.specs.Truth.{goal_holds};
ghost use Rattle.pddl_meaning.specs.Steps.{IsStep};
ghost use Rattle.pddl_meaning.specs.Steps.{IsPlanFrom as IsPairPlanFrom};
ghost use Rattle.ground_task.specs.Meaning.{holds};
ghost use Rattle.ground_task.specs.Placed.{IsPlaced};
ghost use Rattle.ground_task.specs.States.{StateValue};
ghost use Rattle.ground_task.specs.Steps.{IsPlanFrom, StepLeads};
ghost use Rattle.ground_task.specs.Tasks.{TaskValue};
ghost use Rattle.ground_meaning.specs.Tasks.{IsGroundTask};
ghost use Rattle.ground_meaning.specs.Worlds.{IsNamed, StandsAt};

/// The goal of the task of a pair holds in a state exactly where the pair's goal holds in a world that stands at it.
pub fn goals_agree()
    ensures { (pair : Pair) (task : TaskValue) → IsReadable pair.domain pair.problem → WellFormed pair → IsGroundTask pair task.raw
        → (world : WorldValue) (state : StateValue) → StandsAt pair task world state → goal_holds pair world ≡ holds task.places state task.raw.goal }
{}

/// Where an action of the pair leads from a world that stands at a state, the task's action of its name leads from the state
/// to one at which the next world stands.
pub fn steps_stand()
    ensures { (pair : Pair) (task : TaskValue) → IsReadable pair.domain pair.problem → WellFormed pair → IsGroundTask pair task.raw → IsPlaced task.raw task.places
        → (world : WorldValue) (state : StateValue) (name : List ℕ) (objects : List (List ℕ)) (next : WorldValue) → StandsAt pair task world state → IsStep pair world name objects next
        → (number : ℕ) × (later : StateValue) × IsNamed task number name objects × StepLeads task number state later × StandsAt pair task next later }
{}

/// A plan of the pair from a world that stands at a state is, action by action, a plan of the task from the state.
pub fn plans_stand()
    ensures { (pair : Pair) (task : TaskValue) → IsReadable pair.domain pair.problem → WellFormed pair → IsGroundTask pair task.raw → IsPlaced task.raw task.places
        → (world : WorldValue) (state : StateValue) (steps : List (List ℕ × List (List ℕ))) → StandsAt pair task world state → IsPairPlanFrom pair world steps
        → (numbers : List ℕ) × IsPlanFrom task state numbers }
{}
