//! What the step within the range has to do with the step without bounds.

ghost use Rattle.std.specs.Prelude.{ℕ, List};
ghost use Rattle.pddl_types.specs.declared.pairs.Pair.{Pair};
ghost use Rattle.pddl_meaning.specs.Laws.{Agrees};
ghost use Rattle.pddl_meaning.specs.Steps.{ranged_step};
ghost use Rattle.pddl_meaning.specs.Worlds.{WorldValue};

/// Where a step within the range isn't over, it leads to the world to which the step without bounds leads, or is blocked or
/// illegal exactly where that leads nowhere.
pub fn ranged_steps_agree()
    ensures { (pair : Pair) (world : WorldValue) (name : List ℕ) (args : List (List ℕ)) → Agrees pair world name args (ranged_step pair world name args) }
{}
