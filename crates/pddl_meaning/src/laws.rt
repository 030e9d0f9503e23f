//! Laws: inverses, and what the goal within the range says of the goal without bounds.

ghost use Rattle.std.specs.Prelude.{◌≡◌, ◌≤◌, None, Some};
ghost use Rattle.num_ends.specs.Decimal.{Decimal, trimmed};
ghost use Rattle.num_ends.specs.Arithmetic.{IsInverse};
ghost use Rattle.pddl_types.specs.declared.pairs.Pair.{Pair};
ghost use Rattle.pddl_meaning.specs.Worlds.{WorldValue};
ghost use Rattle.pddl_meaning.specs.Values.{inverse_of};
ghost use Rattle.pddl_meaning.specs.Truth.{ranged_goal};
ghost use Rattle.pddl_meaning.specs.Laws.{GoalAgrees};

/// Where the goal isn't over, it holds within the range exactly where it holds by values without bounds.
#[tactic(auto, using(crate::proofs::SameGoals::goals_agree))]
pub fn ranged_goals_agree()
    ensures { (pair : Pair) (world : WorldValue) → GoalAgrees pair world (ranged_goal pair world) }
{}

/// By what a division multiplies is the trimmed inverse of the divisor, of at most 9 places; it is missing exactly where
/// there is none.
#[tactic(auto, using(crate::proofs::Inverses::inverse_complete))]
pub fn divisors_are_inverted()
    ensures found { (divisor inverse : Decimal) → inverse_of divisor ≡ Some inverse → IsInverse divisor inverse × (trimmed inverse ≡ inverse) × (inverse.p ≤ 9) }
    ensures missing { (divisor : Decimal) → inverse_of divisor ≡ None → (inverse : Decimal) → IsInverse divisor inverse → inverse.p ≤ 9 → ⊥ }
{}
