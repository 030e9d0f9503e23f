//! The limits that refusals name.

ghost use Rattle.std.specs.Prelude.{ℕ, ◌≡◌};
ghost use Rattle.pddl_terms.specs.declared.limits.What.{What};
ghost use Rattle.pddl_terms.specs.Limits.{limit_of};
ghost use Rattle.pddl_types.specs.declared.pairs.Pair.{Pair};
ghost use Rattle.ground_meaning.specs.declared.faults.GroundFault.TheVariants as fault;
ghost use Rattle.ground_meaning.specs.Refusals.{IsRefused};

/// Where a pair is refused since there are too many of something, the number named with the reason is the limit of such
/// things, and so the one that the line of the refusal tells.
pub fn limits_are_told()
    ensures { (pair : Pair) (kind : What) (limit : ℕ) → IsRefused pair (fault.TooMany kind limit) → limit ≡ limit_of kind }
{}
