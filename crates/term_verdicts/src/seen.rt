//! What is known of the expressions and conditions of a pair under bindings.

ghost use Rattle.std.specs.Prelude.{◌≡◌, ◌<◌, true, MatchResult, Ok, Err, length};
ghost use Rattle.pddl_types.specs.Pairs.{objects_of};
ghost use Rattle.pddl_types.specs.WellFormed.{Each};
ghost use Rattle.static_facts.specs.Atoms.{names};
ghost use Rattle.ground_meaning.specs.Results.{mapped};
ghost use Rattle.ground_meaning.specs.Expressions.{folded};
ghost use Rattle.ground_meaning.specs.Conditions.{folded_condition};
ghost use Rattle.term_verdicts.specs.Verdicts.{constant_of, fault_alone, fold_fault, truth_of};

use crate::expressions::{fault, value};
use crate::faults::TermFault;
use crate::verdicts::verdict;
use num_ends::Dec;
use term_patterns::{CondPattern, ExprPattern};

/// The value of an expression that is a constant under a binding of the parameters to objects, and None where it reads
/// fluents; or else why it isn't folded.
pub fn expression_value(pattern: &ExprPattern, objects: &[u32]) -> Result<Option<Dec>, TermFault>
    requires as_many { length objects.now ≡ length pattern.now.1 }
    requires known { Each (λ o. o < length (objects_of pattern.now.0)) objects.now }
    ensures { MatchResult result (λ v. mapped constant_of (folded pattern.now.0 pattern.now.1 (names pattern.now.0 objects.now) pattern.now.2) ≡ Ok v) (λ f. mapped constant_of (folded pattern.now.0 pattern.now.1 (names pattern.now.0 objects.now) pattern.now.2) ≡ Err (fold_fault f)) }
{
    value(pattern.statics(), pattern.slots(), objects)
}

/// Why an expression isn't folded under a binding; nothing is looked up where it has no operation.
pub fn expression_fault(pattern: &ExprPattern, objects: &[u32]) -> Result<(), TermFault>
    requires as_many { length objects.now ≡ length pattern.now.1 }
    requires known { Each (λ o. o < length (objects_of pattern.now.0)) objects.now }
    ensures { MatchResult result (λ u. fault_alone (folded pattern.now.0 pattern.now.1 (names pattern.now.0 objects.now) pattern.now.2) ≡ Ok u) (λ f. folded pattern.now.0 pattern.now.1 (names pattern.now.0 objects.now) pattern.now.2 ≡ Err (fold_fault f)) }
{
    fault(pattern.statics(), pattern.slots(), objects)
}

/// The truth of a condition that is decided under a binding of the parameters to objects, and None where something of it
/// remains; or else why it isn't folded. A member that is false doesn't hide the fault of a later one.
pub fn condition_verdict(pattern: &CondPattern, objects: &[u32]) -> Result<Option<bool>, TermFault>
    requires as_many { length objects.now ≡ length pattern.now.1 }
    requires known { Each (λ o. o < length (objects_of pattern.now.0)) objects.now }
    ensures { MatchResult result (λ v. mapped truth_of (folded_condition pattern.now.0 pattern.now.1 (names pattern.now.0 objects.now) pattern.now.2 true) ≡ Ok v) (λ f. mapped truth_of (folded_condition pattern.now.0 pattern.now.1 (names pattern.now.0 objects.now) pattern.now.2 true) ≡ Err (fold_fault f)) }
{
    verdict(pattern.statics(), pattern.slots(), objects)
}
