//! Numeric effects that fold without a fault, told before anything is built.

ghost use Rattle.std.specs.Prelude.{◌≡◌};
ghost use Rattle.std.specs.List.{list_all};
ghost use Rattle.pddl_types.specs.WellFormed.{Each};
ghost use Rattle.pddl_meaning.specs.Effects.{is_joined};
ghost use Rattle.folding.specs.internal.Changes.{IsChangeBoundBy};
ghost use Rattle.folding.specs.internal.Changes.{folded_by};
ghost use Rattle.folding.specs.internal.Sound.{are_distinct, are_sound, has_negation, is_answered, is_sound};
ghost use Rattle.pddl_terms.specs.declared.actions.Assign.TheVariants as how;

use crate::changes::ChangePattern;
use num_ends::Dec;
use pddl_terms::Assign;
use term_patterns::arithmetic;
use term_verdicts::{expression_fault, expression_value};

// The number 0.
const ZERO: Dec = Dec { n: 0, p: 0 };

fn is_joined(how: Assign) -> bool
    ensures { result ≡ is_joined how }
{
    match how {
        Assign::Set | Assign::Scale => false,
        Assign::Up | Assign::Down => true,
    }
}

// Whether 0 less a constant is in the range.
fn has_negation(value: Option<Dec>) -> bool
    ensures { result ≡ has_negation value }
{
    match value {
        Some(value) => arithmetic::difference(ZERO, value).is_some(),
        None => true,
    }
}

#[tactic(auto, using(crate::proofs::SoundEffects::decrease_sound, crate::proofs::SoundEffects::decrease_unsound))]
fn is_sound_decrease(pattern: &ChangePattern, objects: &[u32]) -> bool
    requires bound { IsChangeBoundBy objects.now pattern.now }
    ensures { pattern.now.how ≡ how.Down → result ≡ is_sound objects.now pattern.now }
{
    match expression_value(&pattern.value, objects) {
        Ok(value) => has_negation(value),
        Err(_) => false,
    }
}

#[tactic(auto, using(crate::proofs::SoundEffects::value_sound, crate::proofs::SoundEffects::value_unsound))]
fn is_sound_value(pattern: &ChangePattern, objects: &[u32]) -> bool
    requires bound { IsChangeBoundBy objects.now pattern.now }
    ensures { result ≡ is_answered (folded_by objects.now pattern.now.value) }
{
    match expression_fault(&pattern.value, objects) {
        Ok(()) => true,
        Err(_) => false,
    }
}

// Whether an effect has no fault where none before it is joined to it.
fn is_sound(pattern: &ChangePattern, objects: &[u32]) -> bool
    requires bound { IsChangeBoundBy objects.now pattern.now }
    ensures { result ≡ is_sound objects.now pattern.now }
{
    match pattern.how {
        Assign::Set => is_sound_value(pattern, objects),
        Assign::Up => is_sound_value(pattern, objects),
        Assign::Down => is_sound_decrease(pattern, objects),
        Assign::Scale => is_sound_value(pattern, objects),
    }
}

// Whether two effects aren't joined.
fn are_distinct(pattern: &ChangePattern, other: &ChangePattern, objects: &[u32]) -> bool
    requires bound { IsChangeBoundBy objects.now pattern.now }
    requires other_bound { IsChangeBoundBy objects.now other.now }
    ensures { result ≡ are_distinct objects.now pattern.now other.now }
{
    if !is_joined(pattern.how) {
        return true;
    }
    if !is_joined(other.how) {
        return true;
    }
    pattern.fluent.code(objects) != other.fluent.code(objects)
}

fn is_apart(pattern: &ChangePattern, later: &[ChangePattern], objects: &[u32]) -> bool
    requires bound { IsChangeBoundBy objects.now pattern.now }
    requires later_bound { Each (IsChangeBoundBy objects.now) later.now }
    ensures { result ≡ list_all (are_distinct objects.now pattern.now) later.now }
{
    'each: for other in later {
        if !are_distinct(pattern, other, objects) {
            return false;
        }
    }
    true
}

/// Whether each effect has no fault by itself, and none is joined to another.
pub(crate) fn are_sound(patterns: &[ChangePattern], objects: &[u32]) -> bool
    requires bound { Each (IsChangeBoundBy objects.now) patterns.now }
    ensures { result ≡ are_sound objects.now patterns.now }
{
    let mut place = 0;
    'each: for pattern in patterns {
        place += 1;
        if !is_sound(pattern, objects) {
            return false;
        }
        if !is_apart(pattern, &patterns[place..], objects) {
            return false;
        }
    }
    true
}
