//! Numeric effects joined to those before them.

ghost use Rattle.std.specs.Prelude.{◌≡◌, ◌++◌, [], ◌∷◌, IfOk, MatchResult, OnOk, Ok, map};
ghost use Rattle.coded_actions.specs.Coded.{change_of, effects_of};
ghost use Rattle.pddl_terms.specs.declared.actions.Assign.TheVariants as how;
ghost use Rattle.ground_meaning.specs.Results.{mapped};
ghost use Rattle.ground_meaning.specs.Actions.{as_numeric_effect, growth, with_change, with_growth};
ghost use Rattle.folded_terms.specs.Faults.{IsFoldFault};
ghost use Rattle.folded_terms.specs.Operands.{operand_of};
ghost use Rattle.folding.specs.internal.Changes.{all_pending, first_growth, growth_place, grown, pending};

use crate::changes::PendingChange;
use coded_actions::{CodedChange, CodedExpr};
use folded_terms::{CodedOperand, FoldError, difference, product, sum};
use num_ends::{Dec, List, NoMemory};
use pddl_terms::Assign;
use std::alloc::Global;
use std::mem::replace;

// The number 0.
const ZERO: Dec = Dec { n: 0, p: 0 };

fn growth_place(changes: &[PendingChange], fluent: u128) -> Option<usize>
    ensures { result ≡ growth_place fluent (all_pending changes.now) }
{
    let mut place = 0;
    'each: for change in changes {
        if change.fluent == fluent && !change.replaces {
            return Some(place);
        }
        place += 1;
    }
    None
}

fn push_change(
    changes: &mut Vec<PendingChange>,
    fluent: u128,
    replaces: bool,
    value: CodedOperand,
) -> Result<(), NoMemory>
    ensures { OnOk result (all_pending changes.new.items ≡ all_pending changes.old.items ++ record { fluent = fluent; replaces = replaces; value = operand_of value } ∷ []) }
{
    changes.push(PendingChange {
        fluent,
        replaces,
        value,
    })?;
    Ok(())
}

fn grown(
    alloc: Global,
    decrease: bool,
    old: CodedOperand,
    value: CodedOperand,
) -> Result<CodedOperand, FoldError>
    ensures { MatchResult result (λ v. grown decrease (operand_of old) (operand_of value) ≡ Ok (operand_of v)) (IsFoldFault (grown decrease (operand_of old) (operand_of value))) }
{
    if decrease {
        return difference(alloc, old, value);
    }
    sum(alloc, old, value)
}

fn first_growth(
    alloc: Global,
    decrease: bool,
    value: CodedOperand,
) -> Result<CodedOperand, FoldError>
    ensures { MatchResult result (λ v. first_growth decrease (operand_of value) ≡ Ok (operand_of v)) (IsFoldFault (first_growth decrease (operand_of value))) }
{
    if decrease {
        return difference(alloc, CodedOperand::Constant(ZERO), value);
    }
    Ok(value)
}

fn join(
    alloc: Global,
    decrease: bool,
    change: &mut PendingChange,
    value: CodedOperand,
) -> Result<(), FoldError>
    ensures value { MatchResult result (λ _. grown decrease (operand_of change.old.value) (operand_of value) ≡ Ok (operand_of change.new.value)) (IsFoldFault (grown decrease (operand_of change.old.value) (operand_of value))) }
    ensures fluent { change.new.fluent ≡ change.old.fluent }
    ensures replaces { change.new.replaces ≡ change.old.replaces }
{
    let old = replace(&mut change.value, CodedOperand::Constant(ZERO));
    change.value = grown(alloc, decrease, old, value)?;
    Ok(())
}

fn push_first(
    alloc: Global,
    decrease: bool,
    fluent: u128,
    value: CodedOperand,
    changes: &mut Vec<PendingChange>,
) -> Result<(), FoldError>
    ensures { MatchResult result (λ _. mapped (λ v. all_pending changes.old.items ++ growth fluent v ∷ []) (first_growth decrease (operand_of value)) ≡ Ok (all_pending changes.new.items)) (IsFoldFault (first_growth decrease (operand_of value))) }
{
    let first = first_growth(alloc, decrease, value)?;
    push_change(changes, fluent, false, first)?;
    Ok(())
}

#[tactic(auto, using(crate::proofs::Grown::first_one))]
fn grow(
    alloc: Global,
    decrease: bool,
    fluent: u128,
    value: CodedOperand,
    changes: &mut Vec<PendingChange>,
) -> Result<(), FoldError>
    ensures { MatchResult result (λ _. with_growth (λ old. grown decrease old (operand_of value)) (first_growth decrease (operand_of value)) fluent (all_pending changes.old.items) ≡ Ok (all_pending changes.new.items)) (IsFoldFault (with_growth (λ old. grown decrease old (operand_of value)) (first_growth decrease (operand_of value)) fluent (all_pending changes.old.items))) }
{
    match growth_place(changes.as_slice(), fluent) {
        Some(place) => join(alloc, decrease, &mut changes[place], value),
        None => push_first(alloc, decrease, fluent, value, changes),
    }
}

#[tactic(auto, using(crate::proofs::Folded::scaled_one, crate::proofs::Folded::scaled_fault))]
fn scale(
    alloc: Global,
    fluent: u128,
    value: CodedOperand,
    changes: &mut Vec<PendingChange>,
) -> Result<(), FoldError>
    ensures { MatchResult result (λ _. with_change how.Scale fluent (operand_of value) (all_pending changes.old.items) ≡ Ok (all_pending changes.new.items)) (IsFoldFault (with_change how.Scale fluent (operand_of value) (all_pending changes.old.items))) }
{
    let read = CodedOperand::Computed(CodedExpr::Read(fluent));
    let scaled = product(alloc, read, value)?;
    push_change(changes, fluent, true, scaled)?;
    Ok(())
}

/// Adds a numeric effect to those before it.
pub(crate) fn add_change(
    alloc: Global,
    how: Assign,
    fluent: u128,
    value: CodedOperand,
    changes: &mut Vec<PendingChange>,
) -> Result<(), FoldError>
    ensures { MatchResult result (λ _. with_change how fluent (operand_of value) (all_pending changes.old.items) ≡ Ok (all_pending changes.new.items)) (IsFoldFault (with_change how fluent (operand_of value) (all_pending changes.old.items))) }
{
    match how {
        Assign::Set => Ok(push_change(changes, fluent, true, value)?),
        Assign::Up => grow(alloc, false, fluent, value, changes),
        Assign::Down => grow(alloc, true, fluent, value, changes),
        Assign::Scale => scale(alloc, fluent, value, changes),
    }
}

fn numeric_effect(change: PendingChange) -> (u128, CodedChange)
    ensures { (result.0, change_of result.1) ≡ as_numeric_effect (pending change) }
{
    let PendingChange {
        fluent,
        replaces,
        value,
    } = change;
    let value = value.into_expression();
    if replaces {
        (fluent, CodedChange::Set(value))
    } else {
        (fluent, CodedChange::Add(value))
    }
}

/// The changes as data.
pub(crate) fn numeric_effects(
    alloc: Global,
    changes: Vec<PendingChange>,
) -> Result<List<(u128, CodedChange)>, NoMemory>
    ensures { IfOk result (λ nums. effects_of nums ≡ map as_numeric_effect (all_pending changes.items)) }
{
    let mut nums = Vec::with_capacity(alloc, changes.len())?;
    'each: for change in changes {
        nums.push(numeric_effect(change))?;
    }
    Ok(List::from_vec(nums))
}
