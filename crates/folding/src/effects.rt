//! The numeric effects of an action under a binding.

ghost use Rattle.std.specs.Prelude.{◌≡◌, ◌<◌, ◌++◌, [], true, IfOk, MatchResult, OnOk, Ok, flat_map, length};
ghost use Rattle.pddl_types.specs.Pairs.{objects_of};
ghost use Rattle.pddl_types.specs.WellFormed.{Each};
ghost use Rattle.static_facts.specs.Atoms.{names};
ghost use Rattle.ground_meaning.specs.Actions.{folded_changes};
ghost use Rattle.folded_terms.specs.Faults.{IsFoldFault};
ghost use Rattle.folding.specs.internal.Changes.{IsChangeBoundBy, all_pending, change_patterns, with_pattern, with_patterns};
ghost use Rattle.folding.specs.internal.Sound.{is_answered};

use crate::changes::{ChangePattern, PendingChange};
use crate::growth::add_change;
use crate::sound::are_sound;
use bound_actions::Scope;
use bound_atoms::FluentPattern;
use folded_terms::{FoldError, fold_expression};
use num_ends::NoMemory;
use pddl_terms::{Effect, Schema};
use pddl_types::Checked;
use std::alloc::Global;
use std::marker::Model;
use term_patterns::ExprPattern;

/// The numeric effects of an action, with names looked up. Contracts see the pair and the action.
#[derive(Drop)]
pub(crate) struct NumericEffects<'a> {
    checked: &'a Checked,
    schema: &'a Schema,
    changes: Vec<ChangePattern<'a>>,
}

impl<'a> Model for NumericEffects<'a> {
    ghost use Rattle.pddl_terms.specs.declared.actions.Schema.{Schema};
    ghost use Rattle.pddl_types.specs.declared.pairs.Pair.{Pair};
    ghost use Rattle.folding.specs.internal.Changes.{AreChangePatterns};
    ghost use Rattle.pddl_terms.specs.contracts.conditions.Cond as cond;
    ghost use Rattle.pddl_terms.specs.contracts.expressions.Expr as expr;
    ghost use Rattle.std.specs.Coded.{codes};

    ghost Value = { Pair × Schema };

    ghost coded = { Prim.hlevel (codes, cond.the_row.coded, expr.the_row.coded) };

    ghost view = { λ n. (n.checked.now, n.schema.now) };

    ghost invariant = { λ n. AreChangePatterns n.checked.now n.schema.now n.changes.items };
}

fn push_pattern<'a>(
    alloc: Global,
    scope: &Scope<'a>,
    effect: &'a Effect,
    changes: &mut Vec<ChangePattern<'a>>,
) -> Result<(), NoMemory>
    ensures { OnOk result (changes.new.items ≡ changes.old.items ++ change_patterns scope.now.checked.now scope.now.params.now effect.now) }
{
    if let Effect::Num(how, atom, expr) = effect {
        let fluent = FluentPattern::new(alloc, scope.checked, scope.statics, scope.params, atom)?;
        let value = ExprPattern::new(alloc, scope.checked, scope.statics, scope.params, expr)?;
        changes.push(ChangePattern {
            how: *how,
            fluent,
            value,
        })?;
    }
    Ok(())
}

fn all_patterns<'a>(
    alloc: Global,
    scope: &Scope<'a>,
    effects: &'a [Effect],
) -> Result<Vec<ChangePattern<'a>>, NoMemory>
    ensures { IfOk result (λ changes. changes.items ≡ flat_map (change_patterns scope.now.checked.now scope.now.params.now) effects.now) }
{
    let mut changes = Vec::new(alloc);
    'each: for effect in effects {
        push_pattern(alloc, scope, effect, &mut changes)?;
    }
    Ok(changes)
}

#[tactic(auto, using(crate::proofs::Folded::with_value, crate::proofs::Folded::fault_after))]
fn add_pattern(
    alloc: Global,
    pattern: &ChangePattern,
    objects: &[u32],
    changes: &mut Vec<PendingChange>,
) -> Result<(), FoldError>
    requires bound { IsChangeBoundBy objects.now pattern.now }
    ensures { MatchResult result (λ _. with_pattern objects.now (all_pending changes.old.items) pattern.now ≡ Ok (all_pending changes.new.items)) (IsFoldFault (with_pattern objects.now (all_pending changes.old.items) pattern.now)) }
{
    let value = fold_expression(alloc, &pattern.value, objects)?;
    add_change(
        alloc,
        pattern.how,
        pattern.fluent.code(objects),
        value,
        changes,
    )
}

fn folded(
    alloc: Global,
    patterns: &[ChangePattern],
    objects: &[u32],
) -> Result<Vec<PendingChange>, FoldError>
    requires bound { Each (IsChangeBoundBy objects.now) patterns.now }
    ensures { MatchResult result (λ cs. with_patterns objects.now [] patterns.now ≡ Ok (all_pending cs.items)) (IsFoldFault (with_patterns objects.now [] patterns.now)) }
{
    let mut changes = Vec::new(alloc);
    'each: for pattern in patterns {
        add_pattern(alloc, pattern, objects, &mut changes)?;
    }
    Ok(changes)
}

impl<'a> NumericEffects<'a> {
    /// Looks up the names of the numeric effects of an action.
    pub(crate) fn new(
        alloc: Global,
        scope: &Scope<'a>,
        schema: &'a Schema,
    ) -> Result<NumericEffects<'a>, NoMemory>
        requires params { scope.now.params.now ≡ schema.now.params }
        ensures { IfOk result (λ n. n ≡ (scope.now.checked.now, schema.now)) }
    {
        let changes = all_patterns(alloc, scope, schema.effects.as_slice())?;
        Ok(NumericEffects {
            checked: scope.checked,
            schema,
            changes,
        })
    }

    /// The effects folded, in the order of the text, with the parameters bound to objects.
    pub(crate) fn fold(
        &self,
        alloc: Global,
        objects: &[u32],
    ) -> Result<Vec<PendingChange>, FoldError>
        requires as_many { length objects.now ≡ length self.now.1.params }
        requires known { Each (λ o. o < length (objects_of self.now.0)) objects.now }
        ensures { MatchResult result (λ cs. folded_changes self.now.0 self.now.1.params (names self.now.0 objects.now) self.now.1.effects ≡ Ok (all_pending cs.items)) (IsFoldFault (folded_changes self.now.0 self.now.1.params (names self.now.0 objects.now) self.now.1.effects)) }
    {
        folded(alloc, self.changes.as_slice(), objects)
    }

    /// Whether each effect has no fault by itself and none is joined to another, with the parameters bound to objects.
    /// Nothing is built.
    pub(crate) fn are_sound(&self, objects: &[u32]) -> bool
        requires as_many { length objects.now ≡ length self.now.1.params }
        requires known { Each (λ o. o < length (objects_of self.now.0)) objects.now }
        ensures { result ≡ true → is_answered (folded_changes self.now.0 self.now.1.params (names self.now.0 objects.now) self.now.1.effects) ≡ true }
    {
        are_sound(self.changes.as_slice(), objects)
    }
}
