//! An action under one binding after another.

ghost use Rattle.std.specs.Prelude.{◌≡◌, ◌<◌, false, true, Some, Ok, IfOk, MatchResult, length, slice_get};
ghost use Rattle.pddl_types.specs.Pairs.{objects_of};
ghost use Rattle.pddl_types.specs.WellFormed.{Each};
ghost use Rattle.static_facts.specs.Atoms.{names};
ghost use Rattle.coded_actions.specs.Coded.{action_of};
ghost use Rattle.ground_meaning.specs.Actions.{coded_action, folded_action};
ghost use Rattle.ground_meaning.specs.Conditions.{folded_condition};
ghost use Rattle.ground_meaning.specs.Conditions.Settled.{decided};
ghost use Rattle.ground_meaning.specs.Outcomes.{folded_outcome, outcome, outcome_of};
ghost use Rattle.ground_meaning.specs.Outcomes.Outcome.{Dropped};
ghost use Rattle.folded_terms.specs.Faults.{IsFoldFault};
ghost use Rattle.folding.specs.Folding.{IsKept, IsRefusedBy};
ghost use Rattle.folded_terms.specs.Settled.{settled_of};
ghost use Rattle.folding.specs.internal.Parts.{AreFactsOf, IsMadeOf, action_parts, effects_after};
ghost use Rattle.bound_actions.specs.Patterns.{IsAction};

use crate::changes::{FoldedParts, NamedFacts, PendingChange};
use crate::effects::NumericEffects;
use crate::growth::numeric_effects;
use bound_actions::{AssignedFluents, Facts, Readiness, Scope, action_text};
use coded_actions::CodedAction;
use folded_terms::{CodedSettled, FoldError, fold_condition};
use ground_meaning::GroundFault;
use num_ends::{List, NoMemory};
use pddl_terms::Schema;
use pddl_types::{Checked, Side};
use static_facts::Statics;
use std::alloc::Global;
use std::marker::Model;
use term_patterns::CondPattern;
use term_verdicts::condition_verdict;

/// An action with its names looked up, for one binding after another. Contracts see the pair and the action.
#[derive(Drop)]
pub struct Folder<'a> {
    checked: &'a Checked,
    schema: &'a Schema,
    readiness: Readiness<'a>,
    condition: CondPattern<'a>,
    effects: NumericEffects<'a>,
    facts: Facts<'a>,
    assigned: AssignedFluents<'a>,
}

impl<'a> Model for Folder<'a> {
    ghost use Rattle.pddl_terms.specs.declared.actions.Schema.{Schema};
    ghost use Rattle.pddl_types.specs.declared.pairs.Pair.{Pair};
    ghost use Rattle.folding.specs.internal.Parts.{AreParts};
    ghost use Rattle.pddl_terms.specs.contracts.conditions.Cond as cond;
    ghost use Rattle.pddl_terms.specs.contracts.expressions.Expr as expr;
    ghost use Rattle.std.specs.Coded.{codes};

    ghost Value = { Pair × Schema };

    ghost coded = { Prim.hlevel (codes, cond.the_row.coded, expr.the_row.coded) };

    ghost view = { λ f. (f.checked.now, f.schema.now) };

    ghost invariant = { λ f. AreParts f.checked.now f.schema.now f.readiness f.effects f.facts f.assigned f.condition };
}

fn discard_condition(_condition: CodedSettled) {}

fn discard_changes(_changes: Vec<PendingChange>) {}

fn discard(parts: FoldedParts) {
    let FoldedParts { condition, changes } = parts;
    discard_condition(condition);
    discard_changes(changes);
}

fn coded(alloc: Global, facts: NamedFacts, parts: FoldedParts) -> Result<CodedAction, NoMemory>
    ensures { IfOk result (IsMadeOf facts parts) }
{
    let FoldedParts { condition, changes } = parts;
    let NamedFacts { name, adds, dels } = facts;
    match numeric_effects(alloc, changes) {
        Ok(nums) => Ok(CodedAction {
            name,
            pre: condition.into_condition(),
            adds,
            dels,
            nums,
        }),
        Err(fault) => {
            discard_condition(condition);
            Err(fault)
        }
    }
}

fn put_together<'a>(
    alloc: Global,
    scope: &Scope<'a>,
    schema: &'a Schema,
) -> Result<Folder<'a>, NoMemory>
    requires params { scope.now.params.now ≡ schema.now.params }
    requires of_pair { IsAction scope.now.checked.now schema.now }
    ensures { IfOk result (λ f. f ≡ (scope.now.checked.now, schema.now)) }
{
    let readiness = Readiness::new(alloc, scope, schema)?;
    let condition = CondPattern::new(
        alloc,
        scope.checked,
        scope.statics,
        scope.params,
        &schema.pre,
    )?;
    let effects = NumericEffects::new(alloc, scope, schema)?;
    let facts = Facts::new(alloc, scope, schema)?;
    let assigned = AssignedFluents::new(alloc, scope, schema)?;
    Ok(Folder {
        checked: scope.checked,
        schema,
        readiness,
        condition,
        effects,
        facts,
        assigned,
    })
}

impl<'a> Folder<'a> {
    /// Looks the names of the action with a number up.
    pub fn new(
        alloc: Global,
        checked: &'a Checked,
        statics: &'a Statics<'a>,
        schema: u32,
    ) -> Result<Folder<'a>, NoMemory>
        requires one_pair { statics.now ≡ checked.now }
        requires within { schema < length checked.now.domain.schemas }
        ensures pair { IfOk result (λ f. f.0 ≡ checked.now) }
        ensures action { IfOk result (λ f. slice_get checked.now.domain.schemas schema ≡ Some f.1) }
    {
        let schemas = checked.domain().schemas.as_slice();
        let schema = &schemas[schema as usize];
        let scope = Scope {
            checked,
            statics,
            params: schema.params.as_slice(),
        };
        put_together(alloc, &scope, schema)
    }

    // The numeric effects folded, after the precondition.
    fn with_effects(
        &self,
        alloc: Global,
        objects: &[u32],
        condition: CodedSettled,
    ) -> Result<FoldedParts, FoldError>
        requires as_many { length objects.now ≡ length self.now.1.params }
        requires known { Each (λ o. o < length (objects_of self.now.0)) objects.now }
        ensures { MatchResult result (λ f. effects_after self.now.0 self.now.1 (names self.now.0 objects.now) (settled_of condition) ≡ Ok (action_parts f)) (IsFoldFault (effects_after self.now.0 self.now.1 (names self.now.0 objects.now) (settled_of condition))) }
    {
        match self.effects.fold(alloc, objects) {
            Ok(changes) => Ok(FoldedParts { condition, changes }),
            Err(error) => {
                discard_condition(condition);
                Err(error)
            }
        }
    }

    // The precondition folded, and then the numeric effects.
    fn folded(&self, alloc: Global, objects: &[u32]) -> Result<FoldedParts, FoldError>
        requires as_many { length objects.now ≡ length self.now.1.params }
        requires known { Each (λ o. o < length (objects_of self.now.0)) objects.now }
        ensures { MatchResult result (λ f. folded_action self.now.0 self.now.1 (names self.now.0 objects.now) ≡ Ok (action_parts f)) (IsFoldFault (folded_action self.now.0 self.now.1 (names self.now.0 objects.now))) }
    {
        match fold_condition(alloc, &self.condition, objects) {
            Ok(condition) => self.with_effects(alloc, objects, condition),
            Err(error) => Err(error),
        }
    }

    // Why a binding whose fold has a fault refuses the pair.
    fn refusal(&self, alloc: Global, objects: &[u32], error: FoldError) -> GroundFault
        requires known { Each (λ o. o < length (objects_of self.now.0)) objects.now }
        requires fault { IsFoldFault (folded_action self.now.0 self.now.1 (names self.now.0 objects.now)) error }
        ensures { IsRefusedBy (outcome_of self.now.0 self.now.1 (names self.now.0 objects.now) (folded_action self.now.0 self.now.1 (names self.now.0 objects.now))) result }
    {
        match error {
            FoldError::Divide(place) => GroundFault::Divide(Side::Domain, place),
            FoldError::OutOfRange => match action_text(alloc, self.checked, self.schema, objects) {
                Ok(text) => GroundFault::Range(text),
                Err(_) => GroundFault::NoMemory,
            },
            FoldError::NoMemory => GroundFault::NoMemory,
        }
    }

    // The text of the action, and the facts that it changes.
    fn named_facts(&self, alloc: Global, objects: &[u32]) -> Result<NamedFacts, NoMemory>
        requires as_many { length objects.now ≡ length self.now.1.params }
        requires known { Each (λ o. o < length (objects_of self.now.0)) objects.now }
        ensures { IfOk result (AreFactsOf self.now.0 self.now.1 (names self.now.0 objects.now)) }
    {
        let adds = self.facts.adds(alloc, objects)?;
        let dels = self.facts.dels(alloc, objects, adds.as_slice())?;
        let name = action_text(alloc, self.checked, self.schema, objects)?;
        Ok(NamedFacts {
            name,
            adds: List::from_vec(adds),
            dels: List::from_vec(dels),
        })
    }

    // The action of the task.
    fn kept(
        &self,
        alloc: Global,
        objects: &[u32],
        parts: FoldedParts,
    ) -> Result<CodedAction, NoMemory>
        requires as_many { length objects.now ≡ length self.now.1.params }
        requires known { Each (λ o. o < length (objects_of self.now.0)) objects.now }
        ensures { IfOk result (λ a. action_of a ≡ coded_action self.now.0 self.now.1 (names self.now.0 objects.now) (action_parts parts)) }
    {
        match self.named_facts(alloc, objects) {
            Ok(facts) => coded(alloc, facts, parts),
            Err(fault) => {
                discard(parts);
                Err(fault)
            }
        }
    }

    // What becomes of a binding that is folded.
    fn settled(
        &self,
        alloc: Global,
        objects: &[u32],
        parts: FoldedParts,
    ) -> Result<Option<CodedAction>, GroundFault>
        requires as_many { length objects.now ≡ length self.now.1.params }
        requires known { Each (λ o. o < length (objects_of self.now.0)) objects.now }
        ensures { MatchResult result (IsKept (folded_outcome self.now.0 self.now.1 (names self.now.0 objects.now) (action_parts parts))) (IsRefusedBy (folded_outcome self.now.0 self.now.1 (names self.now.0 objects.now) (action_parts parts))) }
    {
        if parts.condition.is_false() {
            discard(parts);
            return Ok(None);
        }
        match self.assigned.first_unset(alloc, objects) {
            Ok(None) => match self.kept(alloc, objects, parts) {
                Ok(action) => Ok(Some(action)),
                Err(_) => Err(GroundFault::NoMemory),
            },
            Ok(Some(text)) => {
                discard(parts);
                Err(GroundFault::Unset(text))
            }
            Err(_) => {
                discard(parts);
                Err(GroundFault::NoMemory)
            }
        }
    }

    // What becomes of a binding that is ready.
    fn ready_outcome(
        &self,
        alloc: Global,
        objects: &[u32],
    ) -> Result<Option<CodedAction>, GroundFault>
        requires as_many { length objects.now ≡ length self.now.1.params }
        requires known { Each (λ o. o < length (objects_of self.now.0)) objects.now }
        ensures { MatchResult result (IsKept (outcome_of self.now.0 self.now.1 (names self.now.0 objects.now) (folded_action self.now.0 self.now.1 (names self.now.0 objects.now)))) (IsRefusedBy (outcome_of self.now.0 self.now.1 (names self.now.0 objects.now) (folded_action self.now.0 self.now.1 (names self.now.0 objects.now)))) }
    {
        match self.folded(alloc, objects) {
            Ok(parts) => self.settled(alloc, objects, parts),
            Err(error) => Err(self.refusal(alloc, objects, error)),
        }
    }

    // Whether the precondition is false, and nothing in it has a fault.
    fn is_false(&self, objects: &[u32]) -> bool
        requires as_many { length objects.now ≡ length self.now.1.params }
        requires known { Each (λ o. o < length (objects_of self.now.0)) objects.now }
        ensures { result ≡ true → folded_condition self.now.0 self.now.1.params (names self.now.0 objects.now) self.now.1.pre true ≡ Ok (decided false) }
    {
        match condition_verdict(&self.condition, objects) {
            Ok(Some(truth)) => !truth,
            Ok(None) => false,
            Err(_) => false,
        }
    }

    // Whether the precondition is false, and no effect has a fault: such a binding is left out, whether or not it is
    // ready, and nothing is built to find it out. Where effects are joined to one another the answer is no.
    fn is_left_out(&self, objects: &[u32]) -> bool
        requires as_many { length objects.now ≡ length self.now.1.params }
        requires known { Each (λ o. o < length (objects_of self.now.0)) objects.now }
        ensures { result ≡ true → outcome self.now.0 self.now.1 objects.now ≡ Dropped }
    {
        if self.is_false(objects) {
            return self.effects.are_sound(objects);
        }
        false
    }

    /// What becomes of a binding of the parameters to objects: None where it is left out, the folded action where it is
    /// kept, and else why it refuses the pair. A binding that isn't ready costs no memory, nor does one whose precondition
    /// is false, unless two of its effects add to one fluent.
    pub fn outcome(
        &self,
        alloc: Global,
        objects: &[u32],
    ) -> Result<Option<CodedAction>, GroundFault>
        requires as_many { length objects.now ≡ length self.now.1.params }
        requires known { Each (λ o. o < length (objects_of self.now.0)) objects.now }
        ensures { MatchResult result (IsKept (outcome self.now.0 self.now.1 objects.now)) (IsRefusedBy (outcome self.now.0 self.now.1 objects.now)) }
    {
        if self.is_left_out(objects) {
            return Ok(None);
        }
        if self.readiness.is_ready(objects) {
            return self.ready_outcome(alloc, objects);
        }
        Ok(None)
    }
}
