//! The facts that a binding adds and deletes.

ghost use Rattle.std.specs.Prelude.{◌≡◌, ◌<◌, ◌++◌, [], ◌∷◌, IfOk, OnOk, filter, flat_map, length, map, not};
ghost use Rattle.pddl_types.specs.Pairs.{objects_of};
ghost use Rattle.pddl_types.specs.WellFormed.{Each};
ghost use Rattle.static_facts.specs.Atoms.{names};
ghost use Rattle.ground_meaning.specs.Actions.{added_facts, deleted_facts, each_once, is_listed, with_new};
ghost use Rattle.bound_actions.specs.Patterns.{IsBoundBy, added, deleted, fact_code_by, patterns};

use crate::scope::Scope;
use bound_atoms::FactPattern;
use num_ends::NoMemory;
use pddl_terms::{Effect, Schema};
use pddl_types::Checked;
use std::alloc::Global;
use std::marker::Model;

/// The facts that an action adds and deletes, with names looked up. Contracts see the pair and the action.
#[derive(Drop)]
pub struct Facts<'a> {
    checked: &'a Checked,
    schema: &'a Schema,
    adds: Vec<FactPattern<'a>>,
    dels: Vec<FactPattern<'a>>,
}

impl<'a> Model for Facts<'a> {
    ghost use Rattle.pddl_terms.specs.declared.actions.Schema.{Schema};
    ghost use Rattle.pddl_types.specs.declared.pairs.Pair.{Pair};
    ghost use Rattle.bound_actions.specs.Patterns.{AreFactPatterns};
    ghost use Rattle.pddl_terms.specs.contracts.conditions.Cond as cond;
    ghost use Rattle.pddl_terms.specs.contracts.expressions.Expr as expr;
    ghost use Rattle.std.specs.Coded.{codes};

    ghost Value = { Pair × Schema };

    ghost coded = { Prim.hlevel (codes, cond.the_row.coded, expr.the_row.coded) };

    ghost view = { λ f. (f.checked.now, f.schema.now) };

    ghost invariant = { λ f. AreFactPatterns f.checked.now f.schema.now f.adds.items f.dels.items };
}

fn push_added<'a>(
    alloc: Global,
    scope: &Scope<'a>,
    effect: &'a Effect,
    facts: &mut Vec<FactPattern<'a>>,
) -> Result<(), NoMemory>
    ensures { OnOk result (facts.new.items ≡ facts.old.items ++ patterns scope.now.checked.now scope.now.params.now (added effect.now)) }
{
    if let Effect::Add(atom) = effect {
        let pattern = FactPattern::new(alloc, scope.checked, scope.statics, scope.params, atom)?;
        facts.push(pattern)?;
    }
    Ok(())
}

fn push_deleted<'a>(
    alloc: Global,
    scope: &Scope<'a>,
    effect: &'a Effect,
    facts: &mut Vec<FactPattern<'a>>,
) -> Result<(), NoMemory>
    ensures { OnOk result (facts.new.items ≡ facts.old.items ++ patterns scope.now.checked.now scope.now.params.now (deleted effect.now)) }
{
    if let Effect::Del(atom) = effect {
        let pattern = FactPattern::new(alloc, scope.checked, scope.statics, scope.params, atom)?;
        facts.push(pattern)?;
    }
    Ok(())
}

fn added_patterns<'a>(
    alloc: Global,
    scope: &Scope<'a>,
    effects: &'a [Effect],
) -> Result<Vec<FactPattern<'a>>, NoMemory>
    ensures { IfOk result (λ facts. facts.items ≡ flat_map (λ e. patterns scope.now.checked.now scope.now.params.now (added e)) effects.now) }
{
    let mut facts = Vec::new(alloc);
    'each: for effect in effects {
        push_added(alloc, scope, effect, &mut facts)?;
    }
    Ok(facts)
}

fn deleted_patterns<'a>(
    alloc: Global,
    scope: &Scope<'a>,
    effects: &'a [Effect],
) -> Result<Vec<FactPattern<'a>>, NoMemory>
    ensures { IfOk result (λ facts. facts.items ≡ flat_map (λ e. patterns scope.now.checked.now scope.now.params.now (deleted e)) effects.now) }
{
    let mut facts = Vec::new(alloc);
    'each: for effect in effects {
        push_deleted(alloc, scope, effect, &mut facts)?;
    }
    Ok(facts)
}

fn is_listed(code: u128, codes: &[u128]) -> bool
    ensures { result ≡ is_listed code codes.now }
{
    codes.iter().any(|other| *other == code)
}

fn push_new(codes: &mut Vec<u128>, code: u128) -> Result<(), NoMemory>
    ensures { OnOk result (codes.new.items ≡ with_new codes.old.items code) }
{
    if !is_listed(code, codes.as_slice()) {
        codes.push(code)?;
    }
    Ok(())
}

fn codes_once(alloc: Global, facts: &[FactPattern], objects: &[u32]) -> Result<Vec<u128>, NoMemory>
    requires bound { Each (IsBoundBy objects.now) facts.now }
    ensures { IfOk result (λ codes. codes.items ≡ each_once [] (map (fact_code_by objects.now) facts.now)) }
{
    let mut codes = Vec::with_capacity(alloc, facts.len())?;
    'each: for fact in facts {
        push_new(&mut codes, fact.code(objects))?;
    }
    Ok(codes)
}

fn without(alloc: Global, codes: &[u128], taken: &[u128]) -> Result<Vec<u128>, NoMemory>
    ensures { IfOk result (λ left. left.items ≡ filter (λ f. not (is_listed f taken.now)) codes.now) }
{
    let mut left = Vec::with_capacity(alloc, codes.len())?;
    'each: for code in codes {
        if !is_listed(*code, taken) {
            left.push(*code)?;
        }
    }
    Ok(left)
}

impl<'a> Facts<'a> {
    /// Looks up the names of the facts that an action adds and deletes.
    #[tactic(auto, using(crate::proofs::FactCodes::mapped_added, crate::proofs::FactCodes::mapped_deleted))]
    pub fn new(alloc: Global, scope: &Scope<'a>, schema: &'a Schema) -> Result<Facts<'a>, NoMemory>
        requires params { scope.now.params.now ≡ schema.now.params }
        ensures { IfOk result (λ f. f ≡ (scope.now.checked.now, schema.now)) }
    {
        let adds = added_patterns(alloc, scope, schema.effects.as_slice())?;
        let dels = deleted_patterns(alloc, scope, schema.effects.as_slice())?;
        Ok(Facts {
            checked: scope.checked,
            schema,
            adds,
            dels,
        })
    }

    /// The codes of the facts that the action adds, with its parameters bound to objects.
    pub fn adds(&self, alloc: Global, objects: &[u32]) -> Result<Vec<u128>, NoMemory>
        requires as_many { length objects.now ≡ length self.now.1.params }
        requires known { Each (λ o. o < length (objects_of self.now.0)) objects.now }
        ensures { IfOk result (λ codes. codes.items ≡ added_facts self.now.0 self.now.1.params (names self.now.0 objects.now) self.now.1.effects) }
    {
        codes_once(alloc, self.adds.as_slice(), objects)
    }

    /// The codes of those that it deletes and doesn't add.
    pub fn dels(&self, alloc: Global, objects: &[u32], adds: &[u128]) -> Result<Vec<u128>, NoMemory>
        requires as_many { length objects.now ≡ length self.now.1.params }
        requires known { Each (λ o. o < length (objects_of self.now.0)) objects.now }
        requires adds { adds.now ≡ added_facts self.now.0 self.now.1.params (names self.now.0 objects.now) self.now.1.effects }
        ensures { IfOk result (λ codes. codes.items ≡ deleted_facts self.now.0 self.now.1.params (names self.now.0 objects.now) self.now.1.effects) }
    {
        let codes = codes_once(alloc, self.dels.as_slice(), objects)?;
        without(alloc, codes.as_slice(), adds)
    }
}
