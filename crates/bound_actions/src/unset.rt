//! The first fluent that an action assigns and that has no first value.

ghost use Rattle.std.specs.Prelude.{◌≡◌, ◌<◌, ◌++◌, IfOk, OnOk, find, flat_map, length, map, not, option_map};
ghost use Rattle.std.specs.Option.{option_copied};
ghost use Rattle.pddl_types.specs.Pairs.{objects_of};
ghost use Rattle.pddl_types.specs.WellFormed.{Each};
ghost use Rattle.static_facts.specs.Atoms.{names};
ghost use Rattle.ground_meaning.specs.Outcomes.{first_unset};
ghost use Rattle.bound_actions.specs.Patterns.{IsBoundBy, assigned, is_set_by, patterns};

use crate::scope::Scope;
use crate::texts::{Bound, atom_text};
use bound_atoms::FluentPattern;
use num_ends::{NoMemory, Text};
use pddl_terms::{Assign, Atom, Effect, Schema};
use pddl_types::Checked;
use std::alloc::Global;
use std::marker::Model;

/// A fluent that is assigned, with its names looked up.
#[derive(Drop)]
pub struct Assigned<'a> {
    pub fluent: FluentPattern<'a>,
    pub atom: &'a Atom,

    ghost same: { fluent.2 ≡ atom.now },
}

/// The fluents that an action assigns, with names looked up. Contracts see the pair and the action.
#[derive(Drop)]
pub struct AssignedFluents<'a> {
    checked: &'a Checked,
    schema: &'a Schema,
    assigned: Vec<Assigned<'a>>,
}

impl<'a> Model for AssignedFluents<'a> {
    ghost use Rattle.pddl_terms.specs.declared.actions.Schema.{Schema};
    ghost use Rattle.pddl_types.specs.declared.pairs.Pair.{Pair};
    ghost use Rattle.bound_actions.specs.Assigned.{AreAssigned};
    ghost use Rattle.pddl_terms.specs.contracts.conditions.Cond as cond;
    ghost use Rattle.pddl_terms.specs.contracts.expressions.Expr as expr;
    ghost use Rattle.std.specs.Coded.{codes};

    ghost Value = { Pair × Schema };

    ghost coded = { Prim.hlevel (codes, cond.the_row.coded, expr.the_row.coded) };

    ghost view = { λ f. (f.checked.now, f.schema.now) };

    ghost invariant = { λ f. AreAssigned f.checked.now f.schema.now f.assigned.items };
}

fn push_assigned<'a>(
    alloc: Global,
    scope: &Scope<'a>,
    effect: &'a Effect,
    fluents: &mut Vec<Assigned<'a>>,
) -> Result<(), NoMemory>
    ensures { OnOk result (map (λ f. f.fluent) fluents.new.items ≡ map (λ f. f.fluent) fluents.old.items ++ patterns scope.now.checked.now scope.now.params.now (assigned effect.now)) }
{
    if let Effect::Num(Assign::Set, atom, _) = effect {
        let fluent = FluentPattern::new(alloc, scope.checked, scope.statics, scope.params, atom)?;
        fluents.push(Assigned { fluent, atom })?;
    }
    Ok(())
}

fn all_assigned<'a>(
    alloc: Global,
    scope: &Scope<'a>,
    effects: &'a [Effect],
) -> Result<Vec<Assigned<'a>>, NoMemory>
    ensures { IfOk result (λ fluents. map (λ f. f.fluent) fluents.items ≡ flat_map (λ e. patterns scope.now.checked.now scope.now.params.now (assigned e)) effects.now) }
{
    let mut fluents = Vec::new(alloc);
    'each: for effect in effects {
        push_assigned(alloc, scope, effect, &mut fluents)?;
    }
    Ok(fluents)
}

fn first_unset<'a>(fluents: &[Assigned<'a>], objects: &[u32]) -> Option<&'a Atom>
    requires bound { Each (λ f. IsBoundBy objects.now f.fluent) fluents.now }
    ensures { option_copied result ≡ option_map (λ q. q.2) (find (λ q. not (is_set_by objects.now q)) (map (λ f. f.fluent) fluents.now)) }
{
    'each: for assigned in fluents {
        if assigned.fluent.first_value(objects).is_none() {
            return Some(assigned.atom);
        }
    }
    None
}

impl<'a> AssignedFluents<'a> {
    /// Looks up the names of the fluents that an action assigns.
    #[tactic(auto, using(crate::proofs::FirstUnset::mapped_assigned))]
    pub fn new(
        alloc: Global,
        scope: &Scope<'a>,
        schema: &'a Schema,
    ) -> Result<AssignedFluents<'a>, NoMemory>
        requires params { scope.now.params.now ≡ schema.now.params }
        ensures { IfOk result (λ f. f ≡ (scope.now.checked.now, schema.now)) }
    {
        let assigned = all_assigned(alloc, scope, schema.effects.as_slice())?;
        Ok(AssignedFluents {
            checked: scope.checked,
            schema,
            assigned,
        })
    }

    /// The text of the first that has no first value, with the parameters bound to objects.
    pub fn first_unset(&self, alloc: Global, objects: &[u32]) -> Result<Option<Text>, NoMemory>
        requires as_many { length objects.now ≡ length self.now.1.params }
        requires known { Each (λ o. o < length (objects_of self.now.0)) objects.now }
        ensures { IfOk result (λ text. text ≡ first_unset self.now.0 self.now.1.params (names self.now.0 objects.now) self.now.1.effects) }
    {
        let bound = Bound {
            checked: self.checked,
            params: self.schema.params.as_slice(),
            objects,
        };
        match first_unset(self.assigned.as_slice(), objects) {
            Some(atom) => Ok(Some(atom_text(alloc, &bound, atom)?)),
            None => Ok(None),
        }
    }
}
