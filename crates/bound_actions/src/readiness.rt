//! Whether a binding is ready: each fluent that is read has a first value, and no effects are in conflict.

ghost use Rattle.std.specs.Prelude.{◌≡◌, ◌<◌, IfOk, length};
ghost use Rattle.std.specs.List.{list_all};
ghost use Rattle.pddl_types.specs.Pairs.{objects_of};
ghost use Rattle.pddl_types.specs.WellFormed.{Each};
ghost use Rattle.static_facts.specs.Atoms.{names};
ghost use Rattle.pddl_meaning.specs.Worlds.{initial_world};
ghost use Rattle.pddl_meaning.specs.Steps.{is_ready};
ghost use Rattle.bound_actions.specs.Patterns.{AreBoundBy, IsAction, IsBoundBy, are_apart_by, is_set_by};

use crate::reads::{Apart, action_reads, clashes};
use crate::scope::Scope;
use bound_atoms::FluentPattern;
use num_ends::NoMemory;
use pddl_terms::Schema;
use pddl_types::Checked;
use std::alloc::Global;
use std::marker::Model;

/// What an action reads and which of its effects may be in conflict, with names looked up. Contracts see the pair and the
/// action.
#[derive(Drop)]
pub struct Readiness<'a> {
    checked: &'a Checked,
    schema: &'a Schema,
    reads: Vec<FluentPattern<'a>>,
    apart: Vec<Apart<'a>>,
}

impl<'a> Model for Readiness<'a> {
    ghost use Rattle.pddl_terms.specs.declared.actions.Schema.{Schema};
    ghost use Rattle.pddl_types.specs.declared.pairs.Pair.{Pair};
    ghost use Rattle.bound_actions.specs.Patterns.{IsReadiness};
    ghost use Rattle.pddl_terms.specs.contracts.conditions.Cond as cond;
    ghost use Rattle.pddl_terms.specs.contracts.expressions.Expr as expr;
    ghost use Rattle.std.specs.Coded.{codes};

    ghost Value = { Pair × Schema };

    ghost coded = { Prim.hlevel (codes, cond.the_row.coded, expr.the_row.coded) };

    ghost view = { λ r. (r.checked.now, r.schema.now) };

    ghost invariant = { λ r. IsReadiness r.checked.now r.schema.now r.reads.items r.apart.items };
}

fn are_set(reads: &[FluentPattern], objects: &[u32]) -> bool
    requires bound { Each (IsBoundBy objects.now) reads.now }
    ensures { result ≡ list_all (is_set_by objects.now) reads.now }
{
    'each: for read in reads {
        if read.first_value(objects).is_none() {
            return false;
        }
    }
    true
}

fn are_apart(pairs: &[Apart], objects: &[u32]) -> bool
    requires bound { Each (AreBoundBy objects.now) pairs.now }
    ensures { result ≡ list_all (are_apart_by objects.now) pairs.now }
{
    'each: for pair in pairs {
        if pair.0.code(objects) == pair.1.code(objects) {
            return false;
        }
    }
    true
}

impl<'a> Readiness<'a> {
    /// Looks up the names of what an action reads and changes.
    pub fn new(
        alloc: Global,
        scope: &Scope<'a>,
        schema: &'a Schema,
    ) -> Result<Readiness<'a>, NoMemory>
        requires params { scope.now.params.now ≡ schema.now.params }
        requires of_pair { IsAction scope.now.checked.now schema.now }
        ensures { IfOk result (λ r. r ≡ (scope.now.checked.now, schema.now)) }
    {
        let reads = action_reads(alloc, scope, schema)?;
        let apart = clashes(alloc, scope, schema.effects.as_slice())?;
        Ok(Readiness {
            checked: scope.checked,
            schema,
            reads,
            apart,
        })
    }

    /// Whether the action is ready at first, with its parameters bound to objects.
    pub fn is_ready(&self, objects: &[u32]) -> bool
        requires as_many { length objects.now ≡ length self.now.1.params }
        requires known { Each (λ o. o < length (objects_of self.now.0)) objects.now }
        ensures { result ≡ is_ready self.now.1 (names self.now.0 objects.now) (initial_world self.now.0) }
    {
        are_set(self.reads.as_slice(), objects) && are_apart(self.apart.as_slice(), objects)
    }
}
