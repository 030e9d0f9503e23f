//! What no action changes, and what is given at first.

ghost use Rattle.std.specs.Prelude.{◌≡◌, IfOk};
ghost use Rattle.static_facts.specs.Atoms.{fact_atom, fluent_atom, head_text, is_true_at_first, value_at_first};
ghost use Rattle.static_facts.specs.Fixed.{is_fixed_function, is_fixed_predicate};

use crate::changed::{changed_functions, changed_predicates, fixed_flags};
use crate::codes::code_of;
use crate::tables::{first_values, true_facts};
use indexmap::{IndexMap, IndexSet};
use num_ends::{Dec, NoMemory};
use pddl_types::Checked;
use std::alloc::Global;
use std::marker::Model;

/// What no action of a pair changes, and its initial state, found by the numbers of predicates, functions and objects.
/// Contracts see the pair.
#[derive(Drop)]
pub struct Statics<'a> {
    checked: &'a Checked,
    fixed_predicates: Vec<bool>,
    fixed_functions: Vec<bool>,
    facts: IndexSet<u128>,
    values: IndexMap<u128, Dec>,
}

impl<'a> Model for Statics<'a> {
    ghost use Rattle.std.specs.Prelude.{nat_eq};
    ghost use Rattle.indexmap.specs.IndexMap as map;
    ghost use Rattle.indexmap.specs.IndexSet as set;
    ghost use Rattle.pddl_types.specs.declared.pairs.Pair.{Pair};
    ghost use Rattle.static_facts.specs.internal.Stored.{IsStored};
    ghost use Rattle.pddl_terms.specs.contracts.conditions.Cond as cond;
    ghost use Rattle.pddl_terms.specs.contracts.expressions.Expr as expr;
    ghost use Rattle.std.specs.Coded.{codes};

    ghost Value = { Pair };

    ghost coded = { Prim.hlevel (codes, cond.the_row.coded, expr.the_row.coded) };

    ghost view = { λ s. s.checked.now };

    ghost invariant = { λ s. IsStored s.checked.now s.fixed_predicates.items s.fixed_functions.items (set.contains nat_eq s.facts) (map.get nat_eq s.values) };
}

/// Finds what no action of a pair changes.
pub fn find_statics(alloc: Global, checked: &Checked) -> Result<Statics<'_>, NoMemory>
    ensures { IfOk result (λ statics. statics ≡ checked.now) }
{
    let domain = checked.domain();
    let changed = changed_predicates(alloc, domain.schemas.as_slice())?;
    let fixed_predicates = fixed_flags(alloc, domain.predicates.as_slice(), &changed)?;
    let changed = changed_functions(alloc, domain.schemas.as_slice())?;
    let fixed_functions = fixed_flags(alloc, domain.functions.as_slice(), &changed)?;
    let facts = true_facts(alloc, checked)?;
    let values = first_values(alloc, checked)?;
    Ok(Statics {
        checked,
        fixed_predicates,
        fixed_functions,
        facts,
        values,
    })
}

impl<'a> Statics<'a> {
    /// Whether no effect names the predicate with a number.
    pub fn predicate_fixed(&self, predicate: u32) -> bool
        ensures { result ≡ is_fixed_predicate self.now (head_text self.now.domain.predicates predicate) }
    {
        match self.fixed_predicates.get(predicate as usize) {
            Some(fixed) => *fixed,
            None => true,
        }
    }

    /// Whether no effect names the function with a number.
    pub fn function_fixed(&self, function: u32) -> bool
        ensures { result ≡ is_fixed_function self.now (head_text self.now.domain.functions function) }
    {
        match self.fixed_functions.get(function as usize) {
            Some(fixed) => *fixed,
            None => true,
        }
    }

    /// Whether a fact is true at first, by the number of its predicate and those of the objects.
    pub fn fact(&self, predicate: u32, objects: &[u32]) -> bool
        ensures { result ≡ is_true_at_first self.now (fact_atom self.now predicate objects.now) }
    {
        match code_of(predicate, objects) {
            Some(code) => self.facts.contains(&code),
            None => false,
        }
    }

    /// The value of a fluent at first, by the number of its function and those of the objects. None exactly where no
    /// value is given.
    pub fn value(&self, function: u32, objects: &[u32]) -> Option<Dec>
        ensures { result ≡ value_at_first self.now (fluent_atom self.now function objects.now) }
    {
        match code_of(function, objects) {
            Some(code) => self.values.get(&code).copied(),
            None => None,
        }
    }
}
