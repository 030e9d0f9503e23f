//! The atoms of a pair under bindings of parameters.

ghost use Rattle.std.specs.Prelude.{◌≡◌, ◌<◌, IfOk, length};
ghost use Rattle.pddl_types.specs.Pairs.{objects_of};
ghost use Rattle.pddl_types.specs.WellFormed.{Each};
ghost use Rattle.static_facts.specs.Atoms.{atom_of, is_true_at_first, names, value_at_first};
ghost use Rattle.static_facts.specs.Codes.{fact_code, fluent_code};
ghost use Rattle.static_facts.specs.Fixed.{is_fixed_function, is_fixed_predicate};

use crate::atoms::{AtomSlots, fact_slots, fluent_slots};
use num_ends::{Dec, NoMemory};
use pddl_terms::{Atom, Typed};
use pddl_types::Checked;
use static_facts::Statics;
use std::alloc::Global;
use std::marker::Model;

/// A fact with its names looked up. Contracts see the pair, the parameters and the atom.
#[derive(Drop)]
pub struct FactPattern<'a> {
    checked: &'a Checked,
    statics: &'a Statics<'a>,
    params: &'a [Typed],
    atom: &'a Atom,
    slots: AtomSlots,
}

impl<'a> Model for FactPattern<'a> {
    ghost use Rattle.std.specs.Prelude.{List};
    ghost use Rattle.pddl_terms.specs.declared.names.Atom.{Atom};
    ghost use Rattle.pddl_terms.specs.declared.names.Typed.{Typed};
    ghost use Rattle.pddl_types.specs.declared.pairs.Pair.{Pair};
    ghost use Rattle.bound_atoms.specs.Patterns.{IsFactPattern};
    ghost use Rattle.pddl_terms.specs.contracts.conditions.Cond as cond;
    ghost use Rattle.pddl_terms.specs.contracts.expressions.Expr as expr;
    ghost use Rattle.std.specs.Coded.{codes};

    ghost Value = { Pair × List Typed × Atom };

    ghost coded = { Prim.hlevel (codes, cond.the_row.coded, expr.the_row.coded) };

    ghost view = { λ q. (q.checked.now, q.params.now, q.atom.now) };

    ghost invariant = { λ q. IsFactPattern q.checked.now q.statics.now q.params.now q.atom.now q.slots };
}

impl<'a> FactPattern<'a> {
    /// Looks the names of a fact up.
    pub fn new(
        alloc: Global,
        checked: &'a Checked,
        statics: &'a Statics<'a>,
        params: &'a [Typed],
        atom: &'a Atom,
    ) -> Result<FactPattern<'a>, NoMemory>
        requires one_pair { statics.now ≡ checked.now }
        ensures { IfOk result (λ pattern. pattern ≡ (checked.now, params.now, atom.now)) }
    {
        let _domain = checked.domain();
        let slots = fact_slots(alloc, checked, statics, params, atom)?;
        Ok(FactPattern {
            checked,
            statics,
            params,
            atom,
            slots,
        })
    }

    /// Whether no effect names its predicate.
    pub fn is_fixed(&self) -> bool
        ensures { result ≡ is_fixed_predicate self.now.0 self.now.2.head.text }
    {
        self.slots.symbol.fixed
    }

    /// Its code under a binding of the parameters to objects.
    pub fn code(&self, objects: &[u32]) -> u128
        requires as_many { length objects.now ≡ length self.now.1 }
        requires known { Each (λ o. o < length (objects_of self.now.0)) objects.now }
        ensures { result ≡ fact_code self.now.0 (atom_of self.now.1 (names self.now.0 objects.now) self.now.2) }
    {
        self.slots.code(objects)
    }

    /// Whether it is true at first under a binding of the parameters to objects.
    pub fn first_truth(&self, objects: &[u32]) -> bool
        requires as_many { length objects.now ≡ length self.now.1 }
        requires known { Each (λ o. o < length (objects_of self.now.0)) objects.now }
        ensures { result ≡ is_true_at_first self.now.0 (atom_of self.now.1 (names self.now.0 objects.now) self.now.2) }
    {
        self.slots.first_truth(self.statics, objects)
    }
}

/// A fluent with its names looked up. Contracts see the pair, the parameters and the atom.
#[derive(Drop)]
pub struct FluentPattern<'a> {
    checked: &'a Checked,
    statics: &'a Statics<'a>,
    params: &'a [Typed],
    atom: &'a Atom,
    slots: AtomSlots,
}

impl<'a> Model for FluentPattern<'a> {
    ghost use Rattle.std.specs.Prelude.{List};
    ghost use Rattle.pddl_terms.specs.declared.names.Atom.{Atom};
    ghost use Rattle.pddl_terms.specs.declared.names.Typed.{Typed};
    ghost use Rattle.pddl_types.specs.declared.pairs.Pair.{Pair};
    ghost use Rattle.bound_atoms.specs.Patterns.{IsFluentPattern};
    ghost use Rattle.pddl_terms.specs.contracts.conditions.Cond as cond;
    ghost use Rattle.pddl_terms.specs.contracts.expressions.Expr as expr;
    ghost use Rattle.std.specs.Coded.{codes};

    ghost Value = { Pair × List Typed × Atom };

    ghost coded = { Prim.hlevel (codes, cond.the_row.coded, expr.the_row.coded) };

    ghost view = { λ q. (q.checked.now, q.params.now, q.atom.now) };

    ghost invariant = { λ q. IsFluentPattern q.checked.now q.statics.now q.params.now q.atom.now q.slots };
}

impl<'a> FluentPattern<'a> {
    /// Looks the names of a fluent up.
    pub fn new(
        alloc: Global,
        checked: &'a Checked,
        statics: &'a Statics<'a>,
        params: &'a [Typed],
        atom: &'a Atom,
    ) -> Result<FluentPattern<'a>, NoMemory>
        requires one_pair { statics.now ≡ checked.now }
        ensures { IfOk result (λ pattern. pattern ≡ (checked.now, params.now, atom.now)) }
    {
        let _domain = checked.domain();
        let slots = fluent_slots(alloc, checked, statics, params, atom)?;
        Ok(FluentPattern {
            checked,
            statics,
            params,
            atom,
            slots,
        })
    }

    /// Whether no effect names its function.
    pub fn is_fixed(&self) -> bool
        ensures { result ≡ is_fixed_function self.now.0 self.now.2.head.text }
    {
        self.slots.symbol.fixed
    }

    /// Its code under a binding of the parameters to objects.
    pub fn code(&self, objects: &[u32]) -> u128
        requires as_many { length objects.now ≡ length self.now.1 }
        requires known { Each (λ o. o < length (objects_of self.now.0)) objects.now }
        ensures { result ≡ fluent_code self.now.0 (atom_of self.now.1 (names self.now.0 objects.now) self.now.2) }
    {
        self.slots.code(objects)
    }

    /// Its value at first under a binding of the parameters to objects. None exactly where no value is given.
    pub fn first_value(&self, objects: &[u32]) -> Option<Dec>
        requires as_many { length objects.now ≡ length self.now.1 }
        requires known { Each (λ o. o < length (objects_of self.now.0)) objects.now }
        ensures { result ≡ value_at_first self.now.0 (atom_of self.now.1 (names self.now.0 objects.now) self.now.2) }
    {
        self.slots.first_value(self.statics, objects)
    }
}
