//! The expressions and conditions of a pair, for bindings of parameters to objects.

ghost use Rattle.std.specs.Prelude.{ℕ, ◌≡◌, ◌<◌, List, true, IfOk, length};
ghost use Rattle.pddl_types.specs.Pairs.{objects_of};
ghost use Rattle.pddl_types.specs.WellFormed.{Each};
ghost use Rattle.static_facts.specs.Atoms.{names};
ghost use Rattle.ground_meaning.specs.Expressions.{folded};
ghost use Rattle.ground_meaning.specs.Conditions.{folded_condition};
ghost use Rattle.term_patterns.specs.Bound.{bound_condition, bound_expression};

use crate::expressions::{ExprSlots, expression_slots};
use crate::slots::{CondSlots, Scope, condition_slots};
use num_ends::NoMemory;
use pddl_terms::{Cond, Expr, Typed};
use pddl_types::Checked;
use static_facts::Statics;
use std::alloc::Global;
use std::marker::Model;

/// An expression with its names looked up. Contracts see the pair, the parameters and the expression.
#[derive(Drop)]
pub struct ExprPattern<'a> {
    checked: &'a Checked,
    statics: &'a Statics<'a>,
    params: &'a [Typed],
    expr: &'a Expr,
    slots: ExprSlots,
}

impl<'a> Model for ExprPattern<'a> {
    ghost use Rattle.std.specs.Prelude.{List};
    ghost use Rattle.pddl_terms.specs.declared.expressions.Expr.{Expr};
    ghost use Rattle.pddl_terms.specs.declared.names.Typed.{Typed};
    ghost use Rattle.pddl_types.specs.declared.pairs.Pair.{Pair};
    ghost use Rattle.term_patterns.specs.Patterns.{IsExprPattern};
    ghost use Rattle.pddl_terms.specs.contracts.conditions.Cond as condition;
    ghost use Rattle.pddl_terms.specs.contracts.expressions.Expr as expression;
    ghost use Rattle.std.specs.Coded.{codes};

    ghost Value = { Pair × List Typed × Expr };

    ghost coded = { Prim.hlevel (codes, condition.the_row.coded, expression.the_row.coded) };

    ghost view = { λ q. (q.checked.now, q.params.now, q.expr.now) };

    ghost invariant = { λ q. IsExprPattern q.checked.now q.statics.now q.params.now q.expr.now q.slots };
}

impl<'a> ExprPattern<'a> {
    /// Looks the names of an expression up.
    pub fn new(
        alloc: Global,
        checked: &'a Checked,
        statics: &'a Statics<'a>,
        params: &'a [Typed],
        expr: &'a Expr,
    ) -> Result<ExprPattern<'a>, NoMemory>
        requires one_pair { statics.now ≡ checked.now }
        ensures { IfOk result (λ pattern. pattern ≡ (checked.now, params.now, expr.now)) }
    {
        let _domain = checked.domain();
        let slots = expression_slots(alloc, checked, statics, params, expr)?;
        Ok(ExprPattern {
            checked,
            statics,
            params,
            expr,
            slots,
        })
    }

    /// What no action of the pair changes.
    pub fn statics(&self) -> &'a Statics<'a>
        ensures { result.now ≡ self.now.0 }
    {
        self.statics
    }

    /// The expression with its names looked up. Under a binding of the parameters to objects the two fold to one.
    pub fn slots(&self) -> &ExprSlots
        ensures { (os : List ℕ) → length os ≡ length self.now.1 → Each (λ o. o < length (objects_of self.now.0)) os → bound_expression self.now.0 os result.now ≡ folded self.now.0 self.now.1 (names self.now.0 os) self.now.2 }
    {
        &self.slots
    }
}

/// A condition with its names looked up. Contracts see the pair, the parameters and the condition.
#[derive(Drop)]
pub struct CondPattern<'a> {
    checked: &'a Checked,
    statics: &'a Statics<'a>,
    params: &'a [Typed],
    cond: &'a Cond,
    slots: CondSlots,
}

impl<'a> Model for CondPattern<'a> {
    ghost use Rattle.std.specs.Prelude.{List};
    ghost use Rattle.pddl_terms.specs.declared.conditions.Cond.{Cond};
    ghost use Rattle.pddl_terms.specs.declared.names.Typed.{Typed};
    ghost use Rattle.pddl_types.specs.declared.pairs.Pair.{Pair};
    ghost use Rattle.term_patterns.specs.Patterns.{IsCondPattern};
    ghost use Rattle.pddl_terms.specs.contracts.conditions.Cond as condition;
    ghost use Rattle.pddl_terms.specs.contracts.expressions.Expr as expression;
    ghost use Rattle.std.specs.Coded.{codes};

    ghost Value = { Pair × List Typed × Cond };

    ghost coded = { Prim.hlevel (codes, condition.the_row.coded, expression.the_row.coded) };

    ghost view = { λ q. (q.checked.now, q.params.now, q.cond.now) };

    ghost invariant = { λ q. IsCondPattern q.checked.now q.statics.now q.params.now q.cond.now q.slots };
}

impl<'a> CondPattern<'a> {
    /// Looks the names of a condition up.
    pub fn new(
        alloc: Global,
        checked: &'a Checked,
        statics: &'a Statics<'a>,
        params: &'a [Typed],
        cond: &'a Cond,
    ) -> Result<CondPattern<'a>, NoMemory>
        requires one_pair { statics.now ≡ checked.now }
        ensures { IfOk result (λ pattern. pattern ≡ (checked.now, params.now, cond.now)) }
    {
        let _domain = checked.domain();
        let scope = Scope {
            checked,
            statics,
            params,
        };
        let slots = condition_slots(alloc, &scope, cond, true)?;
        Ok(CondPattern {
            checked,
            statics,
            params,
            cond,
            slots,
        })
    }

    /// What no action of the pair changes.
    pub fn statics(&self) -> &'a Statics<'a>
        ensures { result.now ≡ self.now.0 }
    {
        self.statics
    }

    /// The condition with its names looked up. Under a binding of the parameters to objects the two fold to one.
    pub fn slots(&self) -> &CondSlots
        ensures { (os : List ℕ) → length os ≡ length self.now.1 → Each (λ o. o < length (objects_of self.now.0)) os → bound_condition self.now.0 os result.now ≡ folded_condition self.now.0 self.now.1 (names self.now.0 os) self.now.2 true }
    {
        &self.slots
    }
}
