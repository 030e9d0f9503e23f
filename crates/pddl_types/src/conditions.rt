//! The faults of expressions, conditions and effects.

ghost use Rattle.std.specs.Prelude.{◌≡◌, OnOk, flat_map, false, None};
ghost use Rattle.pddl_types.specs.UseFaults.{condition_faults, effect_faults, expression_faults, is_division, read_faults};
ghost use Rattle.pddl_types.specs.internal.Notes.{Noted};
ghost use Rattle.pddl_types.specs.declared.faults.Side.TheVariants as sides;

use crate::atoms::{Scope, note_argument, note_atom};
use crate::faults::CheckKind;
use crate::first::Notes;
use crate::pairs::Sort;
use num_ends::NoMemory;
use pddl_terms::{Atom, Cond, Effect, Expr, Op};
use std::alloc::Global;

fn is_division(op: Op) -> bool
    ensures { result ≡ is_division op }
{
    match op {
        Op::Add | Op::Sub | Op::Mul => false,
        Op::Div => true,
    }
}

fn note_read(
    alloc: Global,
    scope: &Scope,
    atom: &Atom,
    divisor: bool,
    notes: &mut Notes,
) -> Result<(), NoMemory>
    ensures { OnOk result (Noted notes.old notes.new (read_faults scope.now.named.now scope.now.side scope.now.params.now atom.now divisor)) }
{
    note_atom(alloc, scope, Sort::Function, atom, notes)?;
    if divisor && scope.named.is_changed(atom.head.text.as_slice()) {
        notes.note(alloc, scope.side, CheckKind::Divide, &atom.head)?;
    }
    Ok(())
}

/// Notes the faults of an expression that stands in a divisor or not.
#[tactic(auto, using(crate::proofs::Layers::number_layer, crate::proofs::Layers::read_layer, crate::proofs::Layers::operation_layer, crate::proofs::Noted::noted_append))]
pub(crate) fn note_expression(
    alloc: Global,
    scope: &Scope,
    expr: &Expr,
    divisor: bool,
    notes: &mut Notes,
) -> Result<(), NoMemory>
    ensures { OnOk result (Noted notes.old notes.new (expression_faults scope.now.named.now scope.now.side scope.now.params.now expr.now divisor)) }
{
    match expr {
        Expr::Lit(_, _) => Ok(()),
        Expr::Read(atom) => note_read(alloc, scope, atom, divisor, notes),
        Expr::Op(_, op, left, right) => {
            note_expression(alloc, scope, left.get(), divisor, notes)?;
            note_expression(
                alloc,
                scope,
                right.get(),
                divisor || is_division(*op),
                notes,
            )
        }
    }
}

/// Notes the faults of a condition.
#[cycle(conditions)]
#[tactic(auto, using(crate::proofs::Layers::and_layer, crate::proofs::Layers::or_layer, crate::proofs::Layers::not_layer, crate::proofs::Layers::imply_layer, crate::proofs::Layers::fact_layer, crate::proofs::Layers::same_layer, crate::proofs::Layers::compare_layer, crate::proofs::Noted::noted_append))]
pub(crate) fn note_condition(
    alloc: Global,
    scope: &Scope,
    cond: &Cond,
    notes: &mut Notes,
) -> Result<(), NoMemory>
    ensures { OnOk result (Noted notes.old notes.new (condition_faults scope.now.named.now scope.now.side scope.now.params.now cond.now)) }
{
    match cond {
        Cond::And(conds) => note_conditions(alloc, scope, conds.as_slice(), notes),
        Cond::Or(conds) => note_conditions(alloc, scope, conds.as_slice(), notes),
        Cond::Not(cond) => note_condition(alloc, scope, cond.get(), notes),
        Cond::Imply(first, second) => {
            note_condition(alloc, scope, first.get(), notes)?;
            note_condition(alloc, scope, second.get(), notes)
        }
        Cond::Fact(atom) => note_atom(alloc, scope, Sort::Predicate, atom, notes),
        Cond::Same(first, second) => {
            note_argument(alloc, scope, None, first, notes)?;
            note_argument(alloc, scope, None, second, notes)
        }
        Cond::Cmp(_, left, right) => {
            note_expression(alloc, scope, left, false, notes)?;
            note_expression(alloc, scope, right, false, notes)
        }
    }
}

/// Notes the faults of conditions.
#[cycle(conditions)]
#[tactic(auto, using(crate::proofs::Noted::noted_append))]
fn note_conditions(
    alloc: Global,
    scope: &Scope,
    conds: &[Cond],
    notes: &mut Notes,
) -> Result<(), NoMemory>
    ensures { OnOk result (Noted notes.old notes.new (flat_map (condition_faults scope.now.named.now scope.now.side scope.now.params.now) conds.now)) }
{
    'each: for cond in conds {
        note_condition(alloc, scope, cond, notes)?;
    }
    Ok(())
}

fn note_effect(
    alloc: Global,
    scope: &Scope,
    effect: &Effect,
    notes: &mut Notes,
) -> Result<(), NoMemory>
    ensures { OnOk result (Noted notes.old notes.new (effect_faults scope.now.named.now scope.now.side scope.now.params.now effect.now)) }
{
    match effect {
        Effect::Add(atom) => note_atom(alloc, scope, Sort::Predicate, atom, notes),
        Effect::Del(atom) => note_atom(alloc, scope, Sort::Predicate, atom, notes),
        Effect::Num(_, atom, expr) => {
            note_atom(alloc, scope, Sort::Function, atom, notes)?;
            note_expression(alloc, scope, expr, false, notes)
        }
    }
}

/// Notes the faults of effects.
pub(crate) fn note_effects(
    alloc: Global,
    scope: &Scope,
    effects: &[Effect],
    notes: &mut Notes,
) -> Result<(), NoMemory>
    ensures { OnOk result (Noted notes.old notes.new (flat_map (effect_faults scope.now.named.now scope.now.side scope.now.params.now) effects.now)) }
{
    'each: for effect in effects {
        note_effect(alloc, scope, effect, notes)?;
    }
    Ok(())
}
