//! The fluents that an action reads, and those of its effects that may be in conflict, with their names looked up.

ghost use Rattle.std.specs.Prelude.{◌≡◌, ◌++◌, [], ◌∷◌, IfOk, OnOk, flat_map, map};
ghost use Rattle.pddl_meaning.specs.Effects.{is_joined};
ghost use Rattle.bound_actions.specs.Reads.{action_reads, clash, clash_with, clashes, effect_reads, may_clash, old_read};
ghost use Rattle.bound_actions.specs.Patterns.{condition_patterns, expression_patterns, pattern, pattern_pair, patterns};

use crate::scope::Scope;
use bound_atoms::FluentPattern;
use num_ends::NoMemory;
use pddl_terms::{Assign, Atom, Cond, Effect, Expr, Schema};
use std::alloc::Global;

/// Two fluents that mustn't be one.
pub(crate) type Apart<'a> = (FluentPattern<'a>, FluentPattern<'a>);

fn push_fluent<'a>(
    alloc: Global,
    scope: &Scope<'a>,
    atom: &'a Atom,
    reads: &mut Vec<FluentPattern<'a>>,
) -> Result<(), NoMemory>
    ensures { OnOk result (reads.new.items ≡ reads.old.items ++ pattern scope.now.checked.now scope.now.params.now atom.now ∷ []) }
{
    let pattern = FluentPattern::new(alloc, scope.checked, scope.statics, scope.params, atom)?;
    reads.push(pattern)?;
    Ok(())
}

#[tactic(auto, using(crate::proofs::Looked::read_of_Lit, crate::proofs::Looked::read_of_Read, crate::proofs::Looked::read_of_Op))]
fn push_expression<'a>(
    alloc: Global,
    scope: &Scope<'a>,
    expr: &'a Expr,
    reads: &mut Vec<FluentPattern<'a>>,
) -> Result<(), NoMemory>
    ensures { OnOk result (reads.new.items ≡ reads.old.items ++ expression_patterns scope.now.checked.now scope.now.params.now expr.now) }
{
    match expr {
        Expr::Lit(_, _) => Ok(()),
        Expr::Read(atom) => push_fluent(alloc, scope, atom, reads),
        Expr::Op(_, _, left, right) => {
            push_expression(alloc, scope, left.get(), reads)?;
            push_expression(alloc, scope, right.get(), reads)
        }
    }
}

fn push_sides<'a>(
    alloc: Global,
    scope: &Scope<'a>,
    left: &'a Expr,
    right: &'a Expr,
    reads: &mut Vec<FluentPattern<'a>>,
) -> Result<(), NoMemory>
    ensures { OnOk result (reads.new.items ≡ reads.old.items ++ (expression_patterns scope.now.checked.now scope.now.params.now left.now ++ expression_patterns scope.now.checked.now scope.now.params.now right.now)) }
{
    push_expression(alloc, scope, left, reads)?;
    push_expression(alloc, scope, right, reads)
}

#[cycle(reads)]
#[tactic(auto, using(crate::proofs::Looked::read_in_And, crate::proofs::Looked::read_in_Or, crate::proofs::Looked::read_in_Not, crate::proofs::Looked::read_in_Imply, crate::proofs::Looked::read_in_Fact, crate::proofs::Looked::read_in_Same, crate::proofs::Looked::read_in_Cmp))]
fn push_condition<'a>(
    alloc: Global,
    scope: &Scope<'a>,
    cond: &'a Cond,
    reads: &mut Vec<FluentPattern<'a>>,
) -> Result<(), NoMemory>
    ensures { OnOk result (reads.new.items ≡ reads.old.items ++ condition_patterns scope.now.checked.now scope.now.params.now cond.now) }
{
    match cond {
        Cond::And(conds) => push_conditions(alloc, scope, conds.as_slice(), reads),
        Cond::Or(conds) => push_conditions(alloc, scope, conds.as_slice(), reads),
        Cond::Not(cond) => push_condition(alloc, scope, cond.get(), reads),
        Cond::Imply(first, second) => {
            push_condition(alloc, scope, first.get(), reads)?;
            push_condition(alloc, scope, second.get(), reads)
        }
        Cond::Fact(_) => Ok(()),
        Cond::Same(_, _) => Ok(()),
        Cond::Cmp(_, left, right) => push_sides(alloc, scope, left, right, reads),
    }
}

#[cycle(reads)]
fn push_conditions<'a>(
    alloc: Global,
    scope: &Scope<'a>,
    conds: &'a [Cond],
    reads: &mut Vec<FluentPattern<'a>>,
) -> Result<(), NoMemory>
    ensures { OnOk result (reads.new.items ≡ reads.old.items ++ flat_map (condition_patterns scope.now.checked.now scope.now.params.now) conds.now) }
{
    'each: for cond in conds {
        push_condition(alloc, scope, cond, reads)?;
    }
    Ok(())
}

fn push_old<'a>(
    alloc: Global,
    scope: &Scope<'a>,
    how: Assign,
    atom: &'a Atom,
    reads: &mut Vec<FluentPattern<'a>>,
) -> Result<(), NoMemory>
    ensures { OnOk result (reads.new.items ≡ reads.old.items ++ patterns scope.now.checked.now scope.now.params.now (old_read how atom.now)) }
{
    match how {
        Assign::Set => Ok(()),
        Assign::Up | Assign::Down | Assign::Scale => push_fluent(alloc, scope, atom, reads),
    }
}

#[tactic(auto, using(crate::proofs::Looked::both_read))]
fn push_effect<'a>(
    alloc: Global,
    scope: &Scope<'a>,
    effect: &'a Effect,
    reads: &mut Vec<FluentPattern<'a>>,
) -> Result<(), NoMemory>
    ensures { OnOk result (reads.new.items ≡ reads.old.items ++ patterns scope.now.checked.now scope.now.params.now (effect_reads effect.now)) }
{
    match effect {
        Effect::Add(_) | Effect::Del(_) => Ok(()),
        Effect::Num(how, atom, expr) => {
            push_expression(alloc, scope, expr, reads)?;
            push_old(alloc, scope, *how, atom, reads)
        }
    }
}

fn push_effects<'a>(
    alloc: Global,
    scope: &Scope<'a>,
    effects: &'a [Effect],
    reads: &mut Vec<FluentPattern<'a>>,
) -> Result<(), NoMemory>
    ensures { OnOk result (reads.new.items ≡ reads.old.items ++ flat_map (λ e. patterns scope.now.checked.now scope.now.params.now (effect_reads e)) effects.now) }
{
    'each: for effect in effects {
        push_effect(alloc, scope, effect, reads)?;
    }
    Ok(())
}

/// The fluents that an action reads, with their names looked up.
#[tactic(auto, using(crate::proofs::Looked::all_action_reads))]
pub(crate) fn action_reads<'a>(
    alloc: Global,
    scope: &Scope<'a>,
    schema: &'a Schema,
) -> Result<Vec<FluentPattern<'a>>, NoMemory>
    ensures { IfOk result (λ reads. reads.items ≡ patterns scope.now.checked.now scope.now.params.now (action_reads schema.now)) }
{
    let mut reads = Vec::new(alloc);
    push_condition(alloc, scope, &schema.pre, &mut reads)?;
    push_effects(alloc, scope, schema.effects.as_slice(), &mut reads)?;
    Ok(reads)
}

fn is_joined(how: Assign) -> bool
    ensures { result ≡ is_joined how }
{
    match how {
        Assign::Set | Assign::Scale => false,
        Assign::Up | Assign::Down => true,
    }
}

fn may_clash(how: Assign, atom: &Atom, other: Assign, later: &Atom) -> bool
    ensures { result ≡ may_clash how atom.now other later.now }
{
    let joined = is_joined(how) && is_joined(other);
    !joined && atom.head.text.as_slice() == later.head.text.as_slice()
}

fn push_pair<'a>(
    alloc: Global,
    scope: &Scope<'a>,
    atom: &'a Atom,
    later: &'a Atom,
    apart: &mut Vec<Apart<'a>>,
) -> Result<(), NoMemory>
    ensures { OnOk result (apart.new.items ≡ apart.old.items ++ pattern_pair scope.now.checked.now scope.now.params.now (atom.now, later.now) ∷ []) }
{
    let first = FluentPattern::new(alloc, scope.checked, scope.statics, scope.params, atom)?;
    let second = FluentPattern::new(alloc, scope.checked, scope.statics, scope.params, later)?;
    apart.push((first, second))?;
    Ok(())
}

fn push_clash<'a>(
    alloc: Global,
    scope: &Scope<'a>,
    how: Assign,
    atom: &'a Atom,
    later: &'a Effect,
    apart: &mut Vec<Apart<'a>>,
) -> Result<(), NoMemory>
    ensures { OnOk result (apart.new.items ≡ apart.old.items ++ map (pattern_pair scope.now.checked.now scope.now.params.now) (clash_with how atom.now later.now)) }
{
    match later {
        Effect::Add(_) | Effect::Del(_) => Ok(()),
        Effect::Num(other, fluent, _) => {
            if may_clash(how, atom, *other, fluent) {
                return push_pair(alloc, scope, atom, fluent, apart);
            }
            Ok(())
        }
    }
}

fn push_later<'a>(
    alloc: Global,
    scope: &Scope<'a>,
    how: Assign,
    atom: &'a Atom,
    effects: &'a [Effect],
    apart: &mut Vec<Apart<'a>>,
) -> Result<(), NoMemory>
    ensures { OnOk result (apart.new.items ≡ apart.old.items ++ flat_map (λ e. map (pattern_pair scope.now.checked.now scope.now.params.now) (clash_with how atom.now e)) effects.now) }
{
    'each: for later in effects {
        push_clash(alloc, scope, how, atom, later, apart)?;
    }
    Ok(())
}

fn push_clashes<'a>(
    alloc: Global,
    scope: &Scope<'a>,
    effect: &'a Effect,
    later: &'a [Effect],
    apart: &mut Vec<Apart<'a>>,
) -> Result<(), NoMemory>
    ensures { OnOk result (apart.new.items ≡ apart.old.items ++ flat_map (λ e. map (pattern_pair scope.now.checked.now scope.now.params.now) (clash effect.now e)) later.now) }
{
    match effect {
        Effect::Add(_) => Ok(()),
        Effect::Del(_) => Ok(()),
        Effect::Num(how, atom, _) => push_later(alloc, scope, *how, atom, later, apart),
    }
}

/// The pairs of fluents that mustn't be one, with their names looked up.
pub(crate) fn clashes<'a>(
    alloc: Global,
    scope: &Scope<'a>,
    effects: &'a [Effect],
) -> Result<Vec<Apart<'a>>, NoMemory>
    ensures { IfOk result (λ apart. apart.items ≡ map (pattern_pair scope.now.checked.now scope.now.params.now) (clashes effects.now)) }
{
    let mut apart = Vec::new(alloc);
    let mut rest = effects;
    'each: while let [effect, later @ ..] = rest {
        push_clashes(alloc, scope, effect, later, &mut apart)?;
        rest = later;
    }
    Ok(apart)
}
