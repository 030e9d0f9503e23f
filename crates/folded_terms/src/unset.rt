//! The first fluent of the goal that has no first value.

ghost use Rattle.std.specs.Prelude.{◌≡◌, IfOk};
ghost use Rattle.std.specs.Option.{option_copied};
ghost use Rattle.pddl_types.specs.Contents.{all_read, condition_parts, expression_reads};
ghost use Rattle.folded_terms.specs.internal.Unset.{first_unset, is_unset, unset_among};

use bound_atoms::FluentPattern;
use num_ends::NoMemory;
use pddl_terms::{Atom, Cond, Expr};
use pddl_types::Checked;
use static_facts::Statics;
use std::alloc::Global;

/// A pair and its static facts.
#[derive(Clone, Copy)]
pub(crate) struct Source<'a> {
    pub(crate) checked: &'a Checked,
    pub(crate) statics: &'a Statics<'a>,

    ghost one_pair: { statics.now ≡ checked.now },
}

fn is_unset(alloc: Global, source: &Source, atom: &Atom) -> Result<bool, NoMemory>
    ensures { IfOk result (λ unset. unset ≡ is_unset source.now.checked.now atom.now) }
{
    let pattern = FluentPattern::new(alloc, source.checked, source.statics, &[], atom)?;
    Ok(pattern.first_value(&[]).is_none())
}

#[tactic(auto, using(crate::proofs::ReadFluents::unset_Lit, crate::proofs::ReadFluents::unset_Read, crate::proofs::ReadFluents::unset_Op))]
fn unset_read<'b>(
    alloc: Global,
    source: &Source,
    expr: &'b Expr,
) -> Result<Option<&'b Atom>, NoMemory>
    ensures { IfOk result (λ atom. option_copied atom ≡ first_unset source.now.checked.now (expression_reads expr.now).all) }
{
    match expr {
        Expr::Lit(_, _) => Ok(None),
        Expr::Read(atom) => {
            if is_unset(alloc, source, atom)? {
                return Ok(Some(atom));
            }
            Ok(None)
        }
        Expr::Op(_, _, left, right) => match unset_read(alloc, source, left.get())? {
            Some(atom) => Ok(Some(atom)),
            None => unset_read(alloc, source, right.get()),
        },
    }
}

/// The first fluent that a condition reads, in the order of the text, and that has no first value.
#[cycle(conditions)]
#[tactic(auto, using(crate::proofs::ReadFluents::unset_And, crate::proofs::ReadFluents::unset_Or, crate::proofs::ReadFluents::unset_Not, crate::proofs::ReadFluents::unset_Imply, crate::proofs::ReadFluents::unset_Fact, crate::proofs::ReadFluents::unset_Same, crate::proofs::ReadFluents::unset_Cmp))]
pub(crate) fn unset_in<'b>(
    alloc: Global,
    source: &Source,
    cond: &'b Cond,
) -> Result<Option<&'b Atom>, NoMemory>
    ensures { IfOk result (λ atom. option_copied atom ≡ first_unset source.now.checked.now (all_read (condition_parts cond.now).numbers)) }
{
    match cond {
        Cond::And(conds) => unset_among(alloc, source, conds.as_slice()),
        Cond::Or(conds) => unset_among(alloc, source, conds.as_slice()),
        Cond::Not(cond) => unset_in(alloc, source, cond.get()),
        Cond::Imply(first, second) => match unset_in(alloc, source, first.get())? {
            Some(atom) => Ok(Some(atom)),
            None => unset_in(alloc, source, second.get()),
        },
        Cond::Fact(_) | Cond::Same(_, _) => Ok(None),
        Cond::Cmp(_, left, right) => match unset_read(alloc, source, left)? {
            Some(atom) => Ok(Some(atom)),
            None => Ok(unset_read(alloc, source, right)?),
        },
    }
}

#[cycle(conditions)]
fn unset_among<'b>(
    alloc: Global,
    source: &Source,
    conds: &'b [Cond],
) -> Result<Option<&'b Atom>, NoMemory>
    ensures { IfOk result (λ atom. option_copied atom ≡ unset_among source.now.checked.now conds.now) }
{
    'each: for cond in conds {
        if let Some(atom) = unset_in(alloc, source, cond)? {
            return Ok(Some(atom));
        }
    }
    Ok(None)
}
