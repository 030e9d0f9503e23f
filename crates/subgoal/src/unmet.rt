//! Atoms that aren't true in a state, and how actions help them.

ghost use Rattle.std.specs.Prelude.{◌≡◌, List, ℕ};
ghost use Rattle.std.specs.List.{list_any};
ghost use Rattle.ground_task.specs.Tasks.{is_listed};
ghost use Rattle.subgoal.specs.Help.{changes, help_by_gain, makes, once_where, reads_of};
ghost use Rattle.subgoal.specs.Unmet.{help_of};

use ground_task::{GExpr, Ground};
use num_ends::Dec;
use simple_atoms::{Linear, repetitions};

/// An atom that isn't true in a state.
#[derive(Clone, Copy)]
pub(crate) enum Unmet<'a> {
    /// A fact, by its number, is to have this truth value.
    Literal(u32, bool),
    /// A comparison of these two, which has no form or whose form has no value.
    Reads(&'a GExpr, &'a GExpr),
}

fn is_listed(facts: &[u32], fact: u32) -> bool
    ensures { result ≡ is_listed facts.now fact }
{
    facts.iter().any(|listed| *listed == fact)
}

pub(crate) fn makes(action: &Ground, fact: u32, truth: bool) -> bool
    ensures { result ≡ makes fact truth action.now }
{
    let added = is_listed(action.adds.as_slice(), fact);
    if truth {
        added
    } else {
        is_listed(action.dels.as_slice(), fact) && !added
    }
}

fn changes(action: &Ground, fluent: u32) -> bool
    ensures { result ≡ changes action.now fluent }
{
    action
        .nums
        .as_slice()
        .iter()
        .any(|effect| effect.0 == fluent)
}

/// Whether an action changes a fluent that an expression reads.
#[tactic(auto, using(crate::proofs::ReadFluents::changes_Const, crate::proofs::ReadFluents::changes_Read, crate::proofs::ReadFluents::changes_Add, crate::proofs::ReadFluents::changes_Sub, crate::proofs::ReadFluents::changes_Mul))]
pub(crate) fn changes_read(action: &Ground, expr: &GExpr) -> bool
    ensures { result ≡ list_any (changes action.now) (reads_of expr.now) }
{
    match expr {
        GExpr::Const(_) => false,
        GExpr::Read(fluent) => changes(action, *fluent),
        GExpr::Add(left, right) | GExpr::Sub(left, right) | GExpr::Mul(left, right) => {
            changes_read(action, left.get()) || changes_read(action, right.get())
        }
    }
}

pub(crate) fn changes_term(action: &Ground, terms: &[(u32, Dec)]) -> bool
    ensures { result ≡ list_any (λ t. changes action.now t.0) terms.now }
{
    'each: for term in terms {
        if changes(action, term.0) {
            return true;
        }
    }
    false
}

fn once_where(helps: bool) -> Option<u32>
    ensures { result ≡ once_where helps }
{
    if helps { Some(1) } else { None }
}

/// How often an action of this gain is applied to make a comparison true whose form has this value, where it helps.
pub(crate) fn help_by_gain(
    form: &Linear,
    value: Dec,
    gain: Option<Dec>,
    action: &Ground,
) -> Option<u32>
    ensures { result ≡ help_by_gain form.now value action.now gain }
{
    match gain {
        Some(gain) => repetitions(form, value, gain),
        None => once_where(changes_term(action, form.terms.as_slice())),
    }
}

impl<'a> Unmet<'a> {
    /// How often an action is applied to make the atom true, where it helps.
    pub(crate) fn help(&self, action: &Ground) -> Option<u32>
        ensures { result ≡ help_of self.now action.now }
    {
        match self {
            Unmet::Literal(fact, truth) => once_where(makes(action, *fact, *truth)),
            Unmet::Reads(left, right) => {
                let helps = changes_read(action, left) || changes_read(action, right);
                once_where(helps)
            }
        }
    }
}
