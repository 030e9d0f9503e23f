//! The fluents that expressions, conditions and effects read.

ghost use Rattle.std.specs.Prelude.{◌≡◌, ◌++◌, OnOk, map, flat_map};
ghost use Rattle.coded_actions.specs.Coded.{action_of, change_of, condition_of, effects_of, expression_of};
ghost use Rattle.ground_task.specs.Valid.{right_side};
ghost use Rattle.ground_meaning.specs.Tasks.{condition_fluents, fluents_in};
ghost use Rattle.numbering.specs.internal.Closures.{action_edges, edges_to, effect_edges};

use coded_actions::{CodedAction, CodedChange, CodedCond, CodedExpr};
use num_ends::NoMemory;

// Adds the fluents that an expression reads.
#[tactic(auto, using(crate::proofs::Names::unchanged_Const, crate::proofs::Names::fluents_Read, crate::proofs::Names::twice_Add, crate::proofs::Names::twice_Sub, crate::proofs::Names::twice_Mul))]
fn add_expression(expr: &CodedExpr, codes: &mut Vec<u128>) -> Result<(), NoMemory>
    ensures { OnOk result (codes.new.items ≡ codes.old.items ++ fluents_in (expression_of expr.now)) }
{
    match expr {
        CodedExpr::Const(_) => Ok(()),
        CodedExpr::Read(fluent) => Ok(codes.push(*fluent)?),
        CodedExpr::Add(a, b) => {
            add_expression(a.get(), codes)?;
            add_expression(b.get(), codes)
        }
        CodedExpr::Sub(a, b) => {
            add_expression(a.get(), codes)?;
            add_expression(b.get(), codes)
        }
        CodedExpr::Mul(a, b) => {
            add_expression(a.get(), codes)?;
            add_expression(b.get(), codes)
        }
    }
}

/// Adds the fluents that a condition reads.
#[cycle(read_conditions)]
#[tactic(auto, using(crate::proofs::Names::reads_unchanged_True, crate::proofs::Names::reads_unchanged_False, crate::proofs::Names::reads_unchanged_Fact, crate::proofs::Names::reads_twice_Cmp, crate::proofs::Names::reads_And, crate::proofs::Names::reads_Or))]
pub(crate) fn add_condition(cond: &CodedCond, codes: &mut Vec<u128>) -> Result<(), NoMemory>
    ensures { OnOk result (codes.new.items ≡ codes.old.items ++ condition_fluents (condition_of cond.now)) }
{
    match cond {
        CodedCond::True | CodedCond::False | CodedCond::Fact(_, _) => Ok(()),
        CodedCond::Cmp(_, a, b) => {
            add_expression(a, codes)?;
            add_expression(b, codes)
        }
        CodedCond::And(conds) => add_members(conds.as_slice(), codes),
        CodedCond::Or(conds) => add_members(conds.as_slice(), codes),
    }
}

#[cycle(read_conditions)]
fn add_members(conds: &[CodedCond], codes: &mut Vec<u128>) -> Result<(), NoMemory>
    ensures { OnOk result (codes.new.items ≡ codes.old.items ++ flat_map (λ c. condition_fluents (condition_of c)) conds.now) }
{
    'each: for cond in conds {
        add_condition(cond, codes)?;
    }
    Ok(())
}

// Adds edges from a fluent to those that an expression reads.
#[tactic(auto, using(crate::proofs::Names::edges_Const, crate::proofs::Names::edges_Read, crate::proofs::Names::edges_Add, crate::proofs::Names::edges_Sub, crate::proofs::Names::edges_Mul))]
fn add_edges(target: u128, expr: &CodedExpr, edges: &mut Vec<(u128, u128)>) -> Result<(), NoMemory>
    ensures { OnOk result (edges.new.items ≡ edges.old.items ++ edges_to target (fluents_in (expression_of expr.now))) }
{
    match expr {
        CodedExpr::Const(_) => Ok(()),
        CodedExpr::Read(fluent) => Ok(edges.push((target, *fluent))?),
        CodedExpr::Add(a, b) => {
            add_edges(target, a.get(), edges)?;
            add_edges(target, b.get(), edges)
        }
        CodedExpr::Sub(a, b) => {
            add_edges(target, a.get(), edges)?;
            add_edges(target, b.get(), edges)
        }
        CodedExpr::Mul(a, b) => {
            add_edges(target, a.get(), edges)?;
            add_edges(target, b.get(), edges)
        }
    }
}

// Adds the edges of an effect.
fn add_effect(effect: &(u128, CodedChange), edges: &mut Vec<(u128, u128)>) -> Result<(), NoMemory>
    ensures { OnOk result (edges.new.items ≡ edges.old.items ++ effect_edges (effect.now.0, change_of effect.now.1)) }
{
    match &effect.1 {
        CodedChange::Add(expr) => add_edges(effect.0, expr, edges),
        CodedChange::Set(expr) => add_edges(effect.0, expr, edges),
    }
}

/// Adds the edges of an action, from each fluent that it changes to those that the change reads.
pub(crate) fn add_action(
    action: &CodedAction,
    edges: &mut Vec<(u128, u128)>,
) -> Result<(), NoMemory>
    ensures { OnOk result (edges.new.items ≡ edges.old.items ++ action_edges (action_of action.now)) }
{
    'each: for effect in action.nums.as_slice() {
        add_effect(effect, edges)?;
    }
    Ok(())
}
