//! Actions and conditions by the numbers of facts and fluents.

ghost use Rattle.std.specs.Prelude.{◌≡◌, ◌<◌, ◌^◌, ◌≤◌, true, false, length, map, IfOk, MatchOption};
ghost use Rattle.std.specs.List.Sorted.{IsStrictlyIncreasing};
ghost use Rattle.coded_actions.specs.Coded.{action_of, change_of, condition_of, effects_of, expression_of};
ghost use Rattle.ground_meaning.specs.Actions.{is_listed};
ghost use Rattle.ground_meaning.specs.Tasks as tasks;
ghost use Rattle.ground_meaning.specs.Tasks.{number_in};
ghost use Rattle.numbering.specs.Numbers.{AreTaskCodes};

use coded_actions::{CodedAction, CodedChange, CodedCond, CodedExpr};
use ground_task::{Change, GCond, GExpr, Ground};
use num_ends::{List, NoMemory, Text};
use sqlite_items::{Boxed, Items};
use std::alloc::Global;

/// The codes of the facts and of the fluents of a task, both rising. The place of a code is its number.
#[derive(Debug, Drop)]
pub struct Codes {
    pub facts: Vec<u128>,
    pub fluents: Vec<u128>,
}

/// The number of a code among rising codes; none where it isn't there.
#[tactic(auto, using(crate::proofs::Ranks::found_listed, crate::proofs::Ranks::found_number, crate::proofs::Ranks::missing))]
pub fn find(codes: &[u128], code: u128) -> Option<u32>
    requires rising { IsStrictlyIncreasing codes.now }
    requires few { length codes.now ≤ 4096 }
    ensures { MatchOption result (is_listed code codes.now ≡ false) (λ n. (is_listed code codes.now ≡ true) × (n ≡ number_in codes.now code)) }
{
    match codes.binary_search(&code) {
        Ok(place) => Some(place as u32),
        Err(_) => None,
    }
}

/// The number of a code among rising codes, and their count where it isn't there.
#[tactic(auto, using(crate::proofs::Ranks::missing_number))]
pub fn rank(codes: &[u128], code: u128) -> u32
    requires rising { IsStrictlyIncreasing codes.now }
    requires few { length codes.now ≤ 4096 }
    ensures { result ≡ number_in codes.now code }
{
    match find(codes, code) {
        Some(number) => number,
        None => codes.len() as u32,
    }
}

#[cycle(numbered_expressions)]
#[tactic(auto, using(crate::proofs::Numbered::expression_Const, crate::proofs::Numbered::expression_Read, crate::proofs::Numbered::expression_Add, crate::proofs::Numbered::expression_Sub, crate::proofs::Numbered::expression_Mul))]
fn numbered_expression(alloc: Global, fluents: &[u128], expr: &CodedExpr) -> Result<GExpr, NoMemory>
    requires rising { IsStrictlyIncreasing fluents.now }
    requires few { length fluents.now ≤ 256 }
    ensures { IfOk result (λ e. e ≡ tasks.numbered_expression fluents.now (expression_of expr.now)) }
{
    match expr {
        CodedExpr::Const(value) => Ok(GExpr::Const(*value)),
        CodedExpr::Read(fluent) => Ok(GExpr::Read(rank(fluents, *fluent))),
        CodedExpr::Add(a, b) => Ok(GExpr::Add(
            operand(alloc, fluents, a.get())?,
            operand(alloc, fluents, b.get())?,
        )),
        CodedExpr::Sub(a, b) => Ok(GExpr::Sub(
            operand(alloc, fluents, a.get())?,
            operand(alloc, fluents, b.get())?,
        )),
        CodedExpr::Mul(a, b) => Ok(GExpr::Mul(
            operand(alloc, fluents, a.get())?,
            operand(alloc, fluents, b.get())?,
        )),
    }
}

#[cycle(numbered_expressions)]
fn operand(alloc: Global, fluents: &[u128], expr: &CodedExpr) -> Result<Boxed<GExpr>, NoMemory>
    requires rising { IsStrictlyIncreasing fluents.now }
    requires few { length fluents.now ≤ 256 }
    ensures { IfOk result (λ e. e ≡ tasks.numbered_expression fluents.now (expression_of expr.now)) }
{
    let numbered = numbered_expression(alloc, fluents, expr)?;
    Ok(Boxed::new(alloc, numbered)?)
}

/// A condition with the numbers of facts and fluents in place of their codes.
#[cycle(numbered_conditions)]
#[tactic(auto, using(crate::proofs::Numbered::condition_True, crate::proofs::Numbered::condition_False, crate::proofs::Numbered::condition_Fact, crate::proofs::Numbered::made_Cmp, crate::proofs::Numbered::made_And, crate::proofs::Numbered::made_Or))]
pub fn numbered_condition(alloc: Global, codes: &Codes, cond: &CodedCond) -> Result<GCond, NoMemory>
    requires { AreTaskCodes codes.now.facts.items codes.now.fluents.items }
    ensures { IfOk result (λ c. c ≡ tasks.numbered_condition codes.now.facts.items codes.now.fluents.items (condition_of cond.now)) }
{
    match cond {
        CodedCond::True => Ok(GCond::True),
        CodedCond::False => Ok(GCond::False),
        CodedCond::Fact(fact, truth) => Ok(GCond::Fact(rank(&codes.facts, *fact), *truth)),
        CodedCond::Cmp(rel, a, b) => {
            let left = numbered_expression(alloc, &codes.fluents, a)?;
            let right = numbered_expression(alloc, &codes.fluents, b)?;
            Ok(GCond::Cmp(*rel, left, right))
        }
        CodedCond::And(conds) => Ok(GCond::And(members(alloc, codes, conds.as_slice())?)),
        CodedCond::Or(conds) => Ok(GCond::Or(members(alloc, codes, conds.as_slice())?)),
    }
}

#[cycle(numbered_conditions)]
fn members(alloc: Global, codes: &Codes, conds: &[CodedCond]) -> Result<Items<GCond>, NoMemory>
    requires { AreTaskCodes codes.now.facts.items codes.now.fluents.items }
    ensures { IfOk result (λ it. it ≡ map (λ c. tasks.numbered_condition codes.now.facts.items codes.now.fluents.items (condition_of c)) conds.now) }
{
    let mut numbered = Vec::with_capacity(alloc, conds.len())?;
    'each: for cond in conds {
        numbered.push(numbered_condition(alloc, codes, cond)?)?;
    }
    Ok(Items::from_vec(numbered))
}

fn numbered_change(
    alloc: Global,
    fluents: &[u128],
    change: &CodedChange,
) -> Result<Change, NoMemory>
    requires rising { IsStrictlyIncreasing fluents.now }
    requires few { length fluents.now ≤ 256 }
    ensures { IfOk result (λ c. c ≡ tasks.numbered_change fluents.now (change_of change.now)) }
{
    match change {
        CodedChange::Add(expr) => Ok(Change::Add(numbered_expression(alloc, fluents, expr)?)),
        CodedChange::Set(expr) => Ok(Change::Set(numbered_expression(alloc, fluents, expr)?)),
    }
}

// Effects on fluents that have no number are left out.
fn numbered_effects(
    alloc: Global,
    fluents: &[u128],
    effects: &[(u128, CodedChange)],
) -> Result<List<(u32, Change)>, NoMemory>
    requires rising { IsStrictlyIncreasing fluents.now }
    requires few { length fluents.now ≤ 256 }
    ensures { IfOk result (λ it. it ≡ tasks.numbered_effects fluents.now (effects_of effects.now)) }
{
    let mut numbered = Vec::new(alloc);
    'each: for effect in effects {
        if let Some(number) = find(fluents, effect.0) {
            let change = numbered_change(alloc, fluents, &effect.1)?;
            numbered.push((number, change))?;
        }
    }
    Ok(List::from_vec(numbered))
}

fn numbered_facts(alloc: Global, facts: &[u128], named: &[u128]) -> Result<List<u32>, NoMemory>
    requires rising { IsStrictlyIncreasing facts.now }
    requires few { length facts.now ≤ 4096 }
    ensures { IfOk result (λ ns. ns ≡ map (number_in facts.now) named.now) }
{
    let mut numbers = Vec::with_capacity(alloc, named.len())?;
    'each: for fact in named {
        numbers.push(rank(facts, *fact))?;
    }
    Ok(List::from_vec(numbers))
}

fn text(alloc: Global, text: &Text) -> Result<Text, NoMemory>
    ensures { IfOk result (λ t. t ≡ text.now) }
{
    Ok(Text::from_vec(Vec::from_slice(alloc, text.as_slice())?))
}

fn numbered_action(alloc: Global, codes: &Codes, action: &CodedAction) -> Result<Ground, NoMemory>
    requires { AreTaskCodes codes.now.facts.items codes.now.fluents.items }
    ensures { IfOk result (λ a. a ≡ tasks.numbered_action codes.now.facts.items codes.now.fluents.items (action_of action.now)) }
{
    Ok(Ground {
        name: text(alloc, &action.name)?,
        pre: numbered_condition(alloc, codes, &action.pre)?,
        adds: numbered_facts(alloc, &codes.facts, action.adds.as_slice())?,
        dels: numbered_facts(alloc, &codes.facts, action.dels.as_slice())?,
        nums: numbered_effects(alloc, &codes.fluents, action.nums.as_slice())?,
    })
}

/// The actions with the numbers of facts and fluents in place of their codes; effects on fluents that have no number are
/// left out.
pub fn numbered_actions(
    alloc: Global,
    codes: &Codes,
    actions: &[CodedAction],
) -> Result<List<Ground>, NoMemory>
    requires { AreTaskCodes codes.now.facts.items codes.now.fluents.items }
    ensures { IfOk result (λ it. it ≡ map (tasks.numbered_action codes.now.facts.items codes.now.fluents.items) (map action_of actions.now)) }
{
    let mut numbered = Vec::with_capacity(alloc, actions.len())?;
    'each: for action in actions {
        numbered.push(numbered_action(alloc, codes, action)?)?;
    }
    Ok(List::from_vec(numbered))
}
