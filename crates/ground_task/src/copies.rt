//! Copies of the data of a task.

ghost use Rattle.std.specs.Prelude.{◌≡◌, IfOk};

use crate::raw::{Change, GCond, GExpr, Ground, RawTask};
use num_ends::{List, NoMemory, Text};
use sqlite_items::{Boxed, Items};
use std::alloc::Global;

impl GExpr {
    /// An equal expression.
    #[cycle(expressions)]
    pub(crate) fn copy(&self, alloc: Global) -> Result<GExpr, NoMemory>
        ensures { IfOk result (λ e. e ≡ self.now) }
    {
        match self {
            GExpr::Const(value) => Ok(GExpr::Const(*value)),
            GExpr::Read(fluent) => Ok(GExpr::Read(*fluent)),
            GExpr::Add(a, b) => Ok(GExpr::Add(operand(alloc, a.get())?, operand(alloc, b.get())?)),
            GExpr::Sub(a, b) => Ok(GExpr::Sub(operand(alloc, a.get())?, operand(alloc, b.get())?)),
            GExpr::Mul(a, b) => Ok(GExpr::Mul(operand(alloc, a.get())?, operand(alloc, b.get())?)),
        }
    }
}

#[cycle(expressions)]
fn operand(alloc: Global, expr: &GExpr) -> Result<Boxed<GExpr>, NoMemory>
    ensures { IfOk result (λ e. e ≡ expr.now) }
{
    let copy = expr.copy(alloc)?;
    Ok(Boxed::new(alloc, copy)?)
}

impl GCond {
    /// An equal condition.
    #[cycle(conditions)]
    pub(crate) fn copy(&self, alloc: Global) -> Result<GCond, NoMemory>
        ensures { IfOk result (λ c. c ≡ self.now) }
    {
        match self {
            GCond::True => Ok(GCond::True),
            GCond::False => Ok(GCond::False),
            GCond::Fact(fact, truth) => Ok(GCond::Fact(*fact, *truth)),
            GCond::Cmp(rel, a, b) => Ok(GCond::Cmp(*rel, a.copy(alloc)?, b.copy(alloc)?)),
            GCond::And(conds) => Ok(GCond::And(members(alloc, conds.as_slice())?)),
            GCond::Or(conds) => Ok(GCond::Or(members(alloc, conds.as_slice())?)),
        }
    }
}

#[cycle(conditions)]
fn members(alloc: Global, conds: &[GCond]) -> Result<Items<GCond>, NoMemory>
    ensures { IfOk result (λ it. it ≡ conds.now) }
{
    let mut copies = Vec::with_capacity(alloc, conds.len())?;
    'each: for cond in conds {
        copies.push(cond.copy(alloc)?)?;
    }
    Ok(Items::from_vec(copies))
}

fn text(alloc: Global, text: &Text) -> Result<Text, NoMemory>
    ensures { IfOk result (λ t. t ≡ text.now) }
{
    Ok(Text::from_vec(Vec::from_slice(alloc, text.as_slice())?))
}

fn texts(alloc: Global, texts: &[Text]) -> Result<List<Text>, NoMemory>
    ensures { IfOk result (λ ts. ts ≡ texts.now) }
{
    let mut copies = Vec::with_capacity(alloc, texts.len())?;
    'each: for one in texts {
        copies.push(text(alloc, one)?)?;
    }
    Ok(List::from_vec(copies))
}

fn numbers(alloc: Global, numbers: &List<u32>) -> Result<List<u32>, NoMemory>
    ensures { IfOk result (λ ns. ns ≡ numbers.now) }
{
    Ok(List::from_vec(Vec::from_slice(alloc, numbers.as_slice())?))
}

impl Change {
    /// An equal change.
    pub(crate) fn copy(&self, alloc: Global) -> Result<Change, NoMemory>
        ensures { IfOk result (λ c. c ≡ self.now) }
    {
        match self {
            Change::Add(expr) => Ok(Change::Add(expr.copy(alloc)?)),
            Change::Set(expr) => Ok(Change::Set(expr.copy(alloc)?)),
        }
    }
}

fn effects(alloc: Global, effects: &[(u32, Change)]) -> Result<List<(u32, Change)>, NoMemory>
    ensures { IfOk result (λ es. es ≡ effects.now) }
{
    let mut copies = Vec::with_capacity(alloc, effects.len())?;
    'each: for effect in effects {
        let change = effect.1.copy(alloc)?;
        copies.push((effect.0, change))?;
    }
    Ok(List::from_vec(copies))
}

impl Ground {
    /// An equal action.
    pub(crate) fn copy(&self, alloc: Global) -> Result<Ground, NoMemory>
        ensures { IfOk result (λ a. a ≡ self.now) }
    {
        Ok(Ground {
            name: text(alloc, &self.name)?,
            pre: self.pre.copy(alloc)?,
            adds: numbers(alloc, &self.adds)?,
            dels: numbers(alloc, &self.dels)?,
            nums: effects(alloc, self.nums.as_slice())?,
        })
    }
}

fn actions(alloc: Global, actions: &[Ground]) -> Result<List<Ground>, NoMemory>
    ensures { IfOk result (λ it. it ≡ actions.now) }
{
    let mut copies = Vec::with_capacity(alloc, actions.len())?;
    'each: for action in actions {
        copies.push(action.copy(alloc)?)?;
    }
    Ok(List::from_vec(copies))
}

impl RawTask {
    /// Equal data.
    pub(crate) fn copy(&self, alloc: Global) -> Result<RawTask, NoMemory>
        ensures { IfOk result (λ raw. raw ≡ self.now) }
    {
        Ok(RawTask {
            facts: texts(alloc, self.facts.as_slice())?,
            fluents: texts(alloc, self.fluents.as_slice())?,
            true_facts: numbers(alloc, &self.true_facts)?,
            values: List::from_vec(Vec::from_slice(alloc, self.values.as_slice())?),
            actions: actions(alloc, self.actions.as_slice())?,
            goal: self.goal.copy(alloc)?,
        })
    }
}
