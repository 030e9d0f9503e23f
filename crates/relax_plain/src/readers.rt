//! Which actions are looked at again when a fact or a fluent has widened.

ghost use Rattle.std.specs.Prelude.{◌≡◌, ◌<◌, ◌==◌, ◌||◌, ℕ, [], ◌++◌, ◌∷◌, length, replicate, All, IsTrue, OnOk, IfOk};
ghost use Rattle.std.specs.List.{list_all, list_any, IsAmong};
ghost use Rattle.ground_task.specs.Valid.{is_known_condition, is_known_expression, right_side, IsValidAction};
ghost use Rattle.relax_plain.specs.Reads.{asks, compares, depends_on_fluent, is_used, reads, AreReaders, IsNoted};

use ground_task::{Change, GCond, GExpr, Ground, Task};
use num_ends::{List, NoMemory};
use std::alloc::Global;

/// The numbers of the actions whose demands depend on each fact and on each fluent.
#[derive(Drop)]
pub(crate) struct Readers {
    pub(crate) facts: Vec<List<u32>>,
    pub(crate) fluents: Vec<List<u32>>,
}

/// So many empty lists.
fn empty_lists(alloc: Global, count: usize) -> Result<Vec<List<u32>>, NoMemory>
    ensures { IfOk result (λ v. v.items ≡ replicate count []) }
{
    let mut lists = Vec::with_capacity(alloc, count)?;
    'each: for _number in 0..count {
        lists.push(List::new(alloc))?;
    }
    Ok(lists)
}

/// Whether a number is the last of a list.
fn is_last(list: &List<u32>, number: u32) -> bool
    ensures { IsTrue result → IsAmong list.now number }
{
    match list.as_slice().last() {
        Some(last) => *last == number,
        None => false,
    }
}

/// Adds an action's number to the list of this place.
fn note(lists: &mut Vec<List<u32>>, at: u32, number: u32) -> Result<(), NoMemory>
    requires known { at < length lists.old.items }
    ensures { OnOk result (IsNoted number (λ x. at == x) lists.old.items lists.new.items) }
{
    if is_last(&lists[at as usize], number) {
        return Ok(());
    }
    lists[at as usize].push(number)
}

/// Adds an action's number to the lists of the fluents of an expression.
#[cycle(expressions)]
fn note_read(lists: &mut Vec<List<u32>>, expr: &GExpr, number: u32) -> Result<(), NoMemory>
    requires known { IsTrue (is_known_expression (length lists.old.items) expr.now) }
    ensures { OnOk result (IsNoted number (λ x. reads x expr.now) lists.old.items lists.new.items) }
{
    match expr {
        GExpr::Const(_) => Ok(()),
        GExpr::Read(x) => note(lists, *x, number),
        GExpr::Add(a, b) => {
            note_read(lists, a.get(), number)?;
            note_read(lists, b.get(), number)
        }
        GExpr::Sub(a, b) => {
            note_read(lists, a.get(), number)?;
            note_read(lists, b.get(), number)
        }
        GExpr::Mul(a, b) => {
            note_read(lists, a.get(), number)?;
            note_read(lists, b.get(), number)
        }
    }
}

/// Adds an action's number to the lists of the fluents of two expressions.
fn note_both(lists: &mut Vec<List<u32>>, a: &GExpr, b: &GExpr, number: u32) -> Result<(), NoMemory>
    requires first { IsTrue (is_known_expression (length lists.old.items) a.now) }
    requires second { IsTrue (is_known_expression (length lists.old.items) b.now) }
    ensures { OnOk result (IsNoted number (λ x. reads x a.now || reads x b.now) lists.old.items lists.new.items) }
{
    note_read(lists, a, number)?;
    note_read(lists, b, number)
}

/// Adds an action's number to the lists of the fluents of a condition.
#[cycle(comparisons)]
fn note_compared(
    lists: &mut Vec<List<u32>>,
    facts: usize,
    cond: &GCond,
    number: u32,
) -> Result<(), NoMemory>
    requires known { IsTrue (is_known_condition facts (length lists.old.items) cond.now) }
    ensures { OnOk result (IsNoted number (λ x. compares x cond.now) lists.old.items lists.new.items) }
{
    match cond {
        GCond::True | GCond::False | GCond::Fact(_, _) => Ok(()),
        GCond::Cmp(_, a, b) => note_both(lists, a, b, number),
        GCond::And(conds) => note_all_compared(lists, facts, conds.as_slice(), number),
        GCond::Or(conds) => note_all_compared(lists, facts, conds.as_slice(), number),
    }
}

#[cycle(comparisons)]
fn note_all_compared(
    lists: &mut Vec<List<u32>>,
    facts: usize,
    conds: &[GCond],
    number: u32,
) -> Result<(), NoMemory>
    requires known { IsTrue (list_all (is_known_condition facts (length lists.old.items)) conds.now) }
    ensures { OnOk result (IsNoted number (λ x. list_any (compares x) conds.now) lists.old.items lists.new.items) }
{
    'each: for cond in conds {
        note_compared(lists, facts, cond, number)?;
    }
    Ok(())
}

/// Adds an action's number to the lists of the facts of a condition.
#[cycle(literals)]
fn note_asked(
    lists: &mut Vec<List<u32>>,
    fluents: usize,
    cond: &GCond,
    number: u32,
) -> Result<(), NoMemory>
    requires known { IsTrue (is_known_condition (length lists.old.items) fluents cond.now) }
    ensures { OnOk result (IsNoted number (λ f. asks f cond.now) lists.old.items lists.new.items) }
{
    match cond {
        GCond::True | GCond::False | GCond::Cmp(_, _, _) => Ok(()),
        GCond::Fact(fact, _) => note(lists, *fact, number),
        GCond::And(conds) => note_all_asked(lists, fluents, conds.as_slice(), number),
        GCond::Or(conds) => note_all_asked(lists, fluents, conds.as_slice(), number),
    }
}

#[cycle(literals)]
fn note_all_asked(
    lists: &mut Vec<List<u32>>,
    fluents: usize,
    conds: &[GCond],
    number: u32,
) -> Result<(), NoMemory>
    requires known { IsTrue (list_all (is_known_condition (length lists.old.items) fluents) conds.now) }
    ensures { OnOk result (IsNoted number (λ f. list_any (asks f) conds.now) lists.old.items lists.new.items) }
{
    'each: for cond in conds {
        note_asked(lists, fluents, cond, number)?;
    }
    Ok(())
}

/// Adds an action's number to the lists of the fluents that a change uses.
fn note_used(
    lists: &mut Vec<List<u32>>,
    effect: &(u32, Change),
    number: u32,
) -> Result<(), NoMemory>
    requires fluent { effect.now.0 < length lists.old.items }
    requires right_side { IsTrue (is_known_expression (length lists.old.items) (right_side effect.now.1)) }
    ensures { OnOk result (IsNoted number (λ x. is_used x effect.now) lists.old.items lists.new.items) }
{
    match &effect.1 {
        Change::Add(expr) => note_read(lists, expr, number),
        Change::Set(expr) => {
            note(lists, effect.0, number)?;
            note_read(lists, expr, number)
        }
    }
}

/// Adds an action's number to the lists of the fluents that its changes use.
fn note_changes(
    lists: &mut Vec<List<u32>>,
    effects: &[(u32, Change)],
    number: u32,
) -> Result<(), NoMemory>
    requires fluents { All (λ effect. effect.0 < length lists.old.items) effects.now }
    requires right_sides { All (λ effect. IsTrue (is_known_expression (length lists.old.items) (right_side effect.1))) effects.now }
    ensures { OnOk result (IsNoted number (λ x. list_any (is_used x) effects.now) lists.old.items lists.new.items) }
{
    'each: for effect in effects {
        note_used(lists, effect, number)?;
    }
    Ok(())
}

impl Readers {
    /// Adds an action's number to the lists of all that its demands depend on.
    fn note_action(&mut self, action: &Ground, number: u32) -> Result<(), NoMemory>
        requires valid { IsValidAction (length self.old.facts.items) (length self.old.fluents.items) action.now }
        ensures facts { OnOk result (IsNoted number (λ f. asks f action.now.pre) self.old.facts.items self.new.facts.items) }
        ensures fluents { OnOk result (IsNoted number (λ x. depends_on_fluent x action.now) self.old.fluents.items self.new.fluents.items) }
    {
        let (facts, fluents) = (self.facts.len(), self.fluents.len());
        note_asked(&mut self.facts, fluents, &action.pre, number)?;
        note_compared(&mut self.fluents, facts, &action.pre, number)?;
        note_changes(&mut self.fluents, action.nums.as_slice(), number)
    }

    /// The readers of a task's facts and fluents.
    pub(crate) fn of(alloc: Global, task: &Task) -> Result<Readers, NoMemory>
        ensures { IfOk result (λ r. AreReaders task.now r.facts.items r.fluents.items) }
    {
        let raw = task.raw();
        let mut readers = Readers {
            facts: empty_lists(alloc, raw.facts.len())?,
            fluents: empty_lists(alloc, raw.fluents.len())?,
        };
        let actions = raw.actions.as_slice();
        'each: for number in 0..actions.len() {
            readers.note_action(&actions[number], number as u32)?;
        }
        Ok(readers)
    }
}
