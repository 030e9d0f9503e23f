//! Static literals as checks of rows of objects.

ghost use Rattle.std.specs.Prelude.{◌≡◌, ◌++◌, IfOk, OnOk, max, map};
ghost use Rattle.static_facts.specs.Atoms.{fact_atom, is_true_at_first};
ghost use Rattle.binder.specs.internal.Checks.{extends, holds, is_met, slot_level, slot_value, slots_level};

use num_ends::{List, NoMemory};
use static_facts::Statics;

/// What stands in the place of an argument.
#[derive(Clone, Copy, Debug)]
pub(crate) enum Slot {
    /// The object that the parameter with this number is bound to.
    Parameter(u8),
    /// The object with this number.
    Object(u32),
}

/// What a literal says without its negation.
#[derive(Debug, Drop)]
pub(crate) enum Test {
    /// The fact of this predicate is true at first.
    Fact(u32, List<Slot>),
    /// Both are one object.
    Same(Slot, Slot),
}

/// A static literal.
#[derive(Debug, Drop)]
pub(crate) struct Check {
    /// Whether the test must be met, or must not be.
    pub(crate) positive: bool,
    /// How many of the first parameters must be bound.
    pub(crate) level: usize,
    pub(crate) test: Test,
}

impl Slot {
    /// How many of the first parameters must be bound.
    pub(crate) fn level(self) -> usize
        ensures { result ≡ slot_level self }
    {
        match self {
            Slot::Parameter(number) => usize::from(number) + 1,
            Slot::Object(_) => 0,
        }
    }

    /// The object in it, where parameters are bound to the objects of a row.
    pub(crate) fn value(self, row: &[u32]) -> u32
        ensures { result ≡ slot_value row.now self }
    {
        match self {
            Slot::Parameter(number) => row.get(usize::from(number)).copied().unwrap_or(0),
            Slot::Object(object) => object,
        }
    }
}

pub(crate) fn larger(a: usize, b: usize) -> usize
    ensures { result ≡ max a b }
{
    if a < b { b } else { a }
}

/// How many of the first parameters must be bound for all slots.
pub(crate) fn slots_level(slots: &[Slot]) -> usize
    ensures { result ≡ slots_level slots.now }
{
    let mut level = 0;
    'each: for slot in slots {
        level = larger(level, slot.level());
    }
    level
}

fn push_values(row: &[u32], slots: &[Slot], objects: &mut Vec<u32>) -> Result<(), NoMemory>
    ensures { OnOk result (objects.new.items ≡ objects.old.items ++ map (slot_value row.now) slots.now) }
{
    'each: for slot in slots {
        objects.push(slot.value(row))?;
    }
    Ok(())
}

// The buffer is for the objects of a fact.
fn is_fact(
    statics: &Statics,
    row: &[u32],
    predicate: u32,
    slots: &[Slot],
    buffer: &mut Vec<u32>,
) -> Result<bool, NoMemory>
    ensures { IfOk result (λ met. met ≡ is_true_at_first statics.now (fact_atom statics.now predicate (map (slot_value row.now) slots.now))) }
{
    buffer.clear();
    push_values(row, slots, buffer)?;
    Ok(statics.fact(predicate, buffer.as_slice()))
}

fn is_met(
    statics: &Statics,
    row: &[u32],
    test: &Test,
    buffer: &mut Vec<u32>,
) -> Result<bool, NoMemory>
    ensures { IfOk result (λ met. met ≡ is_met statics.now row.now test.now) }
{
    match test {
        Test::Fact(predicate, slots) => is_fact(statics, row, *predicate, slots.as_slice(), buffer),
        Test::Same(first, second) => Ok(first.value(row) == second.value(row)),
    }
}

/// Whether a row meets a check. The buffer is for the objects of a fact.
pub(crate) fn holds(
    statics: &Statics,
    row: &[u32],
    check: &Check,
    buffer: &mut Vec<u32>,
) -> Result<bool, NoMemory>
    ensures { IfOk result (λ answer. answer ≡ holds statics.now row.now check.now) }
{
    let met = is_met(statics, row, &check.test, buffer)?;
    Ok(check.positive == met)
}

/// Whether the checks that wait for exactly as many parameters as a row has hold.
pub(crate) fn extends(
    statics: &Statics,
    checks: &[Check],
    row: &[u32],
    buffer: &mut Vec<u32>,
) -> Result<bool, NoMemory>
    ensures { IfOk result (λ answer. answer ≡ extends statics.now checks.now row.now) }
{
    'each: for check in checks {
        if check.level == row.len() && !holds(statics, row, check, buffer)? {
            return Ok(false);
        }
    }
    Ok(true)
}
