//! The static literals of an action, found in its precondition.

ghost use Rattle.std.specs.Prelude.{◌≡◌, ◌≤◌, ◌++◌, IfOk, OnOk, flat_map, length, map};
ghost use Rattle.std.specs.List.{list_all};
ghost use Rattle.name_table.specs.Tables.{numbered};
ghost use Rattle.name_table.specs.TypedLists.{names_of};
ghost use Rattle.static_facts.specs.Literals.{conjuncts, is_bound};
ghost use Rattle.static_facts.specs.Literals as literal;
ghost use Rattle.binder.specs.internal.Checks.{check_of, checks_of, fact_check, fact_checks, same_check, slot_of};

use crate::checks::{Check, Slot, Test, larger, slots_level};
use name_table::NameTable;
use num_ends::{List, NoMemory};
use pddl_terms::{Arg, Atom, Cond, Typed};
use pddl_types::Checked;
use static_facts::Statics;
use std::alloc::Global;

/// Where the names of an action's literals are looked up.
#[derive(Clone, Copy)]
pub(crate) struct Scope<'a> {
    pub(crate) checked: &'a Checked,
    pub(crate) statics: &'a Statics<'a>,
    pub(crate) params: &'a [Typed],
    pub(crate) table: &'a NameTable,

    ghost one_pair: { statics.now ≡ checked.now },
    ghost few_params: { length params.now ≤ 8 },
    ghost by_name: { table.now ≡ numbered (names_of params.now) },
}

#[tactic(auto, using(crate::proofs::Resolved::bound_by_table))]
fn is_bound(scope: &Scope, arg: &Arg) -> bool
    ensures { result ≡ is_bound scope.now.params.now arg.now }
{
    match arg {
        Arg::Var(name) => scope.table.number(name.text.as_slice()).is_some(),
        Arg::Obj(_) => true,
    }
}

fn are_bound(scope: &Scope, args: &[Arg]) -> bool
    ensures { result ≡ list_all (is_bound scope.now.params.now) args.now }
{
    'each: for arg in args {
        if !is_bound(scope, arg) {
            return false;
        }
    }
    true
}

#[tactic(auto, using(crate::proofs::Resolved::place_in_slot, crate::proofs::Resolved::place_is_small))]
fn slot_of(scope: &Scope, arg: &Arg) -> Slot
    ensures { result ≡ slot_of scope.now.checked.now scope.now.params.now arg.now }
{
    match arg {
        Arg::Var(name) => match scope.table.number(name.text.as_slice()) {
            Some(place) => Slot::Parameter(place as u8),
            None => Slot::Parameter(0),
        },
        Arg::Obj(name) => {
            let number = scope.checked.object_number(name.text.as_slice());
            Slot::Object(number.unwrap_or(0))
        }
    }
}

fn slots_of(alloc: Global, scope: &Scope, args: &[Arg]) -> Result<List<Slot>, NoMemory>
    ensures { IfOk result (λ slots. slots ≡ map (slot_of scope.now.checked.now scope.now.params.now) args.now) }
{
    let mut slots = Vec::with_capacity(alloc, args.len())?;
    'each: for arg in args {
        slots.push(slot_of(scope, arg))?;
    }
    Ok(List::from_vec(slots))
}

fn fact_check(
    alloc: Global,
    scope: &Scope,
    positive: bool,
    args: &[Arg],
    predicate: u32,
) -> Result<Check, NoMemory>
    ensures { IfOk result (λ check. check ≡ fact_check scope.now.checked.now scope.now.params.now positive args.now predicate) }
{
    let slots = slots_of(alloc, scope, args)?;
    let level = slots_level(slots.as_slice());
    Ok(Check {
        positive,
        level,
        test: Test::Fact(predicate, slots),
    })
}

fn same_check(positive: bool, first: Slot, second: Slot) -> Check
    ensures { result ≡ same_check positive first second }
{
    Check {
        positive,
        level: larger(first.level(), second.level()),
        test: Test::Same(first, second),
    }
}

fn push_fact_check(
    alloc: Global,
    scope: &Scope,
    positive: bool,
    args: &[Arg],
    predicate: u32,
    checks: &mut List<Check>,
) -> Result<(), NoMemory>
    ensures { OnOk result (checks.new ≡ checks.old ++ fact_checks scope.now.checked.now scope.now.params.now positive args.now predicate) }
{
    if scope.statics.predicate_fixed(predicate) && are_bound(scope, args) {
        let check = fact_check(alloc, scope, positive, args, predicate)?;
        checks.push(check)?;
    }
    Ok(())
}

fn push_fact(
    alloc: Global,
    scope: &Scope,
    positive: bool,
    atom: &Atom,
    checks: &mut List<Check>,
) -> Result<(), NoMemory>
    ensures { OnOk result (checks.new ≡ checks.old ++ check_of scope.now.checked.now scope.now.params.now (literal.fact positive atom.now)) }
{
    match scope.checked.predicate_number(atom.head.text.as_slice()) {
        Some(predicate) => push_fact_check(
            alloc,
            scope,
            positive,
            atom.args.as_slice(),
            predicate,
            checks,
        ),
        None => Ok(()),
    }
}

fn push_same(
    scope: &Scope,
    positive: bool,
    first: &Arg,
    second: &Arg,
    checks: &mut List<Check>,
) -> Result<(), NoMemory>
    ensures { OnOk result (checks.new ≡ checks.old ++ check_of scope.now.checked.now scope.now.params.now (literal.same positive first.now second.now)) }
{
    if is_bound(scope, first) && is_bound(scope, second) {
        checks.push(same_check(positive, slot_of(scope, first), slot_of(scope, second)))?;
    }
    Ok(())
}

/// Adds the checks of the static literals among the top conjuncts of a condition, or at the polarity `false` of its negation.
#[cycle(checks)]
#[tactic(auto, using(crate::proofs::Collected::checks_Fact, crate::proofs::Collected::checks_Same))]
pub(crate) fn push_checks(
    alloc: Global,
    scope: &Scope,
    cond: &Cond,
    polarity: bool,
    checks: &mut List<Check>,
) -> Result<(), NoMemory>
    ensures { OnOk result (checks.new ≡ checks.old ++ checks_of scope.now.checked.now scope.now.params.now (conjuncts cond.now polarity)) }
{
    match cond {
        Cond::And(conds) => {
            if !polarity {
                return Ok(());
            }
            push_all_checks(alloc, scope, conds.as_slice(), true, checks)
        }
        Cond::Or(conds) => {
            if polarity {
                return Ok(());
            }
            push_all_checks(alloc, scope, conds.as_slice(), false, checks)
        }
        Cond::Not(cond) => push_checks(alloc, scope, cond.get(), !polarity, checks),
        Cond::Imply(first, second) => {
            if polarity {
                return Ok(());
            }
            push_checks(alloc, scope, first.get(), true, checks)?;
            push_checks(alloc, scope, second.get(), false, checks)
        }
        Cond::Fact(atom) => push_fact(alloc, scope, polarity, atom, checks),
        Cond::Same(first, second) => push_same(scope, polarity, first, second, checks),
        Cond::Cmp(_, _, _) => Ok(()),
    }
}

#[cycle(checks)]
fn push_all_checks(
    alloc: Global,
    scope: &Scope,
    conds: &[Cond],
    polarity: bool,
    checks: &mut List<Check>,
) -> Result<(), NoMemory>
    ensures { OnOk result (checks.new ≡ checks.old ++ flat_map (λ c. checks_of scope.now.checked.now scope.now.params.now (conjuncts c polarity)) conds.now) }
{
    'each: for cond in conds {
        push_checks(alloc, scope, cond, polarity, checks)?;
    }
    Ok(())
}
