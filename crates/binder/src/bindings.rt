//! The bindings of an action.

ghost use Rattle.std.specs.Prelude.{◌≡◌, ◌≤◌, ◌<◌, true, Some, IfOk, MatchResult, length, slice_get};
ghost use Rattle.pddl_terms.specs.declared.actions.Schema.{Schema};
ghost use Rattle.pddl_terms.specs.declared.limits.TheConstants.{MAX_PREFIXES};
ghost use Rattle.pddl_terms.specs.Readable.{IsReadable};
ghost use Rattle.pddl_types.specs.WellFormed.{Stands, WellFormed};
ghost use Rattle.static_facts.specs.Bindings.{bindings, prefix_count};
ghost use Rattle.static_facts.specs.Literals.{conjuncts};
ghost use Rattle.binder.specs.Bound.{IsBindFault};
ghost use Rattle.binder.specs.internal.Checks.{checks_of};
ghost use Rattle.binder.specs.internal.Levels.{IsOver};

use crate::checks::Check;
use crate::levels::{LevelFault, Tester, first_rows, grown};
use crate::resolve::{Scope, push_checks};
use crate::rows::Rows;
use name_table::typed_table;
use num_ends::{List, NoMemory};
use pddl_terms::Schema;
use pddl_types::Checked;
use sqlite_items::at;
use static_facts::Statics;
use std::alloc::Global;

/// Why an action has no list of bindings.
#[derive(Clone, Copy, Debug, PartialEq, Eq)]
pub enum BindFault {
    NoMemory,
    /// More than 5,000,000 bindings of its first parameters aren't excluded: the action's number.
    TooMany(u32),
}

impl From<NoMemory> for BindFault {
    ghost use Rattle.std.specs.Prelude.{◌≡◌};
    ghost use Rattle.binder.specs.declared.bindings.BindFault.TheVariants as answer;

    ghost from_gives = { λ _ fault. fault ≡ answer.NoMemory };

    fn from(_fault: NoMemory) -> BindFault {
        BindFault::NoMemory
    }
}

fn checks_of(
    alloc: Global,
    checked: &Checked,
    statics: &Statics,
    schema: &Schema,
) -> Result<List<Check>, NoMemory>
    requires one_pair { statics.now ≡ checked.now }
    requires few_params { length schema.now.params ≤ 8 }
    ensures { IfOk result (λ checks. checks ≡ checks_of checked.now schema.now.params (conjuncts schema.now.pre true)) }
{
    let table = typed_table(alloc, schema.params.as_slice())?;
    let scope = Scope {
        checked,
        statics,
        params: schema.params.as_slice(),
        table: &table,
    };
    let mut checks = List::new(alloc);
    push_checks(alloc, &scope, &schema.pre, true, &mut checks)?;
    Ok(checks)
}

// The bindings as rows.
fn bound_rows(
    alloc: Global,
    checked: &Checked,
    statics: &Statics,
    schema: &Schema,
) -> Result<Rows, LevelFault>
    requires one_pair { statics.now ≡ checked.now }
    requires few_params { length schema.now.params ≤ 8 }
    requires stands { Stands schema.now checked.now.domain.schemas }
    requires well_formed { WellFormed checked.now }
    requires readable { IsReadable checked.now.domain checked.now.problem }
    ensures { MatchResult result (λ rows. (rows.1 ≡ bindings checked.now schema.now) × (prefix_count checked.now schema.now ≤ MAX_PREFIXES)) (λ fault. IsOver fault (prefix_count checked.now schema.now)) }
{
    let checks = checks_of(alloc, checked, statics, schema)?;
    let tester = Tester {
        statics,
        checks: checks.as_slice(),
    };
    let first = first_rows(alloc, &tester)?;
    grown(alloc, checked, &tester, schema.params.as_slice(), first)
}

fn copied_row(alloc: Global, rows: &Rows, number: usize) -> Result<List<u32>, NoMemory>
    requires { number < length rows.now.1 }
    ensures { IfOk result (λ row. slice_get rows.now.1 number ≡ Some row) }
{
    let row = Vec::from_slice(alloc, rows.row(number))?;
    Ok(List::from_vec(row))
}

#[tactic(auto, using(crate::proofs::Dropped::next_taken))]
fn copied(alloc: Global, rows: &Rows) -> Result<List<List<u32>>, NoMemory>
    ensures { IfOk result (λ lists. lists ≡ rows.now.1) }
{
    let mut lists = Vec::with_capacity(alloc, rows.count())?;
    'each: for number in 0..rows.count() {
        lists.push(copied_row(alloc, rows, number)?)?;
    }
    Ok(List::from_vec(lists))
}

fn bound(
    alloc: Global,
    checked: &Checked,
    statics: &Statics,
    number: u32,
    schema: &Schema,
) -> Result<Rows, BindFault>
    requires one_pair { statics.now ≡ checked.now }
    requires few_params { length schema.now.params ≤ 8 }
    requires stands { Stands schema.now checked.now.domain.schemas }
    requires well_formed { WellFormed checked.now }
    requires readable { IsReadable checked.now.domain checked.now.problem }
    ensures { MatchResult result (λ rows. (rows.1 ≡ bindings checked.now schema.now) × (prefix_count checked.now schema.now ≤ MAX_PREFIXES)) (IsBindFault checked.now number schema.now) }
{
    match bound_rows(alloc, checked, statics, schema) {
        Ok(rows) => Ok(rows),
        Err(LevelFault::TooMany) => Err(BindFault::TooMany(number)),
        Err(LevelFault::NoMemory) => Err(BindFault::NoMemory),
    }
}

/// The bindings of the action with a number as rows of the numbers of its objects, in lexicographic order: those for which
/// no static literal of the precondition is false. A number that no action has gives none.
pub fn bind_rows(
    alloc: Global,
    checked: &Checked,
    statics: &Statics,
    schema: u32,
) -> Result<Rows, BindFault>
    requires { statics.now ≡ checked.now }
    ensures { (s : Schema) → slice_get checked.now.domain.schemas schema ≡ Some s → MatchResult result (λ rows. (rows.1 ≡ bindings checked.now s) × (prefix_count checked.now s ≤ MAX_PREFIXES)) (IsBindFault checked.now schema s) }
{
    let domain = checked.domain();
    match at(domain.schemas.as_slice(), schema as usize) {
        Some(found) => bound(alloc, checked, statics, schema, found),
        None => Ok(Rows::new(alloc, 0)),
    }
}

/// The same bindings, each as a list.
pub fn bind(
    alloc: Global,
    checked: &Checked,
    statics: &Statics,
    schema: u32,
) -> Result<List<List<u32>>, BindFault>
    requires { statics.now ≡ checked.now }
    ensures { (s : Schema) → slice_get checked.now.domain.schemas schema ≡ Some s → MatchResult result (λ lists. (lists ≡ bindings checked.now s) × (prefix_count checked.now s ≤ MAX_PREFIXES)) (IsBindFault checked.now schema s) }
{
    match bind_rows(alloc, checked, statics, schema) {
        Ok(rows) => Ok(copied(alloc, &rows)?),
        Err(fault) => Err(fault),
    }
}
