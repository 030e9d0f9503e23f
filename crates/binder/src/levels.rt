//! The rows that survive, one parameter after another.

ghost use Rattle.std.specs.Prelude.{◌≡◌, ◌+◌, ◌++◌, [], ◌∷◌, ◌≤◌, ◌<◌, List, IfOk, OnOk, MatchResult, flat_map, length, IsTrue, ◌↔◌};
ghost use Rattle.pddl_terms.specs.declared.limits.TheConstants.{MAX_PREFIXES};
ghost use Rattle.static_facts.specs.Bindings.{fitting};
ghost use Rattle.pddl_types.specs.declared.pairs.Pair.{Pair};
ghost use Rattle.binder.specs.declared.checks.Check.{Check};
ghost use Rattle.binder.specs.internal.Candidates.{Serves};
ghost use Rattle.binder.specs.internal.Checks.{extensions};
ghost use Rattle.binder.specs.internal.Levels.{IsOver, counted, first_rows, grown};

use crate::candidates::{Candidates, find_candidates};
use crate::checks::{Check, extends};
use crate::rows::Rows;
use num_ends::NoMemory;
use pddl_terms::{MAX_PREFIXES, Typed};
use pddl_types::Checked;
use static_facts::Statics;
use std::alloc::Global;

/// Why there are no rows.
pub(crate) enum LevelFault {
    NoMemory,
    /// There are more than the limit.
    TooMany,
}

impl From<NoMemory> for LevelFault {
    ghost use Rattle.std.specs.Prelude.{◌≡◌};
    ghost use Rattle.binder.specs.declared.levels.LevelFault.TheVariants as answer;

    ghost from_gives = { λ _ fault. fault ≡ answer.NoMemory };

    fn from(_fault: NoMemory) -> LevelFault {
        LevelFault::NoMemory
    }
}

/// What rows are tested by.
#[derive(Clone, Copy)]
pub(crate) struct Tester<'a> {
    pub(crate) statics: &'a Statics<'a>,
    pub(crate) checks: &'a [Check],
}

fn fitting(alloc: Global, checked: &Checked, param: &Typed) -> Result<Vec<u32>, NoMemory>
    ensures fitting { IfOk result (λ objects. objects.items ≡ fitting checked.now param.now) }
    ensures few { IfOk result (λ objects. length objects.items < 4294967296) }
{
    let mut objects = Vec::new(alloc);
    'each: for object in 0..checked.objects() {
        if checked.fits(object, &param.kind) {
            objects.push(object)?;
        }
    }
    Ok(objects)
}

/// Makes a row of another one and an object.
pub(crate) fn set_row(row: &mut Vec<u32>, prefix: &[u32], object: u32) -> Result<(), NoMemory>
    ensures { OnOk result (row.new.items ≡ prefix.now ++ object ∷ []) }
{
    row.clear();
    row.extend_from_slice(prefix)?;
    row.push(object)?;
    Ok(())
}

// Adds the rows that go on from a row by one of some objects. The buffers are for a row and for the objects of a fact.
fn push_extensions(
    tester: &Tester,
    objects: &[u32],
    prefix: &[u32],
    rows: &mut Rows,
    row: &mut Vec<u32>,
    buffer: &mut Vec<u32>,
) -> Result<(), NoMemory>
    requires width { rows.old.0 ≡ length prefix.now + 1 }
    requires room { length rows.old.1 + length objects.now < 9223372036854775808 }
    ensures { OnOk result (rows.new ≡ (rows.old.0, rows.old.1 ++ extensions tester.now.statics.now tester.now.checks.now objects.now prefix.now)) }
{
    'each: for object in objects {
        set_row(row, prefix, *object)?;
        if extends(tester.statics, tester.checks, row.as_slice(), buffer)? {
            rows.push(row.as_slice())?;
        }
    }
    Ok(())
}

// The candidates for a row, or all objects where there is no list for it.
#[tactic(auto, using(crate::proofs::Served::served_rows, crate::proofs::Served::served_few))]
fn chosen<'a>(candidates: &'a Candidates, objects: &'a [u32], prefix: &[u32]) -> &'a [u32]
    ensures rows { (p : Pair) (checks : List Check) → Serves p checks objects.now (length prefix.now) candidates.now → extensions p checks result.now prefix.now ≡ extensions p checks objects.now prefix.now }
    ensures few { (p : Pair) (checks : List Check) → Serves p checks objects.now (length prefix.now) candidates.now → length result.now ≤ length objects.now }
{
    match candidates.list(prefix) {
        Some(found) => found,
        None => objects,
    }
}

// The same rows, by the candidates for the row.
fn push_next(
    tester: &Tester,
    candidates: &Candidates,
    objects: &[u32],
    prefix: &[u32],
    rows: &mut Rows,
    row: &mut Vec<u32>,
    buffer: &mut Vec<u32>,
) -> Result<(), NoMemory>
    requires serves { Serves tester.now.statics.now tester.now.checks.now objects.now (length prefix.now) candidates.now }
    requires width { rows.old.0 ≡ length prefix.now + 1 }
    requires room { length rows.old.1 + length objects.now < 9223372036854775808 }
    ensures { OnOk result (rows.new ≡ (rows.old.0, rows.old.1 ++ extensions tester.now.statics.now tester.now.checks.now objects.now prefix.now)) }
{
    let chosen = chosen(candidates, objects, prefix);
    push_extensions(tester, chosen, prefix, rows, row, buffer)
}

fn is_over(count: usize, taken: usize) -> bool
    requires { taken ≤ MAX_PREFIXES }
    ensures { IsTrue result ↔ (MAX_PREFIXES < count + taken) }
{
    count > MAX_PREFIXES as usize - taken
}

// The rows that go on from others by one of some objects, where these and those that were taken before aren't too many.
// The count is that of all objects.
fn next_rows(
    alloc: Global,
    tester: &Tester,
    objects: &[u32],
    rows: &Rows,
    taken: usize,
    count: u32,
) -> Result<Rows, LevelFault>
    requires taken { taken ≤ MAX_PREFIXES }
    requires objects { length objects.now < 4294967296 }
    requires width { rows.now.0 ≤ 8 }
    ensures { MatchResult result (λ next. (next ≡ (rows.now.0 + 1, flat_map (extensions tester.now.statics.now tester.now.checks.now objects.now) rows.now.1)) × (length next.1 + taken ≤ MAX_PREFIXES)) (λ fault. IsOver fault (length (flat_map (extensions tester.now.statics.now tester.now.checks.now objects.now) rows.now.1) + taken)) }
{
    let candidates = find_candidates(alloc, tester, objects, rows, count)?;
    let mut next = Rows::new(alloc, rows.width() + 1);
    let mut row = Vec::new(alloc);
    let mut buffer = Vec::new(alloc);
    'each: for number in 0..rows.count() {
        let prefix = rows.row(number);
        push_next(
            tester,
            &candidates,
            objects,
            prefix,
            &mut next,
            &mut row,
            &mut buffer,
        )?;
        if is_over(next.count(), taken) {
            return Err(LevelFault::TooMany);
        }
    }
    Ok(next)
}

/// The empty row, where the checks that wait for nothing hold.
pub(crate) fn first_rows(alloc: Global, tester: &Tester) -> Result<Rows, NoMemory>
    ensures { IfOk result (λ rows. rows ≡ (0, first_rows tester.now.statics.now tester.now.checks.now)) }
{
    let mut rows = Rows::new(alloc, 0);
    let mut buffer = Vec::new(alloc);
    if extends(tester.statics, tester.checks, &[], &mut buffer)? {
        rows.push(&[])?;
    }
    Ok(rows)
}

/// The rows after further parameters, where all that there are after each of them aren't too many together.
pub(crate) fn grown(
    alloc: Global,
    checked: &Checked,
    tester: &Tester,
    params: &[Typed],
    first: Rows,
) -> Result<Rows, LevelFault>
    requires one_pair { tester.now.statics.now ≡ checked.now }
    requires few_params { length params.now ≤ 8 }
    requires empty { first.0 ≡ 0 }
    ensures { MatchResult result (λ rows. (rows.1 ≡ grown checked.now tester.now.checks.now params.now first.1) × (counted checked.now tester.now.checks.now params.now first.1 ≤ MAX_PREFIXES)) (λ fault. IsOver fault (counted checked.now tester.now.checks.now params.now first.1)) }
{
    let mut rows = first;
    let mut taken = 0;
    'params: for param in params {
        let objects = fitting(alloc, checked, param)?;
        match next_rows(
            alloc,
            tester,
            objects.as_slice(),
            &rows,
            taken,
            checked.objects(),
        ) {
            Ok(next) => {
                taken += next.count();
                rows = next;
            }
            Err(fault) => return Err(fault),
        }
    }
    Ok(rows)
}
