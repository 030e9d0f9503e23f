//! The objects that may stand for the next parameter of a row: where a static literal names it and one parameter before
//! it, those that the object of that parameter leaves.

ghost use Rattle.std.specs.Prelude.{◌≡◌, ◌+◌, ◌++◌, [], ◌∷◌, ℕ, List, Some, IfOk, IfSome, IsTrue, filter, slice_get};
ghost use Rattle.std.specs.List.{list_all};
ghost use Rattle.pddl_types.specs.WellFormed.{Stands};
ghost use Rattle.binder.specs.internal.Candidates.{ArePassing, Serves, Suits, is_of_two, is_test_of_two, passing};
ghost use Rattle.binder.specs.declared.checks.Slot.TheVariants.{Parameter};
ghost use Rattle.binder.specs.internal.Checks.{holds, slot_value};

use crate::checks::{Check, Slot, Test, holds};
use crate::levels::{Tester, set_row};
use crate::rows::Rows;
use num_ends::{List, NoMemory};
use static_facts::Statics;
use std::alloc::Global;

/// Lists of objects by the object at a place of a row, as far as there are lists.
#[derive(Debug, Drop)]
pub(crate) struct Candidates {
    pub(crate) place: u8,
    pub(crate) lists: List<Option<List<u32>>>,
}

fn is_of_two(slot: Slot, place: u8, last: usize) -> bool
    ensures { result ≡ is_of_two place last slot }
{
    match slot {
        Slot::Parameter(number) => number == place || usize::from(number) == last,
        Slot::Object(_) => true,
    }
}

fn are_of_two(slots: &[Slot], place: u8, last: usize) -> bool
    ensures { result ≡ list_all (is_of_two place last) slots.now }
{
    'each: for slot in slots {
        if !is_of_two(*slot, place, last) {
            return false;
        }
    }
    true
}

fn is_test_of_two(test: &Test, place: u8, last: usize) -> bool
    ensures { result ≡ is_test_of_two place last test.now }
{
    match test {
        Test::Fact(_, slots) => are_of_two(slots.as_slice(), place, last),
        Test::Same(first, second) => {
            is_of_two(*first, place, last) && is_of_two(*second, place, last)
        }
    }
}

// A parameter before the last that slots name, or the first.
fn other_place(slots: &[Slot], last: usize) -> u8 {
    'each: for slot in slots {
        if let Slot::Parameter(number) = slot {
            if usize::from(*number) < last {
                return *number;
            }
        }
    }
    0
}

// The parameter by which a check of a fact leaves objects, if it's of use.
fn place_by(check: &Check, width: usize) -> Option<u8> {
    match &check.test {
        Test::Fact(_, slots) => {
            if check.positive {
                Some(other_place(slots.as_slice(), width))
            } else {
                None
            }
        }
        Test::Same(_, _) => None,
    }
}

fn waits_for_next(check: &Check, width: usize) -> bool
    ensures { IsTrue result → check.now.level ≡ width + 1 }
{
    if width < check.level {
        check.level - width == 1
    } else {
        false
    }
}

#[tactic(auto, using(crate::proofs::Served::suited))]
fn suits(check: &Check, place: u8, width: usize) -> bool
    ensures { IsTrue result → Suits check.now place width }
{
    waits_for_next(check, width)
        && usize::from(place) < width
        && is_test_of_two(&check.test, place, width)
}

fn mark(used: &mut Vec<bool>, object: u32) {
    let place = object as usize;
    if place < used.len() {
        used[place] = true;
    }
}

// Of as many objects, whether a row has them at a place.
fn used_objects(alloc: Global, rows: &Rows, place: u8, count: u32) -> Result<Vec<bool>, NoMemory> {
    let mut used = vec![in alloc; false; count as usize]?;
    'each: for number in 0..rows.count() {
        mark(&mut used, Slot::Parameter(place).value(rows.row(number)));
    }
    Ok(used)
}

// The objects with which a check of the rows that they end holds.
fn passing(
    alloc: Global,
    statics: &Statics,
    check: &Check,
    prefix: &[u32],
    objects: &[u32],
) -> Result<List<u32>, NoMemory>
    ensures { IfOk result (λ found. found ≡ filter (λ o. holds statics.now (prefix.now ++ o ∷ []) check.now) objects.now) }
{
    let mut found = Vec::new(alloc);
    let mut row = Vec::new(alloc);
    let mut buffer = Vec::new(alloc);
    'each: for object in objects {
        set_row(&mut row, prefix, *object)?;
        if holds(statics, row.as_slice(), check, &mut buffer)? {
            found.push(*object)?;
        }
    }
    Ok(List::from_vec(found))
}

// The list for one object at the place, where it's used.
fn list_for(
    alloc: Global,
    statics: &Statics,
    check: &Check,
    width: usize,
    used: &[bool],
    value: u32,
    objects: &[u32],
) -> Result<Option<List<u32>>, NoMemory>
    ensures { IfOk result (λ list. (found : List ℕ) → list ≡ Some found → found ≡ passing statics.now check.now width value objects.now) }
{
    if !used.get(value as usize).copied().unwrap_or(false) {
        return Ok(None);
    }
    let prefix = vec![in alloc; value; width]?;
    let found = passing(alloc, statics, check, prefix.as_slice(), objects)?;
    Ok(Some(found))
}

#[tactic(auto, using(crate::proofs::Served::none_passing, crate::proofs::Served::passing_more))]
fn lists(
    alloc: Global,
    statics: &Statics,
    check: &Check,
    width: usize,
    used: &[bool],
    count: u32,
    objects: &[u32],
) -> Result<List<Option<List<u32>>>, NoMemory>
    ensures { IfOk result (λ lists. ArePassing statics.now check.now width objects.now lists) }
{
    let mut lists = Vec::with_capacity(alloc, count as usize)?;
    'each: for value in 0..count {
        let list = list_for(alloc, statics, check, width, used, value, objects)?;
        lists.push(list)?;
    }
    Ok(List::from_vec(lists))
}

#[tactic(auto, using(crate::proofs::Served::serves))]
fn candidates_by(
    alloc: Global,
    tester: &Tester,
    check: &Check,
    place: u8,
    objects: &[u32],
    rows: &Rows,
    count: u32,
) -> Result<Candidates, NoMemory>
    requires stands { Stands check.now tester.now.checks.now }
    requires suits { Suits check.now place rows.now.0 }
    ensures { IfOk result (λ c. Serves tester.now.statics.now tester.now.checks.now objects.now rows.now.0 c) }
{
    let used = used_objects(alloc, rows, place, count)?;
    let lists = lists(
        alloc,
        tester.statics,
        check,
        rows.width(),
        used.as_slice(),
        count,
        objects,
    )?;
    Ok(Candidates { place, lists })
}

fn without_lists(alloc: Global) -> Candidates
    ensures { result.lists ≡ [] }
{
    Candidates {
        place: 0,
        lists: List::new(alloc),
    }
}

fn place_for(check: &Check, width: usize) -> Option<u8>
    ensures { IfSome result (λ place. Suits check.now place width) }
{
    match place_by(check, width) {
        Some(place) => {
            if suits(check, place, width) {
                Some(place)
            } else {
                None
            }
        }
        None => None,
    }
}

/// The candidates for the parameter behind rows, of as many objects as there are.
#[tactic(auto, using(crate::proofs::Served::none_serve, crate::proofs::Served::item_stands))]
pub(crate) fn find_candidates(
    alloc: Global,
    tester: &Tester,
    objects: &[u32],
    rows: &Rows,
    count: u32,
) -> Result<Candidates, NoMemory>
    ensures { IfOk result (λ c. Serves tester.now.statics.now tester.now.checks.now objects.now rows.now.0 c) }
{
    'each: for check in tester.checks {
        if let Some(place) = place_for(check, rows.width()) {
            return candidates_by(alloc, tester, check, place, objects, rows, count);
        }
    }
    Ok(without_lists(alloc))
}

impl Candidates {
    /// The list for a row, where there is one.
    pub(crate) fn list(&self, row: &[u32]) -> Option<&[u32]>
        ensures { IfSome result (λ list. slice_get self.now.lists (slot_value row.now (Parameter self.now.place)) ≡ Some (Some list.now)) }
    {
        let object = Slot::Parameter(self.place).value(row);
        match self.lists.as_slice().get(object as usize) {
            Some(list) => match list {
                Some(found) => Some(found.as_slice()),
                None => None,
            },
            None => None,
        }
    }
}
