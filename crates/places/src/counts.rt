//! The least counts of places, reached by raising those of the first values.

ghost use Rattle.std.specs.Prelude.{◌≡◌, ◌<◌, ℕ, IfOk, IsTrue, Some, false, length, map, slice_get};
ghost use Rattle.ground_task.specs.declared.raw.Ground.{Ground};
ghost use Rattle.ground_task.specs.Valid.{is_known_expression, right_side, IsValid};
ghost use Rattle.places.specs.Inside.{first_count, is_short, raised, AreMet, IsRise};
ghost use Rattle.places.specs.Least.{IsLeastPlaces};

use crate::needs::places_up_to_19;
use ground_task::{Change, GExpr, RawTask};
use num_ends::{Dec, List, NoMemory};
use std::alloc::Global;

/// The places of each first value, cut at 10.
fn first_counts(alloc: Global, values: &[Dec]) -> Result<Vec<u8>, NoMemory>
    ensures { IfOk result (λ v. v.items ≡ map first_count values.now) }
{
    let mut counts = Vec::with_capacity(alloc, values.len())?;
    'each: for value in values {
        counts.push(value.trim().p.min(10))?;
    }
    Ok(counts)
}

/// Gives a fluent the places of an expression, cut at 10, where it has fewer; tells whether it had.
#[tactic(auto, using(crate::proofs::CutPlaces::cut_further))]
fn raise(counts: &mut Vec<u8>, fluent: u32, expr: &GExpr) -> bool
    requires known { fluent < length counts.old.items }
    requires reads { IsTrue (is_known_expression (length counts.old.items) expr.now) }
    ensures rose { result ≡ is_short counts.old.items fluent expr.now }
    ensures counts { counts.new.items ≡ raised counts.old.items fluent expr.now }
{
    let places = places_up_to_19(counts.as_slice(), expr).min(10);
    if counts[fluent as usize] < places {
        counts[fluent as usize] = places;
        return true;
    }
    false
}

fn right_side(change: &Change) -> &GExpr
    ensures { result.now ≡ right_side change.now }
{
    match change {
        Change::Add(expr) => expr,
        Change::Set(expr) => expr,
    }
}

/// Raises the counts for the effects of an action; tells whether one rose.
fn raise_for_action(raw: &RawTask, number: usize, counts: &mut Vec<u8>) -> bool
    requires valid { IsValid raw.now }
    requires known { number < length raw.now.actions }
    requires a_count_each { length counts.old.items ≡ length raw.now.fluents }
    ensures rise { IsRise raw.now counts.old.items counts.new.items result }
    ensures met { result ≡ false → (a : Ground) → slice_get raw.now.actions number ≡ Some a → AreMet counts.old.items a.nums }
{
    let action = &raw.actions.as_slice()[number];
    let mut rose = false;
    'each: for effect in action.nums.as_slice() {
        rose |= raise(counts, effect.0, right_side(&effect.1));
    }
    rose
}

/// Raises the counts for the effects of each action; tells whether one rose.
fn round(raw: &RawTask, counts: &mut Vec<u8>) -> bool
    requires valid { IsValid raw.now }
    requires a_count_each { length counts.old.items ≡ length raw.now.fluents }
    ensures rise { IsRise raw.now counts.old.items counts.new.items result }
    ensures met { result ≡ false → (number : ℕ) (a : Ground) → slice_get raw.now.actions number ≡ Some a → AreMet counts.old.items a.nums }
{
    let mut rose = false;
    'each: for number in 0..raw.actions.len() {
        rose |= raise_for_action(raw, number, counts);
    }
    rose
}

/// The least counts of places, cut at 10.
pub(crate) fn least_counts(alloc: Global, raw: &RawTask) -> Result<List<u8>, NoMemory>
    requires valid { IsValid raw.now }
    ensures { IfOk result (IsLeastPlaces raw.now) }
{
    let mut counts = first_counts(alloc, raw.values.as_slice())?;
    let mut rose = true;
    'rounds: while rose {
        rose = round(raw, &mut counts);
    }
    Ok(List::from_vec(counts))
}
