//! The first state of a task.

ghost use Rattle.std.specs.Prelude.{◌≡◌, ◌<◌, ◌++◌, ◌∷◌, [], All, length, map, IfOk, OnOk, MatchResult};
ghost use Rattle.std.specs.List.{range_with_len};
ghost use Rattle.num_ends.specs.Decimal.{InRange};
ghost use Rattle.ground_task.specs.Placed.{IsPlaced};
ghost use Rattle.ground_task.specs.Tasks.{first_number, first_state, is_listed, AreFirstInRange, IsCause};
ghost use Rattle.ground_task.specs.Valid.{IsValid};

use crate::faults::TaskFault;
use crate::raw::RawTask;
use crate::state::State;
use num_ends::{Dec, List, NoMemory, Range};
use std::alloc::Global;

/// Of so many facts, which ones are listed.
fn first_facts(alloc: Global, count: usize, listed: &[u32]) -> Result<Vec<bool>, NoMemory>
    requires known { All (λ f. f < count) listed.now }
    ensures { IfOk result (λ v. v.items ≡ map (is_listed listed.now) (range_with_len 0 count)) }
{
    let mut facts = vec![in alloc; false; count]?;
    'each: for fact in listed {
        facts[*fact as usize] = true;
    }
    Ok(facts)
}

/// The first value of this fluent at its places.
fn first_value(raw: &RawTask, places: &List<u8>, fluent: usize) -> Result<Dec, Range>
    requires valid { IsValid raw.now }
    requires placed { IsPlaced raw.now places.now }
    requires known { fluent < length raw.now.fluents }
    ensures { MatchResult result
        (λ d. (d.n ≡ first_number places.now raw.now.values fluent) × InRange d.n)
        (λ fault. InRange (first_number places.now raw.now.values fluent) → ⊥) }
{
    let value = raw.values.as_slice()[fluent];
    value.trim().align(places.as_slice()[fluent])
}

/// Adds a decimal's number at the end.
#[tactic(auto, using(crate::proofs::FirstState::number_kept))]
fn push_number(numbers: &mut Vec<i128>, value: Dec) -> Result<(), NoMemory>
    ensures { OnOk result (numbers.new.items ≡ numbers.old.items ++ value.n ∷ []) }
{
    Ok(numbers.push(value.n)?)
}

/// The numbers of the first values at their fluents' places.
fn first_numbers(alloc: Global, raw: &RawTask, places: &List<u8>) -> Result<Vec<i128>, TaskFault>
    requires valid { IsValid raw.now }
    requires placed { IsPlaced raw.now places.now }
    ensures { MatchResult result
        (λ v. (v.items ≡ map (first_number places.now raw.now.values) (range_with_len 0 (length raw.now.fluents))) × AreFirstInRange places.now raw.now.values (length raw.now.fluents))
        (IsCause raw.now places.now) }
{
    let count = raw.fluents.len();
    let mut numbers = Vec::with_capacity(alloc, count).map_err(NoMemory::from)?;
    'each: for i in 0..count {
        match first_value(raw, places, i) {
            Ok(value) => push_number(&mut numbers, value)?,
            Err(Range) => return Err(TaskFault::Range(i as u32)),
        }
    }
    Ok(numbers)
}

/// The first state of a task.
pub(crate) fn first_of(alloc: Global, raw: &RawTask, places: &List<u8>) -> Result<State, TaskFault>
    requires valid { IsValid raw.now }
    requires placed { IsPlaced raw.now places.now }
    ensures { MatchResult result
        (λ s. (s ≡ first_state raw.now places.now) × AreFirstInRange places.now raw.now.values (length raw.now.fluents))
        (IsCause raw.now places.now) }
{
    let facts = first_facts(alloc, raw.facts.len(), raw.true_facts.as_slice())?;
    let numbers = first_numbers(alloc, raw, places)?;
    Ok(State::from_parts(alloc, facts.as_slice(), numbers.as_slice())?)
}
