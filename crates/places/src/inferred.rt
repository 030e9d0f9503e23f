//! A ground task with the least places of its fluents.

ghost use Rattle.std.specs.Prelude.{◌≡◌, length, IfOk, MatchResult, Err};
ghost use Rattle.ground_task.specs.Placed.{IsPlaced};
ghost use Rattle.ground_task.specs.Tasks.{AreFirstInRange, TaskValue};
ghost use Rattle.ground_task.specs.Valid.{IsValid};
ghost use Rattle.places.specs.Least.{IsLeastPlaces, IsPlacesFault};

use crate::counts::least_counts;
use crate::faults::PlacesFault;
use crate::needs::has_few_places;
use crate::sides::{deep_action, deep_fluent};
use ground_task::{RawTask, Task, TaskFault};
use num_ends::{List, NoMemory};
use std::alloc::Global;

/// The least counts of places, where they suffice.
#[tactic(auto, using(crate::proofs::Suited::fluent_fault, crate::proofs::Suited::action_fault, crate::proofs::Suited::goal_fault, crate::proofs::Suited::suited))]
fn suited_counts(alloc: Global, raw: &RawTask) -> Result<List<u8>, PlacesFault>
    requires valid { IsValid raw.now }
    ensures { MatchResult result (λ counts. IsLeastPlaces raw.now counts × IsPlaced raw.now counts) (IsPlacesFault raw.now) }
{
    let counts = match least_counts(alloc, raw) {
        Ok(counts) => counts,
        Err(NoMemory) => return Err(PlacesFault::NoMemory),
    };
    if let Some(fluent) = deep_fluent(counts.as_slice()) {
        return Err(PlacesFault::Fluent(fluent));
    }
    if let Some(action) = deep_action(raw, counts.as_slice()) {
        return Err(PlacesFault::Action(action));
    }
    if !has_few_places(raw.facts.len(), counts.as_slice(), &raw.goal) {
        return Err(PlacesFault::Goal);
    }
    Ok(counts)
}

/// The task with counts that suffice.
#[tactic(auto, using(crate::proofs::Suited::range_fault))]
fn at_places(alloc: Global, raw: RawTask, counts: List<u8>) -> Result<Task, PlacesFault>
    requires valid { IsValid raw }
    requires least { IsLeastPlaces raw counts }
    requires placed { IsPlaced raw counts }
    ensures found { MatchResult result (λ t. (t.raw ≡ raw) × IsLeastPlaces raw t.places) (IsPlacesFault raw) }
    ensures suffices { IfOk result (λ t. IsPlaced raw t.places × AreFirstInRange t.places raw.values (length raw.fluents)) }
{
    match Task::with_places(alloc, raw, counts) {
        Ok(task) => Ok(task),
        Err(TaskFault::Range(fluent)) => Err(PlacesFault::Range(fluent)),
        Err(TaskFault::NoMemory) => Err(PlacesFault::NoMemory),
    }
}

/// Lets the data of a refused task go.
fn refused(raw: RawTask, fault: PlacesFault) -> Result<Task, PlacesFault>
    ensures { result ≡ Err fault }
{
    Err(fault)
}

/// The task with the least places of its fluents.
///
/// Counts of places are cut at 10. `Fluent` names the first fluent that needs 10; else `Action` the first action with a
/// side of more than 18 places in a comparison of its precondition; else `Goal` is such a side in the goal; else `Range`
/// names the first fluent whose first value leaves the range at its places.
pub fn infer(alloc: Global, raw: RawTask) -> Result<Task, PlacesFault>
    requires valid { IsValid raw }
    ensures found { MatchResult result (λ t. (t.raw ≡ raw) × IsLeastPlaces raw t.places) (IsPlacesFault raw) }
    ensures suffices { IfOk result (λ t. IsPlaced raw t.places × AreFirstInRange t.places raw.values (length raw.fluents)) }
{
    match suited_counts(alloc, &raw) {
        Ok(counts) => at_places(alloc, raw, counts),
        Err(fault) => refused(raw, fault),
    }
}
