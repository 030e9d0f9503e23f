//! The task with its decimal places, or why it has none.

ghost use Rattle.std.specs.Prelude.{◌≡◌, [], IfErr, IfOk, codes, length, map, slice_get, slice_index_or};
ghost use Rattle.std.specs.Option.{option_map_or};
ghost use Rattle.static_facts.specs.Atoms.{text_of_atom};
ghost use Rattle.ground_task.specs.Placed.{IsPlaced};
ghost use Rattle.ground_task.specs.Tasks.{AreFirstInRange};
ghost use Rattle.ground_task.specs.Valid.{IsValid};
ghost use Rattle.places.specs.Least.{IsLeastPlaces, IsPlacesFault};
ghost use Rattle.grounder.specs.internal.Decoded.{fluent_of};
ghost use Rattle.ground_task.specs.declared.raw.RawTask.{RawTask};
ghost use Rattle.grounder.specs.internal.Made.{AreFluentCodes, AreNamedBy, IsPlacesRefusal};

use crate::atoms::fluent_text;
use coded_actions::CodedAction;
use ground_meaning::GroundFault;
use ground_task::{RawTask, Task};
use num_ends::{NoMemory, Text};
use pddl_types::Checked;
use places::{PlacesFault, infer};
use std::alloc::Global;

fn text_of(
    alloc: Global,
    checked: &Checked,
    fluents: &[u128],
    number: u32,
) -> Result<Text, NoMemory>
    requires of_fluents { AreFluentCodes checked.now fluents.now }
    ensures { IfOk result (λ text. text ≡ slice_index_or (map (λ n. text_of_atom (fluent_of checked.now n)) fluents.now) number []) }
{
    match fluents.get(number as usize) {
        Some(code) => fluent_text(alloc, checked, *code),
        None => Ok(Text::new(alloc)),
    }
}

fn name_of(alloc: Global, actions: &[CodedAction], number: u32) -> Result<Text, NoMemory>
    ensures { IfOk result (λ text. text ≡ option_map_or (λ a. a.name) (slice_get actions.now number) []) }
{
    match actions.get(number as usize) {
        Some(action) => Ok(Text::from_vec(Vec::from_slice(alloc, action.name.as_slice())?)),
        None => Ok(Text::new(alloc)),
    }
}

fn goal_text(alloc: Global) -> Result<Text, NoMemory>
    ensures { IfOk result (λ text. text ≡ codes "goal") }
{
    Ok(Text::from_vec(Vec::from_slice(alloc, b"goal")?))
}

// Why a task with these fluents and actions has no places.
#[tactic(auto, using(crate::proofs::PlacesRefused::memory_refused, crate::proofs::PlacesRefused::fluent_refused, crate::proofs::PlacesRefused::action_refused, crate::proofs::PlacesRefused::goal_refused, crate::proofs::PlacesRefused::range_refused))]
fn refusal(
    alloc: Global,
    checked: &Checked,
    fluents: &[u128],
    actions: &[CodedAction],
    fault: PlacesFault,
) -> GroundFault
    requires of_fluents { AreFluentCodes checked.now fluents.now }
    ensures { (raw : RawTask) → AreNamedBy checked.now fluents.now actions.now raw → IsPlacesFault raw fault → IsPlacesRefusal raw result }
{
    match fault {
        PlacesFault::Fluent(fluent) => match text_of(alloc, checked, fluents, fluent) {
            Ok(text) => GroundFault::Places(text),
            Err(_) => GroundFault::NoMemory,
        },
        PlacesFault::Action(number) => match name_of(alloc, actions, number) {
            Ok(text) => GroundFault::Places(text),
            Err(_) => GroundFault::NoMemory,
        },
        PlacesFault::Goal => match goal_text(alloc) {
            Ok(text) => GroundFault::Places(text),
            Err(_) => GroundFault::NoMemory,
        },
        PlacesFault::Range(fluent) => match text_of(alloc, checked, fluents, fluent) {
            Ok(text) => GroundFault::Range(text),
            Err(_) => GroundFault::NoMemory,
        },
        PlacesFault::NoMemory => GroundFault::NoMemory,
    }
}

/// The task of this data, whose fluents have these codes and whose actions are those by numbers, with the least places.
pub(crate) fn placed(
    alloc: Global,
    checked: &Checked,
    fluents: &[u128],
    actions: &[CodedAction],
    raw: RawTask,
) -> Result<Task, GroundFault>
    requires valid { IsValid raw }
    requires of_fluents { AreFluentCodes checked.now fluents.now }
    requires named { AreNamedBy checked.now fluents.now actions.now raw }
    ensures found { IfOk result (λ t. (t.raw ≡ raw) × IsLeastPlaces raw t.places) }
    ensures suffices { IfOk result (λ t. IsPlaced raw t.places × AreFirstInRange t.places raw.values (length raw.fluents)) }
    ensures refused { IfErr result (IsPlacesRefusal raw) }
{
    match infer(alloc, raw) {
        Ok(task) => Ok(task),
        Err(fault) => Err(refusal(alloc, checked, fluents, actions, fault)),
    }
}
