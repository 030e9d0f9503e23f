//! The lines of boxes and states.

ghost use Rattle.std.specs.Prelude.{◌≡◌, IfOk, MatchOption, length};
ghost use Rattle.ground_task.specs.States.{StateValue};
ghost use Rattle.ground_task.specs.Tasks.{IsStateOf};
ghost use Rattle.box_model.specs.Boxes.{IsBoxOf};
ghost use Rattle.box_model.specs.declared.state_box.StateBox.{StateBox};
ghost use Rattle.cert_reader.specs.Parts.{IsWithout};
ghost use Rattle.cert_reader.specs.Spelling.{SpellsBox, SpellsState};

use crate::cuts::past;
use crate::parts::{box_facts, box_fluents, state_facts, state_numbers};
use box_model::StateBox;
use cert_text::Version;
use ground_task::{State, Task};
use num_ends::NoMemory;
use std::alloc::Global;

/// The box that a line spells in a version.
pub(crate) fn box_in(
    alloc: Global,
    task: &Task,
    version: Version,
    line: &[u8],
) -> Result<Option<StateBox>, NoMemory>
    requires { IsWithout 10 line.now }
    ensures { IfOk result (λ found. MatchOption found ((b : StateBox) → SpellsBox task.now version line.now b → ⊥) (SpellsBox task.now version line.now)) }
{
    let Some(parts) = past(b"box", line) else {
        return Ok(None);
    };
    let Some((facts, rest)) = box_facts(alloc, task.raw().facts.as_slice(), version, parts)? else {
        return Ok(None);
    };
    let Some((fluents, end)) = box_fluents(
        alloc,
        task.raw().fluents.as_slice(),
        task,
        version,
        rest,
    )?
    else {
        return Ok(None);
    };
    if !end.is_empty() {
        return Ok(None);
    }
    Ok(Some(StateBox { facts, fluents }))
}

/// The state that a line spells.
pub(crate) fn state_in(alloc: Global, task: &Task, line: &[u8]) -> Result<Option<State>, NoMemory>
    requires { IsWithout 10 line.now }
    ensures { IfOk result (λ found. MatchOption found ((s : StateValue) → SpellsState task.now line.now s → ⊥) (SpellsState task.now line.now)) }
{
    let Some(parts) = past(b"state", line) else {
        return Ok(None);
    };
    let Some((facts, rest)) = state_facts(alloc, task.raw().facts.as_slice(), parts)? else {
        return Ok(None);
    };
    let Some((numbers, end)) = state_numbers(alloc, task.raw().fluents.as_slice(), task, rest)?
    else {
        return Ok(None);
    };
    if !end.is_empty() {
        return Ok(None);
    }
    Ok(Some(State::of(alloc, task, facts.as_slice(), numbers.as_slice())?))
}
