//! What a line tells of all facts or all fluents.

ghost use Rattle.std.specs.Prelude.{◌≡◌, ◌≤◌, ◌++◌, [], ◌∷◌, length, IfOk, OnOk, option_map};
ghost use Rattle.cert_reader.specs.Spelling.{facts_of_box, fluents_of, fluents_of_box, facts_of_state, fluents_of_state};
ghost use Rattle.cert_reader.specs.internal.Fronts.{IsParsed};

use crate::fits::{first_fact, first_interval, first_number, first_truth};
use box_model::May;
use cert_text::Version;
use ground_task::Task;
use num_ends::{Dec, Interval, List, NoMemory, Text};
use std::alloc::Global;

/// The truth values of the facts of a box, and the rest of the line.
pub(crate) fn box_facts<'a>(
    alloc: Global,
    names: &[Text],
    version: Version,
    line: &'a [u8],
) -> Result<Option<(List<May>, &'a [u8])>, NoMemory>
    ensures { IfOk result (λ found. IsParsed (facts_of_box version) names.now line.now (option_map (λ r. (r.0, r.1.now)) found)) }
{
    let mut facts = List::new(alloc);
    let mut rest = line;
    'each: for name in names {
        match first_fact(version, name.as_slice(), rest) {
            Some(found) => {
                facts.push(found.0)?;
                rest = found.1;
            }
            None => return Ok(None),
        }
    }
    Ok(Some((facts, rest)))
}

/// The intervals of the fluents of a box, and the rest of the line.
pub(crate) fn box_fluents<'a>(
    alloc: Global,
    names: &[Text],
    task: &Task,
    version: Version,
    line: &'a [u8],
) -> Result<Option<(List<Interval>, &'a [u8])>, NoMemory>
    requires names { names.now ≡ task.now.raw.fluents }
    requires few { length names.now ≤ 256 }
    requires placed { length task.now.places ≡ length task.now.raw.fluents }
    ensures { IfOk result (λ found. IsParsed (fluents_of_box version) (fluents_of task.now) line.now (option_map (λ r. (r.0, r.1.now)) found)) }
{
    let mut fluents = List::new(alloc);
    let mut rest = line;
    'each: for (fluent, name) in names.iter().enumerate() {
        match first_interval(version, name.as_slice(), task.places(fluent as u32), rest) {
            Some(found) => {
                fluents.push(found.0)?;
                rest = found.1;
            }
            None => return Ok(None),
        }
    }
    Ok(Some((fluents, rest)))
}

/// The truth values of the facts of a state, and the rest of the line.
pub(crate) fn state_facts<'a>(
    alloc: Global,
    names: &[Text],
    line: &'a [u8],
) -> Result<Option<(List<bool>, &'a [u8])>, NoMemory>
    ensures { IfOk result (λ found. IsParsed facts_of_state names.now line.now (option_map (λ r. (r.0, r.1.now)) found)) }
{
    let mut facts = List::new(alloc);
    let mut rest = line;
    'each: for name in names {
        match first_truth(name.as_slice(), rest) {
            Some(found) => {
                facts.push(found.0)?;
                rest = found.1;
            }
            None => return Ok(None),
        }
    }
    Ok(Some((facts, rest)))
}

/// Adds a decimal's number at the end.
#[tactic(auto, using(ground_task::proofs::FirstState::number_kept))]
fn push_number(numbers: &mut List<i128>, value: Dec) -> Result<(), NoMemory>
    ensures { OnOk result (numbers.new ≡ numbers.old ++ value.n ∷ []) }
{
    numbers.push(value.n)
}

/// The numbers of the fluents of a state, each at its places, and the rest of the line.
pub(crate) fn state_numbers<'a>(
    alloc: Global,
    names: &[Text],
    task: &Task,
    line: &'a [u8],
) -> Result<Option<(List<i128>, &'a [u8])>, NoMemory>
    requires names { names.now ≡ task.now.raw.fluents }
    requires few { length names.now ≤ 256 }
    requires placed { length task.now.places ≡ length task.now.raw.fluents }
    ensures { IfOk result (λ found. IsParsed fluents_of_state (fluents_of task.now) line.now (option_map (λ r. (r.0, r.1.now)) found)) }
{
    let mut numbers = List::new(alloc);
    let mut rest = line;
    'each: for (fluent, name) in names.iter().enumerate() {
        match first_number(name.as_slice(), task.places(fluent as u32), rest) {
            Some(found) => {
                push_number(&mut numbers, found.0)?;
                rest = found.1;
            }
            None => return Ok(None),
        }
    }
    Ok(Some((numbers, rest)))
}
