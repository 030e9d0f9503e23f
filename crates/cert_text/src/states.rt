//! The lines of states.

ghost use Rattle.std.specs.Prelude.{◌≡◌, ◌<◌, ◌≤◌, ◌++◌, [], false, length, slice_index_or, OnOk, OnErr};
ghost use Rattle.num_ends.specs.Texts.{decimal_text};
ghost use Rattle.ground_task.specs.Meaning.{fluent_value};
ghost use Rattle.ground_task.specs.Tasks.{IsStateOf};
ghost use Rattle.cert_text.specs.Lines.{truth_text, part_text, decimals_of, state_facts, state_fluents, state_line, GoesOn};

use crate::lines::write_name;
use ground_task::{State, Task};
use num_ends::{Dec, List, NoMemory, Text, write_dec};
use std::alloc::Global;

fn truth_word(truth: bool) -> &'static [u8]
    ensures { result.now ≡ truth_text truth }
{
    if truth { b"true" } else { b"false" }
}

/// The value of a fluent in a state.
fn value_of(task: &Task, state: &State, fluent: u32) -> Dec
    requires in_task { fluent < length task.now.raw.fluents }
    requires in_state { fluent < length state.now.values }
    ensures { result ≡ fluent_value task.now.places state.now fluent }
{
    Dec {
        n: state.value(fluent),
        p: task.places(fluent),
    }
}

fn write_truth(out: &mut List<u8>, name: &Text, truth: bool) -> Result<(), NoMemory>
    ensures ok { OnOk result (out.new ≡ out.old ++ part_text name.now (truth_text truth)) }
    ensures err { OnErr result (GoesOn out.old out.new) }
{
    write_name(out, name)?;
    out.extend_from_slice(truth_word(truth))
}

/// Appends the part of the fact of this number.
fn write_fact_at(
    out: &mut List<u8>,
    names: &[Text],
    state: &State,
    number: usize,
) -> Result<(), NoMemory>
    requires few { number < 4096 }
    requires named { number < length names.now }
    requires known { number < length state.now.facts }
    ensures ok { OnOk result (out.new ≡ out.old ++ part_text (slice_index_or names.now number []) (truth_text (slice_index_or state.now.facts number false))) }
    ensures err { OnErr result (GoesOn out.old out.new) }
{
    write_truth(out, &names[number], state.fact(number as u32))
}

fn write_facts(out: &mut List<u8>, names: &[Text], state: &State) -> Result<(), NoMemory>
    requires each { length state.now.facts ≡ length names.now }
    requires few { length names.now ≤ 4096 }
    ensures ok { OnOk result (out.new ≡ out.old ++ state_facts names.now state.now.facts) }
    ensures err { OnErr result (GoesOn out.old out.new) }
{
    'each: for number in 0..names.len() {
        write_fact_at(out, names, state, number)?;
    }
    Ok(())
}

fn write_value(alloc: Global, out: &mut List<u8>, name: &Text, value: Dec) -> Result<(), NoMemory>
    ensures ok { OnOk result (out.new ≡ out.old ++ part_text name.now (decimal_text value)) }
    ensures err { OnErr result (GoesOn out.old out.new) }
{
    write_name(out, name)?;
    write_dec(alloc, out, value)
}

/// Appends the part of the fluent of this number.
fn write_fluent_at(
    alloc: Global,
    out: &mut List<u8>,
    task: &Task,
    state: &State,
    number: usize,
) -> Result<(), NoMemory>
    requires of_task { IsStateOf task.now state.now }
    requires known { number < length task.now.raw.fluents }
    ensures ok { OnOk result (out.new ≡ out.old ++ part_text (slice_index_or task.now.raw.fluents number []) (decimal_text (fluent_value task.now.places state.now number))) }
    ensures err { OnErr result (GoesOn out.old out.new) }
{
    let name = &task.raw().fluents.as_slice()[number];
    write_value(alloc, out, name, value_of(task, state, number as u32))
}

fn write_fluents(
    alloc: Global,
    out: &mut List<u8>,
    task: &Task,
    state: &State,
) -> Result<(), NoMemory>
    requires { IsStateOf task.now state.now }
    ensures ok { OnOk result (out.new ≡ out.old ++ state_fluents task.now.raw.fluents (decimals_of task.now.places state.now.values)) }
    ensures err { OnErr result (GoesOn out.old out.new) }
{
    let count = task.raw().fluents.len();
    'each: for number in 0..count {
        write_fluent_at(alloc, out, task, state, number)?;
    }
    Ok(())
}

/// Appends the line of a state. Without memory a front of it may be there.
fn append_state(
    alloc: Global,
    task: &Task,
    state: &State,
    out: &mut List<u8>,
) -> Result<(), NoMemory>
    requires { IsStateOf task.now state.now }
    ensures ok { OnOk result (out.new ≡ out.old ++ state_line task.now state.now) }
    ensures err { OnErr result (GoesOn out.old out.new) }
{
    out.extend_from_slice(b"state")?;
    write_facts(out, task.raw().facts.as_slice(), state)?;
    write_fluents(alloc, out, task, state)?;
    out.extend_from_slice(b"\n")
}

/// Appends the line of a state of the task, with its line feed. Without memory `out` stays as it was.
pub fn write_state(
    alloc: Global,
    task: &Task,
    state: &State,
    out: &mut List<u8>,
) -> Result<(), NoMemory>
    requires { IsStateOf task.now state.now }
    ensures ok { OnOk result (out.new ≡ out.old ++ state_line task.now state.now) }
    ensures err { OnErr result (out.new ≡ out.old) }
{
    let before = out.len();
    match append_state(alloc, task, state, out) {
        Ok(()) => Ok(()),
        Err(fault) => {
            out.truncate(before);
            Err(fault)
        }
    }
}
