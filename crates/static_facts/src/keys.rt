//! The codes of the atoms of the initial state.

ghost use Rattle.std.specs.Prelude.{◌≡◌, IfOk, option_map};
ghost use Rattle.pddl_types.specs.Pairs.{written_text};
ghost use Rattle.static_facts.specs.internal.Keys.{code_by_number, fact_key, fluent_key, object_numbers};

use crate::codes::code_of;
use num_ends::NoMemory;
use pddl_terms::{Arg, Atom};
use pddl_types::Checked;
use std::alloc::Global;

fn written_text(arg: &Arg) -> &[u8]
    ensures { result.now ≡ written_text arg.now }
{
    match arg {
        Arg::Var(name) => name.text.as_slice(),
        Arg::Obj(name) => name.text.as_slice(),
    }
}

fn object_numbers(
    alloc: Global,
    checked: &Checked,
    args: &[Arg],
) -> Result<Option<Vec<u32>>, NoMemory>
    ensures { IfOk result (λ numbers. option_map (λ v. v.items) numbers ≡ object_numbers checked.now args.now) }
{
    let mut numbers = Vec::with_capacity(alloc, args.len())?;
    'each: for arg in args {
        match checked.object_number(written_text(arg)) {
            Some(number) => numbers.push(number)?,
            None => return Ok(None),
        }
    }
    Ok(Some(numbers))
}

fn code_by_number(
    alloc: Global,
    checked: &Checked,
    symbol: Option<u32>,
    args: &[Arg],
) -> Result<Option<u128>, NoMemory>
    ensures { IfOk result (λ key. key ≡ code_by_number checked.now symbol args.now) }
{
    match symbol {
        Some(symbol) => match object_numbers(alloc, checked, args)? {
            Some(objects) => Ok(code_of(symbol, objects.as_slice())),
            None => Ok(None),
        },
        None => Ok(None),
    }
}

/// The code of a fact as it is written.
pub(crate) fn fact_key(
    alloc: Global,
    checked: &Checked,
    atom: &Atom,
) -> Result<Option<u128>, NoMemory>
    ensures { IfOk result (λ key. key ≡ fact_key checked.now atom.now) }
{
    let symbol = checked.predicate_number(atom.head.text.as_slice());
    code_by_number(alloc, checked, symbol, atom.args.as_slice())
}

/// The code of a fluent as it is written.
pub(crate) fn fluent_key(
    alloc: Global,
    checked: &Checked,
    atom: &Atom,
) -> Result<Option<u128>, NoMemory>
    ensures { IfOk result (λ key. key ≡ fluent_key checked.now atom.now) }
{
    let symbol = checked.function_number(atom.head.text.as_slice());
    code_by_number(alloc, checked, symbol, atom.args.as_slice())
}
