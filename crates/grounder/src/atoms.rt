//! The facts and the fluents of a task, by their codes.

ghost use Rattle.std.specs.Prelude.{◌≡◌, ◌≤◌, ◌++◌, [], ◌∷◌, IfOk, OnOk, length, map, if◌then◌else◌};
ghost use Rattle.static_facts.specs.Atoms.{is_true_at_first, text_of_atom};
ghost use Rattle.static_facts.specs.Codes.{fact_code, fluent_code};
ghost use Rattle.ground_meaning.specs.Tasks.{IsFact, IsFluent, first_true, first_value};
ghost use Rattle.ground_meaning.proofs.KeptAtoms.{IsCodeOf};
ghost use Rattle.grounder.specs.internal.Decoded.{fact_of, fluent_of};
ghost use Rattle.grounder.specs.internal.Made.{AreFactCodes, AreFluentCodes};

use crate::decode::decoded;
use crate::texts::atom_text;
use num_ends::{Dec, List, NoMemory, Text};
use pddl_types::Checked;
use static_facts::Statics;
use std::alloc::Global;

#[tactic(auto, using(crate::proofs::Decoding::fact_symbol))]
fn fact_text(alloc: Global, checked: &Checked, code: u128) -> Result<Text, NoMemory>
    requires of_fact { IsCodeOf (IsFact checked.now) (fact_code checked.now) code }
    ensures { IfOk result (λ text. text ≡ text_of_atom (fact_of checked.now code)) }
{
    let numbers = decoded(alloc, code)?;
    let predicates = checked.domain().predicates.as_slice();
    let head = predicates[numbers.symbol as usize].name.text.as_slice();
    atom_text(alloc, checked, head, numbers.objects.as_slice())
}

/// The text of the fluent with a code.
#[tactic(auto, using(crate::proofs::Decoding::fluent_symbol))]
pub(crate) fn fluent_text(alloc: Global, checked: &Checked, code: u128) -> Result<Text, NoMemory>
    requires of_fluent { IsCodeOf (IsFluent checked.now) (fluent_code checked.now) code }
    ensures { IfOk result (λ text. text ≡ text_of_atom (fluent_of checked.now code)) }
{
    let numbers = decoded(alloc, code)?;
    let functions = checked.domain().functions.as_slice();
    let head = functions[numbers.symbol as usize].name.text.as_slice();
    atom_text(alloc, checked, head, numbers.objects.as_slice())
}

/// The texts of facts.
pub(crate) fn fact_texts(
    alloc: Global,
    checked: &Checked,
    codes: &[u128],
) -> Result<List<Text>, NoMemory>
    requires of_facts { AreFactCodes checked.now codes.now }
    ensures { IfOk result (λ texts. texts ≡ map (λ n. text_of_atom (fact_of checked.now n)) codes.now) }
{
    let mut texts = Vec::with_capacity(alloc, codes.len())?;
    'each: for code in codes {
        texts.push(fact_text(alloc, checked, *code)?)?;
    }
    Ok(List::from_vec(texts))
}

/// The texts of fluents.
pub(crate) fn fluent_texts(
    alloc: Global,
    checked: &Checked,
    codes: &[u128],
) -> Result<List<Text>, NoMemory>
    requires of_fluents { AreFluentCodes checked.now codes.now }
    ensures { IfOk result (λ texts. texts ≡ map (λ n. text_of_atom (fluent_of checked.now n)) codes.now) }
{
    let mut texts = Vec::with_capacity(alloc, codes.len())?;
    'each: for code in codes {
        texts.push(fluent_text(alloc, checked, *code)?)?;
    }
    Ok(List::from_vec(texts))
}

fn is_true(alloc: Global, statics: &Statics, code: u128) -> Result<bool, NoMemory>
    ensures { IfOk result (λ truth. truth ≡ is_true_at_first statics.now (fact_of statics.now code)) }
{
    let numbers = decoded(alloc, code)?;
    Ok(statics.fact(numbers.symbol, numbers.objects.as_slice()))
}

fn push_if(numbers: &mut Vec<u32>, truth: bool, number: u32) -> Result<(), NoMemory>
    ensures { OnOk result (numbers.new.items ≡ numbers.old.items ++ (if truth then number ∷ [] else [])) }
{
    if truth {
        numbers.push(number)?;
    }
    Ok(())
}

/// The numbers of the facts that are true at first.
#[tactic(auto, using(crate::proofs::Listing::true_whole))]
pub(crate) fn true_facts(
    alloc: Global,
    statics: &Statics,
    codes: &[u128],
) -> Result<List<u32>, NoMemory>
    requires few { length codes.now ≤ 4096 }
    ensures { IfOk result (λ numbers. numbers ≡ first_true statics.now (map (fact_of statics.now) codes.now)) }
{
    let mut numbers = Vec::new(alloc);
    'each: for place in 0..codes.len() {
        let truth = is_true(alloc, statics, codes[place])?;
        push_if(&mut numbers, truth, place as u32)?;
    }
    Ok(List::from_vec(numbers))
}

fn first_value(alloc: Global, statics: &Statics, code: u128) -> Result<Dec, NoMemory>
    ensures { IfOk result (λ value. value ≡ first_value statics.now (fluent_of statics.now code)) }
{
    let numbers = decoded(alloc, code)?;
    match statics.value(numbers.symbol, numbers.objects.as_slice()) {
        Some(value) => Ok(value),
        None => Ok(Dec { n: 0, p: 0 }),
    }
}

/// The first values of fluents.
pub(crate) fn first_values(
    alloc: Global,
    statics: &Statics,
    codes: &[u128],
) -> Result<List<Dec>, NoMemory>
    ensures { IfOk result (λ values. values ≡ map (λ n. first_value statics.now (fluent_of statics.now n)) codes.now) }
{
    let mut values = Vec::with_capacity(alloc, codes.len())?;
    'each: for code in codes {
        values.push(first_value(alloc, statics, *code)?)?;
    }
    Ok(List::from_vec(values))
}
