//! The initial state, found by codes.

ghost use Rattle.std.specs.Prelude.{◌≡◌, ◌||◌, ℕ, IfOk, OnOk, Some, None, nat_eq, if◌then◌else◌};
ghost use Rattle.std.specs.Option.{option_or};
ghost use Rattle.indexmap.specs.IndexMap as map;
ghost use Rattle.indexmap.specs.IndexSet as set;
ghost use Rattle.num_ends.specs.Decimal.{trimmed};
ghost use Rattle.static_facts.specs.internal.Keys.{coded_value, fact_key, fluent_key, has_code, is_coded_fact};

use crate::keys::{fact_key, fluent_key};
use indexmap::{IndexMap, IndexSet};
use num_ends::{Dec, NoMemory};
use pddl_terms::Atom;
use pddl_types::Checked;
use std::alloc::Global;

fn add_fact(
    alloc: Global,
    checked: &Checked,
    atom: &Atom,
    codes: &mut IndexSet<u128>,
) -> Result<(), NoMemory>
    ensures { OnOk result ((c : ℕ) → set.contains nat_eq codes.new c ≡ (set.contains nat_eq codes.old c || has_code c (fact_key checked.now atom.now))) }
{
    if let Some(code) = fact_key(alloc, checked, atom)? {
        codes.insert(code)?;
    }
    Ok(())
}

/// The codes of the facts that are true at first.
pub(crate) fn true_facts(alloc: Global, checked: &Checked) -> Result<IndexSet<u128>, NoMemory>
    ensures { IfOk result (λ codes. (c : ℕ) → set.contains nat_eq codes c ≡ is_coded_fact checked.now c checked.now.problem.facts) }
{
    let mut codes = IndexSet::new(alloc);
    'each: for atom in checked.problem().facts.as_slice() {
        add_fact(alloc, checked, atom, &mut codes)?;
    }
    Ok(codes)
}

fn add_value(
    alloc: Global,
    checked: &Checked,
    entry: &(Atom, Dec),
    values: &mut IndexMap<u128, Dec>,
) -> Result<(), NoMemory>
    ensures { OnOk result ((c : ℕ) → map.get nat_eq values.new c ≡ option_or (map.get nat_eq values.old c) (if has_code c (fluent_key checked.now entry.now.0) then Some (trimmed entry.now.1) else None)) }
{
    if let Some(code) = fluent_key(alloc, checked, &entry.0)? {
        if !values.contains_key(&code) {
            values.insert(code, entry.1.trim())?;
        }
    }
    Ok(())
}

/// The first values of fluents by their codes.
pub(crate) fn first_values(
    alloc: Global,
    checked: &Checked,
) -> Result<IndexMap<u128, Dec>, NoMemory>
    ensures { IfOk result (λ values. (c : ℕ) → map.get nat_eq values c ≡ coded_value checked.now c checked.now.problem.values) }
{
    let mut values = IndexMap::new(alloc);
    'each: for entry in checked.problem().values.as_slice() {
        add_value(alloc, checked, entry, &mut values)?;
    }
    Ok(values)
}
