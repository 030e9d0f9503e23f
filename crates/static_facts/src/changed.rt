//! The predicates and functions that effects name.

ghost use Rattle.std.specs.Prelude.{◌≡◌, ◌++◌, IfOk, OnOk, flat_map, map, not, is_some};
ghost use Rattle.pddl_types.specs.Pairs.{changed_function, changed_heads};
ghost use Rattle.name_table.specs.Tables.{numbered, table_number};
ghost use Rattle.static_facts.specs.Fixed.{changed_predicate, changed_predicate_heads};

use name_table::NameTable;
use num_ends::NoMemory;
use pddl_terms::{Effect, Name, Schema, Sig};
use std::alloc::Global;

fn push_predicates<'a>(effects: &'a [Effect], names: &mut Vec<&'a Name>) -> Result<(), NoMemory>
    ensures { OnOk result (map (λ n. n.now) names.new.items ≡ map (λ n. n.now) names.old.items ++ flat_map changed_predicate effects.now) }
{
    'each: for effect in effects {
        match effect {
            Effect::Add(atom) | Effect::Del(atom) => names.push(&atom.head)?,
            Effect::Num(_, _, _) => {}
        }
    }
    Ok(())
}

fn push_functions<'a>(effects: &'a [Effect], names: &mut Vec<&'a Name>) -> Result<(), NoMemory>
    ensures { OnOk result (map (λ n. n.now) names.new.items ≡ map (λ n. n.now) names.old.items ++ flat_map changed_function effects.now) }
{
    'each: for effect in effects {
        if let Effect::Num(_, atom, _) = effect {
            names.push(&atom.head)?;
        }
    }
    Ok(())
}

/// The predicates that effects name.
pub(crate) fn changed_predicates(alloc: Global, schemas: &[Schema]) -> Result<NameTable, NoMemory>
    ensures { IfOk result (λ table. table ≡ numbered (changed_predicate_heads schemas.now)) }
{
    let mut names = Vec::new(alloc);
    'each: for schema in schemas {
        push_predicates(schema.effects.as_slice(), &mut names)?;
    }
    NameTable::numbered(alloc, names.as_slice())
}

/// The functions that effects name.
pub(crate) fn changed_functions(alloc: Global, schemas: &[Schema]) -> Result<NameTable, NoMemory>
    ensures { IfOk result (λ table. table ≡ numbered (changed_heads schemas.now)) }
{
    let mut names = Vec::new(alloc);
    'each: for schema in schemas {
        push_functions(schema.effects.as_slice(), &mut names)?;
    }
    NameTable::numbered(alloc, names.as_slice())
}

/// Of each declaration, whether its name isn't among the changed ones.
pub(crate) fn fixed_flags(
    alloc: Global,
    sigs: &[Sig],
    changed: &NameTable,
) -> Result<Vec<bool>, NoMemory>
    ensures { IfOk result (λ flags. flags.items ≡ map (λ s. not (is_some (table_number s.name.text changed.now))) sigs.now) }
{
    let mut flags = Vec::with_capacity(alloc, sigs.len())?;
    'each: for sig in sigs {
        flags.push(changed.number(sig.name.text.as_slice()).is_none())?;
    }
    Ok(flags)
}
