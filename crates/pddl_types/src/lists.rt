//! The names of declarations, and what is found by a name.

ghost use Rattle.std.specs.Prelude.{◌≡◌, ◌++◌, IfOk, OnOk, flat_map, map};
ghost use Rattle.std.specs.Option.{option_copied};
ghost use Rattle.name_table.specs.Tables.{numbered};
ghost use Rattle.name_table.specs.TypedLists.{first_typed};
ghost use Rattle.pddl_types.specs.Pairs.{changed_function, changed_heads, heads_of, schema_names};
ghost use Rattle.pddl_types.specs.Meanings.{first_sig};

use name_table::NameTable;
use num_ends::NoMemory;
use pddl_terms::{Effect, Name, Schema, Sig, Typed};
use sqlite_items::at;
use std::alloc::Global;

pub(crate) fn heads_of<'a>(alloc: Global, sigs: &'a [Sig]) -> Result<Vec<&'a Name>, NoMemory>
    ensures { IfOk result (λ names. map (λ n. n.now) names.items ≡ heads_of sigs.now) }
{
    let mut names = Vec::new(alloc);
    'each: for sig in sigs {
        names.push(&sig.name)?;
    }
    Ok(names)
}

pub(crate) fn schema_names<'a>(
    alloc: Global,
    schemas: &'a [Schema],
) -> Result<Vec<&'a Name>, NoMemory>
    ensures { IfOk result (λ names. map (λ n. n.now) names.items ≡ schema_names schemas.now) }
{
    let mut names = Vec::new(alloc);
    'each: for schema in schemas {
        names.push(&schema.name)?;
    }
    Ok(names)
}

fn push_changed<'a>(effects: &'a [Effect], names: &mut Vec<&'a Name>) -> Result<(), NoMemory>
    ensures { OnOk result (map (λ n. n.now) names.new.items ≡ map (λ n. n.now) names.old.items ++ flat_map changed_function effects.now) }
{
    'each: for effect in effects {
        if let Effect::Num(_, atom, _) = effect {
            names.push(&atom.head)?;
        }
    }
    Ok(())
}

/// The names of the functions that effects change, where they do.
pub(crate) fn changed_heads<'a>(
    alloc: Global,
    schemas: &'a [Schema],
) -> Result<Vec<&'a Name>, NoMemory>
    ensures { IfOk result (λ names. map (λ n. n.now) names.items ≡ changed_heads schemas.now) }
{
    let mut names = Vec::new(alloc);
    'each: for schema in schemas {
        push_changed(schema.effects.as_slice(), &mut names)?;
    }
    Ok(names)
}

/// The first declaration of a predicate or a function that has a name.
pub(crate) fn first_sig<'a>(sigs: &'a [Sig], table: &NameTable, text: &[u8]) -> Option<&'a Sig>
    requires { table.now ≡ numbered (heads_of sigs.now) }
    ensures { option_copied result ≡ first_sig text.now sigs.now }
{
    match table.number(text) {
        Some(place) => at(sigs, place),
        None => None,
    }
}

/// The first parameter that has a name, of the few that an action has.
pub(crate) fn first_parameter<'a>(params: &'a [Typed], text: &[u8]) -> Option<&'a Typed>
    ensures { option_copied result ≡ first_typed text.now params.now }
{
    params
        .iter()
        .find(|param| text == param.name.text.as_slice())
}
