//! Typed lists by the names in them.

ghost use Rattle.std.specs.Prelude.{◌≡◌, IfOk, map};
ghost use Rattle.std.specs.Option.{option_copied};
ghost use Rattle.name_table.specs.Tables.{numbered};
ghost use Rattle.name_table.specs.TypedLists.{first_typed, names_of};

use crate::table::NameTable;
use num_ends::NoMemory;
use pddl_terms::{Name, Typed};
use sqlite_items::at;
use std::alloc::Global;

/// The names in a typed list, in order.
pub fn names_of<'a>(alloc: Global, items: &'a [Typed]) -> Result<Vec<&'a Name>, NoMemory>
    ensures { IfOk result (λ names. map (λ n. n.now) names.items ≡ names_of items.now) }
{
    let mut names = Vec::new(alloc);
    'each: for item in items {
        names.push(&item.name)?;
    }
    Ok(names)
}

/// The names in a typed list, each with the number of its first place.
pub fn typed_table(alloc: Global, items: &[Typed]) -> Result<NameTable, NoMemory>
    ensures { IfOk result (λ table. table ≡ numbered (names_of items.now)) }
{
    let names = names_of(alloc, items)?;
    NameTable::numbered(alloc, names.as_slice())
}

/// The first in a typed list that has a name, found by the list's table.
pub fn first_typed<'a>(items: &'a [Typed], table: &NameTable, text: &[u8]) -> Option<&'a Typed>
    requires { table.now ≡ numbered (names_of items.now) }
    ensures { option_copied result ≡ first_typed text.now items.now }
{
    match table.number(text) {
        Some(place) => at(items, place),
        None => None,
    }
}
