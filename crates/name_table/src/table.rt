//! Names with numbers, found by hash.

ghost use Rattle.std.specs.Prelude.{◌≡◌, [], IfOk, OnOk, OnErr, map};
ghost use Rattle.name_table.specs.Tables.{numbered, numbered_from, table_number, with_number};

use indexmap::IndexMap;
use num_ends::NoMemory;
use pddl_terms::Name;
use std::alloc::Global;
use std::marker::Model;

/// Names, each with a number. Contracts see the names with their numbers, in the order in which they came.
#[derive(Drop)]
pub struct NameTable {
    places: IndexMap<Vec<u8>, usize>,
}

impl Model for NameTable {
    ghost use Rattle.std.specs.Prelude.{List, ℕ, map};

    ghost Value = { List (List ℕ × ℕ) };

    ghost view = { λ n. map (λ e. (e.0.items, e.1)) n.places.entries };
}

impl NameTable {
    /// A table without names.
    pub fn new(alloc: Global) -> NameTable
        ensures { result ≡ [] }
    {
        NameTable {
            places: IndexMap::new(alloc),
        }
    }

    /// The names in order, each with the number of its first place.
    pub fn numbered(alloc: Global, names: &[&Name]) -> Result<NameTable, NoMemory>
        ensures { IfOk result (λ table. table ≡ numbered (map (λ n. n.now) names.now)) }
    {
        let mut table = NameTable::new(alloc);
        'each: for (number, name) in names.iter().enumerate() {
            table.add(alloc, name.text.as_slice(), number)?;
        }
        Ok(table)
    }

    /// The number of a name; none where it isn't there.
    pub fn number(&self, text: &[u8]) -> Option<usize>
        ensures { result ≡ table_number text.now self.now }
    {
        self.places.get(text).copied()
    }

    /// Adds a name; one that is there keeps its number. Without memory the table stays as it was.
    pub fn add(&mut self, alloc: Global, text: &[u8], number: usize) -> Result<(), NoMemory>
        ensures added { OnOk result (self.new ≡ with_number self.old text.now number) }
        ensures err { OnErr result (self.new ≡ self.old) }
    {
        if self.number(text).is_some() {
            return Ok(());
        }
        let key = Vec::from_slice(alloc, text)?;
        self.places.insert(key, number)?;
        Ok(())
    }
}
