//! Worlds.

ghost use Rattle.std.specs.Prelude.{◌≡◌, None, OnErr, OnOk};
ghost use Rattle.std.specs.FinSet as set;
ghost use Rattle.std.specs.FinMap as finite;

use num_ends::{Dec, NoMemory};
use std::alloc::Global;
use std::collections::{BTreeMap, BTreeSet};
use std::marker::Model;

/// The facts that are true and the values of the fluents that have one. Contracts see a set of texts and a map from texts.
#[derive(Debug, Drop)]
pub struct World {
    pub(crate) facts: BTreeSet<Vec<u8>>,
    pub(crate) values: BTreeMap<Vec<u8>, Dec>,
}

impl Model for World {
    ghost use Rattle.std.specs.Prelude.{map};
    ghost use Rattle.std.specs.FinSet as set;
    ghost use Rattle.std.specs.FinMap as finite;
    ghost use Rattle.pddl_meaning.specs.Worlds.{WorldValue, world_code};

    ghost Value = { WorldValue };

    ghost coded = { world_code };

    ghost view = { λ w. record { facts = set.from_list (map (λ t. t.items) w.facts.keys); values = finite.from_entries (map (λ e. (e.0.items, e.1)) w.values.entries) } };
}

impl World {
    /// The world in which nothing is true or has a value, which takes no memory.
    pub(crate) fn empty(alloc: Global) -> World
        ensures { result ≡ record { facts = set.empty; values = finite.empty } }
    {
        World {
            facts: BTreeSet::new(alloc),
            values: BTreeMap::new(alloc),
        }
    }

    /// Whether a fact is true.
    pub(crate) fn is_fact(&self, text: &[u8]) -> bool
        ensures { result ≡ set.contains self.now.facts text.now }
    {
        self.facts.contains(text)
    }

    /// The value of a fluent, where it has one.
    pub(crate) fn value(&self, text: &[u8]) -> Option<Dec>
        ensures { result ≡ finite.get self.now.values text.now }
    {
        match self.values.get(text) {
            Some(value) => Some(*value),
            None => None,
        }
    }

    /// Makes a fact true. Without memory the world stays as it was.
    pub(crate) fn add_fact(&mut self, text: Vec<u8>) -> Result<(), NoMemory>
        ensures ok { OnOk result (self.new ≡ record { facts = set.insert self.old.facts text.items; values = self.old.values }) }
        ensures err { OnErr result (self.new ≡ self.old) }
    {
        self.facts.insert(text)?;
        Ok(())
    }

    /// Makes a fact false.
    pub(crate) fn remove_fact(&mut self, text: &[u8])
        ensures { self.new ≡ record { facts = set.remove self.old.facts text.now; values = self.old.values } }
    {
        self.facts.remove(text);
    }

    /// Gives a fluent a value. Without memory the world stays as it was, and that can't be where the fluent had one.
    pub(crate) fn set_value(&mut self, text: Vec<u8>, value: Dec) -> Result<(), NoMemory>
        ensures ok { OnOk result (self.new ≡ record { facts = self.old.facts; values = finite.insert self.old.values text.items value }) }
        ensures err { OnErr result (self.new ≡ self.old) }
        ensures absent { OnErr result (finite.get self.old.values text.items ≡ None) }
    {
        self.values.insert(text, value)?;
        Ok(())
    }
}
