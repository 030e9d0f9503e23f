//! Names that were met, found by hash.

ghost use Rattle.std.specs.Prelude.{◌≡◌, [], IfOk, OnOk, OnErr, not};
ghost use Rattle.name_table.specs.Tables.{is_text_among, with_text};

use indexmap::IndexSet;
use num_ends::NoMemory;
use std::alloc::Global;
use std::marker::Model;

/// Names, each once. Contracts see them in the order in which they came.
#[derive(Drop)]
pub struct NameSet<'a> {
    texts: IndexSet<&'a [u8]>,
}

impl<'a> Model for NameSet<'a> {
    ghost use Rattle.std.specs.Prelude.{List, ℕ, map};

    ghost Value = { List (List ℕ) };

    ghost view = { λ s. map (λ t. t.now) s.texts.keys };
}

impl<'a> NameSet<'a> {
    /// No names.
    pub fn new(alloc: Global) -> NameSet<'a>
        ensures { result ≡ [] }
    {
        NameSet {
            texts: IndexSet::new(alloc),
        }
    }

    /// Adds a name, and tells whether it is new. Without memory the set stays as it was.
    pub fn add(&mut self, text: &'a [u8]) -> Result<bool, NoMemory>
        ensures new { IfOk result (λ new. new ≡ not (is_text_among text.now self.old)) }
        ensures after { OnOk result (self.new ≡ with_text self.old text.now) }
        ensures err { OnErr result (self.new ≡ self.old) }
    {
        let new = self.texts.insert(text)?;
        Ok(new)
    }

    /// Whether a name is there.
    pub fn has(&self, text: &[u8]) -> bool
        ensures { result ≡ is_text_among text.now self.now }
    {
        self.texts.contains(text)
    }
}
