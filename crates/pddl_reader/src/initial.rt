//! Entries of the initial state.

ghost use Rattle.std.specs.Prelude.{codes, ◌≡◌, [], ◌∷◌, ◌++◌, None, bytes_eq, filter_map, flat_map, IfOk, OnOk, drop, map, take, if◌then◌else◌};
ghost use Rattle.num_ends.specs.Names.{folded};
ghost use Rattle.pddl_reader.specs.internal.EntrySteps.{fact_said, value_said};
ghost use Rattle.pddl_trees.specs.Faults.{all_noted};
ghost use Rattle.pddl_trees.specs.Forms.{both, shape_at};
ghost use Rattle.pddl_trees.specs.Trees.{form_of, forms_of, place_of};
ghost use Rattle.pddl_trees.specs.Declarations.{one_item};
ghost use Rattle.pddl_trees.specs.Initial.{begins_with_number, entry_of, entry_parts, ground_atom, headed_entry, is_number_leaf, negative_entry, number_leaf, value_entry, value_in};

use num_ends::{Dec, List, NoMemory};
use pddl_expressions::atoms::atom;
use pddl_terms::Atom;
use pddl_trees::faults::Reason;
use pddl_trees::forms::{note_extra, note_missing, position, word_of};
use pddl_trees::names::parts_of;
use pddl_trees::notes::Notes;
use pddl_trees::words::{is_number_word, number_in};
use sexp_text::{Tree, is_word};
use std::alloc::Global;

/// An entry of the initial state: a fact, a fluent with its value, or nothing.
#[derive(Debug, Drop)]
pub(crate) enum Entry {
    /// A fact that is true.
    Fact(Atom),
    /// The value of a fluent.
    Value(Atom, Dec),
    /// Nothing is said, or the entry doesn't fit.
    Nothing,
}

/// A tree as an atom over objects, where it is one; another tree is noted.
pub(crate) fn ground_atom(
    alloc: Global,
    text: &[u8],
    tree: &Tree,
    notes: &mut Notes,
) -> Result<Option<Atom>, NoMemory>
    ensures faults { OnOk result (notes.new.first ≡ all_noted notes.old.first (ground_atom text.now tree.now).faults) }
    ensures value { IfOk result (λ atom. atom ≡ (ground_atom text.now tree.now).value) }
{
    match parts_of(tree) {
        Some(trees) => atom(alloc, text, false, position(tree), trees, notes),
        None => {
            notes.note(position(tree), Reason::Shape);
            Ok(None)
        }
    }
}

fn is_number_leaf(text: &[u8], tree: &Tree) -> bool
    ensures { result ≡ is_number_leaf (form_of text.now tree.now) }
{
    match word_of(text, tree) {
        Some(word) => is_number_word(word),
        None => false,
    }
}

fn number_leaf(text: &[u8], tree: &Tree) -> Option<Dec>
    ensures { result ≡ number_leaf (form_of text.now tree.now) }
{
    match word_of(text, tree) {
        Some(word) => number_in(word),
        None => None,
    }
}

fn begins_with_number(text: &[u8], trees: &[Tree]) -> bool
    ensures { result ≡ begins_with_number (forms_of text.now trees.now) }
{
    match trees {
        [] => false,
        [first, ..] => is_number_leaf(text, first),
    }
}

// Notes a tree that isn't a number.
fn note_no_number(text: &[u8], tree: &Tree, notes: &mut Notes)
    ensures { notes.new.first ≡ all_noted notes.old.first (if is_number_leaf (form_of text.now tree.now) then [] else shape_at (place_of text.now tree.now) ∷ []) }
{
    if !is_number_leaf(text, tree) {
        notes.note(position(tree), Reason::Shape);
    }
}

// An entry that is an atom, where it is one.
fn fact_entry(atom: Option<Atom>) -> Entry
    ensures fact { fact_said result ≡ atom }
    ensures value { value_said result ≡ None }
{
    match atom {
        Some(atom) => Entry::Fact(atom),
        None => Entry::Nothing,
    }
}

// An entry that is a fluent's value, where both are there.
fn made(fluent: Option<Atom>, number: Option<Dec>) -> Entry
    ensures fact { fact_said result ≡ None }
    ensures value { value_said result ≡ both (λ a d. (a, d)) fluent number }
{
    match (fluent, number) {
        (Some(fluent), Some(number)) => Entry::Value(fluent, number),
        _ => Entry::Nothing,
    }
}

// Reads an entry that says that an atom is false, from the trees behind its word.
#[tactic(auto, using(pddl_trees::proofs::Noted::noted_append))]
fn negative_entry(
    alloc: Global,
    text: &[u8],
    at: u32,
    trees: &[Tree],
    notes: &mut Notes,
) -> Result<(), NoMemory>
    ensures { OnOk result (notes.new.first ≡ all_noted notes.old.first (negative_entry text.now at trees.now).faults) }
{
    match trees {
        [] => notes.note(at, Reason::Shape),
        [atom, ..] => {
            let _ = ground_atom(alloc, text, atom, notes)?;
            note_extra(1, trees, notes);
        }
    }
    Ok(())
}

// Reads a fluent with its value, from the trees behind the entry's word.
#[tactic(auto, using(pddl_trees::proofs::Noted::noted_append))]
fn value_entry(
    alloc: Global,
    text: &[u8],
    at: u32,
    trees: &[Tree],
    notes: &mut Notes,
) -> Result<Entry, NoMemory>
    ensures faults { OnOk result (notes.new.first ≡ all_noted notes.old.first (value_entry text.now at trees.now).faults) }
    ensures fact { IfOk result (λ entry. fact_said entry ≡ None) }
    ensures value { IfOk result (λ entry. value_said entry ≡ (value_entry text.now at trees.now).value) }
{
    match trees {
        [] => {
            notes.note(at, Reason::Shape);
            Ok(Entry::Nothing)
        }
        [fluent] => {
            let _ = ground_atom(alloc, text, fluent, notes)?;
            notes.note(at, Reason::Shape);
            Ok(Entry::Nothing)
        }
        [fluent, number, ..] => {
            let fluent = ground_atom(alloc, text, fluent, notes)?;
            note_no_number(text, number, notes);
            note_extra(2, trees, notes);
            Ok(made(fluent, number_leaf(text, number)))
        }
    }
}

// Reads a list as an entry by its word, from the trees behind that.
fn headed_entry(
    alloc: Global,
    text: &[u8],
    tree: &Tree,
    head: &Tree,
    trees: &[Tree],
    notes: &mut Notes,
) -> Result<Entry, NoMemory>
    ensures faults { OnOk result (notes.new.first ≡ all_noted notes.old.first (entry_parts text.now tree.now (head.now ∷ trees.now)).faults) }
    ensures fact { IfOk result (λ entry. fact_said entry ≡ (entry_parts text.now tree.now (head.now ∷ trees.now)).fact) }
    ensures value { IfOk result (λ entry. value_said entry ≡ (entry_parts text.now tree.now (head.now ∷ trees.now)).value) }
{
    match word_of(text, head) {
        Some(word) if is_word(word, b"at") && begins_with_number(text, trees) => {
            notes.note(position(head), Reason::Unsupported);
            Ok(Entry::Nothing)
        }
        Some(word) if is_word(word, b"not") => {
            negative_entry(alloc, text, position(tree), trees, notes)?;
            Ok(Entry::Nothing)
        }
        Some(word) if is_word(word, b"=") => {
            value_entry(alloc, text, position(tree), trees, notes)
        }
        _ => {
            let atom = ground_atom(alloc, text, tree, notes)?;
            Ok(fact_entry(atom))
        }
    }
}

/// A tree as an entry of the initial state; what doesn't fit is noted.
pub(crate) fn read_entry(
    alloc: Global,
    text: &[u8],
    tree: &Tree,
    notes: &mut Notes,
) -> Result<Entry, NoMemory>
    ensures faults { OnOk result (notes.new.first ≡ all_noted notes.old.first (entry_of text.now tree.now).faults) }
    ensures fact { IfOk result (λ entry. fact_said entry ≡ (entry_of text.now tree.now).fact) }
    ensures value { IfOk result (λ entry. value_said entry ≡ (entry_of text.now tree.now).value) }
{
    match parts_of(tree) {
        Some([head, trees @ ..]) => headed_entry(alloc, text, tree, head, trees, notes),
        _ => {
            notes.note(position(tree), Reason::Shape);
            Ok(Entry::Nothing)
        }
    }
}

/// What the entries of the initial state say.
#[derive(Debug, Drop)]
pub(crate) struct Initial {
    /// The facts that are true.
    pub(crate) facts: List<Atom>,
    /// Fluents with their values.
    pub(crate) values: List<(Atom, Dec)>,
}

impl Initial {
    // Adds what an entry says.
    fn add(&mut self, entry: Entry) -> Result<(), NoMemory>
        ensures facts { OnOk result (self.new.facts ≡ self.old.facts ++ one_item (fact_said entry)) }
        ensures values { OnOk result (self.new.values ≡ self.old.values ++ one_item (value_said entry)) }
    {
        match entry {
            Entry::Fact(fact) => self.facts.push(fact),
            Entry::Value(fluent, number) => self.values.push((fluent, number)),
            Entry::Nothing => Ok(()),
        }
    }
}

/// The trees of a list as entries of the initial state; what doesn't fit is noted.
pub(crate) fn entries(
    alloc: Global,
    text: &[u8],
    trees: &[Tree],
    notes: &mut Notes,
) -> Result<Initial, NoMemory>
    ensures faults { OnOk result (notes.new.first ≡ all_noted notes.old.first (flat_map (λ e. e.faults) (map (entry_of text.now) trees.now))) }
    ensures facts { IfOk result (λ said. said.facts ≡ filter_map (λ e. e.fact) (map (entry_of text.now) trees.now)) }
    ensures values { IfOk result (λ said. said.values ≡ filter_map (λ e. e.value) (map (entry_of text.now) trees.now)) }
{
    let mut said = Initial {
        facts: List::new(alloc),
        values: List::new(alloc),
    };
    'each: for tree in trees {
        let entry = read_entry(alloc, text, tree, notes)?;
        said.add(entry)?;
    }
    Ok(said)
}
