//! Names where a tree must be one.

ghost use Rattle.std.specs.Prelude.{◌≡◌, bytes_eq, map, option_map, IfOk, IfSome, IfNone, OnOk, Some, None};
ghost use Rattle.num_ends.specs.Names.{folded};
ghost use Rattle.pddl_trees.specs.Faults.{all_noted};
ghost use Rattle.pddl_trees.specs.Trees.{form_of, forms_of, parts_of};
ghost use Rattle.pddl_trees.specs.Names.{is_headed, is_word, named_at, symbol_name, type_faults, type_name, name_of, only_name};
ghost use Rattle.pddl_trees.specs.Declarations.{requirement_faults};

use crate::faults::Reason;
use crate::forms::{head_of, name, note_extra, position, word_of};
use crate::notes::Notes;
use crate::words::is_symbol;
use num_ends::{NoMemory, is_name_folded};
use pddl_terms::Name;
use sexp_text::{Tree, is_word};
use std::alloc::Global;

/// The trees of a list; a leaf has none.
pub fn parts_of(tree: &Tree) -> Option<&[Tree]>
    ensures { option_map (λ trees. trees.now) result ≡ parts_of tree.now }
{
    match tree {
        Tree::Leaf(_) => None,
        Tree::List(_, trees) => Some(trees.as_slice()),
    }
}

/// Whether a tree is this word.
pub fn is_leaf(text: &[u8], tree: &Tree, word: &[u8]) -> bool
    ensures { result ≡ is_word word.now (form_of text.now tree.now) }
{
    match word_of(text, tree) {
        None => false,
        Some(found) => is_word(found, word),
    }
}

/// The word that a tree begins with, where it is a list that begins with one.
#[tactic(auto, using(crate::proofs::Heads::head_of_leaf, crate::proofs::Heads::head_of_list))]
pub fn first_word<'a>(text: &'a [u8], tree: &Tree) -> Option<&'a [u8]>
    ensures { option_map (λ word. map folded word.now) result ≡ (form_of text.now tree.now).head }
{
    match tree {
        Tree::Leaf(_) => None,
        Tree::List(_, trees) => head_of(text, trees.as_slice()),
    }
}

/// Whether a tree is a list that begins with this word.
pub fn is_headed(text: &[u8], tree: &Tree, word: &[u8]) -> bool
    ensures { result ≡ is_headed word.now (form_of text.now tree.now) }
{
    match first_word(text, tree) {
        None => false,
        Some(found) => is_word(found, word),
    }
}

/// The name that a tree is; another tree is noted.
pub fn name_of(
    alloc: Global,
    text: &[u8],
    tree: &Tree,
    notes: &mut Notes,
) -> Result<Option<Name>, NoMemory>
    ensures faults { OnOk result (notes.new.first ≡ all_noted notes.old.first (name_of (form_of text.now tree.now)).faults) }
    ensures value { IfOk result (λ found. found ≡ (name_of (form_of text.now tree.now)).value) }
{
    let at = position(tree);
    match word_of(text, tree) {
        Some(word) if is_name_folded(word) => Ok(Some(name(alloc, at, word)?)),
        _ => {
            notes.note(at, Reason::Shape);
            Ok(None)
        }
    }
}

/// The one name of a list at a position; a list without a name is noted, and so is the first tree that is more.
pub fn only_name(
    alloc: Global,
    text: &[u8],
    at: u32,
    trees: &[Tree],
    notes: &mut Notes,
) -> Result<Option<Name>, NoMemory>
    ensures faults { OnOk result (notes.new.first ≡ all_noted notes.old.first (only_name at (forms_of text.now trees.now)).faults) }
    ensures value { IfOk result (λ found. found ≡ (only_name at (forms_of text.now trees.now)).value) }
{
    let Some(first) = trees.first() else {
        notes.note(at, Reason::Shape);
        return Ok(None);
    };
    let found = name_of(alloc, text, first, notes)?;
    note_extra(1, trees, notes);
    Ok(found)
}

/// The name of a predicate or a function that a tree is; another tree is noted.
pub fn symbol_name(
    alloc: Global,
    text: &[u8],
    tree: &Tree,
    notes: &mut Notes,
) -> Result<Option<Name>, NoMemory>
    ensures faults { OnOk result (notes.new.first ≡ all_noted notes.old.first (symbol_name (form_of text.now tree.now)).faults) }
    ensures value { IfOk result (λ found. found ≡ (symbol_name (form_of text.now tree.now)).value) }
{
    let at = position(tree);
    match word_of(text, tree) {
        Some(word) if is_symbol(word) => Ok(Some(name(alloc, at, word)?)),
        _ => {
            notes.note(at, Reason::Shape);
            Ok(None)
        }
    }
}

/// The type that a tree is; another tree is noted, but for a list that is refused by its word.
pub fn type_name(
    alloc: Global,
    text: &[u8],
    tree: &Tree,
    notes: &mut Notes,
) -> Result<Option<Name>, NoMemory>
    ensures faults { OnOk result (notes.new.first ≡ all_noted notes.old.first (type_faults (form_of text.now tree.now))) }
    ensures value { IfOk result (λ found. found ≡ type_name (form_of text.now tree.now)) }
{
    let at = position(tree);
    match word_of(text, tree) {
        Some(word) if is_name_folded(word) => Ok(Some(name(alloc, at, word)?)),
        _ => {
            if !is_headed(text, tree, b"either") {
                notes.note(at, Reason::Shape);
            }
            Ok(None)
        }
    }
}
