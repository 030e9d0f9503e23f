//! Trees by their places and words, and the faults of lists that have too few or too many parts.

ghost use Rattle.std.specs.Prelude.{◌≡◌, ◌++◌, ℕ, List, map, option_map, IfOk};
ghost use Rattle.num_ends.specs.Names.{folded};
ghost use Rattle.pddl_trees.specs.Faults.{all_noted};
ghost use Rattle.pddl_trees.specs.Forms.{extra, missing};
ghost use Rattle.pddl_trees.specs.Trees.{form_of, forms_of, head_word};

use crate::faults::Reason;
use crate::notes::Notes;
use crate::words::bytes_at;
use num_ends::{NoMemory, folded_text};
use pddl_terms::Name;
use sexp_text::Tree;
use std::alloc::Global;

/// The position of a tree's first byte.
#[tactic(auto, using(crate::proofs::Trees::place_of_leaf, crate::proofs::Trees::place_of_list))]
pub fn position(tree: &Tree) -> u32
    ensures { (text : List ℕ) → result ≡ (form_of text tree.now).at }
{
    match tree {
        Tree::Leaf(span) => span.from,
        Tree::List(span, _) => span.from,
    }
}

/// The word that a tree is, where it is a leaf.
#[tactic(auto, using(crate::proofs::Trees::word_of_leaf, crate::proofs::Trees::word_of_list))]
pub fn word_of<'a>(text: &'a [u8], tree: &Tree) -> Option<&'a [u8]>
    ensures { option_map (λ word. map folded word.now) result ≡ (form_of text.now tree.now).word }
{
    match tree {
        Tree::Leaf(span) => Some(bytes_at(text, *span)),
        Tree::List(_, _) => None,
    }
}

/// The word that a list begins with, where it begins with one.
pub fn head_of<'a>(text: &'a [u8], trees: &[Tree]) -> Option<&'a [u8]>
    ensures { option_map (λ word. map folded word.now) result ≡ head_word (forms_of text.now trees.now) }
{
    match trees {
        [] => None,
        [first, ..] => word_of(text, first),
    }
}

/// Notes that a list at a position has fewer parts than it must have.
pub fn note_missing(at: u32, count: usize, trees: &[Tree], notes: &mut Notes)
    ensures { (text : List ℕ) → notes.new.first ≡ all_noted notes.old.first (missing at count (forms_of text trees.now)) }
{
    if trees.len() < count {
        notes.note(at, Reason::Shape);
    }
}

/// Notes the first part past those that a list may have.
#[tactic(auto, using(crate::proofs::Trees::extra_there))]
pub fn note_extra(count: usize, trees: &[Tree], notes: &mut Notes)
    ensures { (text : List ℕ) → notes.new.first ≡ all_noted notes.old.first (extra count (forms_of text trees.now)) }
{
    if count < trees.len() {
        notes.note(position(&trees[count]), Reason::Shape);
    }
}

/// Notes that a list at a position has too few parts, or the first part past so many.
#[tactic(auto, using(crate::proofs::Noted::noted_append))]
pub fn note_count(at: u32, count: usize, trees: &[Tree], notes: &mut Notes)
    ensures { (text : List ℕ) → notes.new.first ≡ all_noted notes.old.first (missing at count (forms_of text trees.now) ++ extra count (forms_of text trees.now)) }
{
    note_missing(at, count, trees, notes);
    note_extra(count, trees, notes);
}

/// A word as a name, its letters folded.
pub fn name(alloc: Global, at: u32, word: &[u8]) -> Result<Name, NoMemory>
    ensures { IfOk result (λ name. name ≡ record { text = map folded word.now; at = at }) }
{
    let text = folded_text(alloc, word)?;
    Ok(Name { text, at })
}
