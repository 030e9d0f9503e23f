//! The leaves of a text by themselves: numbers that aren't taken, long names, and words that are refused.

ghost use Rattle.std.specs.Prelude.{◌≡◌, map};
ghost use Rattle.num_ends.specs.Names.{folded};
ghost use Rattle.pddl_trees.specs.Faults.{all_noted};
ghost use Rattle.pddl_trees.specs.Leaves.{all_leaves, leaf_faults, leaves_of, word_faults};
ghost use Rattle.pddl_trees.specs.Words.{bare_name};

use crate::faults::Reason;
use crate::notes::Notes;
use crate::words::{bytes_at, is_number_word, is_unsupported, number_in};
use num_ends::{folded, is_name_folded};
use pddl_terms::{MAX_LETTERS, What};
use sexp_text::Tree;

// A name or a variable without its `?`.
fn bare_name(word: &[u8]) -> &[u8]
    ensures { map folded result.now ≡ bare_name (map folded word.now) }
{
    match word {
        [] => word,
        [first, rest @ ..] => { if folded(*first) == b'?' { rest } else { word } }
    }
}

fn note_word(at: u32, word: &[u8], notes: &mut Notes)
    ensures { notes.new.first ≡ all_noted notes.old.first (word_faults at (map folded word.now)) }
{
    let name = bare_name(word);
    if is_name_folded(name) && name.len() > MAX_LETTERS as usize {
        notes.note(at, Reason::TooMany(What::Letters));
    }
    if is_unsupported(word) {
        notes.note(at, Reason::Unsupported);
    }
}

fn note_leaf(at: u32, word: &[u8], notes: &mut Notes)
    ensures { notes.new.first ≡ all_noted notes.old.first (leaf_faults at (map folded word.now)) }
{
    if !is_number_word(word) {
        note_word(at, word, notes);
    } else if number_in(word).is_none() {
        notes.note(at, Reason::Number);
    }
}

/// Notes the faults of a tree's leaves.
#[cycle(leaves)]
#[tactic(auto, using(crate::proofs::LeafFaults::leaves_of_leaf, crate::proofs::LeafFaults::leaves_of_list))]
pub fn note_leaves(text: &[u8], tree: &Tree, notes: &mut Notes)
    ensures { notes.new.first ≡ all_noted notes.old.first (leaves_of text.now tree.now) }
{
    match tree {
        Tree::Leaf(span) => note_leaf(span.from, bytes_at(text, *span), notes),
        Tree::List(_, trees) => note_all_leaves(text, trees.as_slice(), notes),
    }
}

/// Notes the faults of the leaves of trees.
#[cycle(leaves)]
pub fn note_all_leaves(text: &[u8], trees: &[Tree], notes: &mut Notes)
    ensures { notes.new.first ≡ all_noted notes.old.first (all_leaves text.now trees.now) }
{
    'each: for tree in trees {
        note_leaves(text, tree, notes);
    }
}
