//! The frame of a text: `(define (WORD NAME) section ..)`.

ghost use Rattle.std.specs.Prelude.{◌≡◌, IfOk, OnOk};
ghost use Rattle.pddl_trees.specs.Faults.{all_noted};
ghost use Rattle.pddl_trees.specs.Trees.{forms_of};
ghost use Rattle.pddl_trees.specs.Frames.{definition_in, definition_of, definition_word_faults, frame_of};

use num_ends::NoMemory;
use pddl_terms::Name;
use pddl_trees::faults::Reason;
use pddl_trees::forms::position;
use pddl_trees::names::{is_leaf, only_name, parts_of};
use pddl_trees::notes::Notes;
use sexp_text::Tree;
use std::alloc::Global;

// A list that doesn't begin with this word is noted there.
fn note_first(text: &[u8], word: &[u8], parts: &[Tree], notes: &mut Notes)
    ensures { notes.new.first ≡ all_noted notes.old.first (definition_word_faults word.now (forms_of text.now parts.now)) }
{
    match parts {
        [] => {}
        [first, ..] => {
            if !is_leaf(text, first, word) {
                notes.note(position(first), Reason::Shape);
            }
        }
    }
}

// The parts of `(WORD NAME)`.
fn definition_parts(
    alloc: Global,
    text: &[u8],
    word: &[u8],
    at: u32,
    parts: &[Tree],
    notes: &mut Notes,
) -> Result<Option<Name>, NoMemory>
    ensures value { IfOk result (λ name. name ≡ (definition_of word.now at (forms_of text.now parts.now)).value) }
    ensures faults { OnOk result (notes.new.first ≡ all_noted notes.old.first (definition_of word.now at (forms_of text.now parts.now)).faults) }
{
    match parts {
        [] => {
            notes.note(at, Reason::Shape);
            Ok(None)
        }
        [first, rest @ ..] => {
            if !is_leaf(text, first, word) {
                notes.note(position(first), Reason::Shape);
            }
            only_name(alloc, text, at, rest, notes)
        }
    }
}

// `(WORD NAME)`
fn definition(
    alloc: Global,
    text: &[u8],
    word: &[u8],
    tree: &Tree,
    notes: &mut Notes,
) -> Result<Option<Name>, NoMemory>
    ensures value { IfOk result (λ name. name ≡ (definition_in text.now word.now tree.now).value) }
    ensures faults { OnOk result (notes.new.first ≡ all_noted notes.old.first (definition_in text.now word.now tree.now).faults) }
{
    match parts_of(tree) {
        None => {
            notes.note(position(tree), Reason::Shape);
            Ok(None)
        }
        Some(parts) => definition_parts(alloc, text, word, position(tree), parts, notes),
    }
}

/// What a list at a position says in front of its sections: the name of the domain or the problem.
#[tactic(auto, using(pddl_trees::proofs::Noted::noted_append))]
pub(crate) fn frame(
    alloc: Global,
    text: &[u8],
    word: &[u8],
    at: u32,
    parts: &[Tree],
    notes: &mut Notes,
) -> Result<Option<Name>, NoMemory>
    ensures value { IfOk result (λ name. name ≡ (frame_of text.now word.now at parts.now).value) }
    ensures faults { OnOk result (notes.new.first ≡ all_noted notes.old.first (frame_of text.now word.now at parts.now).faults) }
{
    note_first(text, b"define", parts, notes);
    match parts {
        [] | [_] => {
            notes.note(at, Reason::Shape);
            Ok(None)
        }
        [_, named, ..] => definition(alloc, text, word, named, notes),
    }
}
