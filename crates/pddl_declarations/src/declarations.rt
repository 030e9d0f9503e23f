//! Declarations of predicates and functions, and requirements.

ghost use Rattle.std.specs.Prelude.{◌≡◌, [], ◌∷◌, ◌++◌, None, filter_map, flat_map, IfOk, OnOk};
ghost use Rattle.pddl_trees.specs.Faults.{all_noted};
ghost use Rattle.pddl_trees.specs.Trees.{form_of, forms_of};
ghost use Rattle.pddl_trees.specs.Declarations.{functions_list, predicates_list, requirement_faults, signature, signature_parts};

use crate::gather::push_some;
use crate::keys::is_known_key;
use crate::kinds::Kind;
use crate::typed::typed_list;
use num_ends::{List, NoMemory};
use pddl_terms::Sig;
use pddl_trees::faults::Reason;
use pddl_trees::forms::{position, word_of};
use pddl_trees::names::{parts_of, symbol_name};
use pddl_trees::notes::Notes;
use pddl_trees::words::is_key;
use sexp_text::Tree;
use std::alloc::Global;

/// Notes a tree that isn't a key, and a key that isn't known.
pub fn note_requirement(text: &[u8], tree: &Tree, notes: &mut Notes)
    ensures { notes.new.first ≡ all_noted notes.old.first (requirement_faults (form_of text.now tree.now)) }
{
    match word_of(text, tree) {
        Some(word) if is_key(word) => {
            if !is_known_key(word) {
                notes.note(position(tree), Reason::Unsupported);
            }
        }
        _ => notes.note(position(tree), Reason::Shape),
    }
}

/// Notes the keys of a list that aren't known, and what isn't a key.
pub fn note_requirements(text: &[u8], trees: &[Tree], notes: &mut Notes)
    ensures { notes.new.first ≡ all_noted notes.old.first (flat_map requirement_faults (forms_of text.now trees.now)) }
{
    'each: for tree in trees {
        note_requirement(text, tree, notes);
    }
}

fn signature_of(
    alloc: Global,
    text: &[u8],
    at: u32,
    head: &Tree,
    params: &[Tree],
    notes: &mut Notes,
) -> Result<Option<Sig>, NoMemory>
    ensures faults { OnOk result (notes.new.first ≡ all_noted notes.old.first (signature_parts at (form_of text.now head.now ∷ forms_of text.now params.now)).faults) }
    ensures value { IfOk result (λ sig. notes.new.first ≡ None → sig ≡ (signature_parts at (form_of text.now head.now ∷ forms_of text.now params.now)).value) }
{
    let name = symbol_name(alloc, text, head, notes)?;
    let params = typed_list(alloc, text, Kind::Parameters, at, params, notes)?;
    match name {
        Some(name) => Ok(Some(Sig { name, params })),
        None => Ok(None),
    }
}

/// A tree as the declaration of a predicate or a function, where no fault is noted; what doesn't fit is noted.
pub fn signature(
    alloc: Global,
    text: &[u8],
    tree: &Tree,
    notes: &mut Notes,
) -> Result<Option<Sig>, NoMemory>
    ensures faults { OnOk result (notes.new.first ≡ all_noted notes.old.first (signature text.now tree.now).faults) }
    ensures value { IfOk result (λ sig. notes.new.first ≡ None → sig ≡ (signature text.now tree.now).value) }
{
    let at = position(tree);
    match parts_of(tree) {
        Some([head, params @ ..]) => signature_of(alloc, text, at, head, params, notes),
        _ => {
            notes.note(at, Reason::Shape);
            Ok(None)
        }
    }
}

/// The predicates that trees declare, where no fault is noted; what doesn't fit is noted.
#[tactic(auto, using(pddl_trees::proofs::Noted::noted_append, pddl_trees::proofs::Quiet::quiet_behind))]
pub fn predicates_list(
    alloc: Global,
    text: &[u8],
    trees: &[Tree],
    notes: &mut Notes,
) -> Result<List<Sig>, NoMemory>
    ensures faults { OnOk result (notes.new.first ≡ all_noted notes.old.first (predicates_list text.now trees.now).faults) }
    ensures items { IfOk result (λ sigs. notes.new.first ≡ None → sigs ≡ (predicates_list text.now trees.now).items) }
{
    let mut sigs = Vec::new(alloc);
    'each: for tree in trees {
        let sig = signature(alloc, text, tree, notes)?;
        push_some(&mut sigs, sig)?;
    }
    Ok(List::from_vec(sigs))
}
