//! Declarations of functions, each perhaps with the type of numbers.

ghost use Rattle.std.specs.Prelude.{codes, ◌≡◌, [], None, true, false, IfOk, OnOk};
ghost use Rattle.pddl_trees.specs.Faults.{all_noted};
ghost use Rattle.pddl_trees.specs.Trees.{form_of};
ghost use Rattle.pddl_declarations.specs.internal.FunctionSteps.{IsFunctionTaken, functions_with};
ghost use Rattle.pddl_trees.specs.Declarations.{functions_from, functions_list, number_type_faults};
ghost use Rattle.pddl_trees.specs.Names.{is_word};

use crate::declarations::signature;
use crate::gather::push_some;
use num_ends::{List, NoMemory, is_name_folded};
use pddl_terms::Sig;
use pddl_trees::faults::Reason;
use pddl_trees::forms::{position, word_of};
use pddl_trees::names::{is_headed, is_leaf};
use pddl_trees::notes::Notes;
use sexp_text::{Tree, is_word};
use std::alloc::Global;

// The functions of a list so far.
#[derive(Drop)]
struct Functions {
    sigs: Vec<Sig>,
    // A `-` stands before.
    dashed: bool,
    // A declaration stands before.
    signed: bool,
}

// Notes a type that isn't the type of numbers.
fn note_type(text: &[u8], tree: &Tree, notes: &mut Notes)
    ensures { notes.new.first ≡ all_noted notes.old.first (number_type_faults (form_of text.now tree.now)) }
{
    match word_of(text, tree) {
        Some(word) if is_name_folded(word) => {
            if !is_word(word, b"number") {
                notes.note(position(tree), Reason::Unsupported);
            }
        }
        _ => {
            if !is_headed(text, tree, b"either") {
                notes.note(position(tree), Reason::Shape);
            }
        }
    }
}

impl Functions {
    // Takes a type.
    #[tactic(auto, using(pddl_trees::proofs::Noted::noted_append, pddl_trees::proofs::Quiet::quiet_behind), unfolding(pddl_trees::specs::Declarations::functions_from))]
    fn take_type(&mut self, text: &[u8], tree: &Tree, notes: &mut Notes)
        requires { self.old.dashed ≡ true }
        ensures { IsFunctionTaken text.now tree.now self.old notes.old.first self.new notes.new.first }
    {
        note_type(text, tree, notes);
        self.dashed = false;
        self.signed = false;
    }

    // Takes a `-`.
    #[tactic(auto, using(pddl_trees::proofs::Noted::noted_append, pddl_trees::proofs::Quiet::quiet_behind), unfolding(pddl_trees::specs::Declarations::functions_from))]
    fn take_dash(&mut self, tree: &Tree, notes: &mut Notes)
        requires { self.old.dashed ≡ false }
        ensures { (text : _) → is_word (codes "-") (form_of text tree.now) ≡ true → IsFunctionTaken text tree.now self.old notes.old.first self.new notes.new.first }
    {
        if !self.signed {
            notes.note(position(tree), Reason::Shape);
        }
        self.dashed = true;
        self.signed = false;
    }

    // Takes a declaration.
    fn take_signature(
        &mut self,
        alloc: Global,
        text: &[u8],
        tree: &Tree,
        notes: &mut Notes,
    ) -> Result<(), NoMemory>
        requires undashed { self.old.dashed ≡ false }
        requires a_signature { is_word (codes "-") (form_of text.now tree.now) ≡ false }
        ensures { OnOk result (IsFunctionTaken text.now tree.now self.old notes.old.first self.new notes.new.first) }
    {
        let sig = signature(alloc, text, tree, notes)?;
        push_some(&mut self.sigs, sig)?;
        self.signed = true;
        Ok(())
    }

    // Takes the next tree of a list.
    fn take(
        &mut self,
        alloc: Global,
        text: &[u8],
        tree: &Tree,
        notes: &mut Notes,
    ) -> Result<(), NoMemory>
        ensures { OnOk result (IsFunctionTaken text.now tree.now self.old notes.old.first self.new notes.new.first) }
    {
        if self.dashed {
            self.take_type(text, tree, notes);
            return Ok(());
        }
        if is_leaf(text, tree, b"-") {
            self.take_dash(tree, notes);
            return Ok(());
        }
        self.take_signature(alloc, text, tree, notes)
    }

    // The functions of a list at a position that has no more trees.
    #[tactic(auto, unfolding(pddl_trees::specs::Declarations::functions_from))]
    fn finish(self, at: u32, notes: &mut Notes) -> Vec<Sig>
        ensures faults { (text : _) → notes.new.first ≡ all_noted notes.old.first (functions_with self text at []).faults }
        ensures items { (text : _) → result.items ≡ (functions_with self text at []).items }
    {
        let Functions {
            sigs,
            dashed,
            signed: _,
        } = self;
        if dashed {
            notes.note(at, Reason::Shape);
        }
        sigs
    }
}

/// The functions that the trees of a list at a position declare, where no fault is noted; what doesn't fit is noted.
pub fn functions_list(
    alloc: Global,
    text: &[u8],
    at: u32,
    trees: &[Tree],
    notes: &mut Notes,
) -> Result<List<Sig>, NoMemory>
    ensures faults { OnOk result (notes.new.first ≡ all_noted notes.old.first (functions_list text.now at trees.now).faults) }
    ensures items { IfOk result (λ sigs. notes.new.first ≡ None → sigs ≡ (functions_list text.now at trees.now).items) }
{
    let mut functions = Functions {
        sigs: Vec::new(alloc),
        dashed: false,
        signed: false,
    };
    'each: for tree in trees {
        functions.take(alloc, text, tree, notes)?;
    }
    let sigs = functions.finish(at, notes);
    Ok(List::from_vec(sigs))
}
