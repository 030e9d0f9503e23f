//! Trees read as atoms.

ghost use Rattle.std.specs.Prelude.{◌≡◌, IfOk, List, OnOk, flat_map, map};
ghost use Rattle.num_ends.specs.Names.{folded};
ghost use Rattle.pddl_trees.specs.Faults.{all_noted};
ghost use Rattle.pddl_trees.specs.Forms.{all_of};
ghost use Rattle.pddl_trees.specs.Atoms.{argument, argument_word, atom_of, headed_atom};
ghost use Rattle.pddl_trees.specs.Trees.{form_of, forms_of};
ghost use Rattle.pddl_expressions.specs.internal.Gathered.{appended};

use num_ends::{List, NoMemory, is_name_folded};
use pddl_terms::{Arg, Atom};
use pddl_trees::faults::Reason;
use pddl_trees::forms::{name, position, word_of};
use pddl_trees::notes::Notes;
use pddl_trees::words::{is_symbol, is_variable};
use sexp_text::Tree;
use std::alloc::Global;

fn argument_word(
    alloc: Global,
    variables: bool,
    at: u32,
    word: &[u8],
    notes: &mut Notes,
) -> Result<Option<Arg>, NoMemory>
    ensures value { IfOk result (λ arg. arg ≡ (argument_word variables at (map folded word.now)).value) }
    ensures faults { OnOk result (notes.new.first ≡ all_noted notes.old.first (argument_word variables at (map folded word.now)).faults) }
{
    if is_name_folded(word) {
        return Ok(Some(Arg::Obj(name(alloc, at, word)?)));
    }
    if variables && is_variable(word) {
        return Ok(Some(Arg::Var(name(alloc, at, word)?)));
    }
    notes.note(at, Reason::Shape);
    Ok(None)
}

/// A tree as an argument, where it is the name of an object or, where these are allowed, a variable.
pub fn argument(
    alloc: Global,
    text: &[u8],
    variables: bool,
    tree: &Tree,
    notes: &mut Notes,
) -> Result<Option<Arg>, NoMemory>
    ensures value { IfOk result (λ arg. arg ≡ (argument variables (form_of text.now tree.now)).value) }
    ensures faults { OnOk result (notes.new.first ≡ all_noted notes.old.first (argument variables (form_of text.now tree.now)).faults) }
{
    let at = position(tree);
    match word_of(text, tree) {
        Some(word) => argument_word(alloc, variables, at, word, notes),
        None => {
            notes.note(at, Reason::Shape);
            Ok(None)
        }
    }
}

// A list with one more argument, where it and the argument are there.
fn with_argument(args: Option<List<Arg>>, arg: Option<Arg>) -> Result<Option<List<Arg>>, NoMemory>
    ensures { IfOk result (λ more. more ≡ appended args arg) }
{
    match (args, arg) {
        (Some(mut args), Some(arg)) => {
            args.push(arg)?;
            Ok(Some(args))
        }
        _ => Ok(None),
    }
}

fn arguments(
    alloc: Global,
    text: &[u8],
    variables: bool,
    trees: &[Tree],
    notes: &mut Notes,
) -> Result<Option<List<Arg>>, NoMemory>
    ensures value { IfOk result (λ args. args ≡ all_of (map (λ a. a.value) (map (argument variables) (forms_of text.now trees.now)))) }
    ensures faults { OnOk result (notes.new.first ≡ all_noted notes.old.first (flat_map (λ a. a.faults) (map (argument variables) (forms_of text.now trees.now)))) }
{
    let mut args = Some(List::new(alloc));
    'each: for tree in trees {
        let arg = argument(alloc, text, variables, tree, notes)?;
        args = with_argument(args, arg)?;
    }
    Ok(args)
}

fn headed_atom(
    alloc: Global,
    text: &[u8],
    variables: bool,
    at: u32,
    word: &[u8],
    args: &[Tree],
    notes: &mut Notes,
) -> Result<Option<Atom>, NoMemory>
    ensures value { IfOk result (λ atom. atom ≡ (headed_atom variables at (map folded word.now) (forms_of text.now args.now)).value) }
    ensures faults { OnOk result (notes.new.first ≡ all_noted notes.old.first (headed_atom variables at (map folded word.now) (forms_of text.now args.now)).faults) }
{
    if !is_symbol(word) {
        notes.note(at, Reason::Shape);
        return Ok(None);
    }
    let head = name(alloc, at, word)?;
    match arguments(alloc, text, variables, args, notes)? {
        Some(args) => Ok(Some(Atom { head, args })),
        None => Ok(None),
    }
}

/// The trees of a list at a position as an atom, where they are the name of a predicate or a function and its
/// arguments.
pub fn atom(
    alloc: Global,
    text: &[u8],
    variables: bool,
    at: u32,
    trees: &[Tree],
    notes: &mut Notes,
) -> Result<Option<Atom>, NoMemory>
    ensures value { IfOk result (λ atom. atom ≡ (atom_of variables at (forms_of text.now trees.now)).value) }
    ensures faults { OnOk result (notes.new.first ≡ all_noted notes.old.first (atom_of variables at (forms_of text.now trees.now)).faults) }
{
    match trees {
        [] => {
            notes.note(at, Reason::Shape);
            Ok(None)
        }
        [head, args @ ..] => match word_of(text, head) {
            Some(word) => headed_atom(alloc, text, variables, position(head), word, args, notes),
            None => {
                notes.note(position(head), Reason::Shape);
                Ok(None)
            }
        },
    }
}

/// A tree as an atom that may have variables.
#[tactic(auto, using(pddl_trees::proofs::Trees::atom_of_leaf, pddl_trees::proofs::Trees::atom_of_list))]
pub fn tree_atom(
    alloc: Global,
    text: &[u8],
    tree: &Tree,
    notes: &mut Notes,
) -> Result<Option<Atom>, NoMemory>
    ensures value { IfOk result (λ atom. atom ≡ (form_of text.now tree.now).atom.value) }
    ensures faults { OnOk result (notes.new.first ≡ all_noted notes.old.first (form_of text.now tree.now).atom.faults) }
{
    match tree {
        Tree::Leaf(span) => {
            notes.note(span.from, Reason::Shape);
            Ok(None)
        }
        Tree::List(span, trees) => { atom(alloc, text, true, span.from, trees.as_slice(), notes) }
    }
}
