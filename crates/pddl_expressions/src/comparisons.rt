//! Trees read as comparisons of objects and of numbers.

ghost use Rattle.std.specs.Prelude.{◌≡◌, ◌++◌, IfOk, IsTrue, OnOk, true, drop, flat_map, take};
ghost use Rattle.pddl_terms.specs.declared.conditions.Cond.TheVariants as condition;
ghost use Rattle.pddl_trees.specs.Faults.{all_noted};
ghost use Rattle.pddl_trees.specs.Atoms.{argument};
ghost use Rattle.pddl_trees.specs.Forms.{both, extra, missing, first_of};
ghost use Rattle.pddl_trees.specs.Conditions.{comparison, is_argument, of_objects, same_objects, compared};
ghost use Rattle.pddl_trees.specs.Trees.{form_of, forms_of};
ghost use Rattle.pddl_expressions.specs.Cut.{cut_cond, cut_expr};
ghost use Rattle.pddl_expressions.specs.internal.CutSteps.{compared_found, where_count};

use crate::atoms::argument;
use crate::expressions::expression_at;
use crate::found::{Found, paired};
use num_ends::{NoMemory, is_name_folded};
use pddl_terms::{Arg, Cond, Expr, MAX_HEIGHT, Rel};
use pddl_trees::forms::{note_count, note_extra, word_of};
use pddl_trees::notes::Notes;
use pddl_trees::words::is_variable;
use sexp_text::Tree;
use std::alloc::Global;

fn is_argument(text: &[u8], tree: &Tree) -> bool
    ensures { result ≡ is_argument (form_of text.now tree.now) }
{
    match word_of(text, tree) {
        Some(word) => is_name_folded(word) || is_variable(word),
        None => false,
    }
}

// Whether two names or variables stand first.
fn of_objects(text: &[u8], parts: &[Tree]) -> bool
    ensures { result ≡ of_objects (forms_of text.now parts.now) }
{
    match parts {
        [first, second, ..] => is_argument(text, first) && is_argument(text, second),
        _ => false,
    }
}

// The part of this number as an argument, where there is one.
#[tactic(auto, using(pddl_trees::proofs::Trees::part_there, pddl_trees::proofs::Trees::part_past, pddl_trees::proofs::Trees::faults_there))]
fn argument_at(
    alloc: Global,
    text: &[u8],
    number: usize,
    parts: &[Tree],
    notes: &mut Notes,
) -> Result<Option<Arg>, NoMemory>
    ensures value { IfOk result (λ arg. arg ≡ first_of (λ t. (argument true t).value) (drop number (forms_of text.now parts.now))) }
    ensures faults { OnOk result (notes.new.first ≡ all_noted notes.old.first (flat_map (λ t. (argument true t).faults) (take 1 (drop number (forms_of text.now parts.now))))) }
{
    if number < parts.len() {
        argument(alloc, text, true, &parts[number], notes)
    } else {
        Ok(None)
    }
}

#[tactic(auto, using(crate::proofs::Comparing::cut_Same))]
fn same_found(left: Option<Arg>, right: Option<Arg>) -> Found<Cond>
    ensures { result ≡ cut_cond (both condition.Same left right) }
{
    match (left, right) {
        (Some(left), Some(right)) => Found::Fine(Cond::Same(left, right), 1),
        _ => Found::Misfit,
    }
}

// Two names or variables as the same object.
#[tactic(auto, using(crate::proofs::Comparing::same_by_count, crate::proofs::Comparing::counted, crate::proofs::Comparing::not_counted, crate::proofs::Comparing::objects_noted))]
fn same_objects(
    alloc: Global,
    text: &[u8],
    parts: &[Tree],
    notes: &mut Notes,
) -> Result<Found<Cond>, NoMemory>
    requires { IsTrue (of_objects (forms_of text.now parts.now)) }
    ensures value { IfOk result (λ found. found ≡ cut_cond (same_objects (forms_of text.now parts.now))) }
    ensures faults { OnOk result (notes.new.first ≡ all_noted notes.old.first (extra 2 (forms_of text.now parts.now))) }
{
    let left = argument_at(alloc, text, 0, parts, notes)?;
    let right = argument_at(alloc, text, 1, parts, notes)?;
    note_extra(2, parts, notes);
    if parts.len() == 2 {
        Ok(same_found(left, right))
    } else {
        Ok(Found::Misfit)
    }
}

fn compared_found(rel: Rel, left: Found<Expr>, right: Found<Expr>) -> Found<Cond>
    ensures { result ≡ compared_found rel left right }
{
    match paired(left, right) {
        Found::Misfit => Found::Misfit,
        Found::Fine((left, right), height) if height < MAX_HEIGHT => {
            Found::Fine(Cond::Cmp(rel, left, right), height + 1)
        }
        _ => Found::TooHigh,
    }
}

#[tactic(auto, using(crate::proofs::Comparing::compared_by_count, crate::proofs::Comparing::counted, crate::proofs::Comparing::not_counted, crate::proofs::Comparing::two_noted))]
fn compared(
    alloc: Global,
    text: &[u8],
    at: u32,
    rel: Rel,
    parts: &[Tree],
    notes: &mut Notes,
) -> Result<Found<Cond>, NoMemory>
    ensures value { IfOk result (λ found. found ≡ cut_cond (compared rel (forms_of text.now parts.now))) }
    ensures faults { OnOk result (notes.new.first ≡ all_noted notes.old.first
        (flat_map (λ t. t.expr.faults) (take 2 (forms_of text.now parts.now)) ++ missing at 2 (forms_of text.now parts.now) ++ extra 2 (forms_of text.now parts.now))) }
{
    let left = expression_at(alloc, text, 0, parts, notes)?;
    let right = expression_at(alloc, text, 1, parts, notes)?;
    note_count(at, 2, parts, notes);
    if parts.len() == 2 {
        Ok(compared_found(rel, left, right))
    } else {
        Ok(Found::Misfit)
    }
}

/// The parts of a comparison at a position, of objects where it is `=` and two names or variables stand first.
pub fn comparison(
    alloc: Global,
    text: &[u8],
    at: u32,
    rel: Rel,
    parts: &[Tree],
    notes: &mut Notes,
) -> Result<Found<Cond>, NoMemory>
    ensures value { IfOk result (λ found. found ≡ cut_cond (comparison at rel (forms_of text.now parts.now)).value) }
    ensures faults { OnOk result (notes.new.first ≡ all_noted notes.old.first (comparison at rel (forms_of text.now parts.now)).faults) }
{
    if rel == Rel::Equal && of_objects(text, parts) {
        same_objects(alloc, text, parts, notes)
    } else {
        compared(alloc, text, at, rel, parts, notes)
    }
}
