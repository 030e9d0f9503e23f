//! Trees read as conditions.

ghost use Rattle.std.specs.Prelude.{◌≡◌, ◌++◌, [], IfOk, List, OnOk, Some, drop, flat_map, fold, map, take, true};
ghost use Rattle.num_ends.specs.Names.{folded};
ghost use Rattle.pddl_terms.specs.declared.conditions.Cond.TheVariants as condition;
ghost use Rattle.pddl_expressions.specs.declared.found.Found.TheVariants as found;
ghost use Rattle.pddl_trees.specs.Faults.{all_noted};
ghost use Rattle.pddl_trees.specs.Atoms.{atom_of};
ghost use Rattle.pddl_trees.specs.Conditions.{cond_of, cond_of_conds, fact_of, implied, negated};
ghost use Rattle.pddl_trees.specs.Trees.{form_of, forms_of};
ghost use Rattle.pddl_expressions.specs.Cut.{cut_cond};
ghost use Rattle.pddl_expressions.specs.internal.CutSteps.{highest, implied_found, negated_found, raised, where_count, with_condition};
ghost use Rattle.pddl_trees.specs.Forms.{first_of};
ghost use Rattle.pddl_expressions.specs.internal.Connectives.{connective_of, connective_said};

use crate::atoms::atom;
use crate::comparisons::comparison;
use crate::found::{Found, note_height, paired};
use num_ends::{List, NoMemory};
use pddl_terms::{Cond, MAX_HEIGHT, Rel};
use pddl_trees::faults::Reason;
use pddl_trees::forms::{note_count, word_of};
use pddl_trees::notes::Notes;
use pddl_trees::words::relation_of;
use sexp_text::{Tree, is_word};
use sqlite_items::{Boxed, Items};
use std::alloc::Global;

/// What the first tree of a condition's list makes of the list.
#[derive(Clone, Copy, Debug)]
pub enum Connective {
    And,
    Or,
    Not,
    Imply,
    Compared(Rel),
    /// The list is an atom, or doesn't fit.
    Fact,
}

fn connective_of(word: &[u8]) -> Connective
    ensures { result ≡ connective_of (Some (map folded word.now)) }
{
    if is_word(word, b"and") {
        return Connective::And;
    }
    if is_word(word, b"or") {
        return Connective::Or;
    }
    if is_word(word, b"not") {
        return Connective::Not;
    }
    if is_word(word, b"imply") {
        return Connective::Imply;
    }
    match relation_of(word) {
        Some(rel) => Connective::Compared(rel),
        None => Connective::Fact,
    }
}

fn connective_at(text: &[u8], tree: &Tree) -> Connective
    ensures { result ≡ connective_of (form_of text.now tree.now).word }
{
    match word_of(text, tree) {
        Some(word) => connective_of(word),
        None => Connective::Fact,
    }
}

// The trees of a list at a position as an atom that is true.
#[tactic(auto, using(crate::proofs::Connecting::cut_Fact))]
fn fact(
    alloc: Global,
    text: &[u8],
    at: u32,
    trees: &[Tree],
    notes: &mut Notes,
) -> Result<Found<Cond>, NoMemory>
    ensures value { IfOk result (λ found. found ≡ cut_cond (fact_of (atom_of true at (forms_of text.now trees.now))).value) }
    ensures faults { OnOk result (notes.new.first ≡ all_noted notes.old.first (fact_of (atom_of true at (forms_of text.now trees.now))).faults) }
{
    match atom(alloc, text, true, at, trees, notes)? {
        Some(atom) => Ok(Found::Fine(Cond::Fact(atom), 1)),
        None => Ok(Found::Misfit),
    }
}

fn with_condition(
    conds: Found<List<Cond>>,
    cond: Found<Cond>,
) -> Result<Found<List<Cond>>, NoMemory>
    ensures { IfOk result (λ more. more ≡ with_condition conds cond) }
{
    match (conds, cond) {
        (Found::Misfit, _) | (_, Found::Misfit) => Ok(Found::Misfit),
        (Found::TooHigh, _) | (_, Found::TooHigh) => Ok(Found::TooHigh),
        (Found::Fine(mut conds, highest), Found::Fine(cond, height)) => {
            conds.push(cond)?;
            Ok(Found::Fine(conds, highest.max(height)))
        }
    }
}

fn conjunction(conds: Found<List<Cond>>) -> Found<Cond>
    ensures { result ≡ raised condition.And conds }
{
    match conds {
        Found::Misfit => Found::Misfit,
        Found::Fine(conds, height) if height < MAX_HEIGHT => {
            Found::Fine(Cond::And(Items::from_vec(conds.into_vec())), height + 1)
        }
        _ => Found::TooHigh,
    }
}

fn disjunction(conds: Found<List<Cond>>) -> Found<Cond>
    ensures { result ≡ raised condition.Or conds }
{
    match conds {
        Found::Misfit => Found::Misfit,
        Found::Fine(conds, height) if height < MAX_HEIGHT => {
            Found::Fine(Cond::Or(Items::from_vec(conds.into_vec())), height + 1)
        }
        _ => Found::TooHigh,
    }
}

fn negation(alloc: Global, cond: Found<Cond>) -> Result<Found<Cond>, NoMemory>
    ensures { IfOk result (λ found. found ≡ negated_found cond) }
{
    match cond {
        Found::Misfit => Ok(Found::Misfit),
        Found::Fine(cond, height) if height < MAX_HEIGHT => {
            let cond = Boxed::new(alloc, cond)?;
            Ok(Found::Fine(Cond::Not(cond), height + 1))
        }
        _ => Ok(Found::TooHigh),
    }
}

fn implication(
    alloc: Global,
    first: Found<Cond>,
    second: Found<Cond>,
) -> Result<Found<Cond>, NoMemory>
    ensures { IfOk result (λ found. found ≡ implied_found first second) }
{
    match paired(first, second) {
        Found::Misfit => Ok(Found::Misfit),
        Found::Fine((first, second), height) if height < MAX_HEIGHT => {
            let first = Boxed::new(alloc, first)?;
            let second = Boxed::new(alloc, second)?;
            Ok(Found::Fine(Cond::Imply(first, second), height + 1))
        }
        _ => Ok(Found::TooHigh),
    }
}

/// A tree as a condition, where it is one.
#[tactic(auto, using(pddl_trees::proofs::Trees::cond_of_leaf, pddl_trees::proofs::Trees::cond_of_list, crate::proofs::Connecting::measured_noted))]
#[cycle(conditions)]
pub fn condition(
    alloc: Global,
    text: &[u8],
    tree: &Tree,
    notes: &mut Notes,
) -> Result<Found<Cond>, NoMemory>
    ensures value { IfOk result (λ found. found ≡ cut_cond (form_of text.now tree.now).cond.value) }
    ensures faults { OnOk result (notes.new.first ≡ all_noted notes.old.first (form_of text.now tree.now).cond.faults) }
{
    match tree {
        Tree::Leaf(span) => {
            notes.note(span.from, Reason::Shape);
            Ok(Found::Misfit)
        }
        Tree::List(span, trees) => {
            let found = list_condition(alloc, text, span.from, trees.as_slice(), notes)?;
            note_height(span.from, &found, notes);
            Ok(found)
        }
    }
}

#[cycle(conditions)]
fn list_condition(
    alloc: Global,
    text: &[u8],
    at: u32,
    trees: &[Tree],
    notes: &mut Notes,
) -> Result<Found<Cond>, NoMemory>
    ensures value { IfOk result (λ found. found ≡ cut_cond (cond_of at (forms_of text.now trees.now) (atom_of true at (forms_of text.now trees.now))).value) }
    ensures faults { OnOk result (notes.new.first
        ≡ all_noted notes.old.first (cond_of at (forms_of text.now trees.now) (atom_of true at (forms_of text.now trees.now))).faults) }
{
    match trees {
        [] => Ok(Found::Fine(Cond::And(Items::new(alloc)), 1)),
        [head, parts @ ..] => match connective_at(text, head) {
            Connective::And => Ok(conjunction(members(alloc, text, parts, notes)?)),
            Connective::Or => Ok(disjunction(members(alloc, text, parts, notes)?)),
            Connective::Not => negated(alloc, text, at, parts, notes),
            Connective::Imply => implied(alloc, text, at, parts, notes),
            Connective::Compared(rel) => comparison(alloc, text, at, rel, parts, notes),
            Connective::Fact => fact(alloc, text, at, trees, notes),
        },
    }
}

#[cycle(conditions)]
fn members(
    alloc: Global,
    text: &[u8],
    parts: &[Tree],
    notes: &mut Notes,
) -> Result<Found<List<Cond>>, NoMemory>
    ensures value { IfOk result (λ conds. conds ≡ fold with_condition (found.Fine [] 0) (map (λ t. cut_cond t.cond.value) (forms_of text.now parts.now))) }
    ensures faults { OnOk result (notes.new.first ≡ all_noted notes.old.first (flat_map (λ t. t.cond.faults) (forms_of text.now parts.now))) }
{
    let mut conds = Found::Fine(List::new(alloc), 0);
    'each: for tree in parts {
        let cond = condition(alloc, text, tree, notes)?;
        conds = with_condition(conds, cond)?;
    }
    Ok(conds)
}

#[tactic(auto, using(crate::proofs::Connecting::negated_by_count, crate::proofs::Connecting::one_noted, crate::proofs::Comparing::counted, crate::proofs::Comparing::not_counted))]
#[cycle(conditions)]
fn negated(
    alloc: Global,
    text: &[u8],
    at: u32,
    parts: &[Tree],
    notes: &mut Notes,
) -> Result<Found<Cond>, NoMemory>
    ensures value { IfOk result (λ found. found ≡ cut_cond (negated (forms_of text.now parts.now))) }
    ensures faults { OnOk result (notes.new.first ≡ all_noted notes.old.first (cond_of_conds at 1 (negated (forms_of text.now parts.now)) (forms_of text.now parts.now)).faults) }
{
    let first = part(alloc, text, 0, parts, notes)?;
    note_count(at, 1, parts, notes);
    if parts.len() == 1 {
        negation(alloc, first)
    } else {
        Ok(Found::Misfit)
    }
}

#[tactic(auto, using(crate::proofs::Connecting::implied_by_count, crate::proofs::Comparing::two_noted, crate::proofs::Comparing::counted, crate::proofs::Comparing::not_counted))]
#[cycle(conditions)]
fn implied(
    alloc: Global,
    text: &[u8],
    at: u32,
    parts: &[Tree],
    notes: &mut Notes,
) -> Result<Found<Cond>, NoMemory>
    ensures value { IfOk result (λ found. found ≡ cut_cond (implied (forms_of text.now parts.now))) }
    ensures faults { OnOk result (notes.new.first ≡ all_noted notes.old.first (cond_of_conds at 2 (implied (forms_of text.now parts.now)) (forms_of text.now parts.now)).faults) }
{
    let first = part(alloc, text, 0, parts, notes)?;
    let second = part(alloc, text, 1, parts, notes)?;
    note_count(at, 2, parts, notes);
    if parts.len() == 2 {
        implication(alloc, first, second)
    } else {
        Ok(Found::Misfit)
    }
}

// The part of this number as a condition, where there is one.
#[tactic(auto, using(pddl_trees::proofs::Trees::part_there, pddl_trees::proofs::Trees::part_past, pddl_trees::proofs::Trees::faults_there))]
#[cycle(conditions)]
fn part(
    alloc: Global,
    text: &[u8],
    number: usize,
    parts: &[Tree],
    notes: &mut Notes,
) -> Result<Found<Cond>, NoMemory>
    ensures value { IfOk result (λ found. found ≡ cut_cond (first_of (λ t. t.cond.value) (drop number (forms_of text.now parts.now)))) }
    ensures faults { OnOk result (notes.new.first ≡ all_noted notes.old.first (flat_map (λ t. t.cond.faults) (take 1 (drop number (forms_of text.now parts.now))))) }
{
    if number < parts.len() {
        condition(alloc, text, &parts[number], notes)
    } else {
        Ok(Found::Misfit)
    }
}
