//! Trees read as numeric expressions.

ghost use Rattle.std.specs.Prelude.{◌≡◌, ℕ, List, None, IfOk, OnOk, true, flat_map, fold, length, map, nat_lt, drop, take};
ghost use Rattle.std.specs.Option.{option_map_or};
ghost use Rattle.num_ends.specs.Names.{folded};
ghost use Rattle.pddl_trees.specs.Words.{operation_of, word_in};
ghost use Rattle.pddl_trees.specs.Faults.{all_noted};
ghost use Rattle.pddl_trees.specs.Forms.{first_of};
ghost use Rattle.pddl_trees.specs.Atoms.{atom_of};
ghost use Rattle.pddl_trees.specs.Expressions.{expr_of, leaf_expr, read_of};
ghost use Rattle.pddl_trees.specs.Trees.{form_of, forms_of, head_word};
ghost use Rattle.pddl_expressions.specs.Cut.{cut_expr};
ghost use Rattle.pddl_expressions.specs.internal.CutSteps.{completed, height_faults, joined, misfits, operation_found, with_operand};

use crate::atoms::atom;
use crate::found::{Found, note_height, paired};
use num_ends::{Dec, NoMemory};
use pddl_terms::{Expr, MAX_HEIGHT, Op};
use pddl_trees::faults::Reason;
use pddl_trees::forms::{note_extra, note_missing, word_of};
use pddl_trees::notes::Notes;
use pddl_trees::words::{bytes_at, is_number_word, number_in, operation_of};
use sexp_text::{Span, Tree};
use sqlite_items::Boxed;
use std::alloc::Global;

const ZERO: Dec = Dec { n: 0, p: 0 };

fn leaf_expression(text: &[u8], span: Span, notes: &mut Notes) -> Found<Expr>
    ensures value { result ≡ cut_expr (leaf_expr span.from (word_in text.now span)).value }
    ensures faults { notes.new.first ≡ all_noted notes.old.first (leaf_expr span.from (word_in text.now span)).faults }
{
    let word = bytes_at(text, span);
    if !is_number_word(word) {
        notes.note(span.from, Reason::Shape);
        return Found::Misfit;
    }
    // A number that isn't taken is a fault of its leaf, which is noted elsewhere.
    let number = match number_in(word) {
        Some(number) => number,
        None => ZERO,
    };
    Found::Fine(Expr::Lit(number, span.from), 1)
}

// The value of a function, of which the trees of a list at a position are the name and the arguments.
fn read(
    alloc: Global,
    text: &[u8],
    at: u32,
    trees: &[Tree],
    notes: &mut Notes,
) -> Result<Found<Expr>, NoMemory>
    ensures value { IfOk result (λ found. found ≡ cut_expr (read_of (atom_of true at (forms_of text.now trees.now))).value) }
    ensures faults { OnOk result (notes.new.first ≡ all_noted notes.old.first (read_of (atom_of true at (forms_of text.now trees.now))).faults) }
{
    match atom(alloc, text, true, at, trees, notes)? {
        Some(atom) => Ok(Found::Fine(Expr::Read(atom), 1)),
        None => Ok(Found::Misfit),
    }
}

fn joined(
    alloc: Global,
    at: u32,
    op: Op,
    left: Found<Expr>,
    right: Found<Expr>,
) -> Result<Found<Expr>, NoMemory>
    ensures { IfOk result (λ found. found ≡ joined at op left right) }
{
    match paired(left, right) {
        Found::Misfit => Ok(Found::Misfit),
        Found::Fine((left, right), height) if height < MAX_HEIGHT => {
            let left = Boxed::new(alloc, left)?;
            let right = Boxed::new(alloc, right)?;
            Ok(Found::Fine(Expr::Op(at, op, left, right), height + 1))
        }
        _ => Ok(Found::TooHigh),
    }
}

fn with_operand(
    alloc: Global,
    at: u32,
    op: Op,
    grouped: Option<Found<Expr>>,
    operand: Found<Expr>,
) -> Result<Option<Found<Expr>>, NoMemory>
    ensures { IfOk result (λ more. more ≡ with_operand at op grouped operand) }
{
    match grouped {
        None => Ok(Some(operand)),
        Some(grouped) => Ok(Some(joined(alloc, at, op, grouped, operand)?)),
    }
}

// Notes what is wrong with the number of operands, and says whether something is.
fn note_misfits(at: u32, op: Op, operands: &[Tree], notes: &mut Notes) -> bool
    ensures misfit { (text : List ℕ) → result ≡ nat_lt 0 (length (misfits at op (forms_of text operands.now))) }
    ensures faults { (text : List ℕ) → notes.new.first ≡ all_noted notes.old.first (misfits at op (forms_of text operands.now)) }
{
    let (fewest, most) = match op {
        Op::Add | Op::Mul => (2, operands.len()),
        Op::Sub => (1, 2),
        Op::Div => (2, 2),
    };
    note_missing(at, fewest, operands, notes);
    note_extra(most, operands, notes);
    operands.len() < fewest || most < operands.len()
}

fn completed(
    alloc: Global,
    at: u32,
    op: Op,
    count: usize,
    grouped: Option<Found<Expr>>,
) -> Result<Found<Expr>, NoMemory>
    ensures { IfOk result (λ found. found ≡ completed at op count grouped) }
{
    match grouped {
        None => Ok(Found::Misfit),
        Some(found) if count == 1 => {
            let zero = Found::Fine(Expr::Lit(ZERO, at), 1);
            joined(alloc, at, op, zero, found)
        }
        Some(found) => Ok(found),
    }
}

// The operation at a position on operands that were grouped.
fn operation(
    alloc: Global,
    at: u32,
    op: Op,
    operands: &[Tree],
    grouped: Option<Found<Expr>>,
    notes: &mut Notes,
) -> Result<Found<Expr>, NoMemory>
    ensures value { (text : List ℕ) → IfOk result (λ found. found ≡ operation_found at op (forms_of text operands.now) grouped) }
    ensures faults { (text : List ℕ) → IfOk result (λ found. notes.new.first ≡ all_noted (all_noted notes.old.first (misfits at op (forms_of text operands.now))) (height_faults at found)) }
{
    let found = if note_misfits(at, op, operands, notes) {
        Found::Misfit
    } else {
        completed(alloc, at, op, operands.len(), grouped)?
    };
    note_height(at, &found, notes);
    Ok(found)
}

// The operation that a tree stands for.
fn operation_at(text: &[u8], tree: &Tree) -> Option<Op>
    ensures { result ≡ option_map_or operation_of (form_of text.now tree.now).word None }
{
    match word_of(text, tree) {
        Some(word) => operation_of(word),
        None => None,
    }
}

/// A tree as an expression, where it is one.
#[tactic(auto, using(pddl_trees::proofs::Trees::expr_of_leaf, pddl_trees::proofs::Trees::expr_of_list))]
#[cycle(expressions)]
pub fn expression(
    alloc: Global,
    text: &[u8],
    tree: &Tree,
    notes: &mut Notes,
) -> Result<Found<Expr>, NoMemory>
    ensures value { IfOk result (λ found. found ≡ cut_expr (form_of text.now tree.now).expr.value) }
    ensures faults { OnOk result (notes.new.first ≡ all_noted notes.old.first (form_of text.now tree.now).expr.faults) }
{
    match tree {
        Tree::Leaf(span) => Ok(leaf_expression(text, *span, notes)),
        Tree::List(span, trees) => {
            list_expression(alloc, text, span.from, trees.as_slice(), notes)
        }
    }
}

#[cycle(expressions)]
fn list_expression(
    alloc: Global,
    text: &[u8],
    at: u32,
    trees: &[Tree],
    notes: &mut Notes,
) -> Result<Found<Expr>, NoMemory>
    ensures value { IfOk result (λ found. found
        ≡ cut_expr (expr_of at (head_word (forms_of text.now trees.now)) (forms_of text.now trees.now) (atom_of true at (forms_of text.now trees.now))).value) }
    ensures faults { OnOk result (notes.new.first
        ≡ all_noted notes.old.first (expr_of at (head_word (forms_of text.now trees.now)) (forms_of text.now trees.now) (atom_of true at (forms_of text.now trees.now))).faults) }
{
    match trees {
        [] => read(alloc, text, at, trees, notes),
        [head, operands @ ..] => match operation_at(text, head) {
            None => read(alloc, text, at, trees, notes),
            Some(op) => {
                let grouped = grouped(alloc, text, at, op, operands, notes)?;
                operation(alloc, at, op, operands, grouped, notes)
            }
        },
    }
}

// Operands grouped from the left.
#[cycle(expressions)]
fn grouped(
    alloc: Global,
    text: &[u8],
    at: u32,
    op: Op,
    operands: &[Tree],
    notes: &mut Notes,
) -> Result<Option<Found<Expr>>, NoMemory>
    ensures value { IfOk result (λ grouped. grouped ≡ fold (with_operand at op) None (map (λ t. cut_expr t.expr.value) (forms_of text.now operands.now))) }
    ensures faults { OnOk result (notes.new.first ≡ all_noted notes.old.first (flat_map (λ t. t.expr.faults) (forms_of text.now operands.now))) }
{
    let mut grouped = None;
    'each: for tree in operands {
        let operand = expression(alloc, text, tree, notes)?;
        grouped = with_operand(alloc, at, op, grouped, operand)?;
    }
    Ok(grouped)
}

/// The part of this number as an expression, where there is one.
#[tactic(auto, using(pddl_trees::proofs::Trees::part_there, pddl_trees::proofs::Trees::part_past, pddl_trees::proofs::Trees::faults_there))]
pub fn expression_at(
    alloc: Global,
    text: &[u8],
    number: usize,
    parts: &[Tree],
    notes: &mut Notes,
) -> Result<Found<Expr>, NoMemory>
    ensures value { IfOk result (λ found. found ≡ cut_expr (first_of (λ t. t.expr.value) (drop number (forms_of text.now parts.now)))) }
    ensures faults { OnOk result (notes.new.first ≡ all_noted notes.old.first (flat_map (λ t. t.expr.faults) (take 1 (drop number (forms_of text.now parts.now))))) }
{
    if number < parts.len() {
        expression(alloc, text, &parts[number], notes)
    } else {
        Ok(Found::Misfit)
    }
}
