//! Small trees as expressions, conditions and effects.

ghost use Rattle.std.specs.Prelude.{◌≤◌, ◌^◌, length};

use num_ends::Dec;
use pddl_actions::effects::{Gathered, tree_effects};
use pddl_expressions::conditions::condition;
use pddl_expressions::expressions::expression;
use pddl_expressions::found::Found;
use pddl_terms::{Arg, Cond, Effect, Expr, Op};
use pddl_trees::faults::{Fault, Reason};
use pddl_trees::notes::Notes;
use sexp_text::{Tree, read_trees};
use std::alloc::Global;
use std::test::Fail;

// The first tree of a text.
fn first_tree(alloc: Global, text: &[u8]) -> Option<Tree>
    requires { length text.now ≤ 2 ^ 30 }
{
    let mut trees = read_trees(alloc, text).ok()?;
    trees.truncate(1);
    trees.pop()
}

fn as_expression(alloc: Global, text: &[u8], notes: &mut Notes) -> Option<Found<Expr>>
    requires { length text.now ≤ 2 ^ 30 }
{
    let tree = first_tree(alloc, text)?;
    expression(alloc, text, &tree, notes).ok()
}

fn as_condition(alloc: Global, text: &[u8], notes: &mut Notes) -> Option<Found<Cond>>
    requires { length text.now ≤ 2 ^ 30 }
{
    let tree = first_tree(alloc, text)?;
    condition(alloc, text, &tree, notes).ok()
}

fn as_effects(alloc: Global, text: &[u8], notes: &mut Notes) -> Option<Gathered>
    requires { length text.now ≤ 2 ^ 30 }
{
    let tree = first_tree(alloc, text)?;
    tree_effects(alloc, text, &tree, notes).ok()
}

fn expression_fault(alloc: Global, text: &[u8]) -> Option<Fault>
    requires { length text.now ≤ 2 ^ 30 }
{
    let mut notes = Notes::new();
    as_expression(alloc, text, &mut notes)?;
    notes.first
}

fn condition_fault(alloc: Global, text: &[u8]) -> Option<Fault>
    requires { length text.now ≤ 2 ^ 30 }
{
    let mut notes = Notes::new();
    as_condition(alloc, text, &mut notes)?;
    notes.first
}

fn effects_fault(alloc: Global, text: &[u8]) -> Option<Fault>
    requires { length text.now ≤ 2 ^ 30 }
{
    let mut notes = Notes::new();
    as_effects(alloc, text, &mut notes)?;
    notes.first
}

fn shape(at: u32) -> Option<Fault> {
    let reason = Reason::Shape;
    Some(Fault { at, reason })
}

#[test]
fn faults_have_their_places(rt: HostRuntime) -> Result<(), Fail> {
    let alloc = rt.alloc();
    assert!(rt; expression_fault(alloc, b"(/ 1 2 3)") == shape(7));
    assert!(rt; condition_fault(alloc, b"(= a 5)") == shape(3));
    assert!(rt; condition_fault(alloc, b"(assign o)") == shape(1));
    assert!(rt; effects_fault(alloc, b"(increase (x 5))") == shape(0));
    assert!(rt; effects_fault(alloc, b"(or (x) (x))") == shape(1));
    Ok(())
}

fn is_number(expr: &Expr, n: i128, at: u32) -> bool {
    match expr {
        Expr::Lit(Dec { n: m, p: 0 }, place) => *m == n && *place == at,
        _ => false,
    }
}

fn is_read(expr: &Expr, name: &[u8], at: u32) -> bool {
    match expr {
        Expr::Read(atom) => {
            atom.head.text.as_slice() == name && atom.head.at == at && atom.args.len() == 0
        }
        _ => false,
    }
}

// `(+ 1 2)` of a sum of three at position 0.
fn is_front(expr: &Expr) -> bool {
    match expr {
        Expr::Op(0, Op::Add, one, two) => is_number(one.get(), 1, 3) && is_number(two.get(), 2, 5),
        _ => false,
    }
}

fn is_sum_of_three(alloc: Global) -> bool {
    let mut notes = Notes::new();
    match as_expression(alloc, b"(+ 1 2 3)", &mut notes) {
        Some(Found::Fine(Expr::Op(0, Op::Add, front, last), 3)) => {
            is_front(front.get()) && is_number(last.get(), 3, 7) && notes.first.is_none()
        }
        _ => false,
    }
}

fn is_from_zero(alloc: Global) -> bool {
    let mut notes = Notes::new();
    match as_expression(alloc, b" (- (X))", &mut notes) {
        Some(Found::Fine(Expr::Op(1, Op::Sub, zero, operand), 2)) => {
            is_number(zero.get(), 0, 1) && is_read(operand.get(), b"x", 5) && notes.first.is_none()
        }
        _ => false,
    }
}

#[test]
fn operands_are_grouped_from_the_left(rt: HostRuntime) -> Result<(), Fail> {
    let alloc = rt.alloc();
    assert!(rt; is_sum_of_three(alloc));
    assert!(rt; is_from_zero(alloc));
    Ok(())
}

fn is_empty_conjunction(alloc: Global, text: &[u8]) -> bool
    requires { length text.now ≤ 2 ^ 30 }
{
    let mut notes = Notes::new();
    match as_condition(alloc, text, &mut notes) {
        Some(Found::Fine(Cond::And(conds), 1)) => conds.len() == 0 && notes.first.is_none(),
        _ => false,
    }
}

fn is_same(alloc: Global) -> bool {
    let mut notes = Notes::new();
    match as_condition(alloc, b"(= a ?b)", &mut notes) {
        Some(Found::Fine(Cond::Same(Arg::Obj(_), Arg::Var(_)), 1)) => notes.first.is_none(),
        _ => false,
    }
}

#[test]
fn conditions_are_read(rt: HostRuntime) -> Result<(), Fail> {
    let alloc = rt.alloc();
    assert!(rt; is_empty_conjunction(alloc, b"(and)") && is_empty_conjunction(alloc, b"()"));
    assert!(rt; is_same(alloc));
    Ok(())
}

fn are_three_effects(alloc: Global) -> bool {
    let mut notes = Notes::new();
    match as_effects(
        alloc,
        b"(and (p) () (not (q)) (scale-up (x) 2))",
        &mut notes,
    ) {
        Some(gathered) => match gathered.kept.as_slice() {
            [Effect::Add(_), Effect::Del(_), Effect::Num(_, _, _)] => {
                gathered.past.is_none() && notes.first.is_none()
            }
            _ => false,
        },
        None => false,
    }
}

#[test]
fn effects_are_kept_in_order(rt: HostRuntime) -> Result<(), Fail> {
    let alloc = rt.alloc();
    assert!(rt; are_three_effects(alloc));
    Ok(())
}

// A sum of so many ones.
fn sum_of_ones(alloc: Global, count: u32) -> Option<Vec<u8>> {
    let mut text = Vec::from_slice(alloc, b"(+").ok()?;
    for _ in 0..count {
        text.extend_from_slice(b" 1").ok()?;
    }
    text.push(b')').ok()?;
    Some(text)
}

// The height of a sum of so many ones, or the fault that it has.
fn height_of_ones(alloc: Global, count: u32) -> Option<Result<u32, Fault>> {
    let text = sum_of_ones(alloc, count)?;
    if 1024 < text.len() {
        return None;
    }
    let mut notes = Notes::new();
    match (
        as_expression(alloc, text.as_slice(), &mut notes)?,
        notes.first,
    ) {
        (Found::Fine(_, height), None) => Some(Ok(height)),
        (Found::TooHigh, Some(fault)) => Some(Err(fault)),
        _ => None,
    }
}

#[test]
fn sums_may_be_400_high(rt: HostRuntime) -> Result<(), Fail> {
    let alloc = rt.alloc();
    let too_high = Fault {
        at: 0,
        reason: Reason::TooDeep,
    };
    assert!(rt; height_of_ones(alloc, 400) == Some(Ok(400)));
    assert!(rt; height_of_ones(alloc, 401) == Some(Err(too_high)));
    Ok(())
}
