//! Pairs of short texts, checked: the first fault, and the reads of what is well formed.

ghost use Rattle.std.specs.Prelude.{◌≤◌, length};
ghost use Rattle.pddl_terms.specs.Readable.{IsReadableDomain};

use pddl_reader::{read_domain, read_problem};
use pddl_terms::Domain;
use pddl_types::{CheckFault, CheckKind, Checked, Side, check};
use std::alloc::Global;
use std::test::Fail;

/// A problem that says nothing.
const EMPTY: &str = "(define (problem p) (:init) (:goal ()))";

const TYPED: &str =
    "(define (domain d) (:types truck place - object van - truck) (:constants l0 - place) \
(:predicates (at ?t ?l) (free ?t)) (:functions (load ?t) (total)) (:action go) (:action stay))";

/// Lets a domain go.
fn discard_domain(_domain: Domain) {}

// The check of a domain and of the text of a problem, where that can be read.
fn checked_with(alloc: Global, domain: Domain, problem: &str) -> Option<Result<Checked, CheckFault>>
    requires short { length problem.now ≤ 512 }
    requires read { IsReadableDomain domain }
{
    match read_problem(alloc, problem.as_bytes()) {
        Ok(problem) => Some(check(alloc, domain, problem)),
        Err(_) => {
            discard_domain(domain);
            None
        }
    }
}

// The check of two texts that can be read.
fn checked(alloc: Global, domain: &str, problem: &str) -> Option<Result<Checked, CheckFault>> {
    if domain.len() > 512 || problem.len() > 512 {
        return None;
    }
    match read_domain(alloc, domain.as_bytes()) {
        Ok(domain) => checked_with(alloc, domain, problem),
        Err(_) => None,
    }
}

// Whether the fault is this one.
fn is_fault(fault: CheckFault, want: Option<(Side, CheckKind, &str, u32)>) -> bool {
    match (fault, want) {
        (CheckFault::At(side, kind, name), Some(want)) => {
            side == want.0
                && kind == want.1
                && name.text.as_slice() == want.2.as_bytes()
                && name.at == want.3
        }
        _ => false,
    }
}

// Whether the answer is this first fault, or a pair where there is none.
fn is_answer(
    found: Option<Result<Checked, CheckFault>>,
    want: Option<(Side, CheckKind, &str, u32)>,
) -> bool {
    match found {
        Some(Ok(pair)) => {
            pair.discard();
            want.is_none()
        }
        Some(Err(fault)) => is_fault(fault, want),
        None => false,
    }
}

#[test]
fn first_faults(rt: HostRuntime) -> Result<(), Fail> {
    let alloc = rt.alloc();
    let rows = [
        (
            "(define (domain d) (:types block - block))",
            "(define (problem p) (:objects b - ball) (:init) (:goal ()))",
            Some((Side::Domain, CheckKind::CyclicType, "block", 27)),
        ),
        (
            "(define (domain d) (:types block))",
            "(define (problem p) (:objects b - ball) (:init) (:goal ()))",
            Some((Side::Problem, CheckKind::UnknownType, "ball", 34)),
        ),
        (
            "(define (domain d) (:types block))",
            "(define (problem p) (:objects b - block) (:init) (:goal ()))",
            None,
        ),
        (
            "(define (domain d) (:types s - t t - s u - s))",
            EMPTY,
            Some((Side::Domain, CheckKind::CyclicType, "s", 27)),
        ),
        (
            "(define (domain d) (:types s object))",
            EMPTY,
            Some((Side::Domain, CheckKind::Duplicate, "object", 29)),
        ),
        (
            "(define (domain d) (:constants a))",
            "(define (problem p) (:objects b a) (:init) (:goal ()))",
            Some((Side::Problem, CheckKind::Duplicate, "a", 32)),
        ),
        (
            "(define (domain d) (:functions (f)) (:predicates (q) (f)))",
            EMPTY,
            Some((Side::Domain, CheckKind::Duplicate, "f", 54)),
        ),
        (
            "(define (domain d) (:predicates (q ?a ?b ?a)))",
            EMPTY,
            Some((Side::Domain, CheckKind::Duplicate, "?a", 41)),
        ),
        (
            "(define (domain d) (:predicates (q ?o)) (:action a :parameters (?x) :precondition (q ?y)))",
            EMPTY,
            Some((Side::Domain, CheckKind::UnknownName, "?y", 85)),
        ),
        (
            "(define (domain d) (:predicates (q ?o)) (:action a :effect (q o)))",
            "(define (problem p) (:objects o) (:init) (:goal ()))",
            Some((Side::Domain, CheckKind::UnknownName, "o", 62)),
        ),
        (
            "(define (domain d) (:predicates (q)))",
            "(define (problem p) (:init (= (q) 1)) (:goal ()))",
            Some((Side::Problem, CheckKind::UnknownName, "q", 31)),
        ),
        (
            "(define (domain d) (:predicates (q ?o)))",
            "(define (problem p) (:init (q)) (:goal ()))",
            Some((Side::Problem, CheckKind::Arity, "q", 28)),
        ),
        (
            "(define (domain d) (:types s t) (:predicates (q ?o - s)))",
            "(define (problem p) (:objects c - t) (:init (q c)) (:goal ()))",
            Some((Side::Problem, CheckKind::WrongType, "c", 47)),
        ),
        (
            "(define (domain d) (:types s) (:predicates (q ?o - s)) (:action a :parameters (?x) :effect (q ?x)))",
            EMPTY,
            None,
        ),
        (
            "(define (domain d) (:types s t) (:predicates (q ?o - s)) (:action a :parameters (?x - t) :effect (q ?x)))",
            EMPTY,
            Some((Side::Domain, CheckKind::WrongType, "?x", 100)),
        ),
        (
            "(define (domain d) (:functions (f) (g)) (:action a :precondition (< (/ 1 (+ (g) (f))) 1) :effect (increase (f) 1)))",
            EMPTY,
            Some((Side::Domain, CheckKind::Divide, "f", 81)),
        ),
        (
            "(define (domain d) (:functions (f ?o)))",
            "(define (problem p) (:objects c e) (:init (= (f c) 1) (= (f e) 1) (= (f c) 1)) (:goal ()))",
            Some((Side::Problem, CheckKind::Duplicate, "f", 70)),
        ),
        (
            "(define (domain d) (:action a) (:action a :effect (q)))",
            "(define (problem p) (:init (r)) (:goal ()))",
            Some((Side::Domain, CheckKind::Duplicate, "a", 40)),
        ),
    ];
    for (domain, problem, want) in rows {
        assert!(rt;
            is_answer(checked(alloc, domain, problem), want),
            "{domain} {problem}"
        );
    }
    Ok(())
}

fn is_typed_well(pair: &Checked) -> bool {
    if pair.objects() != 3 {
        return false;
    }
    let van = pair.object(1);
    let truck = match pair.domain().types.as_slice().first() {
        Some(kind) => &kind.name,
        None => return false,
    };
    van.name.text.as_slice() == b"v".as_slice()
        && van.kind.text.as_slice() == b"van".as_slice()
        && pair.fits(1, truck)
        && !pair.fits(0, truck)
}

/// A name, and its number as an object, a predicate, a function and an action.
type Row = (
    &'static [u8],
    Option<u32>,
    Option<u32>,
    Option<u32>,
    Option<u32>,
);

fn are_read(pair: &Checked, rows: &[Row]) -> bool {
    for row in rows {
        if pair.object_number(row.0) != row.1
            || pair.predicate_number(row.0) != row.2
            || pair.function_number(row.0) != row.3
            || pair.schema_number(row.0) != row.4
        {
            return false;
        }
    }
    true
}

// The pair of an answer.
fn pair_of(found: Option<Result<Checked, CheckFault>>) -> Option<Checked> {
    match found {
        Some(Ok(pair)) => Some(pair),
        Some(Err(_)) => None,
        None => None,
    }
}

#[test]
fn reads_of_a_checked_pair(rt: HostRuntime) -> Result<(), Fail> {
    let problem = "(define (problem p) (:objects v - van o) (:init) (:goal ()))";
    let rows: [Row; 9] = [
        (b"l0", Some(0), None, None, None),
        (b"v", Some(1), None, None, None),
        (b"o", Some(2), None, None, None),
        (b"free", None, Some(1), None, None),
        (b"load", None, None, Some(0), None),
        (b"total", None, None, Some(1), None),
        (b"go", None, None, None, Some(0)),
        (b"stay", None, None, None, Some(1)),
        (b"van", None, None, None, None),
    ];
    match pair_of(checked(rt.alloc(), TYPED, problem)) {
        Some(pair) => {
            let held = is_typed_well(&pair) && are_read(&pair, &rows);
            pair.discard();
            assert!(rt; held);
            Ok(())
        }
        None => Err(Fail::new("the pair was refused")),
    }
}
