//! The sizes of the ground tasks of small pairs, and the reasons against pairs that have none.

use crate::pairs::{discard, grounded};
use ground_meaning::GroundFault;
use ground_task::Task;
use pddl_terms::What;
use pddl_types::Side;
use std::alloc::Global;
use std::test::Fail;

/// What is to be answered to a pair.
#[derive(Clone, Copy)]
enum Wanted {
    /// A task with so many facts, fluents and actions.
    Sizes(usize, usize, usize),
    /// A fluent without first value.
    Unset(&'static str),
    /// A divisor without inverse, at this place of a file.
    Divide(Side, u32),
    /// Too many places for this fluent or action, or for the goal.
    Places(&'static str),
    /// A number out of range in this action or the goal, or the first value of this fluent.
    Range(&'static str),
    /// More than so many of these.
    TooMany(What, u32),
}

fn has_sizes(task: &Task, wanted: Wanted) -> bool {
    let raw = task.raw();
    match wanted {
        Wanted::Sizes(facts, fluents, actions) => {
            raw.facts.len() == facts && raw.fluents.len() == fluents && raw.actions.len() == actions
        }
        _ => false,
    }
}

fn is_refused(fault: &GroundFault, wanted: Wanted) -> bool {
    match (fault, wanted) {
        (GroundFault::Unset(text), Wanted::Unset(name)) => text.as_slice() == name.as_bytes(),
        (GroundFault::Divide(side, at), Wanted::Divide(in_file, place)) => {
            *side == in_file && *at == place
        }
        (GroundFault::Places(text), Wanted::Places(name)) => text.as_slice() == name.as_bytes(),
        (GroundFault::Range(text), Wanted::Range(name)) => text.as_slice() == name.as_bytes(),
        (GroundFault::TooMany(what, limit), Wanted::TooMany(kind, most)) => {
            *what == kind && *limit == most
        }
        _ => false,
    }
}

// Whether the answer to a pair of texts is the wanted one.
fn is_answer(alloc: Global, domain: &str, problem: &str, wanted: Wanted) -> bool {
    match grounded(alloc, domain, problem) {
        Some(Ok(task)) => {
            let same = has_sizes(&task, wanted);
            discard(task);
            same
        }
        Some(Err(fault)) => is_refused(&fault, wanted),
        None => false,
    }
}
// The texts of a domain and a problem, and what grounding is to answer.
static ROWS: [(&str, &str, Wanted); 24] = [
    // pairs with a ground task, of which what no action changes and what nothing reads is left out
    (
        "(define (domain d) (:functions (x)) (:action inc :effect (increase (x) 1)))",
        "(define (problem p) (:domain d) (:init (= (x) 0)) (:goal (>= (x) 3)))",
        Wanted::Sizes(0, 1, 1),
    ),
    (
        "(define (domain d) (:predicates (at ?l)) (:functions (dist ?a ?b) (fuel))
 (:action move :parameters (?a ?b) :precondition (and (at ?a) (>= (fuel) (dist ?a ?b)))
  :effect (and (not (at ?a)) (at ?b) (decrease (fuel) (dist ?a ?b)))))",
        "(define (problem p) (:domain d) (:objects l0 l1 l2)
 (:init (at l0) (= (dist l0 l1) 2) (= (dist l1 l2) 3) (= (fuel) 5)) (:goal (at l2)))",
        Wanted::Sizes(3, 1, 2),
    ),
    (
        "(define (domain farms) (:types farm)
 (:predicates (near ?a ?b - farm)) (:functions (hands ?f - farm) (cost))
 (:action walk :parameters (?a ?b - farm)
  :precondition (and (not (= ?a ?b)) (>= (hands ?a) 1) (near ?a ?b))
  :effect (and (decrease (hands ?a) 1) (increase (hands ?b) 1)))
 (:action ride :parameters (?a ?b - farm)
  :precondition (and (not (= ?a ?b)) (>= (hands ?a) 4) (near ?a ?b))
  :effect (and (decrease (hands ?a) 4) (increase (hands ?b) 2) (increase (cost) 1))))",
        "(define (problem six) (:domain farms) (:objects f0 f1 f2 f3 f4 f5 - farm)
 (:init (near f0 f1) (near f1 f0) (near f1 f2) (near f2 f1) (near f2 f3) (near f3 f2)
  (near f3 f4) (near f4 f3) (near f4 f5) (near f5 f4)
  (= (hands f0) 8) (= (hands f1) 0) (= (hands f2) 0) (= (hands f3) 0) (= (hands f4) 0)
  (= (hands f5) 0) (= (cost) 0))
 (:goal (and (>= (hands f5) 0) (>= (+ (* 1.7 (hands f1)) (hands f0)) 9.4))))",
        Wanted::Sizes(0, 6, 20),
    ),
    (
        "(define (domain d) (:functions (x ?f))
 (:action mix :parameters (?f ?g) :effect (and (assign (x ?f) 3) (increase (x ?g) 1))))",
        "(define (problem p) (:domain d) (:objects a b) (:init (= (x a) 0) (= (x b) 0)) (:goal (= (x a) 3)))",
        Wanted::Sizes(0, 1, 2),
    ),
    (
        "(define (domain d) (:functions (x) (y) (z) (cost))
 (:action a :effect (and (increase (x) (y)) (increase (cost) (* 2 (x)))))
 (:action b :effect (increase (y) (z)))
 (:action c :effect (scale-up (z) 2)))",
        "(define (problem p) (:domain d)
 (:init (= (x) 0) (= (y) 0) (= (z) 1) (= (cost) 0)) (:goal (>= (x) 3)))",
        Wanted::Sizes(0, 3, 3),
    ),
    (
        "(define (domain d) (:predicates (s)) (:action a :precondition (s) :effect (not (s))))",
        "(define (problem p) (:domain d) (:init (s)) (:goal ()))",
        Wanted::Sizes(1, 0, 1),
    ),
    (
        "(define (domain d) (:predicates (s) (p)) (:action a :precondition (s) :effect (p))
 (:action b :effect (p)))",
        "(define (problem p) (:domain d) (:init) (:goal (p)))",
        Wanted::Sizes(1, 0, 1),
    ),
    // a fluent without first value that is assigned, or read by the goal
    (
        "(define (domain d) (:functions (x) (level)) (:action fill :effect (assign (level) 1)))",
        "(define (problem p) (:domain d) (:init (= (x) 0)) (:goal (>= (x) 1)))",
        Wanted::Unset("(level)"),
    ),
    (
        "(define (domain d) (:functions (x)) (:action inc :effect (increase (x) 1)))",
        "(define (problem p) (:domain d) (:init) (:goal (>= (x) 1)))",
        Wanted::Unset("(x)"),
    ),
    // a divisor without inverse, in a precondition and in the goal, and one with an inverse
    (
        "(define (domain d) (:functions (x) (n))
 (:action a :precondition (> (/ (x) (n)) 0) :effect (increase (x) 1)))",
        "(define (problem p) (:domain d) (:init (= (x) 8) (= (n) 3)) (:goal (<= (x) 2)))",
        Wanted::Divide(Side::Domain, 77),
    ),
    (
        "(define (domain d) (:functions (x) (n)) (:action a :effect (increase (x) 1)))",
        "(define (problem p) (:domain d) (:init (= (x) 8) (= (n) 3)) (:goal (> (/ (x) (n)) 9)))",
        Wanted::Divide(Side::Problem, 78),
    ),
    (
        "(define (domain d) (:functions (x) (n))
 (:action a :precondition (> (/ (x) (n)) 0) :effect (increase (x) 1)))",
        "(define (problem p) (:domain d) (:init (= (x) 8) (= (n) 4)) (:goal (<= (x) 2)))",
        Wanted::Sizes(0, 1, 1),
    ),
    // too many places for a fluent, an action, the goal
    (
        "(define (domain d) (:functions (x)) (:action half :effect (assign (x) (* 0.5 (x)))))",
        "(define (problem p) (:domain d) (:init (= (x) 1)) (:goal (< (x) 1)))",
        Wanted::Places("(x)"),
    ),
    (
        "(define (domain d) (:functions (x) (y))
 (:action a :precondition (>= (* (* (x) (y)) 0.1) 0)
  :effect (and (increase (x) 1) (increase (y) 1))))",
        "(define (problem p) (:domain d) (:init (= (x) 0.000000001) (= (y) 0.000000001)) (:goal ()))",
        Wanted::Places("(a)"),
    ),
    (
        "(define (domain d) (:functions (x)) (:action a :effect (increase (x) 1)))",
        "(define (problem p) (:domain d)
 (:init (= (x) 0.000000001)) (:goal (>= (* (* (x) (x)) 0.1) 3)))",
        Wanted::Places("goal"),
    ),
    // a sum of constants out of range, a first value, a product of the goal
    (
        "(define (domain d) (:functions (x))
 (:action a :effect (and (increase (x) 100000000000000000000000000000000000000)
  (increase (x) 100000000000000000000000000000000000000))))",
        "(define (problem p) (:domain d) (:init (= (x) 0)) (:goal (>= (x) 2)))",
        Wanted::Range("(a)"),
    ),
    (
        "(define (domain d) (:functions (x)) (:action a :effect (increase (x) 0.1)))",
        "(define (problem p) (:domain d)
 (:init (= (x) 100000000000000000000000000000000000000)) (:goal (>= (x) 2)))",
        Wanted::Range("(x)"),
    ),
    (
        "(define (domain d) (:functions (x)) (:action a :effect (increase (x) 0.1)))",
        "(define (problem p) (:domain d) (:init (= (x) 0))
 (:goal (>= (x) (* 100000000000000000000 100000000000000000000))))",
        Wanted::Range("goal"),
    ),
    // as many facts as may be, and one row of them more
    (
        "(define (domain d) (:predicates (p ?x ?y)) (:action a :parameters (?x ?y) :effect (p ?x ?y)))",
        "(define (problem p) (:domain d)
 (:objects ai aj ak al am an ao ap bi bj bk bl bm bn bo bp ci cj ck cl cm cn co cp di dj dk dl dm dn do dp ei ej ek el em en eo ep fi fj fk fl fm fn fo fp gi gj gk gl gm gn go gp hi hj hk hl hm hn ho hp)
 (:init) (:goal ()))",
        Wanted::Sizes(4_096, 0, 4_096),
    ),
    (
        "(define (domain d) (:predicates (p ?x ?y)) (:action a :parameters (?x ?y) :effect (p ?x ?y)))",
        "(define (problem p) (:domain d)
 (:objects ai aj ak al am an ao ap bi bj bk bl bm bn bo bp ci cj ck cl cm cn co cp di dj dk dl dm dn do dp ei ej ek el em en eo ep fi fj fk fl fm fn fo fp gi gj gk gl gm gn go gp hi hj hk hl hm hn ho hp q)
 (:init) (:goal ()))",
        Wanted::TooMany(What::Facts, 4_096),
    ),
    // as many actions as may be, and one more
    (
        "(define (domain d) (:types s t) (:predicates (p))
 (:action a :parameters (?a ?b ?c ?d - s ?e - t) :effect (p)))",
        "(define (problem p) (:domain d)
 (:objects a b c d e - s
  ai aj ak al am an ao ap bi bj bk bl bm bn bo bp ci cj ck cl cm cn co cp di dj dk dl dm dn do dp - t)
 (:init) (:goal ()))",
        Wanted::Sizes(1, 0, 20_000),
    ),
    (
        "(define (domain d) (:types s t) (:predicates (p))
 (:action a :parameters (?a ?b ?c ?d - s ?e - t) :effect (p))
 (:action b :effect (p)))",
        "(define (problem p) (:domain d)
 (:objects a b c d e - s
  ai aj ak al am an ao ap bi bj bk bl bm bn bo bp ci cj ck cl cm cn co cp di dj dk dl dm dn do dp - t)
 (:init) (:goal ()))",
        Wanted::TooMany(What::Actions, 20_000),
    ),
    // too many bindings of the first parameters; those that are excluded aren't counted
    (
        "(define (domain d) (:predicates (p) (s ?o))
 (:action a :parameters (?a ?b ?c ?d ?e ?f ?g ?h) :effect (p)))",
        "(define (problem p) (:domain d) (:objects a b c d e f g) (:init (s a)) (:goal ()))",
        Wanted::TooMany(What::Prefixes, 5_000_000),
    ),
    (
        "(define (domain d) (:predicates (p) (s ?o))
 (:action a :parameters (?a ?b ?c ?d ?e ?f ?g ?h)
  :precondition (and (s ?a) (s ?b) (s ?c) (s ?d) (s ?e) (s ?f) (s ?g) (s ?h)) :effect (p)))",
        "(define (problem p) (:domain d) (:objects a b c d e f g) (:init (s a)) (:goal ()))",
        Wanted::Sizes(1, 0, 1),
    ),
];

#[test]
fn pairs_have_tasks_or_refusals(rt: HostRuntime) -> Result<(), Fail> {
    let alloc = rt.alloc();
    for (i, &(domain, problem, wanted)) in ROWS.iter().enumerate() {
        assert!(rt; is_answer(alloc, domain, problem, wanted), "row {i}");
    }
    Ok(())
}
