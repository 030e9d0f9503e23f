//! Small plans, executed.

use crate::pairs::pair;
use pddl_types::Checked;
use plan_text::read_plan;
use plan_validator::{Verdict, validate};
use std::alloc::Global;
use std::test::Fail;

const COUNTER: &str = "(define (domain d) (:functions (x))
    (:action inc :precondition (< (x) 2) :effect (increase (x) 1)))";

const FAR: &str = "(define (problem p) (:domain d) (:init (= (x) 1)) (:goal (>= (x) 5)))";

const NEAR: &str = "(define (problem p) (:domain d) (:init (= (x) 1)) (:goal (= (x) 2)))";

const UNSET: &str = "(define (problem p) (:domain d) (:init) (:goal (not (= (x) 2))))";

const MOVES: &str = "(define (domain d) (:predicates (at ?l)) (:action move :parameters (?a ?b)
    :precondition (at ?a) :effect (and (not (at ?a)) (at ?b))))";

const PLACES: &str =
    "(define (problem p) (:domain d) (:objects l0 l1) (:init (at l0)) (:goal (at l1)))";

const SQUARE: &str = "(define (domain d) (:functions (x))
    (:action square :effect (assign (x) (* (x) (x)))))";

const GREAT: &str = "(define (problem p) (:init (= (x) 100000000000000000000)) (:goal (< (x) 0)))";

const GREAT_GOAL: &str =
    "(define (problem p) (:init (= (x) 100000000000000000000)) (:goal (< (* (x) (x)) 0)))";

const TRANSFER: &str = "(define (domain d) (:functions (x ?f)) (:action transfer :parameters (?f ?g)
    :precondition (>= (x ?f) 1) :effect (and (decrease (x ?f) 1) (increase (x ?g) 1))))";

const MIX: &str = "(define (domain d) (:functions (x ?f)) (:action mix :parameters (?f ?g)
    :effect (and (assign (x ?f) 3) (increase (x ?g) 1))))";

const TWO: &str =
    "(define (problem p) (:objects a b) (:init (= (x a) 1) (= (x b) 0)) (:goal (= (x a) 1)))";

fn executed(alloc: Global, pair: &Checked, text: &str) -> Option<Verdict> {
    if text.len() > 512 {
        return None;
    }
    let plan = read_plan(alloc, text.as_bytes()).ok()?;
    if plan.len() > 9 {
        return None;
    }
    validate(alloc, pair, plan.as_slice()).ok()
}

// The verdict on a plan for a domain and a problem.
fn verdict_on(alloc: Global, domain: &str, problem: &str, plan: &str) -> Option<Verdict> {
    let pair = pair(alloc, domain, problem)?;
    let verdict = executed(alloc, &pair, plan);
    pair.discard();
    verdict
}

#[test]
fn plans_have_verdicts(rt: HostRuntime) -> Result<(), Fail> {
    let alloc = rt.alloc();
    let rows = [
        (COUNTER, FAR, "(inc)\n(inc)", Verdict::Blocked(2)),
        (COUNTER, FAR, "(inc)", Verdict::NotGoal),
        (COUNTER, FAR, "(inc)\n(dec)\n(inc)", Verdict::Illegal(2)),
        (COUNTER, FAR, "", Verdict::NotGoal),
        (COUNTER, NEAR, "; PLAN 1\n(inc)\n", Verdict::Valid),
        (COUNTER, UNSET, "", Verdict::NotGoal),
        (COUNTER, UNSET, "(inc)", Verdict::Blocked(1)),
        (MOVES, PLACES, "(move l0 l1)", Verdict::Valid),
        (MOVES, PLACES, "(move l0 l9)", Verdict::Illegal(1)),
        (MOVES, PLACES, "(move l0)", Verdict::Illegal(1)),
        (MOVES, PLACES, "(move l1 l0)", Verdict::Blocked(1)),
        (SQUARE, GREAT, "(square)", Verdict::Over(1)),
        (SQUARE, GREAT_GOAL, "", Verdict::OverGoal),
        // effects on one fluent are joined
        (TRANSFER, TWO, "(transfer a a)", Verdict::Valid),
        (TRANSFER, TWO, "(transfer a b)", Verdict::NotGoal),
        (MIX, TWO, "(mix a a)", Verdict::Blocked(1)),
        (MIX, TWO, "(mix b a)\n(mix a b)", Verdict::NotGoal),
    ];
    for (domain, problem, plan, wanted) in rows {
        assert!(rt;
            verdict_on(alloc, domain, problem, plan) == Some(wanted),
            "{plan}"
        );
    }
    Ok(())
}
