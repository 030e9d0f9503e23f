//! The estimates of states of pairs of texts, which another program computed from the equations alone.

ghost use Rattle.std.specs.Prelude.{IfSome};
ghost use Rattle.ground_task.specs.Tasks.{IsStateOf};

use ground_task::{Applied, State, Task};
use grounder::ground;
use pair_text::read_pair;
use simple_atoms::FAR;
use std::alloc::Global;
use std::test::Fail;
use subgoal::estimate;

/// The texts of a domain and a problem.
type Texts = (&'static str, &'static str);

// Increments by 1.
const STEPS: Texts = (
    "(define (domain d) (:functions (x)) (:action inc :effect (increase (x) 1)))",
    "(define (problem p) (:domain d) (:init (= (x) 0)) (:goal (>= (x) 3)))",
);

// Increments by 0.1 under a guard.
const TENTHS: Texts = (
    "(define (domain d) (:functions (x))
 (:action inc :precondition (< (x) 3) :effect (increase (x) 0.1)))",
    "(define (problem p) (:domain d) (:init (= (x) 0)) (:goal (= (x) 3)))",
);

// An action that leads away.
const FALLING: Texts = (
    "(define (domain d) (:functions (x)) (:action dec :effect (decrease (x) 1)))",
    "(define (problem p) (:domain d) (:init (= (x) 0)) (:goal (>= (x) 1)))",
);

// A trip with fuel.
const TRIP: Texts = (
    "(define (domain d) (:predicates (at ?l)) (:functions (dist ?a ?b) (fuel))
 (:action move :parameters (?a ?b) :precondition (and (at ?a) (>= (fuel) (dist ?a ?b)))
  :effect (and (not (at ?a)) (at ?b) (decrease (fuel) (dist ?a ?b)))))",
    "(define (problem p) (:domain d) (:objects l0 l1 l2)
 (:init (at l0) (= (dist l0 l1) 2) (= (dist l1 l2) 3) (= (fuel) 5)) (:goal (at l2)))",
);

// Hands on farms.
const FARMS: Texts = (
    "(define (domain farms) (:types farm)
 (:predicates (near ?a ?b - farm)) (:functions (hands ?f - farm) (cost))
 (:action walk :parameters (?a ?b - farm)
  :precondition (and (not (= ?a ?b)) (>= (hands ?a) 1) (near ?a ?b))
  :effect (and (decrease (hands ?a) 1) (increase (hands ?b) 1)))
 (:action ride :parameters (?a ?b - farm)
  :precondition (and (not (= ?a ?b)) (>= (hands ?a) 4) (near ?a ?b))
  :effect (and (decrease (hands ?a) 4) (increase (hands ?b) 2) (increase (cost) 1))))",
    "(define (problem six) (:domain farms) (:objects f0 f1 f2 f3 f4 f5 - farm)
 (:init (near f0 f1) (near f1 f0) (near f1 f2) (near f2 f1) (near f2 f3) (near f3 f2)
  (near f3 f4) (near f4 f3) (near f4 f5) (near f5 f4)
  (= (hands f0) 8) (= (hands f1) 0) (= (hands f2) 0) (= (hands f3) 0) (= (hands f4) 0)
  (= (hands f5) 0) (= (cost) 0))
 (:goal (and (>= (hands f5) 0) (>= (+ (* 1.7 (hands f1)) (hands f0)) 9.4))))",
);

// Five pairs made at random, by a generator of pairs with the seeds 160, 328, 1320, 1634 and 1856.
const LARGE: Texts = (
    "(define (domain d) (:requirements :action-costs) (:predicates (p0) (p1 ?x0)) (:functions
 (f0) (f1) (f2 ?x0)) (:action a0 :parameters (?a) :precondition (and (> (f1) 0)) :effect (and
 (decrease (f1) 1) (p1 ?a) (p1 ?a))) (:action a1 :parameters (?a ?b - object) :precondition
 (or (>= (f0) 5)) :effect (increase (f1) 1)))",
    "(define (problem p) (:domain d) (:objects o0 o1 o2 o3 - object) (:init (= (f0)
 -170141183460469231731687303715884105726) (= (f1) 170141183460469231731687303715884105725)
 (p0) (= (f2 o0) -1) (= (f2 o1) 170141183460469231731687303715884105727) (= (f2 o2) 5) (p1
 o3) (= (f2 o3) 18446744073709551616) (p1 o2) (p1 o0)) (:goal (and (= (f1)
 170141183460469231731687303715884105721) (p1 o1) (not (= (f1)
 170141183460469231731687303715884105721)))))",
);

const QUARTERS: Texts = (
    "(define (domain d) (:requirements) (:types t0 - object t1 - t0) (:predicates (p0 ?x0 - t1)
 (p1)) (:functions (f0 ?x0) (f1) (f2)) (:action a0 :parameters (?a - t0) :precondition (and
 (<= (f1) 2)) :effect (increase (f1) 0.25)) (:action a1 :precondition () :effect (not (p1)))
 (:action a2 :effect (decrease (f1) 0.1)) (:action a3 :parameters (?a ?b - t0) :effect
 (increase (f1) .5)))",
    "(define (problem p) (:domain d) (:objects o0 - t1 o1 - t0) (:init (p0 o0) (= (f0 o1) 0) (=
 (f1) 1) (= (f2) 7)) (:goal (and (<= (f1) 0.9))))",
);

const SCALED: Texts = (
    "(define (domain d) (:functions (f0 ?x0) (f1)) (:action a0 :parameters (?a ?b - object)
 :precondition (and (> (f0 ?a) 1) (< (f1) 5)) :effect (and (increase (f0 ?a) -3) (increase
 (f1) (f0 ?a)))) (:action a1 :parameters (?a ?b) :effect (and (increase (f1) -1) (scale-up
 (f0 ?a) 10))))",
    "(define (problem p) (:domain d) (:objects o0 o1 o2 o3) (:init (= (f0 o0) 2) (= (f0 o1) 10)
 (= (f0 o2) 7) (= (f0 o3) 1) (= (f1) 2)) (:goal (and (< (f0 o2) 3.5) (> (f1) 7) (>= (f0 o3)
 10))))",
);

const HALVED: Texts = (
    "(define (domain d) (:constants o0 o1) (:predicates (p0) (p1 ?x0 - object) (p2 ?x0))
 (:functions (f0) (f1) - number (f2) - number) (:action a0 :parameters (?a ?b) :precondition
 (and (> 3 (f1)) (= ?a ?b)) :effect (increase (f1) (f0))) (:action a1 :precondition (and
 (imply () ()) (and ())) :effect (decrease (f1) (* (- (f0) 4) 1))))",
    "(define (problem p) (:domain d) (:init (p1 o0) (p1 o1) (p2 o1) (= (f0) 5) (= (f1) -2) (=
 (f2) 7)) (:goal (and (or (= -2 (* 0.5 (f1)))))))",
);

const DOUBLED: Texts = (
    "(define (domain d) (:action a2 :effect (increase (f1) 10) :parameters (?a)) (:action a1
 :parameters (?a) :precondition (and (>= (f1) 1) (<= (f1) -2)) :effect (decrease (f1) (f1)))
 (:action a0 :parameters (?a - object) :precondition (and (>= (f1) -1)) :effect (and
 (increase (f1) 1) (decrease (f1) 2))) (:functions (f0) - number (f1)))",
    "(define (problem p) (:objects o0 o1) (:init (= (f1) 10) (= (f0) 4)) (:goal (and (= (+ (f1)
 (f1)) 38) (>= (f1) 19))) (:domain d))",
);

// A pair, the numbers of the actions that lead from its initial state to a state, and the estimate of that state.
static ROWS: [(Texts, &[u32], u32); 53] = [
    (STEPS, &[], 3),
    (STEPS, &[0], 2),
    (STEPS, &[0, 0, 0], 0),
    (TENTHS, &[], 30),
    (TENTHS, &[0], 29),
    (FALLING, &[], FAR),
    (TRIP, &[], 2),
    (TRIP, &[0], 1),
    (TRIP, &[0, 1], 0),
    (FARMS, &[], 2),
    (FARMS, &[0], 1),
    (FARMS, &[0, 0], 0),
    (FARMS, &[10], 3),
    (LARGE, &[0, 2, 3, 1], 1),
    (LARGE, &[0, 2, 3], 2),
    (LARGE, &[0, 2], 3),
    (LARGE, &[0], 4),
    (LARGE, &[], 5),
    (LARGE, &[0, 2, 3, 1, 2], FAR),
    (LARGE, &[3, 1, 3], 1),
    (LARGE, &[2, 0, 2, 0], 2),
    (QUARTERS, &[3], 0),
    (QUARTERS, &[], 1),
    (QUARTERS, &[2, 2, 3, 1], 3),
    (QUARTERS, &[0], 4),
    (QUARTERS, &[4, 3], 5),
    (QUARTERS, &[5], 6),
    (QUARTERS, &[1, 3, 6, 3], 7),
    (QUARTERS, &[5, 2, 2, 3, 1], 8),
    (SCALED, &[4, 20, 20, 29], 1),
    (SCALED, &[4], 2),
    (SCALED, &[], 3),
    (SCALED, &[8, 16, 29, 21], 4),
    (SCALED, &[8, 16, 29], 5),
    (SCALED, &[11, 20, 18], 6),
    (SCALED, &[18, 4, 29, 23, 27], 1),
    (SCALED, &[6, 20, 24, 24, 25], 2),
    (HALVED, &[2, 2], 0),
    (HALVED, &[2], 1),
    (HALVED, &[], 2),
    (HALVED, &[2, 2, 2, 2, 0], 3),
    (HALVED, &[0, 2, 2, 2], 4),
    (HALVED, &[2, 1, 2], 5),
    (HALVED, &[0, 2], 6),
    (HALVED, &[0], 7),
    (DOUBLED, &[0, 4], 0),
    (DOUBLED, &[0], 1),
    (DOUBLED, &[], 2),
    (DOUBLED, &[5, 4], 4),
    (DOUBLED, &[5, 4, 1, 1, 5], 8),
    (DOUBLED, &[5, 4, 1, 1], 9),
    (DOUBLED, &[4, 0, 1], 10),
    (DOUBLED, &[1, 1], 11),
];

// The ground task of two texts; none where there is no such task, or a text is long.
fn task_of(alloc: Global, texts: Texts) -> Option<Task> {
    let (domain, problem) = texts;
    if domain.len() > 1024 || problem.len() > 1024 {
        return None;
    }
    let pair = read_pair(alloc, domain.as_bytes(), problem.as_bytes()).ok()?;
    let task = ground(alloc, &pair).ok();
    pair.discard();
    task
}

// The state after an action; none where the action isn't applicable.
fn after(alloc: Global, task: &Task, state: &State, action: u32) -> Option<State>
    requires of_task { IsStateOf task.now state.now }
    ensures of_task { IfSome result (IsStateOf task.now) }
{
    if action as usize >= task.raw().actions.len() {
        return None;
    }
    match task.apply(alloc, state, action).ok()? {
        Applied::Next(next) => Some(next),
        _ => None,
    }
}

// The state to which actions lead from the initial one.
fn reached(alloc: Global, task: &Task, actions: &[u32]) -> Option<State>
    ensures of_task { IfSome result (IsStateOf task.now) }
{
    let mut state = task.first().copy(alloc).ok()?;
    'steps: for action in actions {
        state = after(alloc, task, &state, *action)?;
    }
    Some(state)
}

fn estimate_after(alloc: Global, task: &Task, actions: &[u32]) -> Option<u32> {
    let state = reached(alloc, task, actions)?;
    estimate(alloc, task, &state).ok()
}

fn discard(_task: Task) {}

fn estimated(alloc: Global, texts: Texts, actions: &[u32]) -> Option<u32> {
    let task = task_of(alloc, texts)?;
    let found = estimate_after(alloc, &task, actions);
    discard(task);
    found
}

#[test]
fn estimates_of_reached_states(rt: HostRuntime) -> Result<(), Fail> {
    for (i, &(texts, actions, wanted)) in ROWS.iter().enumerate() {
        let found = estimated(rt.alloc(), texts, actions);
        assert_eq!(rt; found, Some(wanted), "row {i}");
    }
    Ok(())
}
