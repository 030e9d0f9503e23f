//! Searches by one worker: the answer, the events, the nodes' statuses, and what is kept beside them.

ghost use Rattle.std.specs.Prelude.{◌<◌, ◌≤◌, IfSome};

use crate::searches::{Ended, discard_end, leads_to, searched, task_of};
use explored::Most;
use num_ends::NoMemory;
use search_alone::solve_alone;
use search_records::Record;
use search_runs::{Answer, Event, Full, Site, Status};
use std::alloc::Global;
use std::test::Fail;

/// The texts of a task, the greatest numbers of expansions, states and boxes, and what is to be found.
struct Row {
    domain: &'static str,
    problem: &'static str,
    limit: u32,
    states: u32,
    boxes: u32,
    answer: Answer,
    events: &'static [Event],
    statuses: &'static [Status],
    kept: usize,
    over: Option<(u32, Site)>,
    full: Option<Full>,
}

// The bounds of the program.
const STATES: u32 = 500_000;

const BOXES: u32 = 40_000;

const ENOUGH: u32 = 100;

const UP: &str = "(define (domain d) (:functions (x)) (:action inc :effect (increase (x) 1)))";

const DOWN_AND_UP: &str =
    "(define (domain d) (:functions (x)) (:action dec :effect (decrease (x) 1))
 (:action inc :effect (increase (x) 1)))";

const SQUARE: &str =
    "(define (domain d) (:functions (x)) (:action square :effect (assign (x) (* (x) (x)))))";

// From s to a, b, c or d, and from c to the goal g.
const FORK: &str = "(define (domain d) (:predicates (s) (a) (b) (c) (d) (g))
 (:action to-a :precondition (s) :effect (and (not (s)) (a)))
 (:action to-b :precondition (s) :effect (and (not (s)) (b)))
 (:action to-c :precondition (s) :effect (and (not (s)) (c)))
 (:action to-d :precondition (s) :effect (and (not (s)) (d)))
 (:action last :precondition (c) :effect (g)))";

const TO_G: &str =
    "(define (problem p) (:domain d) (:init (s)) (:goal (or (g) (and (a) (b) (d)))))";

const TO_C: &str =
    "(define (problem p) (:domain d) (:init (s)) (:goal (or (c) (g) (and (a) (b) (d)))))";

use Event::{Give, Start, Take};
use Status::{Closed, Dead, Goal, Waiting};

static ROWS: [Row; 21] = [
    // plans: to the initial state, with as many expansions as are needed, by the node of least estimate first, and with all
    // that the last node leads to
    Row {
        domain: UP,
        problem: "(define (problem p) (:domain d) (:init (= (x) 0)) (:goal (= (x) 0)))",
        limit: 0,
        states: STATES,
        boxes: BOXES,
        answer: Answer::Plan(0),
        events: &[Start],
        statuses: &[Goal],
        kept: 0,
        over: None,
        full: None,
    },
    Row {
        domain: UP,
        problem: "(define (problem p) (:domain d) (:init (= (x) 0)) (:goal (>= (x) 3)))",
        limit: 3,
        states: STATES,
        boxes: BOXES,
        answer: Answer::Plan(3),
        events: &[
            Start,
            Take(0, 0),
            Give(0, 0),
            Take(0, 1),
            Give(0, 1),
            Take(0, 2),
            Give(0, 2),
        ],
        statuses: &[Closed, Closed, Closed, Goal],
        kept: 0,
        over: None,
        full: None,
    },
    Row {
        domain: DOWN_AND_UP,
        problem: "(define (problem p) (:domain d) (:init (= (x) 0)) (:goal (>= (x) 2)))",
        limit: ENOUGH,
        states: STATES,
        boxes: BOXES,
        answer: Answer::Plan(3),
        events: &[Start, Take(0, 0), Give(0, 0), Take(0, 2), Give(0, 2)],
        statuses: &[Closed, Waiting(3), Closed, Goal],
        kept: 0,
        over: None,
        full: None,
    },
    Row {
        domain: "(define (domain d) (:functions (x) (y)) (:action incx :effect (increase (x) 1))
 (:action incy :effect (increase (y) 1)))",
        problem: "(define (problem p) (:domain d) (:init (= (x) 0) (= (y) 0)) (:goal (>= (+ (x) (y)) 2)))",
        limit: ENOUGH,
        states: STATES,
        boxes: BOXES,
        answer: Answer::Plan(3),
        events: &[Start, Take(0, 0), Give(0, 0), Take(0, 1), Give(0, 1)],
        statuses: &[Closed, Closed, Waiting(1), Goal, Goal],
        kept: 0,
        over: None,
        full: None,
    },
    Row {
        domain: FORK,
        problem: TO_G,
        limit: ENOUGH,
        states: STATES,
        boxes: BOXES,
        answer: Answer::Plan(5),
        events: &[Start, Take(0, 0), Give(0, 0), Take(0, 3), Give(0, 3)],
        statuses: &[Closed, Dead(0), Dead(1), Closed, Dead(2), Goal],
        kept: 3,
        over: None,
        full: None,
    },
    // the limit of expansions
    Row {
        domain: UP,
        problem: "(define (problem p) (:domain d) (:init (= (x) 0)) (:goal (>= (x) 3)))",
        limit: 2,
        states: STATES,
        boxes: BOXES,
        answer: Answer::Expansions,
        events: &[Start, Take(0, 0), Give(0, 0), Take(0, 1), Give(0, 1)],
        statuses: &[Closed, Closed, Waiting(1)],
        kept: 0,
        over: None,
        full: None,
    },
    Row {
        domain: UP,
        problem: "(define (problem p) (:domain d) (:init (= (x) 0)) (:goal (>= (x) 3)))",
        limit: 0,
        states: STATES,
        boxes: BOXES,
        answer: Answer::Expansions,
        events: &[Start],
        statuses: &[Waiting(3)],
        kept: 0,
        over: None,
        full: None,
    },
    // no plan: the initial state is dead, two states are by one box, and none is
    Row {
        domain: "(define (domain d) (:functions (x)) (:action dec :effect (decrease (x) 1)))",
        problem: "(define (problem p) (:domain d) (:init (= (x) 0)) (:goal (>= (x) 1)))",
        limit: ENOUGH,
        states: STATES,
        boxes: BOXES,
        answer: Answer::Exhausted,
        events: &[Start],
        statuses: &[Dead(0)],
        kept: 1,
        over: None,
        full: None,
    },
    Row {
        domain: "(define (domain d) (:functions (x)) (:action inc :effect (increase (x) 1))
 (:action jump :effect (increase (x) 3)))",
        problem: "(define (problem p) (:domain d) (:init (= (x) 0)) (:goal (= (x) 0.5)))",
        limit: ENOUGH,
        states: STATES,
        boxes: BOXES,
        answer: Answer::Exhausted,
        events: &[Start, Take(0, 0), Give(0, 0)],
        statuses: &[Closed, Dead(0), Dead(0)],
        kept: 1,
        over: None,
        full: None,
    },
    Row {
        domain: "(define (domain d) (:predicates (p) (q))
 (:action there :precondition (p) :effect (and (not (p)) (q)))
 (:action back :precondition (q) :effect (and (not (q)) (p))))",
        problem: "(define (problem p) (:domain d) (:init (p)) (:goal (and (p) (q))))",
        limit: ENOUGH,
        states: STATES,
        boxes: BOXES,
        answer: Answer::Exhausted,
        events: &[Start, Take(0, 0), Give(0, 0), Take(0, 1), Give(0, 1)],
        statuses: &[Closed, Closed],
        kept: 0,
        over: None,
        full: None,
    },
    // a number out of its range: at the goal in the initial state, with a plan and without, and in an action
    Row {
        domain: "(define (domain d) (:functions (x)) (:action set :effect (assign (x) 1)))",
        problem: "(define (problem p) (:domain d) (:init (= (x) 100000000000000000000)) (:goal (> (* (x) (x)) 0)))",
        limit: ENOUGH,
        states: STATES,
        boxes: BOXES,
        answer: Answer::Plan(1),
        events: &[Start, Take(0, 0), Give(0, 0)],
        statuses: &[Closed, Goal],
        kept: 0,
        over: Some((0, Site::Goal)),
        full: None,
    },
    Row {
        domain: "(define (domain d) (:functions (x)) (:action set :effect (assign (x) 200000000000000000000)))",
        problem: "(define (problem p) (:domain d) (:init (= (x) 100000000000000000000)) (:goal (> (* (x) (x)) 0)))",
        limit: ENOUGH,
        states: STATES,
        boxes: BOXES,
        answer: Answer::Over(0, Site::Goal),
        events: &[Start, Take(0, 0), Give(0, 0), Take(0, 1), Give(0, 1)],
        statuses: &[Closed, Closed],
        kept: 0,
        over: Some((0, Site::Goal)),
        full: None,
    },
    Row {
        domain: SQUARE,
        problem: "(define (problem p) (:domain d) (:init (= (x) 100000000000000000000)) (:goal (< (x) 0)))",
        limit: ENOUGH,
        states: STATES,
        boxes: BOXES,
        answer: Answer::Over(0, Site::Action(0)),
        events: &[Start, Take(0, 0), Give(0, 0)],
        statuses: &[Closed],
        kept: 0,
        over: Some((0, Site::Action(0))),
        full: None,
    },
    Row {
        domain: SQUARE,
        problem: "(define (problem p) (:domain d) (:init (= (x) 100000000000000)) (:goal (< (x) 0)))",
        limit: ENOUGH,
        states: STATES,
        boxes: BOXES,
        answer: Answer::Over(1, Site::Action(0)),
        events: &[Start, Take(0, 0), Give(0, 0), Take(0, 1), Give(0, 1)],
        statuses: &[Closed, Closed],
        kept: 0,
        over: Some((1, Site::Action(0))),
        full: None,
    },
    Row {
        domain: "(define (domain d) (:functions (x)) (:action square :effect (assign (x) (* (x) (x))))
 (:action set :effect (assign (x) -1)))",
        problem: "(define (problem p) (:domain d) (:init (= (x) 100000000000000000000)) (:goal (< (x) 0)))",
        limit: ENOUGH,
        states: STATES,
        boxes: BOXES,
        answer: Answer::Plan(1),
        events: &[Start, Take(0, 0), Give(0, 0)],
        statuses: &[Closed, Goal],
        kept: 0,
        over: Some((0, Site::Action(0))),
        full: None,
    },
    // no room for a second box, for a third state, for a second one, for both; a box first, then a state; and the goal behind
    // the mark
    Row {
        domain: FORK,
        problem: TO_G,
        limit: ENOUGH,
        states: STATES,
        boxes: 1,
        answer: Answer::Filled(Full::Boxes),
        events: &[Start, Take(0, 0), Give(0, 0)],
        statuses: &[Closed, Dead(0), Waiting(1)],
        kept: 1,
        over: None,
        full: Some(Full::Boxes),
    },
    Row {
        domain: FORK,
        problem: TO_G,
        limit: ENOUGH,
        states: 2,
        boxes: BOXES,
        answer: Answer::Filled(Full::States),
        events: &[Start, Take(0, 0), Give(0, 0)],
        statuses: &[Closed, Dead(0)],
        kept: 1,
        over: None,
        full: Some(Full::States),
    },
    Row {
        domain: FORK,
        problem: TO_G,
        limit: ENOUGH,
        states: 1,
        boxes: BOXES,
        answer: Answer::Filled(Full::States),
        events: &[Start, Take(0, 0), Give(0, 0)],
        statuses: &[Closed],
        kept: 0,
        over: None,
        full: Some(Full::States),
    },
    Row {
        domain: FORK,
        problem: TO_G,
        limit: ENOUGH,
        states: 2,
        boxes: 1,
        answer: Answer::Filled(Full::States),
        events: &[Start, Take(0, 0), Give(0, 0)],
        statuses: &[Closed, Dead(0)],
        kept: 1,
        over: None,
        full: Some(Full::States),
    },
    Row {
        domain: FORK,
        problem: TO_G,
        limit: ENOUGH,
        states: 3,
        boxes: 1,
        answer: Answer::Filled(Full::Boxes),
        events: &[Start, Take(0, 0), Give(0, 0)],
        statuses: &[Closed, Dead(0), Waiting(1)],
        kept: 1,
        over: None,
        full: Some(Full::Boxes),
    },
    Row {
        domain: FORK,
        problem: TO_C,
        limit: ENOUGH,
        states: STATES,
        boxes: 1,
        answer: Answer::Plan(2),
        events: &[Start, Take(0, 0), Give(0, 0)],
        statuses: &[Closed, Dead(0), Goal],
        kept: 1,
        over: None,
        full: Some(Full::Boxes),
    },
];

fn is_record(found: &Record, row: &Row) -> bool {
    found.limit == row.limit
        && leads_to(found, row.events, row.statuses)
        && found.boxes.len() == row.kept
        && found.over == row.over
        && found.full == row.full
}

fn is_end(ended: &Ended, row: &Row) -> bool {
    ended.answer == Some(row.answer) && is_record(&ended.record, row)
}

fn discard_record(_record: Record) {}

// The bounds of a row; none where one is 0 or too great.
fn bounds(row: &Row) -> Option<Most>
    ensures { IfSome result (λ most. (0 < most.states) × (0 < most.boxes) × (most.states ≤ 1000000000) × (most.boxes ≤ 1000000000)) }
{
    let Row { states, boxes, .. } = *row;
    if states == 0 || boxes == 0 || states > 500_000 || boxes > 40_000 {
        return None;
    }
    Some(Most { states, boxes })
}

// Whether the search of a row, taken and expanded node by node, ends so.
fn is_searched(alloc: Global, row: &Row) -> Result<bool, NoMemory> {
    let Some(most) = bounds(row) else {
        return Ok(false);
    };
    let Some(task) = task_of(alloc, row.domain, row.problem) else {
        return Ok(false);
    };
    let ended = searched(alloc, task, row.limit, most)?;
    let same = is_end(&ended, row);
    discard_end(ended);
    Ok(same)
}

// Whether the search at one go ends so, where the bounds are those of the program.
fn is_solved(alloc: Global, row: &Row) -> Result<bool, NoMemory> {
    let Some(task) = task_of(alloc, row.domain, row.problem) else {
        return Ok(false);
    };
    let record = solve_alone(alloc, task, row.limit)?;
    let same = is_record(&record, row);
    discard_record(record);
    Ok(same)
}

#[test]
fn nodes_are_taken_and_expanded(rt: HostRuntime) -> Result<(), Fail> {
    for (i, row) in ROWS.iter().enumerate() {
        assert!(rt; is_searched(rt.alloc(), row)?, "row {i}");
    }
    Ok(())
}

#[test]
fn tasks_are_searched_at_one_go(rt: HostRuntime) -> Result<(), Fail> {
    for (i, row) in ROWS.iter().enumerate() {
        let own = row.states == STATES && row.boxes == BOXES;
        assert!(rt; !own || is_solved(rt.alloc(), row)?, "row {i}");
    }
    Ok(())
}
