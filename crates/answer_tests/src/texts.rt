//! The bytes of each answer.

ghost use Rattle.std.specs.Prelude.{IfSome};
ghost use Rattle.search_records.specs.Records.{IsLegalRecord};
ghost use Rattle.answer_text.specs.Texts.{HasText};

use answer_text::{Unsent, send_answer};
use edge_io::MemorySink;
use num_ends::{List, NoMemory};
use plan_command::search;
use search_records::Record;
use std::alloc::{AllocError, Global};
use std::test::Fail;

/// What a call that sends a text gives, and the bytes that the sink took.
#[derive(Drop)]
pub(crate) struct Sent {
    pub(crate) result: Result<(), Unsent>,
    pub(crate) sink: MemorySink,
}

pub(crate) const UP: &str =
    "(define (domain d) (:functions (x)) (:action inc :effect (increase (x) 1)))";

const DOWN_AND_UP: &str =
    "(define (domain d) (:functions (x)) (:action dec :effect (decrease (x) 1))
 (:action inc :effect (increase (x) 1)))";

const SQUARE: &str =
    "(define (domain d) (:functions (x)) (:action square :effect (assign (x) (* (x) (x)))))";

const RUN_OR_STOP: &str = "(define (domain d) (:predicates (run)) (:functions (x))
 (:action dec :precondition (run) :effect (decrease (x) 1))
 (:action inc :precondition (run) :effect (increase (x) 1))
 (:action stop :precondition (run) :effect (not (run))))";

pub(crate) const THREE: &str =
    "(define (problem p) (:domain d) (:init (= (x) 0)) (:goal (>= (x) 3)))";

const HALF: &str = "(define (problem p) (:domain d) (:init (= (x) 0)) (:goal (= (x) 0.5)))";

const RUNNING: &str =
    "(define (problem p) (:domain d) (:init (run) (= (x) 0)) (:goal (= (x) 0.5)))";

// The texts of a domain and a problem, the greatest number of expansions, and the bytes of the answer.
static ROWS: [(&str, &str, u32, &str); 14] = [
    // plans, one of no steps, and one of actions with objects
    (
        UP,
        "(define (problem p) (:domain d) (:init (= (x) 0)) (:goal (= (x) 0)))",
        0,
        "; PLAN 0\n",
    ),
    (UP, THREE, 3, "; PLAN 3\n(inc)\n(inc)\n(inc)\n"),
    (
        "(define (domain d) (:predicates (at ?l)) (:functions (dist ?a ?b) (fuel))
 (:action move :parameters (?a ?b) :precondition (and (at ?a) (>= (fuel) (dist ?a ?b)))
  :effect (and (not (at ?a)) (at ?b) (decrease (fuel) (dist ?a ?b)))))",
        "(define (problem p) (:domain d) (:objects l0 l1 l2)
 (:init (at l0) (= (dist l0 l1) 2) (= (dist l1 l2) 3) (= (fuel) 5)) (:goal (at l2)))",
        100,
        "; PLAN 2\n(move l0 l1)\n(move l1 l2)\n",
    ),
    // certificates: of a box alone, of states alone, of both, with facts, decimals and infinite ends; the boxes in the order in
    // which they were kept, the states in their own
    (
        "(define (domain d) (:functions (x)) (:action dec :effect (decrease (x) 1)))",
        "(define (problem p) (:domain d) (:init (= (x) 0)) (:goal (>= (x) 1)))",
        100,
        "UNSOLVABLE 2\nbox (x)=(-inf,0]\nend\n",
    ),
    (
        "(define (domain d) (:predicates (p) (q))
 (:action there :precondition (p) :effect (and (not (p)) (q)))
 (:action back :precondition (q) :effect (and (not (q)) (p))))",
        "(define (problem p) (:domain d) (:init (p)) (:goal (and (p) (q))))",
        100,
        "UNSOLVABLE 2\nstate (p)=false (q)=true\nstate (p)=true (q)=false\nend\n",
    ),
    (
        UP,
        HALF,
        100,
        "UNSOLVABLE 2\nbox (x)=[1,inf)\nstate (x)=0\nend\n",
    ),
    (
        "(define (domain d) (:functions (x) (y)) (:action set :effect (assign (x) 2.50)))",
        "(define (problem p) (:domain d) (:init (= (x) -0.75)) (:goal (= (x) 0.5)))",
        100,
        "UNSOLVABLE 2\nbox (x)=[2.5,2.5]\nstate (x)=-0.75\nend\n",
    ),
    (
        "(define (domain d) (:predicates (p)) (:functions (x))
 (:action set :precondition (not (p)) :effect (and (p) (increase (x) 1)))
 (:action up :precondition (and (p) (> (x) 0)) :effect (increase (x) 1)))",
        "(define (problem p) (:domain d) (:init (= (x) -1)) (:goal (and (p) (= (x) -0.5))))",
        100,
        "UNSOLVABLE 2\nbox (p)=true (x)=[0,0]\nstate (p)=false (x)=-1\nend\n",
    ),
    // the limit of expansions
    (UP, THREE, 0, "LIMIT expansions 0\n"),
    (UP, THREE, 2, "LIMIT expansions 2\n"),
    // numbers out of their range: at the initial state and behind a step, in an action and at the goal
    (
        SQUARE,
        "(define (problem p) (:domain d) (:init (= (x) 100000000000000000000)) (:goal (< (x) 0)))",
        100,
        "OVERFLOW (square)\n",
    ),
    (
        SQUARE,
        "(define (problem p) (:domain d) (:init (= (x) 100000000000000)) (:goal (< (x) 0)))",
        100,
        "OVERFLOW (square)\n(square)\n",
    ),
    (
        "(define (domain d) (:functions (x)) (:action set :effect (assign (x) 200000000000000000000)))",
        "(define (problem p) (:domain d) (:init (= (x) 100000000000000000000)) (:goal (> (* (x) (x)) 0)))",
        100,
        "OVERFLOW goal\n",
    ),
    (
        "(define (domain d) (:functions (x)) (:action set :effect (assign (x) 200000000000000000000)))",
        "(define (problem p) (:domain d) (:init (= (x) -1)) (:goal (> (* (x) (x)) 1)))",
        100,
        "OVERFLOW goal\n(set)\n",
    ),
];

// The texts of a domain and a problem that lead to more states or boxes than are kept, and the bytes of the answer.
static FULL: [(&str, &str, &str); 2] = [
    (DOWN_AND_UP, HALF, "LIMIT states 500000\n"),
    (RUN_OR_STOP, RUNNING, "LIMIT boxes 40000\n"),
];

/// Lets a record go.
pub(crate) fn discard(_record: Record) {}

/// The record of the search of two short texts.
pub(crate) fn found_in(alloc: Global, domain: &str, problem: &str, limit: u32) -> Option<Record>
    ensures legal { IfSome result IsLegalRecord }
    ensures told { IfSome result HasText }
{
    if domain.len() > 1024 || problem.len() > 1024 {
        return None;
    }
    search(alloc, domain.as_bytes(), problem.as_bytes(), limit).ok()
}

/// A sink with so much room, of which this write fails.
pub(crate) fn sink_of(alloc: Global, room: u32, write: u64) -> Result<MemorySink, NoMemory> {
    MemorySink::new(alloc, room, List::from_vec(vec![in alloc; write]?))
}

/// Sends the text of a record to such a sink.
pub(crate) fn send(alloc: Global, found: &Record, room: u32, write: u64) -> Result<Sent, NoMemory>
    requires legal { IsLegalRecord found.now }
    requires told { HasText found.now }
{
    let mut sink = sink_of(alloc, room, write)?;
    let result = send_answer(alloc, found, &mut sink);
    Ok(Sent { result, sink })
}

// Whether the text of the answer is this one.
fn is_told(alloc: Global, found: Record, text: &str) -> Result<bool, NoMemory>
    requires legal { IsLegalRecord found }
    requires told { HasText found }
{
    let told = send(alloc, &found, 1000, 0);
    discard(found);
    let told = told?;
    Ok(told.result == Ok(()) && told.sink.bytes() == text.as_bytes())
}

#[test]
fn answers_are_told(rt: HostRuntime) -> Result<(), Fail> {
    let alloc = rt.alloc();
    for &(domain, problem, limit, text) in ROWS.iter() {
        let Some(found) = found_in(alloc, domain, problem, limit) else {
            panic!(rt; "no record: {text}");
        };
        assert!(rt; is_told(alloc, found, text)?, "{text}");
    }
    Ok(())
}

#[test]
fn full_searches_are_told(rt: HostRuntime) -> Result<(), Fail> {
    let alloc = rt.alloc();
    for &(domain, problem, text) in FULL.iter() {
        let Some(found) = found_in(alloc, domain, problem, 1_000_000) else {
            panic!(rt; "no record: {text}");
        };
        assert!(rt; is_told(alloc, found, text)?, "{text}");
    }
    Ok(())
}
