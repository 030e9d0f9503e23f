//! Searches by the program: plans, certificates that there is none, limits, numbers out of their range, and refusals.

use crate::calls::{called, folder_of};
use std::test::Fail;

const PLAN: &str = "plan -o d.pddl -f p.pddl";

// The words, the texts of the files `d.pddl` and `p.pddl`, and the status and the bytes written.
static SEARCHES: [(&str, &str, &str, u8, &str); 29] = [
    // plans
    (
        PLAN,
        "(define (domain d) (:functions (x))
 (:action inc :effect (increase (x) 1)))",
        "(define (problem p) (:domain d) (:init (= (x) 0)) (:goal (= (x) 0)))",
        0,
        "; PLAN 0\n",
    ),
    (
        PLAN,
        "(define (domain d) (:functions (x))
 (:action inc :effect (increase (x) 1)))",
        "(define (problem p) (:domain d) (:init (= (x) 0)) (:goal (>= (x) 3)))",
        0,
        "; PLAN 3\n(inc)\n(inc)\n(inc)\n",
    ),
    (
        PLAN,
        "(define (domain d) (:functions (x))
 (:action set :effect (assign (x) 5)))",
        "(define (problem p) (:domain d) (:init (= (x) 3)) (:goal (>= (x) 5)))",
        0,
        "; PLAN 1\n(set)\n",
    ),
    (
        PLAN,
        "(define (domain d) (:functions (x) (y))
 (:action swap :effect (and (assign (x) (y)) (assign (y) (x)))))",
        "(define (problem p) (:domain d) (:init (= (x) 1) (= (y) 2)) (:goal (and (= (x) 2) (= (y) 1))))",
        0,
        "; PLAN 1\n(swap)\n",
    ),
    (
        PLAN,
        "(define (domain d) (:functions (x))
 (:action inc :precondition (< (x) 3) :effect (increase (x) 0.1)))",
        "(define (problem p) (:domain d) (:init (= (x) 0)) (:goal (= (x) 0.3)))",
        0,
        "; PLAN 3\n(inc)\n(inc)\n(inc)\n",
    ),
    (
        PLAN,
        "(define (domain d) (:functions (x ?f))
 (:action transfer :parameters (?f ?g) :precondition (>= (x ?f) 1)
  :effect (and (decrease (x ?f) 1) (increase (x ?g) 1))))",
        "(define (problem p) (:domain d) (:objects a b) (:init (= (x a) 1) (= (x b) 0)) (:goal (= (x b) 1)))",
        0,
        "; PLAN 1\n(transfer a b)\n",
    ),
    (
        PLAN,
        "(define (domain d) (:functions (x ?f))
 (:action mix :parameters (?f ?g) :effect (and (assign (x ?f) 3) (increase (x ?g) 1))))",
        "(define (problem p) (:domain d) (:objects a b) (:init (= (x a) 0) (= (x b) 0)) (:goal (= (x a) 3)))",
        0,
        "; PLAN 1\n(mix a b)\n",
    ),
    (
        PLAN,
        "(define (domain d) (:predicates (at ?l)) (:functions (dist ?a ?b) (fuel))
 (:action move :parameters (?a ?b) :precondition (and (at ?a) (>= (fuel) (dist ?a ?b)))
  :effect (and (not (at ?a)) (at ?b) (decrease (fuel) (dist ?a ?b)))))",
        "(define (problem p) (:domain d) (:objects l0 l1 l2) (:init (at l0) (= (dist l0 l1) 2) (= (dist l1 l2) 3) (= (fuel) 5)) (:goal (at l2)))",
        0,
        "; PLAN 2\n(move l0 l1)\n(move l1 l2)\n",
    ),
    (
        PLAN,
        "(define (domain FarmLand) (:types Farm - object)
 (:predicates (adj ?a ?b - Farm)) (:functions (x ?f - Farm) - number (cost) - number)
 (:action Move-Slow :parameters (?a ?b - Farm)
  :precondition (and (not (= ?a ?b)) (>= (x ?a) 1) (adj ?a ?b))
  :effect (and (decrease (x ?a) 1) (increase (x ?b) 1)))
 (:action Move-Fast :parameters (?a ?b - Farm)
  :precondition (and (not (= ?a ?b)) (>= (x ?a) 4) (adj ?a ?b))
  :effect (and (decrease (x ?a) 4) (increase (x ?b) 2) (increase (cost) 1))))",
        "(define (problem three) (:domain FarmLand) (:objects F0 F1 F2 - Farm)
 (:init (adj F0 F1) (adj F1 F0) (adj F1 F2) (adj F2 F1) (= (x F0) 8) (= (x F1) 0) (= (x F2) 0)
  (= (cost) 0))
 (:goal (and (>= (x F2) 0) (>= (+ (* 1.7 (x F1)) (x F0)) 9.4))) (:metric minimize (cost)))",
        0,
        "; PLAN 2\n(move-slow f0 f1)\n(move-slow f0 f1)\n",
    ),
    // certificates
    (
        PLAN,
        "(define (domain d) (:functions (x))
 (:action dec :effect (decrease (x) 1)))",
        "(define (problem p) (:domain d) (:init (= (x) 0)) (:goal (>= (x) 1)))",
        1,
        "UNSOLVABLE 2\nbox (x)=(-inf,0]\nend\n",
    ),
    (
        PLAN,
        "(define (domain d) (:functions (x))
 (:action set :effect (assign (x) 5)))",
        "(define (problem p) (:domain d) (:init (= (x) 3)) (:goal (> (x) 5)))",
        1,
        "UNSOLVABLE 2\nbox (x)=[3,5]\nend\n",
    ),
    (
        PLAN,
        "(define (domain d) (:functions (x))
 (:action inc :precondition (< (x) 2) :effect (increase (x) 1)))",
        "(define (problem p) (:domain d) (:init (= (x) 0)) (:goal (>= (x) 5)))",
        1,
        "UNSOLVABLE 2\nbox (x)=[0,3)\nend\n",
    ),
    (
        PLAN,
        "(define (domain d) (:functions (x))
 (:action inc :effect (increase (x) 1)))",
        "(define (problem p) (:domain d) (:init (= (x) 0)) (:goal (= (x) 0.5)))",
        1,
        "UNSOLVABLE 2\nbox (x)=[1,inf)\nstate (x)=0\nend\n",
    ),
    (
        PLAN,
        "(define (domain d) (:predicates (p)) (:action a :effect (and (not (p)) (p))))",
        "(define (problem p) (:domain d) (:init (p)) (:goal (not (p))))",
        1,
        "UNSOLVABLE 2\nbox (p)=true\nend\n",
    ),
    (
        PLAN,
        "(define (domain d) (:functions (x) (y))
 (:action incx :precondition (< (x) 2) :effect (increase (x) 1))
 (:action incy :precondition (< (y) 2) :effect (increase (y) 1)))",
        "(define (problem p) (:domain d) (:init (= (x) 0) (= (y) 0)) (:goal (>= (+ (* (x) (x)) (y)) 9)))",
        1,
        "UNSOLVABLE 2\nbox (x)=[2,2] (y)=[0,3)\nstate (x)=0 (y)=0\nstate (x)=0 (y)=1\nstate (x)=0 (y)=2\nstate (x)=1 (y)=0\nstate (x)=1 (y)=1\nstate (x)=1 (y)=2\nend\n",
    ),
    (
        PLAN,
        "(define (domain d) (:functions (x) (y)) (:action dec :effect (decrease (x) 1))
 (:action up :effect (increase (y) 1)) (:action down :effect (decrease (y) 1)))",
        "(define (problem p) (:domain d) (:init (= (x) 0) (= (y) 0)) (:goal (and (>= (x) 1) (>= (y) 0))))",
        1,
        "UNSOLVABLE 2\nbox (x)=(-inf,0]\nend\n",
    ),
    // limits, and numbers out of their range
    (
        "plan -o d.pddl -f p.pddl --limit 10",
        "(define (domain d) (:functions (x)) (:action inc :effect (increase (x) 1))
 (:action dec :effect (decrease (x) 1)))",
        "(define (problem p) (:domain d) (:init (= (x) 0)) (:goal (= (x) 0.5)))",
        2,
        "LIMIT expansions 10\n",
    ),
    (
        "plan -o d.pddl -f p.pddl --limit 2",
        "(define (domain d) (:functions (x))
 (:action inc :effect (increase (x) 1)))",
        "(define (problem p) (:domain d) (:init (= (x) 0)) (:goal (>= (x) 3)))",
        2,
        "LIMIT expansions 2\n",
    ),
    (
        "plan -o d.pddl -f p.pddl --limit 3",
        "(define (domain d) (:functions (x))
 (:action inc :effect (increase (x) 1)))",
        "(define (problem p) (:domain d) (:init (= (x) 0)) (:goal (>= (x) 3)))",
        0,
        "; PLAN 3\n(inc)\n(inc)\n(inc)\n",
    ),
    (
        PLAN,
        "(define (domain d) (:functions (x))
 (:action square :effect (assign (x) (* (x) (x)))))",
        "(define (problem p) (:domain d) (:init (= (x) 100000000000000000000)) (:goal (< (x) 0)))",
        3,
        "OVERFLOW (square)\n",
    ),
    (
        PLAN,
        "(define (domain d) (:functions (x))
 (:action square :effect (assign (x) (* (x) (x)))))",
        "(define (problem p) (:domain d) (:init (= (x) 100000000000000)) (:goal (< (x) 0)))",
        3,
        "OVERFLOW (square)\n(square)\n",
    ),
    // refusals
    (
        PLAN,
        "(define (domain d) (:functions (x))
 (:action half :effect (assign (x) (* 0.5 (x)))))",
        "(define (problem p) (:domain d) (:init (= (x) 1)) (:goal (< (x) 1)))",
        4,
        "REFUSED PLACES (x)\n",
    ),
    (
        PLAN,
        "(define (domain d) (:functions (x) (level))
 (:action fill :effect (assign (level) 1)))",
        "(define (problem p) (:domain d) (:init (= (x) 0)) (:goal (>= (x) 1)))",
        4,
        "REFUSED UNSET (level)\n",
    ),
    (
        PLAN,
        "(define (domain d)",
        "(define (problem p) (:domain d) (:init (= (x) 0)) (:goal (>= (x) 1)))",
        4,
        "REFUSED domain 1:1 UNCLOSED\n",
    ),
    (
        PLAN,
        "(define (domain d) (:functions (x))
 (:action inc :effect (increase (x) 1)))",
        "",
        4,
        "REFUSED problem 1:1 SHAPE\n",
    ),
    // generated tasks
    (
        "generate --size 2",
        "",
        "",
        0,
        "GENERATED size 2 status 0 states 3 boxes 0 facts 0 fluents 2 actions 4\n",
    ),
    (
        "generate --size 3 --limit 1",
        "",
        "",
        2,
        "GENERATED size 3 status 2 states 4 boxes 0 facts 0 fluents 3 actions 6\n",
    ),
    (
        "generate --limit=200 --size=8",
        "",
        "",
        2,
        "GENERATED size 8 status 2 states 1686 boxes 0 facts 0 fluents 8 actions 16\n",
    ),
    (
        "generate --size 64 --limit 1",
        "",
        "",
        2,
        "GENERATED size 64 status 2 states 65 boxes 0 facts 0 fluents 64 actions 128\n",
    ),
];

// The number of the write that fails, or 0; the bytes that the output has room for; and the status and the bytes written by a
// search for the plan `; PLAN 3`, whose record is handed back wherever its text was begun.
static FAULTS: [(u64, u32, u8, &str); 5] = [
    (0, 1000, 0, "; PLAN 3\n(inc)\n(inc)\n(inc)\n"),
    (1, 1000, 7, ""),
    (0, 0, 7, ""),
    (0, 12, 7, "; PLAN 3\n(in"),
    (0, 26, 7, "; PLAN 3\n(inc)\n(inc)\n(inc)"),
];

#[test]
fn searches_are_told(rt: HostRuntime) -> Result<(), Fail> {
    let alloc = rt.alloc();
    for &(line, domain, problem, status, text) in SEARCHES.iter() {
        let call = called(
            alloc,
            line,
            folder_of(alloc, (domain, problem, ""))?,
            0,
            0,
            1000,
        )?;
        assert_eq!(rt; call.status, status, "{text}");
        assert_eq!(rt; call.bytes.as_slice(), text.as_bytes(), "{text}");
        assert_eq!(rt; call.has_record, status < 4, "{text}");
    }
    Ok(())
}

#[test]
fn records_are_handed_back_where_the_output_fails(rt: HostRuntime) -> Result<(), Fail> {
    let alloc = rt.alloc();
    let (_, domain, problem, _, _) = SEARCHES[1];
    for &(write, room, status, text) in FAULTS.iter() {
        let folder = folder_of(alloc, (domain, problem, ""))?;
        let call = called(alloc, PLAN, folder, 0, write, room)?;
        assert_eq!(rt; call.status, status, "write {write}, room {room}");
        assert_eq!(rt;
            call.bytes.as_slice(),
            text.as_bytes(),
            "write {write}, room {room}"
        );
        assert!(rt; call.has_record, "write {write}, room {room}");
    }
    Ok(())
}
