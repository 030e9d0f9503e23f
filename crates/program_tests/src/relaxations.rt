//! Least closed boxes of pairs, and refusals of pairs that have no ground task, by the program.

use crate::calls::{folder_of, outcome};
use std::test::Fail;

// The texts of a domain and a problem, and the status and the bytes that `relax` writes.
static PAIRS: [(&str, &str, u8, &str); 26] = [
    // boxes of tasks with parameters, facts and decimals
    (
        "(define (domain d) (:functions (x ?f))
 (:action mix :parameters (?f ?g) :effect (and (assign (x ?f) 3) (increase (x ?g) 1))))",
        "(define (problem p)
 (:domain d) (:objects a b)
 (:init (= (x a) 0) (= (x b) 0)) (:goal (= (x a) 3)))",
        0,
        "MET\nbox (x a)=[0,inf)\n",
    ),
    (
        "(define (domain d) (:predicates (at ?l)) (:functions (dist ?a ?b) (fuel))
 (:action move :parameters (?a ?b) :precondition (and (at ?a) (>= (fuel) (dist ?a ?b)))
  :effect (and (not (at ?a)) (at ?b) (decrease (fuel) (dist ?a ?b)))))",
        "(define (problem p)
 (:domain d) (:objects l0 l1 l2)
 (:init (at l0) (= (dist l0 l1) 2) (= (dist l1 l2) 3) (= (fuel) 5)) (:goal (at l2)))",
        0,
        "MET\nbox (at l0)=any (at l1)=any (at l2)=any (fuel)=[0,5]\n",
    ),
    (
        "(define (domain farms) (:types farm)
 (:predicates (near ?a ?b - farm)) (:functions (hands ?f - farm) (cost))
 (:action walk :parameters (?a ?b - farm)
  :precondition (and (not (= ?a ?b)) (>= (hands ?a) 1) (near ?a ?b))
  :effect (and (decrease (hands ?a) 1) (increase (hands ?b) 1)))
 (:action ride :parameters (?a ?b - farm)
  :precondition (and (not (= ?a ?b)) (>= (hands ?a) 4) (near ?a ?b))
  :effect (and (decrease (hands ?a) 4) (increase (hands ?b) 2) (increase (cost) 1))))",
        "(define (problem three) (:domain farms) (:objects north mill south - farm)
 (:init (near north mill) (near mill north) (near mill south) (= (hands north) 8) (= (hands mill) 0)
  (= (hands south) 0) (= (cost) 0))
 (:goal (and (>= (hands south) 1) (>= (+ (* 1.7 (hands mill)) (hands north)) 9.4)))
 (:metric minimize (cost)))",
        0,
        "MET\nbox (hands north)=[0,inf) (hands mill)=[0,inf) (hands south)=[0,inf)\n",
    ),
    (
        "(define (domain d) (:predicates (adj ?x ?y) (at ?x))
 (:action go :parameters (?x ?y ?z) :precondition (and (adj ?x ?y) (not (= ?z ?y)) (at ?x))
  :effect (and (not (at ?x)) (at ?y))))",
        "(define (problem p)
 (:domain d) (:objects a b c)
 (:init (adj a b) (adj b c) (at a)) (:goal (at c)))",
        0,
        "MET\nbox (at a)=any (at b)=any (at c)=any\n",
    ),
    (
        "(define (domain d) (:types truck place - object) (:predicates (at ?t - truck) (ok ?x))
  (:functions (load ?t - truck))
 (:action go :parameters (?x) :precondition (ok ?x) :effect (at ?x))
 (:action fill :parameters (?x) :effect (increase (load ?x) 1)))",
        "(define (problem p)
 (:domain d) (:objects t1 - truck l1 - place)
 (:init (ok t1) (ok l1) (= (load t1) 0)) (:goal (and (at t1) (>= (load t1) 2))))",
        0,
        "MET\nbox (at t1)=any (at l1)=any (load t1)=[0,inf)\n",
    ),
    (
        "(define (domain d) (:predicates (s ?o) (q ?o) (r)) (:functions (x))
 (:action go :parameters (?o)
  :precondition (and (or (s ?o) (q ?o)) (imply (s ?o) (r)) (not (= (* 0 (x)) 1)))
  :effect (and (increase (x) 1) (q ?o))))",
        "(define (problem p)
 (:domain d) (:objects a b)
 (:init (s a) (= (x) 0)) (:goal (or (and (r) (q a)) (s b))))",
        1,
        "MISSED\nbox (q b)=false (x)=[0,0]\n",
    ),
    (
        "(define (domain d) (:predicates (p) (q)) (:action a :effect (and (not (p)) (p) (not (q)))))",
        "(define (problem p) (:domain d) (:init (p)) (:goal (and (p) (q))))",
        1,
        "MISSED\nbox (p)=true (q)=false\n",
    ),
    (
        "(define (domain d) (:functions (x) (y))
 (:action swap :effect (and (assign (x) (y)) (assign (y) (x)))))",
        "(define (problem p)
 (:domain d)
 (:init (= (x) 1) (= (y) 2)) (:goal (and (= (x) 2) (= (y) 1))))",
        0,
        "MET\nbox (x)=(-inf,inf) (y)=(-inf,inf)\n",
    ),
    (
        "(define (domain d) (:functions (x) (n))
 (:action half :precondition (> (/ (x) (n)) 0.5) :effect (decrease (x) (/ (n) 8))))",
        "(define (problem p) (:domain d) (:init (= (x) 8) (= (n) 4)) (:goal (<= (x) 2)))",
        0,
        "MET\nbox (x)=(-inf,8]\n",
    ),
    (
        "(define (domain d) (:functions (x))
 (:action inc :precondition (< (x) 3) :effect (increase (x) 0.1)))",
        "(define (problem p) (:domain d) (:init (= (x) 0)) (:goal (= (x) 3)))",
        0,
        "MET\nbox (x)=[0,3.1)\n",
    ),
    (
        "(define (domain d) (:functions (x) (y))
 (:action a :effect (increase (x) 0.250))
 (:action b :precondition (> (* (x) (x)) 0.1) :effect (assign (y) (+ (x) 1))))",
        "(define (problem p) (:domain d) (:init (= (x) 1.50) (= (y) 0)) (:goal (>= (* (x) (y)) 2)))",
        0,
        "MET\nbox (x)=[1.5,inf) (y)=(-inf,inf)\n",
    ),
    (
        "(define (domain d) (:functions (x) (y))
 (:action incy :effect (increase (y) 1))
 (:action a :precondition (> (* 0 (y)) 0) :effect (assign (x) 1)))",
        "(define (problem p) (:domain d) (:init (= (x) 0) (= (y) 0)) (:goal (>= (x) 1)))",
        1,
        "MISSED\nbox (x)=[0,0] (y)=[0,inf)\n",
    ),
    (
        "(define (domain d) (:functions (x) (y) (z) (cost))
 (:action a :effect (and (increase (x) (y)) (increase (cost) (* 2 (x)))))
 (:action b :effect (increase (y) (* 0 (z))))
 (:action c :effect (scale-up (z) 2))
 (:action e :effect (increase (cost) 1)))",
        "(define (problem p)
 (:domain d)
 (:init (= (x) 0) (= (y) 0) (= (z) 1) (= (cost) 0)) (:goal (>= (x) 3)))",
        1,
        "MISSED\nbox (x)=[0,0] (y)=[0,0] (z)=(-inf,inf)\n",
    ),
    (
        "(define (domain d) (:predicates (s)) (:functions (x) (n))
 (:action a :precondition (and (s) (> (/ (x) (n)) 0)) :effect (increase (x) 1)))",
        "(define (problem p) (:domain d) (:init (= (x) 8) (= (n) 3)) (:goal (<= (x) 2)))",
        1,
        "MISSED\nbox (x)=[8,8]\n",
    ),
    // pairs without a ground task, or with one that is too large
    (
        "(define (domain d) (:functions (x) (level)) (:action fill :effect (assign (level) 1)))",
        "(define (problem p) (:domain d) (:init (= (x) 0)) (:goal (>= (x) 1)))",
        4,
        "REFUSED UNSET (level)\n",
    ),
    (
        "(define (domain d) (:functions (x) (level)) (:action inc :effect (increase (x) 1)))",
        "(define (problem p)
 (:domain d)
 (:init (= (x) 0)) (:goal (or (>= (x) 1) (>= (+ (x) (level)) 1))))",
        4,
        "REFUSED UNSET (level)\n",
    ),
    (
        "(define (domain d) (:types truck place - object) (:functions (load ?t - truck))
 (:action fill :parameters (?x) :effect (assign (load ?x) 1)))",
        "(define (problem p)
 (:domain d) (:objects t1 - truck l1 - place)
 (:init (= (load t1) 0)) (:goal (>= (load t1) 2)))",
        4,
        "REFUSED UNSET (load l1)\n",
    ),
    (
        "(define (domain d) (:functions (x) (n))
 (:action a :precondition (and (< 1 0) (> (/ (x) (n)) 0)) :effect (increase (x) 1)))",
        "(define (problem p) (:domain d) (:init (= (x) 8) (= (n) 3)) (:goal (<= (x) 2)))",
        4,
        "REFUSED domain 2:51 DIVIDE\n",
    ),
    (
        "(define (domain d) (:functions (x) (n)) (:action a :effect (increase (x) 1)))",
        "(define (problem p) (:domain d) (:init (= (x) 8) (= (n) 3)) (:goal (> (/ (x) (n)) 9)))",
        4,
        "REFUSED problem 1:79 DIVIDE\n",
    ),
    (
        "(define (domain d) (:functions (x) (y) (z))
 (:action a
  :effect (and (increase (x) 100000000000000000000000000000000000000) (assign (y) (/ 1 (z)))
  (increase (x) 100000000000000000000000000000000000000))))",
        "(define (problem p) (:domain d) (:init (= (x) 0) (= (y) 0) (= (z) 0)) (:goal (>= (x) 2)))",
        4,
        "REFUSED domain 3:89 DIVIDE\n",
    ),
    (
        "(define (domain d) (:functions (x) (y) (z))
 (:action a
  :effect (and (increase (x) 100000000000000000000000000000000000000) (increase
  (x) 100000000000000000000000000000000000000) (assign (y) (/ 1 (z))))))",
        "(define (problem p) (:domain d) (:init (= (x) 0) (= (y) 0) (= (z) 0)) (:goal (>= (x) 2)))",
        4,
        "REFUSED RANGE (a)\n",
    ),
    (
        "(define (domain d) (:functions (x)) (:action a :effect (increase (x) 0.1)))",
        "(define (problem p)
 (:domain d)
 (:init (= (x) 100000000000000000000000000000000000000)) (:goal (>= (x) (* 2 (x)))))",
        4,
        "REFUSED RANGE (x)\n",
    ),
    (
        "(define (domain d) (:functions (x)) (:action half :effect (assign (x) (* 0.5 (x)))))",
        "(define (problem p) (:domain d) (:init (= (x) 1)) (:goal (< (x) 1)))",
        4,
        "REFUSED PLACES (x)\n",
    ),
    (
        "(define (domain d) (:functions (x) (y))
 (:action a :precondition (>= (* (x) (* (y) 10)) 0) :effect (increase (x) 1))
 (:action b :precondition (>= (* (* (x) (y)) 0.1) 0) :effect (increase (x) 1)))",
        "(define (problem p)
 (:domain d)
 (:init (= (x) 0.000000001) (= (y) 0.000000001)) (:goal (>= (x) 3)))",
        4,
        "REFUSED PLACES (b)\n",
    ),
    (
        "(define (domain d) (:functions (x)) (:action a :effect (increase (x) 1)))",
        "(define (problem p)
 (:domain d)
 (:init (= (x) 0.000000001)) (:goal (>= (* (* (x) (x)) 0.1) 3)))",
        4,
        "REFUSED PLACES goal\n",
    ),
    (
        "(define (domain d) (:functions (f0) (f1) (f2) (f3) (f4) (f5))
 (:action up :parameters (?a ?b ?c)
  :effect (and (increase (f0) 1) (increase (f1) 1) (increase (f2) 1) (increase (f3) 1) (increase
  (f4) 1) (increase (f5) 1))))",
        "(define (problem p)
 (:domain d)
  (:objects o0 o1 o2 o3 o4 o5 o6 o7 o8 o9 o10 o11 o12 o13 o14 o15 o16 o17 o18 o19 o20 o21 o22
  o23 o24 o25)
 (:init (= (f0) 0) (= (f1) 0) (= (f2) 0) (= (f3) 0) (= (f4) 0) (= (f5) 0)) (:goal (and (>=
  (f0) 1) (>= (f1) 1) (>= (f2) 1) (>= (f3) 1) (>= (f4) 1) (>= (f5) 1))))",
        4,
        "REFUSED TOOMANY supporters 200000\n",
    ),
];

#[test]
fn pairs_are_relaxed_or_refused(rt: HostRuntime) -> Result<(), Fail> {
    let alloc = rt.alloc();
    for &(domain, problem, status, text) in PAIRS.iter() {
        let folder = folder_of(alloc, (domain, problem, ""))?;
        let (got, bytes) = outcome(alloc, "relax -o d.pddl -f p.pddl", folder, 0, 0, 1000)?;
        assert_eq!(rt; got, status, "{text}");
        assert_eq!(rt; bytes.as_slice(), text.as_bytes(), "{text}");
    }
    Ok(())
}
