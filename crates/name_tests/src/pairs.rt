//! Two texts, and the line of the first reason against them.

use num_ends::List;
use pair_text::{PairFault, Place, place_of, read_pair, write_refusal};
use std::alloc::Global;
use std::test::Fail;

const DOMAIN: &str = "(define (domain d) (:functions (x)) (:action inc :effect (increase (x) 1)))";

const PROBLEM: &str = "(define (problem p) (:domain d) (:init (= (x) 0)) (:goal (>= (x) 3)))";

const TYPED: &str = "(define (domain d) (:types s t) (:predicates (p ?o - s)))";

const UNKNOWN: &str = "(define (domain d) (:action a :effect (increase (z) 1)))";

// The line that answers two short texts; the empty one where they are accepted.
fn answer(alloc: Global, domain: &str, problem: &str) -> Option<List<u8>> {
    if domain.len() > 512 || problem.len() > 512 {
        return None;
    }
    let mut out = List::new(alloc);
    match read_pair(alloc, domain.as_bytes(), problem.as_bytes()) {
        Ok(pair) => {
            pair.discard();
            Some(out)
        }
        Err(PairFault::Refused(refusal)) => {
            write_refusal(alloc, &refusal, &mut out).ok()?;
            Some(out)
        }
        Err(PairFault::NoMemory) => None,
    }
}

fn is_answer(alloc: Global, domain: &str, problem: &str, line: &str) -> bool {
    match answer(alloc, domain, problem) {
        Some(out) => out.as_slice() == line.as_bytes(),
        None => false,
    }
}

#[test]
fn domain_texts(rt: HostRuntime) -> Result<(), Fail> {
    let alloc = rt.alloc();
    let rows = [
        (DOMAIN, ""),
        ("", "REFUSED domain 1:1 SHAPE\n"),
        ("(define (domain d)", "REFUSED domain 1:1 UNCLOSED\n"),
        ("(define (domain d)))", "REFUSED domain 1:20 STRAY\n"),
        (
            "(define (domain d)\n\u{e9})",
            "REFUSED domain 2:1 BADBYTE\n",
        ),
        (
            "(define (domain d) (:requirements :durative-actions))",
            "REFUSED domain 1:35 UNSUPPORTED :durative-actions\n",
        ),
        (
            "(define (domain d)\n(:action a :parameters (?a ?b ?c ?d ?e ?f ?g ?h ?i)))",
            "REFUSED domain 2:49 TOOMANY parameters 8\n",
        ),
        (
            "(define (domain d) (:action a :precondition (>= (x) 1e5)))",
            "REFUSED domain 1:53 NUMBER\n",
        ),
        (
            "((((((((((((((((((((((((((((((((((((((((((((((((((((((((((((((((((",
            "REFUSED domain 1:65 TOODEEP\n",
        ),
        (UNKNOWN, "REFUSED domain 1:50 UNKNOWNNAME z\n"),
        (
            "(define (domain d) (:types s - t t - s))",
            "REFUSED domain 1:28 CYCLICTYPE s\n",
        ),
        (
            "(define (domain d) (:functions (x))\n(:action a :precondition (< (/ 1 (x)) 1) :effect (increase (x) 1)))",
            "REFUSED domain 2:35 DIVIDE\n",
        ),
    ];
    for (domain, line) in rows {
        assert!(rt; is_answer(alloc, domain, PROBLEM, line), "{domain}");
    }
    Ok(())
}

#[test]
fn problem_texts(rt: HostRuntime) -> Result<(), Fail> {
    let alloc = rt.alloc();
    let rows = [
        (
            "(define (problem q)\n(:objects a - s) (:init (p)) (:goal ()))",
            "REFUSED problem 2:26 ARITY p\n",
        ),
        (
            "(define (problem q) (:objects a - t)\n(:init (p a)) (:goal ()))",
            "REFUSED problem 2:11 WRONGTYPE a\n",
        ),
        (
            "(define (problem q) (:objects a\na) (:init) (:goal ()))",
            "REFUSED problem 2:1 DUPLICATE a\n",
        ),
        (
            "(define (problem q) (:objects a - u) (:init) (:goal ()))",
            "REFUSED problem 1:35 UNKNOWNTYPE u\n",
        ),
    ];
    for (problem, line) in rows {
        assert!(rt; is_answer(alloc, TYPED, problem, line), "{problem}");
    }
    Ok(())
}

#[test]
fn order_of_reasons(rt: HostRuntime) -> Result<(), Fail> {
    let alloc = rt.alloc();
    let rows = [
        ("(define (domain d)", "", "REFUSED domain 1:1 UNCLOSED\n"),
        (UNKNOWN, "", "REFUSED problem 1:1 SHAPE\n"),
        (
            UNKNOWN,
            "(define (problem q) (:init (p)) (:goal ()))",
            "REFUSED domain 1:50 UNKNOWNNAME z\n",
        ),
    ];
    for (domain, problem, line) in rows {
        assert!(rt;
            is_answer(alloc, domain, problem, line),
            "{domain} {problem}"
        );
    }
    Ok(())
}

#[test]
fn places_of_bytes(rt: HostRuntime) -> Result<(), Fail> {
    let rows = [
        (0, 1, 1),
        (1, 1, 2),
        (3, 1, 4),
        (4, 2, 1),
        (5, 3, 1),
        (7, 3, 3),
        (9, 3, 3),
    ];
    for (at, line, column) in rows {
        assert!(rt; place_of(b"abc\n\nde", at) == Place { line, column });
    }
    Ok(())
}
