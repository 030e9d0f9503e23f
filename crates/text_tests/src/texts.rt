//! Whole texts: what is read, and the first faults of faulty ones.

use pddl_reader::{ReadFault, read_domain, read_problem};
use pddl_terms::{Domain, Problem, What};
use sexp_text::SexpFault;
use std::alloc::Global;
use std::test::Fail;

/// A fault by its kind and place.
#[derive(Clone, Copy, Debug, PartialEq, Eq)]
enum Seen {
    Read,
    Shape(u32),
    Number(u32),
    High(u32),
    Word(u32),
    Many(What, u32),
    Unclosed(u32),
    Stray(u32),
    Byte(u32),
    Deep(u32),
    Other,
}

fn syntax(fault: SexpFault) -> Seen {
    match fault {
        SexpFault::Unclosed(at) => Seen::Unclosed(at),
        SexpFault::Stray(at) => Seen::Stray(at),
        SexpFault::BadByte(at) => Seen::Byte(at),
        SexpFault::TooDeep(at) => Seen::Deep(at),
        SexpFault::NoMemory => Seen::Other,
    }
}

fn shown(fault: ReadFault) -> Seen {
    match fault {
        ReadFault::Syntax(fault) => syntax(fault),
        ReadFault::Unsupported(name) => Seen::Word(name.at),
        ReadFault::Shape(at) => Seen::Shape(at),
        ReadFault::Number(at) => Seen::Number(at),
        ReadFault::TooDeep(at) => Seen::High(at),
        ReadFault::TooMany(what, at) => Seen::Many(what, at),
        ReadFault::NoMemory => Seen::Other,
    }
}

fn domain_seen(alloc: Global, text: &[u8]) -> Seen {
    if text.len() > 1_000_000 {
        return Seen::Other;
    }
    match read_domain(alloc, text) {
        Ok(_) => Seen::Read,
        Err(fault) => shown(fault),
    }
}

fn problem_seen(alloc: Global, text: &[u8]) -> Seen {
    if text.len() > 1_000_000 {
        return Seen::Other;
    }
    match read_problem(alloc, text) {
        Ok(_) => Seen::Read,
        Err(fault) => shown(fault),
    }
}

// Whether an action has so many parameters and effects.
fn has_action(domain: &Domain, params: usize, effects: usize) -> bool {
    match domain.schemas.as_slice() {
        [schema] => schema.params.len() == params && schema.effects.len() == effects,
        _ => false,
    }
}

fn has_entries(problem: &Problem, facts: usize, values: usize) -> bool {
    problem.facts.len() == facts && problem.values.len() == values
}

#[test]
fn actions_and_entries_are_read(rt: HostRuntime) -> Result<(), Fail> {
    let alloc = rt.alloc();
    let domain = b"(define (domain d) (:action a :effect (and (p) (not (q))) :parameters (?x)))";
    let read = read_domain(alloc, domain).ok().ok_or("no domain")?;
    assert!(rt; has_action(&read, 1, 2));
    let problem = b"(define (problem p) (:init (p a) (not (p b)) (= (x) 2.50)) (:goal (p a)))";
    let read = read_problem(alloc, problem).ok().ok_or("no problem")?;
    assert!(rt; has_entries(&read, 1, 1));
    Ok(())
}

const DOMAIN: &str = "(define (domain d) (:functions (x)) (:action inc :effect (increase (x) 1)))";

#[test]
fn domains(rt: HostRuntime) -> Result<(), Fail> {
    for (text, wanted) in [
        (DOMAIN, Seen::Read),
        ("", Seen::Shape(0)),
        ("; nothing\n", Seen::Shape(0)),
        ("(define (domain d)", Seen::Unclosed(0)),
        ("(define (domain d)))", Seen::Stray(19)),
        ("(define (domain d)\u{e9})", Seen::Byte(18)),
        (
            "(define (domain d) (:requirements :durative-actions))",
            Seen::Word(34),
        ),
        ("(define (domain d) (:derived (p) (q)))", Seen::Word(20)),
        (
            "(define (domain d)\n(:action a :parameters (?a ?b ?c ?d ?e ?f ?g ?h ?i)))",
            Seen::Many(What::Parameters, 67),
        ),
        ("(define (domain d) (:types t) (:types u))", Seen::Shape(30)),
        (
            "(define (domain d) (:action a :precondition (>= (x) 1e5)))",
            Seen::Number(52),
        ),
        ("(define (domain d) (:constants when))", Seen::Word(31)),
        (
            "(define (domain d) (:action a :precondition :effect ()))",
            Seen::Shape(44),
        ),
        (
            "(define (domain d) (:action a :effect () :effect ()))",
            Seen::Shape(41),
        ),
        ("(define (domain d)) (x)", Seen::Shape(20)),
        ("(define (problem d))", Seen::Shape(9)),
    ] {
        assert_eq!(rt; domain_seen(rt.alloc(), text.as_bytes()), wanted, "{text}");
    }
    Ok(())
}

#[test]
fn problems(rt: HostRuntime) -> Result<(), Fail> {
    for (text, wanted) in [
        (
            "(define (problem p) (:domain d) (:init (= (x) 0)) (:goal (>= (x) 3)))",
            Seen::Read,
        ),
        (
            "(define (problem p) (:init) (:goal ()) (:metric minimize (1e5 when)))",
            Seen::Read,
        ),
        ("(define (domain d))", Seen::Shape(0)),
        ("(define (problem p) (:init x))", Seen::Shape(0)),
        (
            "(define (problem p) (:init (at 5 (q))) (:goal ()))",
            Seen::Word(28),
        ),
        (
            "(define (problem p) (:init (= (x) 5 6)) (:goal ()))",
            Seen::Shape(36),
        ),
        (
            "(define (problem p) (:init (= (x) 5 6) (p a)) (:goal ()))",
            Seen::Shape(36),
        ),
        (
            "(define (problem p) (:init (p ?x)) (:goal ()))",
            Seen::Shape(30),
        ),
    ] {
        assert_eq!(rt; problem_seen(rt.alloc(), text.as_bytes()), wanted, "{text}");
    }
    Ok(())
}

#[test]
fn fronts_of_a_text_are_unclosed(rt: HostRuntime) -> Result<(), Fail> {
    let text = DOMAIN.as_bytes();
    for len in 1..text.len() {
        assert_eq!(rt;
            domain_seen(rt.alloc(), &text[..len]),
            Seen::Unclosed(0),
            "{len}"
        );
    }
    Ok(())
}

#[test]
fn brackets_are_at_most_64_deep(rt: HostRuntime) -> Result<(), Fail> {
    let text = [b'('; 65];
    assert_eq!(rt; domain_seen(rt.alloc(), &text), Seen::Deep(64));
    assert_eq!(rt; domain_seen(rt.alloc(), &text[..64]), Seen::Unclosed(0));
    Ok(())
}
