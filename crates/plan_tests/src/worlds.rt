//! Steps and goals in worlds.

use crate::pairs::pair;
use num_ends::{List, NoMemory, Text};
use pddl_meaning::{Advanced, Holds, Stepped, World, goal, start, step};
use pddl_types::Checked;
use std::alloc::Global;
use std::test::Fail;

// What is let go of goes through this.
fn discard_world(_world: World) {}

// ---- goals

fn goal_in(alloc: Global, pair: &Checked) -> Option<Holds> {
    let world = start(alloc, pair).ok()?;
    let answer = goal(alloc, pair, &world);
    discard_world(world);
    answer.ok()
}

// Whether the goal of a problem holds at first.
fn goal_of(alloc: Global, problem: &str) -> Option<Holds> {
    let pair = pair(alloc, "(define (domain d) (:functions (x) (y)))", problem)?;
    let answer = goal_in(alloc, &pair);
    pair.discard();
    answer
}

#[test]
fn goals(rt: HostRuntime) -> Result<(), Fail> {
    let alloc = rt.alloc();
    let rows = [
        (
            "(define (problem p) (:init (= (x) 1.5)) (:goal (not (= (x) 0))))",
            Holds::Yes,
        ),
        // undefined
        (
            "(define (problem p) (:init (= (x) 1.5)) (:goal (not (= (y) 0))))",
            Holds::No,
        ),
        // no comparison is skipped
        (
            "(define (problem p) (:init (= (x) 100000000000000000000))
                (:goal (or (not (= (x) 0)) (>= (* (x) (x)) 0))))",
            Holds::Over,
        ),
    ];
    for (problem, wanted) in rows {
        assert!(rt; goal_of(alloc, problem) == Some(wanted), "{problem}");
    }
    Ok(())
}

// ---- steps

const TRANSFER: &str = "(define (domain d) (:functions (x ?o)) (:action act :parameters (?f ?g)
    :effect (and (decrease (x ?f) 1) (increase (x ?g) 1))))";

const CONFLICT: &str = "(define (domain d) (:functions (x ?o)) (:action act :parameters (?f ?g)
    :effect (and (assign (x ?f) 1) (increase (x ?g) 1))))";

const ONE: &str = "(define (problem p) (:objects a) (:init (= (x a) 1)) (:goal (= (x a) 1)))";

// An object, twice.
fn arguments(alloc: Global, object: &str) -> Result<List<Text>, NoMemory> {
    let mut args = List::new(alloc);
    args.push(Text::from_vec(Vec::from_slice(alloc, object.as_bytes())?))?;
    args.push(Text::from_vec(Vec::from_slice(alloc, object.as_bytes())?))?;
    Ok(args)
}

fn holds(sought: Result<Holds, NoMemory>) -> bool {
    match sought {
        Ok(sought) => sought == Holds::Yes,
        Err(_) => false,
    }
}

// What the step in place answers, if the goal holds after it.
fn advanced(alloc: Global, pair: &Checked, object: &str) -> Option<Advanced> {
    let args = arguments(alloc, object).ok()?;
    let mut world = start(alloc, pair).ok()?;
    let answer = world.advance(alloc, pair, b"act", args.as_slice());
    let sought = goal(alloc, pair, &world);
    discard_world(world);
    if holds(sought) { answer.ok() } else { None }
}

fn answer_to(alloc: Global, domain: &str, object: &str) -> Option<Advanced> {
    let pair = pair(alloc, domain, ONE)?;
    let answer = advanced(alloc, &pair, object);
    pair.discard();
    answer
}

#[test]
fn steps_in_place(rt: HostRuntime) -> Result<(), Fail> {
    let alloc = rt.alloc();
    let rows = [
        // one is taken and given: the same world
        (TRANSFER, "a", Advanced::Next),
        (CONFLICT, "a", Advanced::Blocked),
        (TRANSFER, "b", Advanced::Illegal),
    ];
    for (domain, object, wanted) in rows {
        assert!(rt;
            answer_to(alloc, domain, object) == Some(wanted),
            "{domain}"
        );
    }
    Ok(())
}

// Whether there is a next world, in which the goal holds.
fn is_sought(alloc: Global, pair: &Checked, answer: Stepped) -> bool {
    match answer {
        Stepped::Next(next) => {
            let sought = goal(alloc, pair, &next);
            discard_world(next);
            holds(sought)
        }
        Stepped::Blocked | Stepped::Illegal | Stepped::Over => false,
    }
}

fn copies(alloc: Global, pair: &Checked) -> Option<bool> {
    let args = arguments(alloc, "a").ok()?;
    let world = start(alloc, pair).ok()?;
    let answer = step(alloc, pair, &world, b"act", args.as_slice());
    discard_world(world);
    Some(is_sought(alloc, pair, answer.ok()?))
}

#[test]
fn steps_to_a_copy(rt: HostRuntime) -> Result<(), Fail> {
    let alloc = rt.alloc();
    let pair = pair(alloc, TRANSFER, ONE).ok_or("a pair")?;
    let copied = copies(alloc, &pair);
    pair.discard();
    assert!(rt; copied == Some(true));
    Ok(())
}
