//! The equality, the order and the hash of states across the words of their facts and the widths of their numbers.

ghost use Rattle.std.specs.Prelude.{◌≡◌, length};

use crate::pairs::{discard, grounded};
use ground_task::{State, Task};
use num_ends::{Dec, NoMemory};
use std::alloc::Global;
use std::cmp::Ordering;
use std::hash::{DefaultHasher, Hash, Hasher};
use std::test::Fail;

// A task of 66 facts, six times eleven, and two fluents.
const DOMAIN: &str =
    "(define (domain d) (:types s t) (:predicates (p ?a - s ?b - t)) (:functions (x) (y))
 (:action a :parameters (?a - s ?b - t) :precondition (and (p ?a ?b) (>= (x) 0) (>= (y) 0))
  :effect (and (not (p ?a ?b)) (increase (x) 1) (increase (y) 1))))";

const PROBLEM: &str = "(define (problem p) (:domain d)
 (:objects a b c d e f - s g h i j k l m n o q r - t)
 (:init (= (x) 0) (= (y) 0)) (:goal (p a g)))";

/// A state by the one fact that is true in it, if there is such a fact, and its numbers.
type Parts = (u8, Dec, Dec);

fn state(alloc: Global, task: &Task, fact: u8, x: Dec, y: Dec) -> Result<State, NoMemory>
    requires facts { length task.now.raw.facts ≡ 66 }
    requires fluents { length task.now.raw.fluents ≡ 2 }
{
    let mut facts = vec![in alloc; false; 66]?;
    if fact < 66 {
        facts[fact as usize] = true;
    }
    State::of(alloc, task, facts.as_slice(), &[x.n, y.n])
}

fn hash_of(state: &State) -> u64 {
    let mut hasher = DefaultHasher::new();
    state.hash(&mut hasher);
    hasher.finish()
}

// How the first state stands to the second; none where the order both ways, the equality and the hashes don't go together.
fn order_of(a: &State, b: &State) -> Option<Ordering> {
    let order = a.cmp(b);
    let same = order == Ordering::Equal;
    let is_torn = b.cmp(a) != order.reverse() || (a == b) != same || (b == a) != same;
    if is_torn || (same && hash_of(a) != hash_of(b)) {
        return None;
    }
    Some(order)
}

fn order_in(alloc: Global, task: &Task, a: Parts, b: Parts) -> Option<Ordering>
    requires facts { length task.now.raw.facts ≡ 66 }
    requires fluents { length task.now.raw.fluents ≡ 2 }
{
    let a = state(alloc, task, a.0, a.1, a.2).ok()?;
    let b = state(alloc, task, b.0, b.1, b.2).ok()?;
    order_of(&a, &b)
}

fn order_in_task(alloc: Global, task: &Task, a: Parts, b: Parts) -> Option<Ordering> {
    let raw = task.raw();
    if raw.facts.len() != 66 || raw.fluents.len() != 2 {
        return None;
    }
    order_in(alloc, task, a, b)
}

// The order of two states of the task.
fn compared(alloc: Global, a: Parts, b: Parts) -> Option<Ordering> {
    match grounded(alloc, DOMAIN, PROBLEM) {
        Some(Ok(task)) => {
            let order = order_in_task(alloc, &task, a, b);
            discard(task);
            order
        }
        Some(Err(_)) => None,
        None => None,
    }
}

/// 2^63 + n.
fn above(n: i8) -> Dec {
    Dec {
        n: 9_223_372_036_854_775_808 + i128::from(n),
        p: 0,
    }
}

/// -2^63 + n.
fn below(n: i8) -> Dec {
    Dec {
        n: -9_223_372_036_854_775_808 + i128::from(n),
        p: 0,
    }
}

fn number(n: i8) -> Dec {
    Dec {
        n: i128::from(n),
        p: 0,
    }
}

// Facts come before numbers, and earlier ones before later ones, also across the words of 64 facts; the first number comes
// before the second, also where one takes two words: from 2^63 on, and down from -2^63.
#[test]
fn states_in_order(rt: HostRuntime) -> Result<(), Fail> {
    let zero = number(0);
    let rows = [
        ((63, zero, zero), (64, zero, zero), Ordering::Greater),
        ((64, zero, zero), (65, zero, zero), Ordering::Greater),
        ((65, zero, zero), (63, zero, zero), Ordering::Less),
        ((66, zero, zero), (64, zero, zero), Ordering::Less),
        ((66, zero, zero), (65, zero, zero), Ordering::Less),
        ((65, zero, zero), (65, zero, zero), Ordering::Equal),
        ((66, above(0), zero), (65, zero, zero), Ordering::Less),
        (
            (64, above(0), below(-1)),
            (64, above(0), below(-1)),
            Ordering::Equal,
        ),
        ((65, above(-1), zero), (65, above(0), zero), Ordering::Less),
        (
            (65, below(1), zero),
            (65, below(0), zero),
            Ordering::Greater,
        ),
        (
            (65, below(0), zero),
            (65, below(-1), zero),
            Ordering::Greater,
        ),
        (
            (65, number(-1), above(0)),
            (65, zero, below(-1)),
            Ordering::Less,
        ),
        (
            (65, zero, above(0)),
            (65, zero, above(-1)),
            Ordering::Greater,
        ),
    ];
    for (i, (a, b, wanted)) in rows.iter().enumerate() {
        assert!(rt; compared(rt.alloc(), *a, *b) == Some(*wanted), "row {i}");
    }
    Ok(())
}
