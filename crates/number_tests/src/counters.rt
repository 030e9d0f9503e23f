//! The texts of two sizes, written out.

use std::test::Fail;
use task_gen::generate;

const FIVE_LINES: &str = "(define (domain counters)
(:types counter)
(:functions (value ?c - counter) (top))
(:action increment :parameters (?c - counter) :precondition (<= (+ (value ?c) 1) (top)) :effect (increase (value ?c) 1))
(:action decrement :parameters (?c - counter) :precondition (>= (value ?c) 1) :effect (decrease (value ?c) 1)))
";

const TWO: &str = "(define (problem counters)
(:domain counters)
(:objects c0 c1 - counter)
(:init (= (top) 4) (= (value c0) 0) (= (value c1) 0))
(:goal (and (<= (+ (value c0) 1) (value c1)))))
";

const THREE: &str = "(define (problem counters)
(:domain counters)
(:objects c0 c1 c2 - counter)
(:init (= (top) 6) (= (value c0) 0) (= (value c1) 0) (= (value c2) 0))
(:goal (and (<= (+ (value c0) 1) (value c1)) (<= (+ (value c1) 1) (value c2)))))
";

#[test]
fn two_and_three_counters(rt: HostRuntime) -> Result<(), Fail> {
    let (domain, problem) = generate(rt.alloc(), 2)?;
    assert_eq!(rt; domain.as_slice(), FIVE_LINES.as_bytes());
    assert_eq!(rt; problem.as_slice(), TWO.as_bytes());
    let (_, problem) = generate(rt.alloc(), 3)?;
    assert_eq!(rt; problem.as_slice(), THREE.as_bytes());
    Ok(())
}
