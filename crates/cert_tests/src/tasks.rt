//! The task of the certificates.

use cert_text::Cert;
use ground_task::Task;
use num_ends::NoMemory;
use pair_task::read_whole_task;
use std::alloc::Global;

const DOMAIN: &str = "(define (domain d) (:predicates (p) (q)) (:functions (x) (y))
 (:action a :precondition (< (x) 2) :effect (and (p) (not (q)) (increase (x) 1)))
 (:action b :precondition (p) :effect (increase (x) (* (* (x) (x)) (* (x) (x)))))
 (:action c :precondition (q) :effect (assign (y) 0.25)))";

const PROBLEM: &str = "(define (problem e) (:domain d) (:init (q) (= (x) 0) (= (y) 0.25))
 (:goal (or (< (* (* (x) (x)) (x)) 0) (> (y) 1))))";

/// A task over the facts p and q, the fluent x, which has no decimal places, and the fluent y, which has two: its first
/// action adds one to x, which is below two at first, its second adds the fourth power of x, and its third assigns a quarter
/// to y.
pub(crate) fn task(alloc: Global) -> Result<Task, NoMemory> {
    if DOMAIN.len() > 1024 || PROBLEM.len() > 1024 {
        return Err(NoMemory);
    }
    match read_whole_task(alloc, DOMAIN.as_bytes(), PROBLEM.as_bytes()) {
        Ok(task) => Ok(task),
        Err(_) => Err(NoMemory),
    }
}

/// Lets a task go.
pub(crate) fn discard(_task: Task) {}

/// Lets a certificate go.
pub(crate) fn let_go(_cert: Cert) {}
