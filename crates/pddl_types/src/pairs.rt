//! A domain and a problem for it.

use pddl_terms::{Domain, Problem};

/// A domain with a problem.
#[derive(Debug, Drop)]
pub struct Pair {
    pub domain: Domain,
    pub problem: Problem,
}

/// What an atom's name stands for.
#[derive(Clone, Copy, Debug, PartialEq, Eq)]
pub enum Sort {
    Predicate,
    Function,
}
