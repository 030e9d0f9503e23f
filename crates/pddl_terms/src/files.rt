//! What a domain file and a problem file say.

use crate::actions::Schema;
use crate::conditions::Cond;
use crate::names::{Atom, Name, Sig, Typed};
use num_ends::{Dec, List};

/// A domain. Each list is in the order of the file; a section that the file leaves out is an empty list.
#[derive(Debug, Drop)]
pub struct Domain {
    pub name: Name,
    /// The declared types, and behind them those that stand only as the type of others, each with the type `object`.
    pub types: List<Typed>,
    pub constants: List<Typed>,
    pub predicates: List<Sig>,
    pub functions: List<Sig>,
    pub schemas: List<Schema>,
}

/// A problem.
#[derive(Debug, Drop)]
pub struct Problem {
    pub name: Name,
    pub objects: List<Typed>,
    /// The facts that are true at first.
    pub facts: List<Atom>,
    /// The values of fluents at first.
    pub values: List<(Atom, Dec)>,
    pub goal: Cond,
}
