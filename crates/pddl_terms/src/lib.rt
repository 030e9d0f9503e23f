//! A domain and a problem of PDDL as data, with the places in the file that faults are reported at.
#![tactic(auto)]

mod actions;
mod conditions;
mod expressions;
mod files;
mod limits;
mod names;

pub use actions::{Assign, Effect, Schema};
pub use conditions::{Cond, Rel};
pub use expressions::{Expr, Op};
pub use files::{Domain, Problem};
pub use limits::{
    MAX_ACTIONS, MAX_EFFECTS, MAX_FACTS, MAX_FLUENTS, MAX_HEIGHT, MAX_LETTERS, MAX_OBJECTS,
    MAX_PARAMETERS, MAX_PREFIXES, MAX_SUPPORTERS, What,
};
pub use names::{Arg, Atom, Name, Sig, Typed};
