//! Conditions.

use crate::expressions::Expr;
use crate::names::{Arg, Atom};
use sqlite_items::{Boxed, Items};

/// A comparison of two numbers.
#[derive(Clone, Copy, Debug, PartialEq, Eq)]
pub enum Rel {
    Less,
    LessEqual,
    Equal,
    GreaterEqual,
    Greater,
}

/// A condition. `()` is the `And` of nothing.
#[derive(Debug, Drop)]
pub enum Cond {
    /// All of these hold.
    And(Items<Cond>),
    /// One of these holds.
    Or(Items<Cond>),
    /// This doesn't hold.
    Not(Boxed<Cond>),
    /// The first doesn't hold, or the second does.
    Imply(Boxed<Cond>, Boxed<Cond>),
    /// A fact is true.
    Fact(Atom),
    /// Both are the same object.
    Same(Arg, Arg),
    /// A comparison of two expressions.
    Cmp(Rel, Expr, Expr),
}
