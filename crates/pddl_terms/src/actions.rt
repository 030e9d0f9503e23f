//! Actions and their effects.

use crate::conditions::Cond;
use crate::expressions::Expr;
use crate::names::{Atom, Name, Typed};
use num_ends::List;

/// How a numeric effect changes a fluent.
#[derive(Clone, Copy, Debug, PartialEq, Eq)]
pub enum Assign {
    /// `assign`: the expression is the new value.
    Set,
    /// `increase`: the expression is added.
    Up,
    /// `decrease`: the expression is subtracted.
    Down,
    /// `scale-up`: the value is multiplied by the expression.
    Scale,
}

/// A single effect.
#[derive(Debug, Drop)]
pub enum Effect {
    /// A fact becomes true.
    Add(Atom),
    /// A fact becomes false where no effect makes it true.
    Del(Atom),
    /// A fluent changes.
    Num(Assign, Atom, Expr),
}

/// An action with its parameters.
#[derive(Debug, Drop)]
pub struct Schema {
    pub name: Name,
    pub params: List<Typed>,
    pub pre: Cond,
    /// The single effects in the order of the file.
    pub effects: List<Effect>,
}
