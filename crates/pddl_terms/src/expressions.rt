//! Numeric expressions.

use crate::names::Atom;
use num_ends::Dec;
use sqlite_items::Boxed;

/// An operation on two numbers.
#[derive(Clone, Copy, Debug, PartialEq, Eq)]
pub enum Op {
    Add,
    Sub,
    Mul,
    Div,
}

/// A numeric expression. A sum or product of more than two operands is grouped from the left, and `(- e)` is the
/// difference of 0 and `e`, with both at the place of the bracket.
#[derive(Debug, Drop)]
pub enum Expr {
    /// A number, trimmed, and its position in the file.
    Lit(Dec, u32),
    /// The value of a function.
    Read(Atom),
    /// The position of the operation's bracket, and its operands.
    Op(u32, Op, Boxed<Expr>, Boxed<Expr>),
}
