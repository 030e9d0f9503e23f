//! The data of a ground task.

use num_ends::{Dec, List, Text};
use sqlite_items::{Boxed, Items};

/// A comparison of two numbers.
#[derive(Clone, Copy, Debug, PartialEq, Eq)]
pub enum Rel {
    Less,
    LessEqual,
    Equal,
    GreaterEqual,
    Greater,
}

/// A numeric expression over the fluents of a task.
#[derive(Debug, Drop)]
pub enum GExpr {
    /// A constant.
    Const(Dec),
    /// The value of a fluent, by its number.
    Read(u32),
    /// A sum.
    Add(Boxed<GExpr>, Boxed<GExpr>),
    /// A difference.
    Sub(Boxed<GExpr>, Boxed<GExpr>),
    /// A product.
    Mul(Boxed<GExpr>, Boxed<GExpr>),
}

/// A condition on a state.
#[derive(Debug, Drop)]
pub enum GCond {
    True,
    False,
    /// A fact, by its number, has this truth value.
    Fact(u32, bool),
    /// A comparison of two expressions.
    Cmp(Rel, GExpr, GExpr),
    /// All of these hold.
    And(Items<GCond>),
    /// One of these holds.
    Or(Items<GCond>),
}

/// A change of a fluent.
#[derive(Debug, Drop)]
pub enum Change {
    /// The value grows by this.
    Add(GExpr),
    /// This is the new value.
    Set(GExpr),
}

/// A ground action.
#[derive(Debug, Drop)]
pub struct Ground {
    /// The action's name and objects in brackets, such as `(move a b)`.
    pub name: Text,
    /// The precondition.
    pub pre: GCond,
    /// The facts that it makes true.
    pub adds: List<u32>,
    /// The facts that it makes false where it doesn't make them true.
    pub dels: List<u32>,
    /// Its numeric effects, each a fluent and the change of its value.
    pub nums: List<(u32, Change)>,
}

/// A ground task as data: facts and fluents by number, the initial state, actions and goal.
#[derive(Debug, Drop)]
pub struct RawTask {
    /// The texts of the facts, such as `(at a)`.
    pub facts: List<Text>,
    /// The texts of the fluents, such as `(fuel)`.
    pub fluents: List<Text>,
    /// The facts that are true at first.
    pub true_facts: List<u32>,
    /// The first value of each fluent.
    pub values: List<Dec>,
    pub actions: List<Ground>,
    pub goal: GCond,
}
