//! The data of ground actions, with the codes of their facts and fluents.

use ground_task::Rel;
use num_ends::{Dec, List, Text};
use sqlite_items::{Boxed, Items};

/// A numeric expression over fluents.
#[derive(Debug, Drop)]
pub enum CodedExpr {
    /// A constant.
    Const(Dec),
    /// The value of a fluent, by its code.
    Read(u128),
    /// A sum.
    Add(Boxed<CodedExpr>, Boxed<CodedExpr>),
    /// A difference.
    Sub(Boxed<CodedExpr>, Boxed<CodedExpr>),
    /// A product.
    Mul(Boxed<CodedExpr>, Boxed<CodedExpr>),
}

/// A condition on a state.
#[derive(Debug, Drop)]
pub enum CodedCond {
    True,
    False,
    /// A fact, by its code, has this truth value.
    Fact(u128, bool),
    /// A comparison of two expressions.
    Cmp(Rel, CodedExpr, CodedExpr),
    /// All of these hold.
    And(Items<CodedCond>),
    /// One of these holds.
    Or(Items<CodedCond>),
}

/// A change of a fluent.
#[derive(Debug, Drop)]
pub enum CodedChange {
    /// The value grows by this.
    Add(CodedExpr),
    /// This is the new value.
    Set(CodedExpr),
}

/// A ground action.
#[derive(Debug, Drop)]
pub struct CodedAction {
    /// The action's name and objects in brackets, such as `(move a b)`.
    pub name: Text,
    /// The precondition.
    pub pre: CodedCond,
    /// The codes of the facts that it makes true.
    pub adds: List<u128>,
    /// The codes of the facts that it makes false where it doesn't make them true.
    pub dels: List<u128>,
    /// Its numeric effects, each the code of a fluent and the change of its value.
    pub nums: List<(u128, CodedChange)>,
}

impl CodedAction {
    /// Lets go of the action, part by part.
    pub fn discard(self) {
        let CodedAction {
            name: _name,
            pre: _pre,
            adds: _adds,
            dels: _dels,
            nums: _nums,
        } = self;
    }
}
