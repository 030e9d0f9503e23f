//! Numeric effects, with their names looked up, and as they are folded one after another.

use bound_atoms::FluentPattern;
use folded_terms::{CodedOperand, CodedSettled};
use num_ends::{List, Text};
use pddl_terms::Assign;
use term_patterns::ExprPattern;

/// A numeric effect with its names looked up.
#[derive(Drop)]
pub(crate) struct ChangePattern<'a> {
    pub(crate) how: Assign,
    pub(crate) fluent: FluentPattern<'a>,
    pub(crate) value: ExprPattern<'a>,
}

/// A folded numeric effect, to which later ones may be joined.
#[derive(Drop)]
pub(crate) struct PendingChange {
    /// The code of the fluent.
    pub(crate) fluent: u128,
    /// Whether the value is the new one, and isn't added.
    pub(crate) replaces: bool,
    pub(crate) value: CodedOperand,
}

/// The folded precondition and numeric effects of an action.
#[derive(Drop)]
pub(crate) struct FoldedParts {
    pub(crate) condition: CodedSettled,
    pub(crate) changes: Vec<PendingChange>,
}

/// The text of a ground action, and the facts that it adds and deletes.
#[derive(Drop)]
pub(crate) struct NamedFacts {
    pub(crate) name: Text,
    pub(crate) adds: List<u128>,
    pub(crate) dels: List<u128>,
}
