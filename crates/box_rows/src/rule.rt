//! The supporters of a task, and the rules that they become.

use box_model::Side;
use num_ends::End;

/// What a supporter demands of a box.
#[derive(Clone, Copy, Debug)]
pub enum Demand {
    /// The fact of this number may have this truth value.
    MayBe(u32, bool),
    /// On this side the fluent that a numeric effect changes ends as far out as the change demands. The effect is given by
    /// its place in its action.
    Reaches(Side, u32),
}

/// One demand of an action, given by its number.
#[derive(Clone, Copy, Debug)]
pub struct Supporter {
    pub action: u32,
    pub demand: Demand,
}

/// A supporter, the word that it raises, and the value to which it does.
#[derive(Clone, Copy, Debug)]
pub struct Rule {
    pub supporter: Supporter,
    /// The end that is demanded, where the demand is of an end.
    pub end: End,
    pub word: u32,
    pub value: u64,
}
