//! Folded conditions.

ghost use Rattle.std.specs.Prelude.{◌≡◌, false};
ghost use Rattle.coded_actions.specs.Coded.{condition_of};
ghost use Rattle.ground_meaning.specs.Conditions.{as_condition, is_decided};
ghost use Rattle.folded_terms.specs.Settled.{settled_of};

use coded_actions::CodedCond;

/// A folded condition.
#[derive(Debug, Drop)]
pub enum CodedSettled {
    /// A truth value.
    Decided(bool),
    /// What is left, in which no truth value stands as a member.
    Remaining(CodedCond),
}

impl CodedSettled {
    /// Whether it is the truth value `false`.
    pub fn is_false(&self) -> bool
        ensures { result ≡ is_decided false (settled_of self.now) }
    {
        match self {
            CodedSettled::Decided(truth) => !*truth,
            CodedSettled::Remaining(_) => false,
        }
    }

    /// The same as a condition.
    #[tactic(auto, using(coded_actions::proofs::Equations::condition_True, coded_actions::proofs::Equations::condition_False))]
    pub fn into_condition(self) -> CodedCond
        ensures { condition_of result ≡ as_condition (settled_of self) }
    {
        match self {
            CodedSettled::Decided(true) => CodedCond::True,
            CodedSettled::Decided(false) => CodedCond::False,
            CodedSettled::Remaining(cond) => cond,
        }
    }
}
