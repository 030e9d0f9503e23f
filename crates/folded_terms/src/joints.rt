//! The folded members of a conjunction or a disjunction, joined one after another.

ghost use Rattle.std.specs.Prelude.{◌≡◌, ◌≤◌, ◌++◌, [], false, OnOk, length, map};
ghost use Rattle.coded_actions.specs.Coded.{condition_of};
ghost use Rattle.ground_meaning.specs.Conditions.{is_decided, joined};
ghost use Rattle.folded_terms.specs.Settled.{settled_of};
ghost use Rattle.folded_terms.specs.internal.Joints.{connected, finished, joint_meaning, top_members, with_settled};

use crate::settled::CodedSettled;
use coded_actions::CodedCond;
use num_ends::NoMemory;
use sqlite_items::Items;
use std::alloc::Global;

/// What is known of the folded members of a conjunction or a disjunction so far.
#[derive(Debug, Drop)]
pub(crate) struct CodedJoint {
    /// Whether one of them decides the whole.
    pub(crate) decides: bool,
    /// What is left of them.
    pub(crate) members: Items<CodedCond>,
}

fn push_member(
    conjunction: bool,
    cond: CodedCond,
    members: &mut Items<CodedCond>,
) -> Result<(), NoMemory>
    ensures { OnOk result (map condition_of members.new ≡ map condition_of members.old ++ top_members conjunction (condition_of cond)) }
{
    match cond {
        CodedCond::And(conds) => {
            if conjunction {
                return Ok(members.append(conds)?);
            }
            Ok(members.push(CodedCond::And(conds))?)
        }
        CodedCond::Or(conds) => {
            if conjunction {
                return Ok(members.push(CodedCond::Or(conds))?);
            }
            Ok(members.append(conds)?)
        }
        cond => Ok(members.push(cond)?),
    }
}

/// No members.
pub(crate) fn no_members(alloc: Global) -> CodedJoint
    ensures decides { result.decides ≡ false }
    ensures members { result.members ≡ [] }
{
    CodedJoint {
        decides: false,
        members: Items::new(alloc),
    }
}

impl CodedJoint {
    /// One more member.
    pub(crate) fn add(&mut self, conjunction: bool, settled: CodedSettled) -> Result<(), NoMemory>
        ensures { OnOk result (joint_meaning self.new ≡ with_settled conjunction (joint_meaning self.old) (settled_of settled)) }
    {
        match settled {
            CodedSettled::Decided(truth) => {
                self.decides = self.decides || truth != conjunction;
                Ok(())
            }
            CodedSettled::Remaining(cond) => push_member(conjunction, cond, &mut self.members),
        }
    }

    /// What the members fold to.
    pub(crate) fn finish(self, conjunction: bool) -> CodedSettled
        ensures { settled_of result ≡ finished conjunction (joint_meaning self) }
    {
        let CodedJoint { decides, members } = self;
        if decides {
            discard(members);
            return CodedSettled::Decided(!conjunction);
        }
        joined(conjunction, members)
    }
}

fn discard(_members: Items<CodedCond>) {}

#[tactic(auto, using(coded_actions::proofs::Equations::condition_And, coded_actions::proofs::Equations::condition_Or))]
fn connected(conjunction: bool, members: Items<CodedCond>) -> CodedCond
    ensures { condition_of result ≡ connected conjunction (map condition_of members) }
{
    if conjunction {
        CodedCond::And(members)
    } else {
        CodedCond::Or(members)
    }
}

fn joined(conjunction: bool, members: Items<CodedCond>) -> CodedSettled
    ensures { settled_of result ≡ joined conjunction (connected conjunction) (map condition_of members) }
{
    if members.len() > 1 {
        return CodedSettled::Remaining(connected(conjunction, members));
    }
    only(conjunction, members)
}

fn only(conjunction: bool, mut members: Items<CodedCond>) -> CodedSettled
    requires { length members ≤ 1 }
    ensures { settled_of result ≡ joined conjunction (connected conjunction) (map condition_of members) }
{
    match members.pop() {
        Some(member) => CodedSettled::Remaining(member),
        None => CodedSettled::Decided(conjunction),
    }
}
