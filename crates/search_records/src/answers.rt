//! The answer of a record.

ghost use Rattle.std.specs.Prelude.{◌≡◌, ◌<◌, ◌≤◌, length, IfSome};
ghost use Rattle.search_runs.specs.Answers.{first_where, is_goal, is_taken, is_waiting, when_idle};
ghost use Rattle.search_runs.specs.Runs.{count_takes, has_starve};
ghost use Rattle.search_records.specs.Records.{IsKnownAnswer, IsSound, answer_in, config_of};

use crate::record::Record;
use ground_task::State;
use search_runs::{Answer, Event, Node, Status};

fn is_goal(status: Status) -> bool
    ensures { result ≡ is_goal status }
{
    matches!(status, Status::Goal)
}

fn is_taken(status: Status) -> bool
    ensures { result ≡ is_taken status }
{
    matches!(status, Status::Taken(_))
}

fn is_waiting(status: Status) -> bool
    ensures { result ≡ is_waiting status }
{
    matches!(status, Status::Waiting(_))
}

/// The first goal node.
#[tactic(auto, using(crate::proofs::Lookups::where_passed, crate::proofs::Lookups::where_found, crate::proofs::Lookups::where_end))]
fn first_goal(nodes: &[Node<State>]) -> Option<u32>
    requires { length nodes.now ≤ 1000000000 }
    ensures first { result ≡ first_where is_goal nodes.now }
    ensures within { IfSome result (λ n. n < length nodes.now) }
{
    'each: for index in 0..nodes.len() {
        if is_goal(nodes[index].status) {
            return Some(index as u32);
        }
    }
    None
}

/// The first node that is taken.
#[tactic(auto, using(crate::proofs::Lookups::where_passed, crate::proofs::Lookups::where_found, crate::proofs::Lookups::where_end))]
fn first_taken(nodes: &[Node<State>]) -> Option<u32>
    requires { length nodes.now ≤ 1000000000 }
    ensures { result ≡ first_where is_taken nodes.now }
{
    'each: for index in 0..nodes.len() {
        if is_taken(nodes[index].status) {
            return Some(index as u32);
        }
    }
    None
}

/// The first node that waits.
#[tactic(auto, using(crate::proofs::Lookups::where_passed, crate::proofs::Lookups::where_found, crate::proofs::Lookups::where_end))]
fn first_waiting(nodes: &[Node<State>]) -> Option<u32>
    requires { length nodes.now ≤ 1000000000 }
    ensures { result ≡ first_where is_waiting nodes.now }
{
    'each: for index in 0..nodes.len() {
        if is_waiting(nodes[index].status) {
            return Some(index as u32);
        }
    }
    None
}

/// How many events take a node.
fn count_takes(journal: &[Event]) -> usize
    ensures { result ≡ count_takes journal.now }
{
    let mut count = 0;
    'each: for event in journal {
        if let Event::Take(_, _) = *event {
            count += 1;
        }
    }
    count
}

/// Whether a worker starved.
fn has_starve(journal: &[Event]) -> bool
    ensures { result ≡ has_starve journal.now }
{
    'each: for event in journal {
        if let Event::Starve(_) = *event {
            return true;
        }
    }
    false
}

impl Record {
    /// The answer: a plan to the first goal node; a worker starved; and, where no node is taken, a lack of room, the limit of
    /// expansions, a number that left its range, or that no plan exists. `None` where the search has none yet.
    pub fn answer(&self) -> Option<Answer>
        requires sound { IsSound self.now }
        ensures value { result ≡ answer_in self.now }
        ensures known { IfSome result (IsKnownAnswer self.now) }
    {
        if let Some(node) = first_goal(self.nodes.as_slice()) {
            return Some(Answer::Plan(node));
        }
        if has_starve(self.journal.as_slice()) {
            return Some(Answer::Starved);
        }
        if first_taken(self.nodes.as_slice()).is_some() {
            return None;
        }
        self.idle_answer()
    }

    // the answer where no goal is reached, no worker starved and no node is taken
    fn idle_answer(&self) -> Option<Answer>
        requires sound { IsSound self.now }
        ensures value { result ≡ when_idle self.now.limit self.now.journal (config_of self.now) }
        ensures known { IfSome result (IsKnownAnswer self.now) }
    {
        if let Some(full) = self.full {
            return Some(Answer::Filled(full));
        }
        if first_waiting(self.nodes.as_slice()).is_some() {
            let is_left = count_takes(self.journal.as_slice()) < self.limit as usize;
            return if is_left {
                None
            } else {
                Some(Answer::Expansions)
            };
        }
        match self.over {
            Some((node, site)) => Some(Answer::Over(node, site)),
            None => Some(Answer::Exhausted),
        }
    }
}
