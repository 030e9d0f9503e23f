//! What a node's status has to do with the frontier, the first goal node and the number of taken ones.

ghost use Rattle.std.specs.Prelude.{◌≡◌, ◌<◌, ◌≤◌, IsTrue, false, length, map, OnOk, OnErr};
ghost use Rattle.std.specs.FinSet as set;
ghost use Rattle.search_runs.specs.Answers.{is_taken};
ghost use Rattle.search_runs.specs.Nodes.{with_status};
ghost use Rattle.search_runs.specs.declared.nodes.Status.{Status};
ghost use Rattle.search_nodes.specs.Parts.{CanJoin, joined_frontier, left_frontier, joined_goal, left_goal, joined_taken, left_taken};
ghost use Rattle.search_nodes.specs.Tables.{node_of};

use crate::nodes::Rest;
use crate::store::NodeStore;
use num_ends::NoMemory;
use open_list::OpenList;
use search_runs::Status;

/// A node of this status joins the frontier, if it waits.
pub(crate) fn join_frontier(
    frontier: &mut OpenList,
    node: u32,
    status: Status,
) -> Result<(), NoMemory>
    requires { CanJoin frontier.old node status }
    ensures ok { OnOk result (frontier.new ≡ joined_frontier frontier.old node status) }
    ensures err { OnErr result (frontier.new ≡ frontier.old) }
{
    match status {
        Status::Waiting(estimate) => frontier.push(estimate, node),
        _ => Ok(()),
    }
}

/// A node of this status leaves the frontier, if it waits.
pub(crate) fn leave_frontier(frontier: &mut OpenList, node: u32, status: Status)
    ensures { frontier.new ≡ left_frontier frontier.old node status }
{
    if let Status::Waiting(estimate) = status {
        let _there = frontier.remove(estimate, node);
    }
}

/// The first goal node, where a node of this status comes behind the others.
pub(crate) fn join_goal(goal: Option<u32>, node: u32, status: Status) -> Option<u32>
    ensures { result ≡ joined_goal goal node status }
{
    match (goal, status) {
        (None, Status::Goal) => Some(node),
        _ => goal,
    }
}

/// The first goal node, where this last node goes.
pub(crate) fn leave_goal(goal: Option<u32>, node: u32) -> Option<u32>
    ensures { result ≡ left_goal goal node }
{
    match goal {
        Some(first) => { if first == node { None } else { goal } }
        None => None,
    }
}

/// The number of taken nodes, where one of this status comes.
pub(crate) fn join_taken(taken: u32, status: Status) -> u32
    requires { taken ≤ 1000000000 }
    ensures { result ≡ joined_taken taken status }
{
    match status {
        Status::Taken(_) => taken + 1,
        _ => taken,
    }
}

/// The number of taken nodes, where one of this status goes.
pub(crate) fn leave_taken(taken: u32, status: Status) -> u32
    requires { IsTrue (is_taken status) → 0 < taken }
    ensures { result ≡ left_taken taken status }
{
    match status {
        Status::Taken(_) => taken - 1,
        _ => taken,
    }
}

/// Gives a node another status.
pub(crate) fn set_status(table: &mut NodeStore, node: u32, status: Status)
    requires known { node < length table.old }
    ensures { map node_of table.new ≡ with_status (map node_of table.old) node status }
{
    let rest = table.payload(node);
    table.set(node, Rest { status, ..rest });
}
