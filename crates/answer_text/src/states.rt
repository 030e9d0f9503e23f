//! The states of closed nodes, in their order.

ghost use Rattle.std.specs.Prelude.{◌≡◌, ◌≤◌, length, map, IfOk};
ghost use Rattle.search_runs.specs.Answers.{closed_states};
ghost use Rattle.answer_text.specs.Texts.{AreSorted};

use ground_task::State;
use num_ends::NoMemory;
use search_runs::{Node, Status};
use std::alloc::Global;

/// The states of the closed nodes, in the order of the nodes.
fn closed_states<'a>(alloc: Global, nodes: &'a [Node<State>]) -> Result<Vec<&'a State>, NoMemory>
    ensures found { IfOk result (λ states. map (λ s. s.now) states.items ≡ closed_states nodes.now) }
    ensures few { IfOk result (λ states. length states.items ≤ length nodes.now) }
{
    let mut states = Vec::new(alloc);
    'each: for node in nodes {
        if let Status::Closed = node.status {
            states.push(&node.state)?;
        }
    }
    Ok(states)
}

/// The states of the closed nodes, in the order of states.
pub(crate) fn sorted_states<'a>(
    alloc: Global,
    nodes: &'a [Node<State>],
) -> Result<Vec<&'a State>, NoMemory>
    ensures sorted { IfOk result (λ states. AreSorted (closed_states nodes.now) (map (λ s. s.now) states.items)) }
    ensures few { IfOk result (λ states. length states.items ≤ length nodes.now) }
{
    let mut states = closed_states(alloc, nodes)?;
    states.sort()?;
    Ok(states)
}
