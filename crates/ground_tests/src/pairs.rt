//! Pairs of texts, and their ground tasks.

use ground_meaning::GroundFault;
use ground_task::Task;
use grounder::ground;
use pair_text::read_pair;
use pddl_types::Checked;
use std::alloc::Global;

// The pair of two texts; none where they are refused or long.
fn pair_of(alloc: Global, domain: &str, problem: &str) -> Option<Checked> {
    if domain.len() > 1024 || problem.len() > 1024 {
        return None;
    }
    read_pair(alloc, domain.as_bytes(), problem.as_bytes()).ok()
}

/// What grounding answers to the pair of two texts; none where they are no pair, or long.
pub(crate) fn grounded(
    alloc: Global,
    domain: &str,
    problem: &str,
) -> Option<Result<Task, GroundFault>> {
    let pair = pair_of(alloc, domain, problem)?;
    let answer = ground(alloc, &pair);
    pair.discard();
    Some(answer)
}

/// Lets a task go.
pub(crate) fn discard(_task: Task) {}
