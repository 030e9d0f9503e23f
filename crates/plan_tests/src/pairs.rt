//! Pairs from texts.

use pair_text::read_pair;
use pddl_types::Checked;
use std::alloc::Global;

/// The pair of two short texts.
pub(crate) fn pair(alloc: Global, domain: &str, problem: &str) -> Option<Checked> {
    if domain.len() > 512 || problem.len() > 512 {
        return None;
    }
    read_pair(alloc, domain.as_bytes(), problem.as_bytes()).ok()
}
