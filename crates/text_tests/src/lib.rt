//! Tests of trees, and of domains and problems as texts, by their public calls.
#![tactic(auto)]

#[cfg(test)]
mod expressions;
#[cfg(test)]
mod lists;
#[cfg(test)]
mod texts;
#[cfg(test)]
mod trees;
