//! Tests of searches of generated tasks, by public calls alone.
#![tactic(auto)]

#[cfg(test)]
mod sizes;
