//! Tests of places and of the step of a task, by public calls alone.
#![tactic(auto)]

#[cfg(test)]
mod rows;
