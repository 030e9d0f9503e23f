//! Tests of the ground tasks of pairs of texts, and of their states, by public calls alone.
#![tactic(auto)]

#[cfg(test)]
mod pairs;
#[cfg(test)]
mod states;
#[cfg(test)]
mod tasks;
