//! Tests of certificates of ground tasks, by public calls alone.
#![tactic(auto)]

#[cfg(test)]
mod faults;
#[cfg(test)]
mod lines;
#[cfg(test)]
mod tasks;
#[cfg(test)]
mod verdicts;
