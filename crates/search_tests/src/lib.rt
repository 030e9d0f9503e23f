//! Tests of searches, their events and their answers, by public calls alone.
#![tactic(auto)]

#[cfg(test)]
mod rows;
#[cfg(test)]
mod searches;
#[cfg(test)]
mod workers;
