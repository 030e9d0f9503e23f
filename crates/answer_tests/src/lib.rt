//! Tests of the texts of the answers of searches, by public calls alone.
#![tactic(auto)]

#[cfg(test)]
mod sinks;
#[cfg(test)]
mod sizes;
#[cfg(test)]
mod texts;
