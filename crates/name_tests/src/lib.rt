//! Tests of limits, of names and types, of pairs of texts and of the lines of refusals, by public calls alone.
#![tactic(auto)]

#[cfg(test)]
mod checks;
#[cfg(test)]
mod lines;
#[cfg(test)]
mod pairs;
#[cfg(test)]
mod tables;
