//! Tests of decimals, intervals and texts, of the frontier and of generated tasks, by their public calls.
#![tactic(auto)]

#[cfg(test)]
mod counters;
#[cfg(test)]
mod decimals;
#[cfg(test)]
mod frontier;
#[cfg(test)]
mod intervals;
#[cfg(test)]
mod texts;
