//! Tests of the commands `certify` and `upgrade`, by public calls alone.
#![tactic(auto)]

#[cfg(test)]
mod limits;
#[cfg(test)]
mod refusals;
#[cfg(test)]
mod tasks;
#[cfg(test)]
mod upgrades;
#[cfg(test)]
mod verdicts;
