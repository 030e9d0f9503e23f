//! Tests of plan files, of what a pair means and of verdicts on plans, by public calls alone.
#![tactic(auto)]

#[cfg(test)]
mod pairs;
#[cfg(test)]
mod plan_files;
#[cfg(test)]
mod verdicts;
#[cfg(test)]
mod worlds;
