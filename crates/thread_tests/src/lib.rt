//! Tests of what threads share: tables of words, rows of words, and locks.
#![tactic(auto)]

#[cfg(test)]
mod diaries;
#[cfg(test)]
mod gates;
#[cfg(test)]
mod rows;
#[cfg(test)]
mod sweeps;
#[cfg(test)]
mod systems;
