//! Tests of ground tasks, boxes and the least closed box, by public calls alone.
#![tactic(auto)]

#[cfg(test)]
mod caps;
#[cfg(test)]
mod relaxations;
#[cfg(test)]
mod threads;
