//! Tests of the program by public calls: the words, the files read whole, and whole calls over files and an output in memory,
//! among them those of `relax` and of searches over pairs of all kinds.
#![tactic(auto)]

#[cfg(test)]
mod calls;
#[cfg(test)]
mod files;
#[cfg(test)]
mod relaxations;
#[cfg(test)]
mod searches;
#[cfg(test)]
mod words;
