//! Tests of linear forms, of repetitions and of the estimate, by public calls alone.
#![tactic(auto)]

#[cfg(test)]
mod estimates;
#[cfg(test)]
mod numbers;
#[cfg(test)]
mod texts;
