//! Tests of files and sinks: the fakes in memory by tables, and each adapter over the machine.
#![tactic(auto)]

#[cfg(test)]
mod fetch;
#[cfg(test)]
mod machine;
#[cfg(test)]
mod memory;
