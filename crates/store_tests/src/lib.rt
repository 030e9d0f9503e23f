//! Tests of the store of dead boxes, by public calls.
#![tactic(auto)]

#[cfg(test)]
mod dead_boxes;
