//! Runs of one worker that end at the first answer: definitions and lemmas, no code.
#![tactic(auto)]
