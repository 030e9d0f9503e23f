//! A box as a list of words of 64 bits, and back.
#![tactic(auto)]

mod laws;
mod lets_in;
mod words;

pub use laws::{ends_are_decimals, words_decode};
pub use lets_in::{lower_lets_in, upper_lets_in};
pub use words::{decimal_of, may_of, word_at};
