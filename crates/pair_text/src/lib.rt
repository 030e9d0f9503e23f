//! A domain's text and a problem's text as a checked pair, or the first reason against them, and the line of a reason.
#![tactic(auto)]

mod laws;
mod pairs;
mod places;
mod reasons;
mod refusals;
mod words;
mod write;

pub use laws::texts_have_one_answer;
pub use pairs::read_pair;
pub use places::place_of;
pub use refusals::{LineReason, PairFault, Place, Reason, Refusal, Source};
pub use write::write_refusal;
