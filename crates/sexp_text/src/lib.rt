//! The leaves and brackets of a text.
#![tactic(auto)]

mod laws;
mod marks;
mod reading;
mod scan;
mod trees;
mod words;

pub use laws::{reading_is_exact, text_has_one_answer};
pub use marks::{Mark, Marked, Span};
pub use reading::read_trees;
pub use scan::{belongs_to_word, is_blank, next_mark};
pub use trees::{SexpFault, Tree};
pub use words::is_word;
