//! What reading files gives.

use num_ends::{List, Text};

/// What reading files one after another gives. Places are counted from 0.
#[derive(Debug, Drop)]
pub enum Gathered {
    /// The texts of all files, in the order of their names.
    Texts(List<Text>),
    /// The file at this place isn't there, or a call failed since it was begun.
    Missing(u32),
    /// The file at this place is longer than the limit.
    TooLarge(u32),
}

/// What reading one file gives.
#[derive(Debug, Drop)]
pub(crate) enum Once {
    Missing,
    TooLarge,
    Whole(Text),
}
