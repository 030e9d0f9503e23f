//! The brackets and words of a text, by their positions.

/// What stands at a place in a text.
#[derive(Clone, Copy, Debug, PartialEq, Eq)]
pub enum Mark {
    /// An opening bracket.
    Opening,
    /// A closing bracket.
    Closing,
    /// A word.
    Leaf,
}

/// A part of a text: the position of its first byte, and that of the byte behind its last.
#[derive(Clone, Copy, Debug, PartialEq, Eq)]
pub struct Span {
    pub from: u32,
    pub to: u32,
}

/// A bracket or a word, and its place.
#[derive(Clone, Copy, Debug, PartialEq, Eq)]
pub struct Marked {
    pub mark: Mark,
    pub span: Span,
}
