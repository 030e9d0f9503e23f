//! What the seats of a lock know. No value of these types is made.

use std::collections::LinkedList;

/// An entry of a journal.
pub struct Entry {
    /// The number of the worker that made it, or none.
    pub worker: Option<u64>,
    /// What its event was, spelled in numbers.
    pub said: LinkedList<u64>,
}

/// The entries of a journal.
pub type Entries = LinkedList<Entry>;

/// A worker number, and what this worker knows of the history.
pub struct Mark {
    pub worker: u64,
    /// The journal that it has seen.
    pub seen: Entries,
    /// The greatest length of the history that the lock counted for it.
    pub known: u64,
}

/// How far a seat is in a turn.
pub enum Stage {
    /// It holds no turn.
    Waits,
    /// It holds the turn, and took it with this journal.
    Holds(Entries),
    /// The same, and it has counted the journal that it puts back.
    Counted(Entries, Entries),
}

/// The worker numbers of a seat, each with what was seen, and how far it is in a turn.
pub struct View {
    pub marks: LinkedList<Mark>,
    pub stage: Stage,
}
