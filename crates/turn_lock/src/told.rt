//! What the value under a lock tells of its history.

ghost use Rattle.std.specs.Prelude.{◌≡◌, length};
ghost use Rattle.turn_lock.specs.History.{Journal};

/// A value with terms, which no turn changes, and a journal: a list that only grows, in which each entry has the
/// number of the worker that made it, or none, and says what its event was.
pub trait Told: Send {
    // What the terms are made of.
    ghost Terms: { Type 0 };

    ghost terms: { Self → Terms };

    ghost journal: { Self → Journal };

    /// The length of the journal.
    fn told(&self) -> u64
        ensures { result ≡ length (journal self.now) };
}
