//! Systems of rules that move words.

ghost use Rattle.std.specs.Prelude.{◌≡◌, ◌<◌, length};
ghost use Rattle.bound_words.specs.Rows.{Terms, IsMonotone};

/// The way in which a word moves.
#[derive(Clone, Copy, Debug, PartialEq, Eq)]
pub enum Direction {
    /// Only up.
    Max,
    /// Only down.
    Min,
    /// Only by gaining bits.
    Or,
}

/// Rules over a row of words. Each rule asks at most one word for a value.
///
/// The law: a rule that asks a word for a value asks the same word, on each row further out, for that value or one
/// further out.
pub trait System: Sync {
    // What the calls answer, as plain data.
    ghost terms: { Self → Terms };

    /// The number of words in a row.
    fn words(&self) -> u32
        ensures { result ≡ (terms self.now).words };

    /// The way in which a word moves.
    fn direction(&self, word: u32) -> Direction
        requires { word < (terms self.now).words }
        ensures { result ≡ (terms self.now).direction word };

    /// The number of rules.
    fn rules(&self) -> u32
        ensures { result ≡ (terms self.now).rules };

    /// The word that the rule asks on this row, and the value that it asks for.
    fn raise(&self, rule: u32, row: &[u64]) -> Option<(u32, u64)>
        requires rule { rule < (terms self.now).rules }
        requires row { length row.now ≡ (terms self.now).words }
        ensures { result ≡ (terms self.now).asks rule row.now };

    ghost monotone: { (s : Self) → IsMonotone (terms s) };
}
