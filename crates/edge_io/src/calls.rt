//! The calls of what is in memory, some of which fail.

ghost use Rattle.std.specs.Prelude.{◌≡◌, ◌||◌};

use crate::count::Count;
use num_ends::List;

/// How many calls there were, and which of them fail.
#[derive(Debug, Drop)]
pub struct Calls {
    /// The numbers, from 1, of calls that fail.
    pub fails: List<u64>,
    /// How many calls there were.
    pub made: Count,
    /// How many of them failed.
    pub faults: Count,
}

impl Calls {
    ghost use Rattle.edge_io.specs.Memory.{after_call, is_next_listed};

    pub fn new(fails: List<u64>) -> Calls
        ensures { result ≡ record { fails = fails; made = 0; faults = 0 } }
    {
        Calls {
            fails,
            made: Count::zero(),
            faults: Count::zero(),
        }
    }

    /// Counts a call, and says whether it fails: its number is listed, or the call is refused.
    pub fn fails_now(&mut self, is_refused: bool) -> bool
        ensures answer { result ≡ (is_next_listed self.old || is_refused) }
        ensures after { self.new ≡ after_call self.old result }
    {
        self.made.rise();
        let fails = self.fails.as_slice().contains(&self.made.get()) || is_refused;
        if fails {
            self.faults.rise();
        }
        fails
    }
}
