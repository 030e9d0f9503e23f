//! Counts of 64 bits.

ghost use Rattle.std.specs.Prelude.{◌≡◌, ◌≤◌};
ghost use Rattle.edge_io.specs.Causes.{Rose, counted};

use std::marker::Model;

/// A count, which stays at its end once it is there.
#[derive(Clone, Copy, Debug)]
pub struct Count {
    n: u64,
}

impl Model for Count {
    ghost use Rattle.std.specs.Prelude.{ℕ};

    ghost Value = { ℕ };

    ghost view = { λ count. count.n };

    ghost inverse = { λ n. record { n = n } };
}

impl Count {
    pub fn zero() -> Count
        ensures { result ≡ 0 }
    {
        Count { n: 0 }
    }

    pub fn get(self) -> u64
        ensures { result ≡ self }
    {
        self.n
    }

    pub fn rise(&mut self)
        ensures next { self.new ≡ counted self.old }
    {
        self.n = self.n.saturating_add(1);
    }
}
