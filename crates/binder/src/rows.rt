//! Rows of numbers, all of one width, side by side in memory.

ghost use Rattle.std.specs.Prelude.{◌≡◌, ◌++◌, [], ◌∷◌, ◌<◌, Some, IfOk, OnOk, OnErr, length, slice_get};

use num_ends::NoMemory;
use std::alloc::Global;
use std::marker::Model;

/// Rows of numbers, all of one width. Contracts see the width and the list of the rows.
#[derive(Drop)]
pub struct Rows {
    width: usize,
    count: usize,
    cells: Vec<u32>,
}

impl Model for Rows {
    ghost use Rattle.std.specs.Prelude.{◌≡◌, ◌*◌, ℕ, List, length};
    ghost use Rattle.binder.specs.Tables.{parted};

    ghost Value = { ℕ × List (List ℕ) };

    ghost view = { λ r. (r.width, parted r.width r.count r.cells.items) };

    ghost invariant = { λ r. length r.cells.items ≡ r.count * r.width };
}

impl Rows {
    /// No rows, of a width.
    pub(crate) fn new(alloc: Global, width: usize) -> Rows
        ensures { result ≡ (width, []) }
    {
        Rows {
            width,
            count: 0,
            cells: Vec::new(alloc),
        }
    }

    /// How many numbers each row has.
    pub fn width(&self) -> usize
        ensures { result ≡ self.now.0 }
    {
        self.width
    }

    /// How many rows there are.
    pub fn count(&self) -> usize
        ensures { result ≡ length self.now.1 }
    {
        self.count
    }

    /// The row with a number.
    pub fn row(&self, number: usize) -> &[u32]
        requires { number < length self.now.1 }
        ensures row { slice_get self.now.1 number ≡ Some result.now }
        ensures width { length result.now ≡ self.now.0 }
    {
        let start = number * self.width;
        &self.cells[start..start + self.width]
    }

    /// Adds a row at the end. Without memory the rows stay as they were.
    pub(crate) fn push(&mut self, row: &[u32]) -> Result<(), NoMemory>
        requires width { length row.now ≡ self.old.0 }
        requires room { length self.old.1 < 9223372036854775808 }
        ensures ok { OnOk result (self.new ≡ (self.old.0, self.old.1 ++ row.now ∷ [])) }
        ensures err { OnErr result (self.new ≡ self.old) }
    {
        self.cells.extend_from_slice(row)?;
        self.count += 1;
        Ok(())
    }
}
