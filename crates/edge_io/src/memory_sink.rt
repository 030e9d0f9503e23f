//! A sink in memory, whose writes fail where a list says so.

ghost use Rattle.std.specs.Prelude.{◌≡◌, [], IfOk};

use crate::calls::Calls;
use crate::faults::Failed;
use crate::sink::Sink;
use num_ends::{List, NoMemory};
use std::alloc::Global;
use std::marker::Model;

/// Bytes in memory, up to a fixed number of them. Writes are numbered from 1, and those of the
/// listed numbers fail and raise the count of faults. So does a write where no room is left.
#[derive(Debug, Drop)]
pub struct MemorySink {
    room: usize,
    bytes: Vec<u8>,
    calls: Calls,
}

impl Model for MemorySink {
    ghost use Rattle.std.specs.Prelude.{◌≤◌, vec_len, vec_capacity};
    ghost use Rattle.edge_io.specs.Memory.{SinkState};

    ghost Value = { SinkState };

    ghost view = { λ m. record { room = m.room; calls = m.calls; written = m.bytes.items } };

    ghost invariant = { λ m. (vec_len m.bytes ≤ m.room) × (m.room ≤ vec_capacity m.bytes) };
}

impl MemorySink {
    ghost use Rattle.std.specs.Prelude.{◌≡◌, [], IfOk};

    /// A sink that holds at most `room` bytes, for which it takes the memory now, and the numbers
    /// of the writes that fail.
    pub fn new(alloc: Global, room: u32, fails: List<u64>) -> Result<MemorySink, NoMemory>
        ensures { IfOk result (λ sink. sink ≡ record { room = room; calls = record { fails = fails; made = 0; faults = 0 }; written = [] }) }
    {
        let room = room as usize;
        let bytes = Vec::with_capacity(alloc, room)?;
        Ok(MemorySink {
            room,
            bytes,
            calls: Calls::new(fails),
        })
    }

    /// The bytes that were written.
    pub fn bytes(&self) -> &[u8]
        ensures { result.now ≡ self.now.written }
    {
        self.bytes.as_slice()
    }
}

impl Sink for MemorySink {
    ghost use Rattle.std.specs.Prelude.{◌≡◌, false, true, length, Some, MatchResult};
    ghost use Rattle.edge_io.specs.Memory.{is_refused, bytes_taken, after_write};

    ghost written = { λ m. Some m.written };

    ghost faults = { λ m. m.calls.faults };

    fn write(&mut self, piece: &[u8]) -> Result<usize, Failed>
        ensures answer { MatchResult result
            (λ n. (is_refused self.old ≡ false) × (n ≡ length (bytes_taken self.old piece.now)))
            (λ _. is_refused self.old ≡ true) }
        ensures after { self.new ≡ after_write self.old piece.now }
    {
        let left = self.room - self.bytes.len();
        if self.calls.fails_now(left == 0) {
            return Err(Failed);
        }
        let count = piece.len().min(left);
        self.bytes.extend_from_slice(&piece[..count]).unwrap();
        Ok(count)
    }
}
