//! Files in memory, whose calls fail where a list says so.

ghost use Rattle.std.specs.Prelude.{◌≡◌, ◌<◌, ◌++◌, IfSome, length, drop, min, take};
ghost use Rattle.std.specs.Option.{option_map};
ghost use Rattle.edge_io.specs.Folder.{bytes_at, bytes_named};

use crate::calls::Calls;
use crate::count::Count;
use crate::faults::Failed;
use crate::files::Files;
use num_ends::{List, Text};
use std::marker::Model;

/// A file that is being read.
#[derive(Clone, Copy, Debug)]
struct Reading {
    // Its place in the list of files.
    place: usize,
    // How many of its bytes were read.
    taken: usize,
}

/// Files in memory. The calls of `begin` and `read` are numbered together from 1, and those of the
/// listed numbers fail and raise the count of faults.
#[derive(Debug, Drop)]
pub struct MemoryFiles {
    files: List<(Text, Text)>,
    calls: Calls,
    begun: Count,
    mark: Count,
    reading: Option<Reading>,
}

impl Model for MemoryFiles {
    ghost use Rattle.edge_io.specs.Memory.{FilesState};

    ghost Value = { FilesState };

    ghost use Rattle.edge_io.specs.Reading.{left_of, IsPlaced};

    ghost view = { λ m. record { folder = m.files; calls = m.calls; begun = m.begun; mark = m.mark; left = left_of m.files m.reading } };

    ghost invariant = { λ m. IsPlaced m.files m.reading };
}

impl MemoryFiles {
    ghost use Rattle.std.specs.Prelude.{◌≡◌, None};

    /// The files with their names, of which the first of a name counts, and the numbers of the
    /// calls that fail.
    pub fn new(files: List<(Text, Text)>, fails: List<u64>) -> MemoryFiles
        ensures { result ≡ record { folder = files; calls = record { fails = fails; made = 0; faults = 0 }; begun = 0; mark = 0; left = None } }
    {
        MemoryFiles {
            files,
            calls: Calls::new(fails),
            begun: Count::zero(),
            mark: Count::zero(),
            reading: None,
        }
    }
}

// The place of the first file of a name.
fn place_of(files: &[(Text, Text)], name: &[u8]) -> Option<usize>
    ensures within { IfSome result (λ i. i < length files.now) }
    ensures named { bytes_named files.now name.now ≡ option_map (bytes_at files.now) result }
{
    'files: for (i, file) in files.iter().enumerate() {
        if file.0.as_slice() == name {
            return Some(i);
        }
    }
    None
}

// The bytes of the file at a place.
fn file_at(files: &[(Text, Text)], place: usize) -> &[u8]
    requires { place < length files.now }
    ensures { result.now ≡ bytes_at files.now place }
{
    files[place].1.as_slice()
}

// Copies as many bytes as fit, and answers their number.
fn copy_front(from: &[u8], to: &mut [u8]) -> usize
    ensures count { result ≡ min (length from.now) (length to.old) }
    ensures copied { to.new ≡ take (length to.old) from.now ++ drop result to.old }
{
    let count = from.len().min(to.len());
    to[..count].copy_from_slice(&from[..count]);
    count
}

impl Files for MemoryFiles {
    ghost use Rattle.std.specs.Prelude.{◌≡◌, ◌<◌, ◌≤◌, ◌++◌, ◌&&◌, not, false, true, is_some, is_ok, IsTrue, length, drop, Some, MatchResult};
    ghost use Rattle.edge_io.specs.Folder.{bytes_named};
    ghost use Rattle.edge_io.specs.Memory.{is_next_listed, after_begin, after_read, bytes_given};

    ghost told = { λ m. Some m.folder };

    ghost is_ready = { λ m. is_some m.left };

    ghost left = { λ m. m.left };

    ghost faults = { λ m. m.calls.faults };

    ghost begun = { λ m. m.begun };

    ghost mark = { λ m. m.mark };

    fn begin(&mut self, name: &[u8]) -> Result<(), Failed>
        ensures answer { is_ok result ≡ (not (is_next_listed self.old.calls) && is_some (bytes_named self.old.folder name.now)) }
        ensures after { self.new ≡ after_begin self.old name.now }
    {
        self.begun.rise();
        self.mark = self.calls.faults;
        self.reading = None;
        if self.calls.fails_now(false) {
            return Err(Failed);
        }
        let place = place_of(self.files.as_slice(), name).ok_or(Failed)?;
        self.reading = Some(Reading { place, taken: 0 });
        Ok(())
    }

    fn read(&mut self, piece: &mut [u8]) -> Result<usize, Failed>
        ensures answer { MatchResult result
            (λ n. (is_next_listed self.old.calls ≡ false) × (n ≡ length (bytes_given self.old (length piece.old))))
            (λ _. is_next_listed self.old.calls ≡ true) }
        ensures after { self.new ≡ after_read self.old (length piece.old) }
        ensures piece_after { piece.new ≡ bytes_given self.old (length piece.old)
            ++ drop (length (bytes_given self.old (length piece.old))) piece.old }
    {
        if self.calls.fails_now(false) {
            return Err(Failed);
        }
        let Some(reading) = &mut self.reading else {
            return Ok(0);
        };
        let bytes = file_at(self.files.as_slice(), reading.place);
        let count = copy_front(&bytes[reading.taken..], piece);
        reading.taken += count;
        Ok(count)
    }
}
