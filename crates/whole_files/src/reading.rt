//! The calls that read.

ghost use Rattle.std.specs.Prelude.{◌≡◌, ◌≤◌, ◌<◌, ◌^◌, length, IfOk, OnErr};
ghost use Rattle.edge_io.specs.Causes.{counted};
ghost use Rattle.whole_files.specs.Gathered.{IsGathered};
ghost use Rattle.whole_files.specs.Once.{IsCut, IsOnce};
ghost use Rattle.whole_files.specs.Seen.{saw};

use crate::gathered::{Gathered, Once};
use crate::wanted::Wanted;
use edge_io::{Files, ReadFault, read_whole};
use num_ends::{List, NoMemory, Text};
use std::alloc::Global;

// What was read to one byte more than the limit at most.
fn once_of(bytes: Vec<u8>, limit: u32) -> Once
    ensures { IsCut limit bytes.items result }
{
    if bytes.len() > limit as usize {
        return Once::TooLarge;
    }
    Once::Whole(Text::from_vec(bytes))
}

/// Reads one file.
#[tactic(auto, unfolding(crate::specs::Seen::saw))]
pub(crate) fn read_once<F: Files>(
    alloc: Global,
    files: &mut F,
    file: &Wanted,
) -> Result<Once, NoMemory>
    ensures same_folder { F.told files.new ≡ F.told files.old }
    ensures next_begun { F.begun files.new ≡ counted (F.begun files.old) }
    ensures new_mark { F.mark files.new ≡ F.faults files.old }
    ensures later { F.faults files.old ≤ F.faults files.new }
    ensures read { IfOk result (IsOnce (saw F.Files files.old files.new) file.now) }
    ensures memory { OnErr result (F.faults files.new ≡ F.faults files.old) }
{
    let Ok(()) = files.begin(file.name.as_slice()) else {
        return Ok(Once::Missing);
    };
    match read_whole(alloc, files, file.limit) {
        Ok(bytes) => Ok(once_of(bytes, file.limit)),
        Err(ReadFault::Failed) => Ok(Once::Missing),
        Err(ReadFault::NoMemory) => Err(NoMemory),
    }
}

/// Reads these files, one after another, each to its end. It stops at the first that isn't there, that fails, or that has
/// more bytes than its limit; the files behind it aren't begun. Where there is no memory, no fault came from the files.
#[tactic(auto, unfolding(crate::specs::Seen::saw))]
pub fn read_all<F: Files>(
    alloc: Global,
    files: &mut F,
    wanted: &[Wanted],
) -> Result<Gathered, NoMemory>
    requires { length wanted.now < 2 ^ 32 }
    ensures gathered { IfOk result (IsGathered (saw F.Files files.old files.new) wanted.now) }
    ensures memory { OnErr result (F.faults files.new ≡ F.faults files.old) }
{
    let mut texts = List::new(alloc);
    'each: for file in wanted {
        match read_once(alloc, files, file)? {
            Once::Missing => return Ok(Gathered::Missing(texts.len() as u32)),
            Once::TooLarge => return Ok(Gathered::TooLarge(texts.len() as u32)),
            Once::Whole(text) => texts.push(text)?,
        }
    }
    Ok(Gathered::Texts(texts))
}
