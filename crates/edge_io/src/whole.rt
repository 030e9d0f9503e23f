//! Whole files and whole texts, over any source of files and any sink.

ghost use Rattle.std.specs.Prelude.{◌≡◌, ℕ, ◌+◌, ◌++◌, ◌<◌, ◌≤◌, IsTrue, IfOk, IfSome, OnErr, MatchResult, length, replicate, take, vec_len};
ghost use Rattle.std.specs.Io.KnownBytes.{Appends, Consumes, IsAtEnd};
ghost use Rattle.edge_io.specs.Causes.{HasCause};
ghost use Rattle.edge_io.specs.ReadFaults.{IsCause};
ghost use Rattle.edge_io.specs.declared.whole.ReadFault.TheVariants.{Failed as failed_read, NoMemory as no_memory};

use crate::faults::Failed;
use crate::files::Files;
use crate::sink::Sink;
use std::alloc::{AllocError, Global};

// How many bytes a read asks for.
const PIECE: usize = 65_536;

/// Why a file isn't read.
#[derive(Clone, Copy, Debug, PartialEq, Eq)]
pub enum ReadFault {
    /// A read failed.
    Failed,
    /// There was no memory for the bytes.
    NoMemory,
}

impl From<Failed> for ReadFault {
    ghost from_gives = { λ _ e. e ≡ failed_read };

    fn from(_fault: Failed) -> ReadFault {
        ReadFault::Failed
    }
}

impl From<AllocError> for ReadFault {
    ghost from_gives = { λ _ e. e ≡ no_memory };

    fn from(_fault: AllocError) -> ReadFault {
        ReadFault::NoMemory
    }
}

fn zeros(alloc: Global, size: usize) -> Result<Vec<u8>, AllocError>
    ensures { IfOk result (λ v. v.items ≡ replicate size 0) }
{
    vec![in alloc; 0; size]
}

// Reads into the buffer once, and puts what was read behind the bytes that came before. It answers
// how many bytes that were.
fn read_piece<F: Files>(
    files: &mut F,
    buffer: &mut [u8],
    bytes: &mut Vec<u8>,
) -> Result<usize, ReadFault>
    requires room { 0 < length buffer.old }
    requires is_begun { IsTrue (F.is_ready files.old) }
    ensures piece { IfOk result (λ n. (n ≤ length buffer.new) × (bytes.new.items ≡ bytes.old.items ++ take n buffer.new)) }
    ensures taken { IfOk result (λ n. Consumes (F.left files.old) (F.left files.new) (take n buffer.new)) }
    ensures end { IfOk result (λ n. n ≡ 0 → IsAtEnd (F.left files.new)) }
    ensures later { F.faults files.old ≤ F.faults files.new }
    ensures cause { MatchResult result
        (λ _. F.faults files.new ≡ F.faults files.old)
        (IsCause (F.faults files.old) (F.faults files.new)) }

    ensures ready { IsTrue (F.is_ready files.new) }
    ensures same_folder { F.told files.new ≡ F.told files.old }
    ensures same_begun { F.begun files.new ≡ F.begun files.old }
    ensures same_mark { F.mark files.new ≡ F.mark files.old }
{
    let count = files.read(buffer)?;
    bytes.extend_from_slice(&buffer[..count])?;
    Ok(count)
}

/// Reads the file that was begun to its end, or until one byte more than `limit` was read. After
/// an error some front of the file was read.
pub fn read_whole<F: Files>(alloc: Global, files: &mut F, limit: u32) -> Result<Vec<u8>, ReadFault>
    requires { IsTrue (F.is_ready files.old) }
    ensures whole { IfOk result (λ v. IfSome (F.left files.old) (λ bytes. v.items ≡ take (limit + 1) bytes)) }
    ensures bound { IfOk result (λ v. vec_len v ≤ limit + 1) }
    ensures rest { IfOk result (λ v. Consumes (F.left files.old) (F.left files.new) v.items) }
    ensures later { F.faults files.old ≤ F.faults files.new }
    ensures cause { MatchResult result
        (λ _. F.faults files.new ≡ F.faults files.old)
        (IsCause (F.faults files.old) (F.faults files.new)) }

    ensures ready { IsTrue (F.is_ready files.new) }
    ensures same_folder { F.told files.new ≡ F.told files.old }
    ensures same_begun { F.begun files.new ≡ F.begun files.old }
    ensures same_mark { F.mark files.new ≡ F.mark files.old }
{
    let most = limit as usize + 1;
    let mut buffer = zeros(alloc, most.min(PIECE))?;
    let mut bytes = Vec::new(alloc);
    'pieces: while bytes.len() < most {
        let room = buffer.len().min(most - bytes.len());
        if read_piece(files, &mut buffer[..room], &mut bytes)? == 0 {
            break;
        }
    }
    Ok(bytes)
}

/// Writes all of the bytes. After a failure a front of them, but not all, was written.
pub fn write_whole<S: Sink>(sink: &mut S, bytes: &[u8]) -> Result<(), Failed>
    ensures bytes { MatchResult result
        (λ _. Appends (S.written sink.old) (S.written sink.new) bytes.now)
        (λ _. (n : ℕ) × (n < length bytes.now) × Appends (S.written sink.old) (S.written sink.new) (take n bytes.now)) }
    ensures cause { HasCause (S.faults sink.old) (S.faults sink.new) result }
{
    let mut at = 0;
    'pieces: while at < bytes.len() {
        at += sink.write(&bytes[at..])?;
    }
    Ok(())
}
