//! Files and a sink in memory, whose calls fail where a list says so.

use crate::fetch::fetch;
use edge_io::{MemoryFiles, MemorySink, ReadFault, write_whole};
use num_ends::{List, NoMemory, Text};
use std::alloc::{AllocError, Global};
use std::test::Fail;

fn text(alloc: Global, bytes: &[u8]) -> Result<Text, AllocError> {
    Ok(Text::from_vec(bytes.to_vec(alloc)?))
}

// Two files of one name, and a third.
fn three_files(alloc: Global) -> Result<List<(Text, Text)>, NoMemory> {
    let mut files = List::new(alloc);
    for (name, bytes) in [("a", "first"), ("a", "second"), ("b", "")] {
        files.push((
            text(alloc, name.as_bytes())?,
            text(alloc, bytes.as_bytes())?,
        ))?;
    }
    Ok(files)
}

// The fetch from files of which that call fails gives those bytes, or fails where none are wanted.
fn gives(
    alloc: Global,
    call: u64,
    name: &str,
    limit: u32,
    want: Option<&str>,
) -> Result<bool, NoMemory> {
    let fails = List::from_vec([call].to_vec(alloc)?);
    let mut files = MemoryFiles::new(three_files(alloc)?, fails);
    Ok(match fetch(alloc, &mut files, name.as_bytes(), limit) {
        Ok(bytes) => want.is_some_and(|want| bytes.as_slice() == want.as_bytes()),
        Err(fault) => want.is_none() && fault == ReadFault::Failed,
    })
}

#[test]
fn memory_files(rt: HostRuntime) -> Result<(), Fail> {
    for (call, name, limit, want) in [
        (0, "a", 100, Some("first")),
        (0, "a", 5, Some("first")),
        (0, "a", 4, Some("first")),
        (0, "a", 3, Some("firs")),
        (0, "b", 0, Some("")),
        (0, "c", 100, None),
        (1, "a", 100, None),
        (2, "a", 100, None),
        (3, "a", 100, None),
        (4, "a", 100, Some("first")),
    ] {
        assert!(rt;
            gives(rt.alloc(), call, name, limit, want)?,
            "{name} to {limit}, call {call}"
        );
    }
    Ok(())
}

// Two texts, written to a sink of that room and of which that call fails, all go there or not, and
// leave those bytes.
fn leaves(alloc: Global, room: u32, call: u64, goes: bool, want: &str) -> Result<bool, NoMemory> {
    let fails = List::from_vec([call].to_vec(alloc)?);
    let mut sink = MemorySink::new(alloc, room, fails)?;
    let went = write_whole(&mut sink, b"twice ").and_then(|_| write_whole(&mut sink, b"again"));
    Ok(went.is_ok() == goes && sink.bytes() == want.as_bytes())
}

#[test]
fn memory_sink(rt: HostRuntime) -> Result<(), Fail> {
    for (room, call, goes, want) in [
        (100, 0, true, "twice again"),
        (11, 0, true, "twice again"),
        (10, 0, false, "twice agai"),
        (0, 0, false, ""),
        (100, 1, false, ""),
        (100, 2, false, "twice "),
    ] {
        assert!(rt;
            leaves(rt.alloc(), room, call, goes, want)?,
            "room {room}, call {call}"
        );
    }
    Ok(())
}
