//! The line of a generated task's search.

ghost use Rattle.std.specs.Prelude.{IfSome};
ghost use Rattle.search_records.specs.Records.{IsLegalRecord};
ghost use Rattle.answer_text.specs.Texts.{HasText};

use crate::texts::{Sent, discard, sink_of};
use answer_text::{Unsent, send_summary};
use generate_command::search;
use num_ends::NoMemory;
use search_records::Record;
use std::alloc::Global;
use std::test::Fail;

/// The size of a task, the greatest number of expansions, the room of the sink, the write that fails, or 0, and what is answered
/// and written.
type Row = (u32, u32, u32, u64, Result<(), Unsent>, &'static str);

static ROWS: [Row; 7] = [
    (
        2,
        100,
        100,
        0,
        Ok(()),
        "GENERATED size 2 status 0 states 3 boxes 0 facts 0 fluents 2 actions 4\n",
    ),
    (
        3,
        1,
        100,
        0,
        Ok(()),
        "GENERATED size 3 status 2 states 4 boxes 0 facts 0 fluents 3 actions 6\n",
    ),
    (
        64,
        1,
        100,
        0,
        Ok(()),
        "GENERATED size 64 status 2 states 65 boxes 0 facts 0 fluents 64 actions 128\n",
    ),
    (2, 100, 100, 1, Err(Unsent::Sink), ""),
    (2, 100, 0, 0, Err(Unsent::Sink), ""),
    (2, 100, 16, 0, Err(Unsent::Sink), "GENERATED size 2"),
    (
        2,
        100,
        70,
        0,
        Err(Unsent::Sink),
        "GENERATED size 2 status 0 states 3 boxes 0 facts 0 fluents 2 actions 4",
    ),
];

// The record of a generated task; none where the size is none.
fn generated(alloc: Global, size: u32, limit: u32) -> Option<Record>
    ensures legal { IfSome result IsLegalRecord }
    ensures told { IfSome result HasText }
{
    if !(2..=64).contains(&size) {
        return None;
    }
    search(alloc, size, limit).ok()
}

fn send(alloc: Global, found: &Record, size: u32, room: u32, write: u64) -> Result<Sent, NoMemory>
    requires legal { IsLegalRecord found.now }
    requires told { HasText found.now }
{
    let mut sink = sink_of(alloc, room, write)?;
    let result = send_summary(alloc, size, found, &mut sink);
    Ok(Sent { result, sink })
}

// Whether the line of a row is sent so.
fn is_sent(alloc: Global, row: Row) -> Result<bool, NoMemory> {
    let (size, limit, room, write, wanted, text) = row;
    let Some(found) = generated(alloc, size, limit) else {
        return Ok(false);
    };
    let told = send(alloc, &found, size, room, write);
    discard(found);
    let told = told?;
    Ok(told.result == wanted && told.sink.bytes() == text.as_bytes())
}

#[test]
fn summaries_are_sent(rt: HostRuntime) -> Result<(), Fail> {
    for (i, row) in ROWS.iter().enumerate() {
        assert!(rt; is_sent(rt.alloc(), *row)?, "row {i}");
    }
    Ok(())
}
