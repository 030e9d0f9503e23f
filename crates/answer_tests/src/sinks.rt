//! What a sink holds of a text that isn't sent whole.

ghost use Rattle.search_records.specs.Records.{IsLegalRecord};
ghost use Rattle.answer_text.specs.Texts.{HasText};

use crate::texts::{THREE, UP, discard, found_in, send};
use answer_text::Unsent;
use num_ends::NoMemory;
use search_records::Record;
use std::alloc::Global;
use std::test::Fail;

/// The room of a sink, the number of the write that fails, or 0, what is answered, and the bytes that the sink takes.
type Small = (u32, u64, Result<(), Unsent>, &'static str);

/// The same with how many bytes the sink takes.
type Large = (u32, u64, Result<(), Unsent>, usize);

// The text is `; PLAN 3` with its three steps.
static SMALL: [Small; 6] = [
    (27, 0, Ok(()), "; PLAN 3\n(inc)\n(inc)\n(inc)\n"),
    (27, 1, Err(Unsent::Sink), ""),
    (27, 2, Ok(()), "; PLAN 3\n(inc)\n(inc)\n(inc)\n"),
    (0, 0, Err(Unsent::Sink), ""),
    (12, 0, Err(Unsent::Sink), "; PLAN 3\n(in"),
    (26, 0, Err(Unsent::Sink), "; PLAN 3\n(inc)\n(inc)\n(inc)"),
];

// The text has a line of 13 bytes and 25,000 of six. A piece of 65,536 bytes is full with the line that ends at 65,539, and the next
// one with that at 131,077.
static LARGE: [Large; 7] = [
    (200_000, 0, Ok(()), 150_013),
    (200_000, 1, Err(Unsent::Sink), 0),
    (200_000, 2, Err(Unsent::Sink), 65_539),
    (200_000, 3, Err(Unsent::Sink), 131_077),
    (200_000, 4, Ok(()), 150_013),
    (65_538, 0, Err(Unsent::Sink), 65_538),
    (150_012, 0, Err(Unsent::Sink), 150_012),
];

fn has_small(alloc: Global, found: &Record, row: Small) -> Result<bool, NoMemory>
    requires legal { IsLegalRecord found.now }
    requires told { HasText found.now }
{
    let (room, write, wanted, text) = row;
    let told = send(alloc, found, room, write)?;
    Ok(told.result == wanted && told.sink.bytes() == text.as_bytes())
}

// The first row of the small text that isn't as it should be.
fn wrong_small(alloc: Global, found: &Record) -> Result<Option<usize>, NoMemory>
    requires legal { IsLegalRecord found.now }
    requires told { HasText found.now }
{
    'rows: for (i, row) in SMALL.iter().enumerate() {
        if !has_small(alloc, found, *row)? {
            return Ok(Some(i));
        }
    }
    Ok(None)
}

#[test]
fn a_front_is_written_of_a_small_text(rt: HostRuntime) -> Result<(), Fail> {
    let Some(found) = found_in(rt.alloc(), UP, THREE, 3) else {
        panic!(rt; "no record");
    };
    let wrong = wrong_small(rt.alloc(), &found);
    discard(found);
    assert_eq!(rt; wrong?, None);
    Ok(())
}

// Whether these bytes are the first line and then lines of the one step, the last of which may be cut.
fn is_front(bytes: &[u8]) -> bool {
    let head = b"; PLAN 25000\n";
    let step = b"(inc)\n";
    bytes.iter().enumerate().all(|(i, byte)| {
        if i < 13 {
            *byte == head[i]
        } else {
            *byte == step[(i - 13) % 6]
        }
    })
}

fn has_large(alloc: Global, found: &Record, row: Large) -> Result<bool, NoMemory>
    requires legal { IsLegalRecord found.now }
    requires told { HasText found.now }
{
    let (room, write, wanted, len) = row;
    let told = send(alloc, found, room, write)?;
    let bytes = told.sink.bytes();
    Ok(told.result == wanted && bytes.len() == len && is_front(bytes))
}

// The first row of the large text that isn't as it should be.
fn wrong_large(alloc: Global, found: &Record) -> Result<Option<usize>, NoMemory>
    requires legal { IsLegalRecord found.now }
    requires told { HasText found.now }
{
    'rows: for (i, row) in LARGE.iter().enumerate() {
        if !has_large(alloc, found, *row)? {
            return Ok(Some(i));
        }
    }
    Ok(None)
}

#[test]
fn a_front_is_written_of_a_large_text(rt: HostRuntime) -> Result<(), Fail> {
    let goal = "(define (problem p) (:domain d) (:init (= (x) 0)) (:goal (>= (x) 25000)))";
    let Some(found) = found_in(rt.alloc(), UP, goal, 25_000) else {
        panic!(rt; "no record");
    };
    let wrong = wrong_large(rt.alloc(), &found);
    discard(found);
    assert_eq!(rt; wrong?, None);
    Ok(())
}
