//! Generated tasks of each size.

ghost use Rattle.std.specs.Prelude.{◌≤◌};

use generate_command::search;
use search_records::Record;
use std::alloc::Global;
use std::test::Fail;

/// How many states and boxes a record has, and how many facts, fluents and actions its task.
type Sizes = (usize, usize, usize, usize, usize);

fn sizes_of(found: &Record) -> Sizes {
    let raw = found.task.raw();
    (
        found.nodes.len(),
        found.boxes.len(),
        raw.facts.len(),
        raw.fluents.len(),
        raw.actions.len(),
    )
}

// What is found with one expansion; none where the texts are refused.
fn sizes_at(alloc: Global, size: u32) -> Option<Sizes>
    requires some { 2 ≤ size }
    requires few { size ≤ 64 }
{
    let found = search(alloc, size, 1).ok()?;
    Some(sizes_of(&found))
}

// No size is refused. One expansion gives the initial state and one for each counter that goes up; no counter may go down.
#[test]
fn each_size_is_searched(rt: HostRuntime) -> Result<(), Fail> {
    for size in 2..65 {
        let count = size as usize;
        let wanted = (count + 1, 0, 0, count, 2 * count);
        assert_eq!(rt; sizes_at(rt.alloc(), size), Some(wanted), "size {size}");
    }
    Ok(())
}

// Two searches of one task have one list of events.
#[test]
fn searches_are_alike(rt: HostRuntime) -> Result<(), Fail> {
    let Ok(first) = search(rt.alloc(), 8, 200) else {
        panic!(rt; "no record");
    };
    let Ok(second) = search(rt.alloc(), 8, 200) else {
        panic!(rt; "no second record");
    };
    assert_eq!(rt; first.journal.as_slice(), second.journal.as_slice());
    Ok(())
}
