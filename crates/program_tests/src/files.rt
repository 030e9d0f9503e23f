//! Files in memory, read whole.

ghost use Rattle.std.specs.Prelude.{◌≡◌, length, IfOk};

use edge_io::MemoryFiles;
use num_ends::{List, Text};
use std::alloc::{AllocError, Global};
use std::test::Fail;
use whole_files::{Gathered, Wanted, read_all};

// The name of the second of two files, of which `a` has three bytes and the second five; the limits up to which `a` and `b` are
// read; the number of the call that fails, or 0; and what is read.
static READINGS: [(&str, u32, u32, u64, &str); 10] = [
    ("b", 5, 5, 0, "one three"),
    ("b", 3, 5, 0, "one three"),
    ("b", 2, 5, 0, "0 is too large"),
    ("b", 5, 4, 0, "1 is too large"),
    ("c", 5, 5, 0, "1 is missing"),
    ("c", 2, 5, 0, "0 is too large"),
    ("b", 5, 5, 1, "0 is missing"),
    ("b", 5, 5, 3, "0 is missing"),
    ("b", 5, 5, 4, "1 is missing"),
    ("b", 5, 4, 5, "1 is missing"),
];

fn text_of(alloc: Global, text: &str) -> Result<Text, AllocError> {
    Ok(Text::from_vec(Vec::from_slice(alloc, text.as_bytes())?))
}

fn folder_of(alloc: Global, second: &str) -> Result<List<(Text, Text)>, AllocError> {
    let mut all = Vec::new(alloc);
    all.push((text_of(alloc, "a")?, text_of(alloc, "one")?))?;
    all.push((text_of(alloc, second)?, text_of(alloc, "three")?))?;
    Ok(List::from_vec(all))
}

fn wanted(alloc: Global, first: u32, second: u32) -> Result<Vec<Wanted>, AllocError>
    ensures { IfOk result (λ all. length all.items ≡ 2) }
{
    let mut all = Vec::new(alloc);
    let a = text_of(alloc, "a")?;
    all.push(Wanted {
        name: a,
        limit: first,
    })?;
    let b = text_of(alloc, "b")?;
    all.push(Wanted {
        name: b,
        limit: second,
    })?;
    Ok(all)
}

fn told(alloc: Global, found: &Gathered) -> Result<String, AllocError> {
    match found {
        Gathered::Texts(texts) => {
            let mut line = String::new(alloc);
            for text in texts.as_slice() {
                if !line.is_empty() {
                    line.push(' ')?;
                }
                line.push_str(&String::from_utf8_lossy(alloc, text.as_slice())?)?;
            }
            Ok(line)
        }
        Gathered::Missing(place) => format!(in alloc; "{place} is missing"),
        Gathered::TooLarge(place) => format!(in alloc; "{place} is too large"),
    }
}

#[test]
fn files_are_read_up_to_the_first_that_cannot_be(rt: HostRuntime) -> Result<(), Fail> {
    let alloc = rt.alloc();
    for &(second, first_limit, second_limit, call, outcome) in READINGS.iter() {
        let fails = List::from_vec(vec![in alloc; call]?);
        let mut files = MemoryFiles::new(folder_of(alloc, second)?, fails);
        let all = wanted(alloc, first_limit, second_limit)?;
        let found = read_all(alloc, &mut files, all.as_slice()).map_err(|_| AllocError)?;
        assert_eq!(rt; told(alloc, &found)?.as_str(), outcome, "{second} {call}");
    }
    Ok(())
}
