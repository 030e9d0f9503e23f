//! Files and writers of the machine.

use crate::fetch::fetch;
use edge_io::{ReadFault, RealFiles, RealSink, write_whole};
use std::io::Write;
use std::test::Fail;
use std::{fs, io};

#[test]
fn real_files(rt: HostRuntime) -> Result<(), Fail> {
    let long = vec![in rt.alloc(); b'x'; 65_537]?;
    fs::create_dir_all(&rt, "read")?;
    fs::write(&rt, "read/long", long.as_slice())?;
    fs::write(&rt, "read/short", "short")?;
    let mut files = RealFiles::new(&rt);
    assert_eq!(rt;
        fetch(rt.alloc(), &mut files, b"read/short", 100)?.as_slice(),
        b"short".as_slice()
    );
    assert_eq!(rt;
        fetch(rt.alloc(), &mut files, b"read/none", 100).err(),
        Some(ReadFault::Failed)
    );
    assert_eq!(rt;
        fetch(rt.alloc(), &mut files, b"\xff", 100).err(),
        Some(ReadFault::Failed)
    );
    assert_eq!(rt;
        fetch(rt.alloc(), &mut files, b"read/long", 99_999)?.as_slice(),
        long.as_slice()
    );
    assert_eq!(rt;
        fetch(rt.alloc(), &mut files, b"read/long", 65_535)?.len(),
        65_536
    );
    fs::remove_dir_all(&rt, "read")?;
    Ok(())
}

// A name is passed on byte for byte. Each of these files holds its own name, and only blanks, the
// case of a letter, dots or slashes tell them apart. Where two names lead to one file, it is read
// under either.
#[test]
fn names_as_they_stand(rt: HostRuntime) -> Result<(), Fail> {
    for folder in ["in", " in", "in./in", "IN"] {
        fs::create_dir_all(&rt, folder)?;
    }
    for name in [
        "in/n", " in/n", "in/ n", "in/n ", "in/n\t", "in/N", "IN/n", "in/.n", "in/n.", "in./n",
        "in./in/n", "inn",
    ] {
        fs::write(&rt, name, name)?;
    }
    let mut files = RealFiles::new(&rt);
    for (name, holds) in [
        ("in/n", "in/n"),
        (" in/n", " in/n"),
        ("in/ n", "in/ n"),
        ("in/n ", "in/n "),
        ("in/n\t", "in/n\t"),
        ("in/N", "in/N"),
        ("IN/n", "IN/n"),
        ("in/.n", "in/.n"),
        ("in/n.", "in/n."),
        ("in./n", "in./n"),
        ("in./in/n", "in./in/n"),
        ("inn", "inn"),
        ("./in/n", "in/n"),
        ("in/./n", "in/n"),
        ("in/../inn", "inn"),
    ] {
        assert_eq!(rt;
            fetch(rt.alloc(), &mut files, name.as_bytes(), 100)?.as_slice(),
            holds.as_bytes(),
            "the file {name:?}"
        );
    }
    for name in [" inn", "inn ", "INN", "in/n/", "in/n\n", ".in/n"] {
        assert_eq!(rt;
            fetch(rt.alloc(), &mut files, name.as_bytes(), 100).err(),
            Some(ReadFault::Failed),
            "no file {name:?}"
        );
    }
    for folder in ["in", " in", "in.", "IN"] {
        fs::remove_dir_all(&rt, folder)?;
    }
    fs::remove_file(&rt, "inn")?;
    Ok(())
}

// Takes one byte of each piece, until it is full.
#[derive(Drop)]
struct Narrow<'a> {
    taken: &'a mut Vec<u8>,
    room: usize,
}

impl Write for Narrow<'_> {
    fn write(&mut self, buf: &[u8]) -> io::Result<usize> {
        match buf.first() {
            Some(byte) if self.room > 0 => {
                self.taken.push(*byte)?;
                self.room -= 1;
                Ok(1)
            }
            _ => Ok(0),
        }
    }

    fn flush(&mut self) -> io::Result<()> {
        Ok(())
    }
}

#[test]
fn real_sink(rt: HostRuntime) -> Result<(), Fail> {
    for (room, goes, want) in [(0, false, ""), (3, false, "wor"), (5, true, "words")] {
        let mut taken = Vec::new(rt.alloc());
        let mut sink = RealSink::new(Narrow {
            taken: &mut taken,
            room,
        });
        assert_eq!(rt;
            write_whole(&mut sink, b"words").is_ok(),
            goes,
            "at room {room}"
        );
        drop(sink);
        assert_eq!(rt; taken.as_slice(), want.as_bytes(), "at room {room}");
    }
    Ok(())
}
