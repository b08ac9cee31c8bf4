//! What no page of cases can say: the edge over a reader, a file and a writer, each more than one
//! piece long.
use crate::host::{HostShelf, StdSink, read_once};
use lint_base::{Failed, Shelf, read_file, write_text};
use std::io::{self, Write};
use std::test::Fail;
use std::{env, fs};

#[test]
fn a_reader_gives_its_bytes(rt: HostRuntime) -> Result<(), Fail> {
    let mut reader = b"ten bytes.".as_slice();
    let mut piece = [0; 4];
    let mut all = Vec::new(rt.alloc());
    for _ in 0..4 {
        let count = read_once(&mut reader, &mut piece).ok_or("a fault")?;
        all.extend_from_slice(&piece[..count])?;
    }
    assert_eq!(rt; all.as_slice(), b"ten bytes.".as_slice());
    Ok(())
}

#[test]
fn a_file_is_read_to_its_end(rt: HostRuntime) -> Result<(), Fail> {
    let path = env::temp_dir(&rt)?.join(rt.alloc(), "sqllint_test_file")?;
    let text = "0123456789".repeat(rt.alloc(), 1000)?;
    fs::write(&rt, path.as_path(), text.as_str())?;
    let mut shelf = HostShelf::new(&rt);
    let name = path.as_path().to_str().ok_or("no text")?;
    let read = read_file(rt.alloc(), &mut shelf, name, 10_000)?;
    assert_eq!(rt; read.as_slice(), text.as_str().as_bytes());
    assert_eq!(rt; shelf.open_file("/no/such/file"), Err(Failed));
    fs::remove_file(&rt, path.as_path())?;
    Ok(())
}

/// A writer in memory that takes at most four bytes at a time.
#[derive(Drop)]
struct Slow {
    held: Vec<u8>,
}

impl Write for Slow {
    fn write(&mut self, bytes: &[u8]) -> io::Result<usize> {
        let count = bytes.len().min(4);
        self.held.extend_from_slice(&bytes[..count])?;
        Ok(count)
    }

    fn flush(&mut self) -> io::Result<()> {
        Ok(())
    }
}

#[test]
fn a_writer_gets_the_text(rt: HostRuntime) -> Result<(), Fail> {
    let mut sink = StdSink::new(Slow {
        held: Vec::new(rt.alloc()),
    });
    write_text(&mut sink, b"query 1 at 0..37\n")?;
    assert_eq!(rt;
        sink.writer.held.as_slice(),
        b"query 1 at 0..37\n".as_slice()
    );
    Ok(())
}
