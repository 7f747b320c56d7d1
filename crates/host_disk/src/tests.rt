ghost use Rattle.std.specs.Prelude.{◌≡◌, IfOk};

use crate::{FileDisk, Folder, HostFault, StdSink, StdSource};
use site_disk::{Disk, Era, Failed, Sink, Source};
use std::alloc::Allocator;
use std::cell::Cell;
use std::fmt::Display;
use std::fs;
use std::io::{self, BufRead, Error, ErrorKind, Input, Lines, Print, Read};
use std::test::Fail;

const FOLDER: &str = "host_disk_test";

const PATH: &str = "host_disk_test/disk";

fn read_again(rt: &HostRuntime, at: u64, into: &mut [u8]) -> Result<usize, Fail> {
    let era = Era::first();
    let mut disk = FileDisk::open(rt, &era, PATH)?;
    Ok(disk.read_at(&era, at, into)?)
}

#[test]
fn a_file_is_found_again_as_it_was_written(rt: HostRuntime) -> Result<(), Fail> {
    let era = Era::first();
    let _ = fs::remove_dir_all(&rt, FOLDER);
    let missing = FileDisk::open(&rt, &era, PATH);
    assert!(rt; matches!(missing, Err(HostFault::Failed(_))));
    fs::create_dir(&rt, FOLDER)?;
    let mut disk = FileDisk::open(&rt, &era, PATH)?;
    assert_eq!(rt; disk.len(), Ok(0));
    assert_eq!(rt; disk.write_at(&era, 0, b"abcdef"), Ok(()));
    assert_eq!(rt; disk.write_at(&era, 4, b"xyz"), Ok(()));
    assert!(rt; disk.last_error().is_none());
    assert_eq!(rt; disk.write_at(&era, u64::MAX, b"!"), Err(Failed));
    assert!(rt; disk.last_error().is_some());
    assert_eq!(rt; disk.sync(&era), Ok(()));
    assert_eq!(rt; disk.len(), Ok(7));
    let mut buffer = *b"----";
    for (at, want, held) in [
        (0, 4, b"abcd"),
        (5, 2, b"yzcd"),
        (7, 0, b"yzcd"),
        (u64::MAX, 0, b"yzcd"),
    ] {
        assert_eq!(rt; read_again(&rt, at, &mut buffer)?, want, "from {at}");
        assert_eq!(rt; buffer, *held, "from {at}");
    }
    fs::remove_dir_all(&rt, FOLDER)?;
    Ok(())
}

#[test]
fn a_file_is_held_by_one_at_a_time(rt: HostRuntime) -> Result<(), Fail> {
    let era = Era::first();
    let first = FileDisk::open(&rt, &era, "held")?;
    let second = FileDisk::open(&rt, &era, "held")?;
    assert!(rt; first.hold().is_ok());
    assert!(rt; matches!(second.hold(), Err(HostFault::Held)));
    drop(first);
    assert!(rt; second.hold().is_ok());
    Folder::open(&rt, ".")?.sync()?;
    fs::remove_file(&rt, "held")?;
    Ok(())
}

// One byte at each other call. The calls between are interrupted, and behind the second byte the line breaks.
fn moved(calls: &Cell<u64>) -> io::Result<usize>
    ensures { IfOk result (λ n. n ≡ 1) }
{
    let call = calls.get();
    calls.set(call.saturating_add(1));
    match call {
        1 | 3 => Ok(1),
        0 | 2 => Err(Error::from(ErrorKind::Interrupted)),
        _ => Err(Error::from(ErrorKind::ConnectionReset)),
    }
}

#[derive(Drop)]
struct Line {
    calls: Cell<u64>,
}

impl Read for Line {
    fn read(&mut self, buf: &mut [u8]) -> io::Result<usize> {
        if buf.is_empty() {
            return Ok(0);
        }
        buf[0] = b'a';
        moved(&self.calls)
    }
}

impl BufRead for Line {
    fn fill_buf(&mut self) -> io::Result<&[u8]> {
        Ok(b"")
    }

    fn consume(&mut self, _amount: usize) {}
}

#[derive(Drop)]
struct Terminal {
    calls: Cell<u64>,
}

impl Input for Terminal {
    type Reader = Line;

    fn read_line<A: Allocator + Clone>(&self, buf: &mut String<A>) -> io::Result<usize> {
        BufRead::read_line(&mut self.reader(), buf)
    }

    fn lines<A: Allocator>(&self, alloc: A) -> Lines<Line, A> {
        BufRead::lines(self.reader(), alloc)
    }

    fn reader(&self) -> Line {
        Line {
            calls: Cell::new(0),
        }
    }
}

impl Print for Terminal {
    fn print<D: Display + Drop>(&self, _value: D) -> io::Result<()> {
        Err(Error::from(ErrorKind::Unsupported))
    }

    fn println<D: Display + Drop>(&self, _value: D) -> io::Result<()> {
        Err(Error::from(ErrorKind::Unsupported))
    }

    fn write_all(&self, _bytes: &[u8]) -> io::Result<()> {
        Err(Error::from(ErrorKind::Unsupported))
    }

    fn write_some(&self, bytes: &[u8]) -> io::Result<usize> {
        if bytes.is_empty() {
            return Ok(0);
        }
        moved(&self.calls)
    }
}

fn new_terminal() -> Terminal {
    Terminal {
        calls: Cell::new(0),
    }
}

#[test]
fn a_source_reads_on_after_an_interruption_and_fails_where_the_line_breaks(
    rt: HostRuntime,
) -> Result<(), Fail> {
    let terminal = new_terminal();
    let mut source = StdSource::new(&terminal);
    let mut buffer = *b"--";
    assert_eq!(rt; source.read(&mut []), Ok(0));
    assert_eq!(rt; source.read(&mut buffer), Ok(1));
    assert_eq!(rt; buffer, *b"a-");
    assert_eq!(rt; source.read(&mut buffer), Ok(1));
    assert_eq!(rt; source.read(&mut buffer), Err(Failed));
    assert_eq!(rt; StdSource::new(&rt).read(&mut []), Ok(0));
    Ok(())
}

#[test]
fn a_sink_writes_on_after_an_interruption_and_fails_where_the_line_breaks(
    rt: HostRuntime,
) -> Result<(), Fail> {
    let terminal = new_terminal();
    let mut sink = StdSink::new(&terminal);
    assert_eq!(rt; sink.write(b""), Ok(0));
    assert_eq!(rt; sink.write(b"abc"), Ok(1));
    assert_eq!(rt; sink.write(b"bc"), Ok(1));
    assert_eq!(rt; sink.write(b"c"), Err(Failed));
    assert_eq!(rt; StdSink::new(&rt).write(b""), Ok(0));
    Ok(())
}
