//! What no clause says: that calls succeed, and worked lines and scripts.
ghost use Rattle.std.specs.Prelude.{[], false};

use crate::{LineFault, Lines, TxnLine, read_txn_line};
use bsa_descriptor::Text;
use log_record::Text64;
use onbar_grammar::Why;
use site_disk::{Failed, Source};
use site_headers::SpaceHead;
use std::alloc::{AllocError, Global};
use std::test::Fail;

/// A script that comes in pieces of one length, and may fail once.
#[derive(Drop)]
struct Pieces<'a> {
    rest: &'a [u8],
    piece: usize,
    fails: bool,
    faults: u64,
}

impl Source for Pieces<'_> {
    ghost is_modelled = { false };

    ghost left = { λ _. [] };

    ghost faults = { λ pieces. pieces.faults };

    fn read(&mut self, into: &mut [u8]) -> Result<usize, Failed> {
        if self.fails {
            self.fails = false;
            self.faults = self.faults.saturating_add(1);
            return Err(Failed);
        }
        let len = self.piece.min(into.len()).min(self.rest.len());
        let (front, rest) = self.rest.split_at(len);
        into[..len].copy_from_slice(front);
        self.rest = rest;
        Ok(len)
    }
}

fn in_pieces(script: &[u8], piece: usize) -> Pieces<'_> {
    Pieces {
        rest: script,
        piece,
        fails: false,
        faults: 0,
    }
}

/// The lines of a script, each with a bar behind it.
fn lines_of(alloc: Global, mut source: Pieces<'_>) -> Result<Vec<u8>, Fail> {
    let mut all = Vec::new(alloc);
    let mut lines = Lines::new(alloc);
    for _ in 0..u64::MAX {
        if !lines.next(&mut source)? {
            break;
        }
        all.extend_from_slice(lines.line())?;
        all.push(b'|')?;
    }
    Ok(all)
}

#[test]
fn a_script_is_cut_alike_in_any_pieces(rt: HostRuntime) -> Result<(), Fail> {
    for (script, want) in [
        (b"".as_slice(), b"".as_slice()),
        (b"\n", b"|"),
        (
            b"begin 1\n\nwrite 1 A 0 0 41\ncommit 1",
            b"begin 1||write 1 A 0 0 41|commit 1|",
        ),
        (
            b"begin 1\n\nwrite 1 A 0 0 41\ncommit 1\n",
            b"begin 1||write 1 A 0 0 41|commit 1|",
        ),
        (b"begin 1\r\n\n\n", b"begin 1\r|||"),
    ] {
        for piece in [1, 2, 7, 100_000] {
            assert_eq!(rt;
                lines_of(rt.alloc(), in_pieces(script, piece))?.as_slice(),
                want,
                "{script:?} by {piece}"
            );
        }
    }
    Ok(())
}

/// A line of this length, with no line feed.
fn line_of(alloc: Global, len: usize) -> Result<Vec<u8>, AllocError> {
    let mut line = Vec::new(alloc);
    line.resize(len, b'x')?;
    Ok(line)
}

/// Lines of one length, with a line feed each, and then one of another length without one.
fn script_of(alloc: Global, count: usize, len: usize, last: usize) -> Result<Vec<u8>, AllocError> {
    let mut script = Vec::new(alloc);
    let line = line_of(alloc, len)?;
    for _ in 0..count {
        script.extend_from_slice(line.as_slice())?;
        script.push(b'\n')?;
    }
    script.extend_from_slice(line_of(alloc, last)?.as_slice())?;
    Ok(script)
}

/// How many lines are cut, and the fault that ends them.
fn count_lines(alloc: Global, script: &[u8]) -> (u64, Option<LineFault>) {
    let mut source = in_pieces(script, 4_096);
    let mut lines = Lines::new(alloc);
    for count in 0..u64::MAX {
        match lines.next(&mut source) {
            Ok(true) => {}
            Ok(false) => return (count, None),
            Err(fault) => return (count, Some(fault)),
        }
    }
    (0, None)
}

#[test]
fn lines_and_scripts_have_their_limits(rt: HostRuntime) -> Result<(), Fail> {
    for (count, len, last, want) in [
        (0, 0, 8_256, (1, None)),
        (0, 0, 8_257, (0, Some(LineFault::TooLong))),
        (20, 8_256, 0, (20, None)),
        (20, 8_256, 8_257, (20, Some(LineFault::TooLong))),
        (2_031, 8_256, 7_249, (2_032, None)),
        (2_031, 8_256, 7_250, (2_031, Some(LineFault::ScriptTooLong))),
        (2_031, 8_256, 8_257, (2_031, Some(LineFault::ScriptTooLong))),
    ] {
        let script = script_of(rt.alloc(), count, len, last)?;
        assert_eq!(rt;
            count_lines(rt.alloc(), script.as_slice()),
            want,
            "{count} {len} {last}"
        );
    }
    Ok(())
}

#[test]
fn a_failed_read_loses_nothing(rt: HostRuntime) -> Result<(), Fail> {
    let mut source = in_pieces(b"begin 1\ncommit 1\n", 11);
    let mut lines = Lines::new(rt.alloc());
    assert!(rt; lines.next(&mut source)?);
    assert_eq!(rt; lines.line(), b"begin 1".as_slice());
    source.fails = true;
    assert_eq!(rt; lines.next(&mut source), Err(LineFault::Failed));
    assert_eq!(rt; lines.line(), b"".as_slice());
    assert!(rt; lines.next(&mut source)?);
    assert_eq!(rt; lines.line(), b"commit 1".as_slice());
    assert!(rt; !lines.next(&mut source)?);
    Ok(())
}

fn spaces() -> Option<[SpaceHead; 2]> {
    Some([
        SpaceHead {
            name: Text::from_bytes(b"A")?,
            pages: 4,
        },
        SpaceHead {
            name: Text::from_bytes(b"data_2_of_the_site")?,
            pages: 16,
        },
    ])
}

#[test]
fn lines_say_what_is_written(rt: HostRuntime) -> Result<(), Fail> {
    let spaces = spaces().ok_or("spaces")?;
    for (line, want) in [
        ("begin 1", TxnLine::Begin { txn: 1 }),
        ("begin 4294967295", TxnLine::Begin { txn: 4_294_967_295 }),
        ("commit 20", TxnLine::Commit { txn: 20 }),
        ("abort 7", TxnLine::Abort { txn: 7 }),
    ] {
        assert_eq!(rt;
            read_txn_line(line.as_bytes(), &spaces),
            Ok(Some(want)),
            "{line}"
        );
    }
    for (line, space, page, offset, bytes) in [
        ("write 3 A 0 0 41", 0, 0, 0, [0x41].as_slice()),
        ("write 3 A 3 4078 aBcD", 0, 3, 4_078, &[0xab, 0xcd]),
        (
            "write 3 data_2_of_the_site 15 10 00ff",
            1,
            15,
            10,
            &[0, 0xff],
        ),
    ] {
        let bytes = Text64::from_bytes(bytes).ok_or("bytes")?;
        let want = TxnLine::Write {
            txn: 3,
            space,
            page,
            offset,
            bytes,
        };
        assert_eq!(rt;
            read_txn_line(line.as_bytes(), &spaces),
            Ok(Some(want)),
            "{line}"
        );
    }
    assert_eq!(rt; read_txn_line(b"", &spaces), Ok(None));
    Ok(())
}

#[test]
fn the_first_fault_is_answered(rt: HostRuntime) -> Result<(), Fail> {
    let spaces = spaces().ok_or("spaces")?;
    for (line, why) in [
        ("begin", Why::Words),
        ("begin ", Why::Words),
        (" begin 1", Why::Words),
        ("begin 1 ", Why::Words),
        ("begin  1", Why::Words),
        ("begin 0", Why::Words),
        ("begin 01", Why::Words),
        ("begin +1", Why::Words),
        ("begin 4294967296", Why::Words),
        ("begin 99999999999999999999", Why::Words),
        ("begin 1 2", Why::Words),
        ("Begin 1", Why::Words),
        ("write 1", Why::Words),
        ("start 1", Why::Words),
        ("write 1 A 0 0", Why::Words),
        ("write 1 A 0 0 41 ", Why::Words),
        ("write 1 A 0 0 4", Why::Words),
        ("write 1 A 0 0 4g", Why::Words),
        ("write 1 A 0 0 ", Why::Words),
        ("write 1 A 00 0 41", Why::Words),
        ("write 1 _A 0 0 41", Why::Words),
        ("write 1 data_2_of_the_site_ 0 0 41", Why::Words),
        ("write 1 B 00 0 41", Why::Words),
        ("write 1 A 4 4080 4x", Why::Words),
        ("write 1 B 0 0 41", Why::NoSpace),
        ("write 1 a 0 0 41", Why::NoSpace),
        ("write 1 B 9 4080 41", Why::NoSpace),
        ("write 1 A 4 0 41", Why::NoPage),
        ("write 1 A 4294967295 4080 41", Why::NoPage),
        ("write 1 A 3 4080 41", Why::Range),
        ("write 1 A 3 4079 4142", Why::Range),
        ("write 1 A 3 4294967295 41", Why::Range),
    ] {
        assert_eq!(rt; read_txn_line(line.as_bytes(), &spaces), Err(why), "{line}");
    }
    Ok(())
}

/// `write 1 A 0 0` and these many bytes.
fn write_of(alloc: Global, len: usize) -> Result<Vec<u8>, AllocError> {
    let mut line = b"write 1 A 0 0 ".to_vec(alloc)?;
    for _ in 0..len {
        line.extend_from_slice(b"5a")?;
    }
    Ok(line)
}

#[test]
fn a_line_writes_up_to_64_bytes(rt: HostRuntime) -> Result<(), Fail> {
    let spaces = spaces().ok_or("spaces")?;
    let full = write_of(rt.alloc(), 64)?;
    assert!(rt; read_txn_line(full.as_slice(), &spaces).is_ok());
    let over = write_of(rt.alloc(), 65)?;
    assert_eq!(rt; read_txn_line(over.as_slice(), &spaces), Err(Why::Words));
    Ok(())
}
