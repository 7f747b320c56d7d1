//! Worked histories: two transactions at once, a Write at the payload's end, a Commit of one that isn't open, a Reset.
ghost use Rattle.std.specs.Prelude.{◌+◌, ◌<◌, ◌≤◌, length, All, IfSome, OnOk};
ghost use Rattle.log_record.specs.Layout.{IsRecord};
ghost use Rattle.log_record.specs.Entry.{entry_of};

use crate::{is_live, is_open, page_of_log};
use log_record::{Record, Text64};
use std::alloc::AllocError;
use std::process::Abort;
use std::test::Fail;

/// A Write into page 5 of space 1.
fn write(txn: u32, offset: u16, bytes: &[u8]) -> Option<Record>
    requires numbered { 0 < txn }
    requires within { offset + length bytes.now ≤ 4080 }
    ensures { IfSome result (λ r. IsRecord (entry_of r)) }
{
    let bytes = Text64::from_bytes(bytes)?;
    Some(Record::Write {
        txn,
        space: 1,
        page: 5,
        offset,
        bytes,
    })
}

fn add(log: &mut Vec<Record>, entry: Record) -> Result<(), AllocError>
    requires each { All (λ r. IsRecord (entry_of r)) log.old.items }
    requires fits { IsRecord (entry_of entry) }
    ensures { OnOk result (All (λ r. IsRecord (entry_of r)) log.new.items) }
{
    log.push(entry)?;
    Ok(())
}

/// The stamp of page 5 of space 1 at a position, and the bytes at an offset of it.
fn check(rt: &impl Abort, log: &[Record], n: u64, stamp: u64, offset: usize, bytes: [u8; 2])
    requires { All (λ r. IsRecord (entry_of r)) log.now }
{
    let page = page_of_log(log, n, 1, 5);
    assert_eq!(rt; page.stamp, stamp, "at {n}");
    for (at, byte) in page.payload.iter().enumerate() {
        let wanted = if at == offset {
            bytes[0]
        } else if at > offset && at - offset == 1 {
            bytes[1]
        } else {
            0
        };
        assert_eq!(rt; *byte, wanted, "at {n}: {at}");
    }
}

#[test]
fn two_at_once(rt: HostRuntime) -> Result<(), Fail> {
    let mut log = Vec::new(rt.alloc());
    add(&mut log, Record::Begin { txn: 1 })?;
    add(&mut log, Record::Begin { txn: 2 })?;
    add(&mut log, write(1, 0, b"A").ok_or("A")?)?;
    add(&mut log, write(2, 0, b"B").ok_or("B")?)?;
    add(&mut log, Record::Commit { txn: 2, time: 1 })?;
    add(&mut log, write(1, 1, b"C").ok_or("C")?)?;
    add(&mut log, Record::Commit { txn: 1, time: 1 })?;
    let all = log.as_slice();
    check(&rt, all, 4, 0, 0, [0, 0]);
    check(&rt, all, 6, 5, 0, *b"B\0");
    check(&rt, all, 7, 7, 0, *b"AC");
    let other = page_of_log(all, 7, 1, 6);
    assert_eq!(rt; (other.stamp, other.payload[0]), (0, 0));
    Ok(())
}

#[test]
fn the_last_byte(rt: HostRuntime) -> Result<(), Fail> {
    let mut log = Vec::new(rt.alloc());
    add(&mut log, Record::Begin { txn: 3 })?;
    add(&mut log, write(3, 4079, b"Z").ok_or("Z")?)?;
    add(&mut log, Record::Commit { txn: 3, time: 0 })?;
    check(&rt, log.as_slice(), 3, 3, 4079, *b"Z\0");
    Ok(())
}

#[test]
fn a_commit_of_none_open(rt: HostRuntime) -> Result<(), Fail> {
    let mut log = Vec::new(rt.alloc());
    add(&mut log, Record::Begin { txn: 1 })?;
    add(&mut log, write(1, 0, b"A").ok_or("A")?)?;
    add(&mut log, Record::Commit { txn: 1, time: 1 })?;
    add(&mut log, write(1, 0, b"B").ok_or("B")?)?;
    add(&mut log, Record::Commit { txn: 1, time: 2 })?;
    let all = log.as_slice();
    assert_eq!(rt; all.len(), 5);
    assert!(rt; is_open(&all[..2], 1));
    assert!(rt; !is_open(all, 1));
    check(&rt, all, 5, 3, 0, *b"A\0");
    Ok(())
}

#[test]
fn a_reset(rt: HostRuntime) -> Result<(), Fail> {
    let mut log = Vec::new(rt.alloc());
    add(&mut log, Record::Begin { txn: 1 })?;
    add(&mut log, write(1, 8, b"A").ok_or("A")?)?;
    add(&mut log, Record::Commit { txn: 1, time: 1 })?;
    add(&mut log, Record::Begin { txn: 1 })?;
    add(&mut log, write(1, 8, b"BB").ok_or("BB")?)?;
    add(&mut log, Record::Commit { txn: 1, time: 2 })?;
    add(
        &mut log,
        Record::Reset {
            restore: 1,
            target: 3,
            time: 3,
        },
    )?;
    add(&mut log, Record::Begin { txn: 2 })?;
    add(&mut log, write(2, 9, b"C").ok_or("C")?)?;
    add(&mut log, Record::Commit { txn: 2, time: 4 })?;
    let all = log.as_slice();
    check(&rt, all, 6, 6, 8, *b"BB");
    check(&rt, all, 7, 3, 8, *b"A\0");
    check(&rt, all, 10, 10, 8, *b"AC");
    for (n, x, live) in [
        (6, 5, true),
        (7, 5, false),
        (10, 3, true),
        (10, 4, false),
        (10, 7, true),
        (10, 11, false),
    ] {
        assert_eq!(rt; is_live(all, n, x), live, "{x} at {n}");
    }
    Ok(())
}
