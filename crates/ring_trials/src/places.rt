//! Logs with a bad place.
ghost use Rattle.std.specs.Prelude.{◌<◌, ◌≤◌};

use crate::calls::{append, close, open_next};
use log_record::Record;
use logical_log::{LogFault, LogRing};
use site_disk::{Era, MemDisk};
use std::alloc::Global;
use std::test::Fail;

/// Where the mark's gates stand, and the record that counts.
const GATES: usize = 4_096;

const MARK: usize = 4_353;

/// Where files 1 and 2 begin with their gates, and how far behind them their slots begin.
const ONE: usize = 8_192 + 33_024;

const TWO: usize = ONE + 33_024;

const SLOTS: usize = 256;

/// The slot that stands for the mark.
const NO_SLOT: u32 = u32::MAX;

/// The bytes of a log of two files, of three records and of one.
fn log(alloc: Global) -> Result<Vec<u8>, Fail> {
    let era = Era::first();
    let mut ring = LogRing::new(alloc, MemDisk::new(alloc, &era, Vec::new(alloc)));
    ring.format(&era, 7, 1, 1, 0)?;
    let batch = [
        Record::Begin { txn: 1 },
        Record::Commit { txn: 1, time: 5 },
        Record::Begin { txn: 2 },
    ];
    append(&mut ring, &era, &batch)?;
    close(&mut ring, &era)?;
    open_next(&mut ring, &era)?;
    append(&mut ring, &era, &[Record::Commit { txn: 2, time: 6 }])?;
    Ok(Vec::from_slice(alloc, ring.into_disk().bytes())?)
}

/// The last position of the log in these bytes, or why it isn't opened.
fn opened(alloc: Global, bytes: Vec<u8>) -> Result<u64, LogFault> {
    let era = Era::first();
    let mut ring = LogRing::new(alloc, MemDisk::new(alloc, &era, bytes));
    ring.open(&era, 7)?;
    Ok(ring.end())
}

/// A log with bytes over its own, from a place on.
fn changed(alloc: Global, log: &[u8], at: usize, piece: &[u8]) -> Result<Vec<u8>, Fail> {
    let mut bytes = Vec::from_slice(alloc, log)?;
    for (byte, put) in bytes.iter_mut().skip(at).zip(piece) {
        *byte = *put;
    }
    Ok(bytes)
}

// Each rule of the header: a place, a byte there, and the end of the log. `None` where it is lost.
static HEADERS: [(usize, u8, Option<u64>); 6] = [
    (0, 1, Some(4)),
    (0, 9, Some(4)),
    (0, 0, None),
    (4, 5, None),
    (15, 8, None),
    (4_095, 1, None),
];

// Each rule of the mark's record: a place of it, a byte there, and the end of the log. `None` where the record is bad.
static MARKS: [(usize, u8, Option<u64>); 20] = [
    // The current file: not more than seven behind the oldest, not before it, and not one that has no place yet.
    (7, 9, None),
    (7, 0, None),
    (7, 3, None),
    (1, 2, None),
    // The oldest file: from 1 on, and none behind one that isn't backed up.
    (15, 0, None),
    (15, 2, None),
    (15, 3, None),
    // The last file that is backed up: not behind the current one.
    (23, 1, Some(4)),
    (23, 3, None),
    // The time before the files, at most 2^48.
    (31, 7, Some(4)),
    (25, 2, None),
    // Whether the current file is open or closed.
    (32, 2, Some(4)),
    (32, 0, None),
    (32, 3, None),
    (33, 1, None),
    // The first positions: none of a place that isn't held, and those of the files as their gates have them.
    (47, 1, None),
    (55, 2, None),
    (63, 5, None),
    (71, 5, None),
    (104, 1, None),
];

// Each rule of the gates and slots of the files held: a place, a byte there, and the end of the log or the slot that is bad.
static FILES: [(usize, u8, Result<u64, u32>); 11] = [
    (ONE + SLOTS, 9, Err(256)),
    (ONE + SLOTS + 127, 1, Err(256)),
    (ONE + SLOTS + 128, 9, Err(257)),
    (ONE + SLOTS + 256, 9, Err(258)),
    (TWO + SLOTS, 9, Err(512)),
    // A gate more than records, in a file that counts up to the next one's first position, and in the current one.
    (ONE + 3, 1, Err(NO_SLOT)),
    (TWO + 1, 1, Err(513)),
    // A gate less: one that has another open one behind it doesn't matter.
    (ONE + 1, 0, Ok(4)),
    (ONE + 2, 0, Err(NO_SLOT)),
    (TWO, 0, Ok(3)),
    (ONE + SLOTS + 384, 9, Ok(4)),
];

#[test]
fn one_bad_place_for_each_rule(rt: HostRuntime) -> Result<(), Fail> {
    let alloc = rt.alloc();
    let log = log(alloc)?;
    for (at, byte, end) in HEADERS {
        let bytes = changed(alloc, &log, at, &[byte])?;
        let answer = end.ok_or(LogFault::LogLost);
        assert_eq!(rt; opened(alloc, bytes), answer, "{byte} at {at}");
    }
    for (at, byte, end) in MARKS {
        let bytes = changed(alloc, &log, MARK.saturating_add(at), &[byte])?;
        let answer = end.ok_or(LogFault::BadRecord { slot: NO_SLOT });
        assert_eq!(rt; opened(alloc, bytes), answer, "{byte} at {at} of the mark");
    }
    for (at, byte, answer) in FILES {
        let bytes = changed(alloc, &log, at, &[byte])?;
        let answer = answer.map_err(|slot| LogFault::BadRecord { slot });
        assert_eq!(rt; opened(alloc, bytes), answer, "{byte} at {at}");
    }
    Ok(())
}

/// The log where a Reset stands in a slot.
fn with_reset(alloc: Global, log: &[u8], at: usize, target: u64) -> Result<Vec<u8>, Fail>
    requires { target ≤ 9 }
{
    let mut page = [0; 128];
    let entry = Record::Reset {
        restore: 1,
        target,
        time: 9,
    };
    entry.encode_into(&mut page);
    changed(alloc, log, at, &page)
}

// Where a Reset stands, its target, and the end or the slot that is bad: a Reset is the first record of its file and goes back to a
// position before it.
static RESETS: [(usize, u64, Result<u64, u32>); 7] = [
    (ONE + SLOTS, 0, Ok(4)),
    (ONE + SLOTS, 1, Err(256)),
    (ONE + SLOTS + 128, 0, Err(257)),
    (ONE + SLOTS + 256, 0, Err(258)),
    (TWO + SLOTS, 3, Ok(4)),
    (TWO + SLOTS, 4, Err(512)),
    (TWO + SLOTS, 9, Err(512)),
];

#[test]
fn a_reset_comes_first_and_goes_back(rt: HostRuntime) -> Result<(), Fail> {
    let alloc = rt.alloc();
    let log = log(alloc)?;
    for (at, target, answer) in RESETS {
        let bytes = with_reset(alloc, &log, at, target)?;
        let answer = answer.map_err(|slot| LogFault::BadRecord { slot });
        assert_eq!(rt; opened(alloc, bytes), answer, "to {target} at {at}");
    }
    Ok(())
}

/// A record of the mark counts where its gate is open; else the one before does.
#[test]
fn a_closed_gate_of_the_mark_leaves_the_record_before(rt: HostRuntime) -> Result<(), Fail> {
    let alloc = rt.alloc();
    let log = log(alloc)?;
    let before = changed(alloc, &log, GATES, &[0])?;
    assert_eq!(rt; opened(alloc, before), Ok(3));
    let none = changed(alloc, &log, GATES, &[0, 0])?;
    assert_eq!(rt;
        opened(alloc, none),
        Err(LogFault::BadRecord { slot: NO_SLOT })
    );
    Ok(())
}

#[test]
fn records_are_read_again(rt: HostRuntime) -> Result<(), Fail> {
    let alloc = rt.alloc();
    let era = Era::first();
    let mut ring = LogRing::new(alloc, MemDisk::new(alloc, &era, log(alloc)?));
    ring.open(&era, 7)?;
    assert_eq!(rt;
        (ring.end(), ring.last_time(), ring.files().len()),
        (4, 6, 2)
    );
    let second = ring.records(&era, 2)?;
    assert_eq!(rt;
        second.as_slice(),
        [Record::Commit { txn: 2, time: 6 }].as_slice()
    );
    let third = ring.records(&era, 3)?;
    assert!(rt; third.is_empty());
    ring.sync(&era)?;
    let first = ring.records(&era, 1)?;
    assert_eq!(rt; first.len(), 3);
    Ok(())
}
