//! Transactions that run at once; the bound on how many; a replay.
use crate::{Change, Open, OrderFault};
use log_record::{Record, Text64};
use std::test::Fail;

fn write(txn: u32, page: u32) -> Result<Record, Fail> {
    let bytes = Text64::from_bytes(b"A").ok_or("a byte")?;
    Ok(Record::Write {
        txn,
        space: 3,
        page,
        offset: 9,
        bytes,
    })
}

fn change(commit: u64, page: u32) -> Result<Change, Fail> {
    let bytes = Text64::from_bytes(b"A").ok_or("a byte")?;
    Ok(Change {
        commit,
        space: 3,
        page,
        offset: 9,
        bytes,
    })
}

#[test]
fn two_at_once(rt: HostRuntime) -> Result<(), Fail> {
    let mut table = Open::new(rt.alloc());
    let records = [
        Record::Begin { txn: 8 },
        Record::Begin { txn: 7 },
        write(7, 1)?,
        write(8, 2)?,
        write(7, 3)?,
    ];
    for (i, record) in records.iter().enumerate() {
        assert_eq!(rt; table.feed(i as u64 + 11, record)?.len(), 0);
    }
    assert_eq!(rt; table.low(), Some((11, 8)));
    let eight = table.feed(16, &Record::Commit { txn: 8, time: 1 })?;
    assert_eq!(rt; eight.as_slice(), [change(16, 2)?].as_slice());
    assert_eq!(rt; table.low(), Some((12, 7)));
    assert_eq!(rt; table.feed(17, &write(8, 4)?), Err(OrderFault::NotOpen));
    let seven = table.feed(17, &Record::Commit { txn: 7, time: 1 })?;
    assert_eq!(rt;
        seven.as_slice(),
        [change(17, 1)?, change(17, 3)?].as_slice()
    );
    assert_eq!(rt; table.low(), None);
    Ok(())
}

#[test]
fn sixty_four_open(rt: HostRuntime) -> Result<(), Fail> {
    let mut table = Open::new(rt.alloc());
    for txn in 1..65u32 {
        table.feed(u64::from(txn), &Record::Begin { txn })?;
    }
    let next = Record::Begin { txn: 65 };
    assert_eq!(rt; table.check(&next), Err(OrderFault::TooManyOpen));
    assert_eq!(rt; table.feed(65, &next), Err(OrderFault::TooManyOpen));
    assert_eq!(rt;
        table.feed(65, &Record::Begin { txn: 64 }),
        Err(OrderFault::AlreadyOpen)
    );
    table.feed(65, &Record::Abort { txn: 1 })?;
    assert_eq!(rt; table.check(&next), Ok(()));
    assert_eq!(rt; table.low(), Some((2, 2)));
    let reset = Record::Reset {
        restore: 1,
        target: 0,
        time: 5,
    };
    table.feed(66, &reset)?;
    assert_eq!(rt; table.low(), None);
    assert_eq!(rt;
        table.check(&Record::Abort { txn: 2 }),
        Err(OrderFault::NotOpen)
    );
    Ok(())
}

#[test]
fn a_replay(rt: HostRuntime) -> Result<(), Fail> {
    let records = [
        Record::Begin { txn: 1 },
        Record::Commit { txn: 1, time: 4 },
        Record::Begin { txn: 2 },
    ];
    assert_eq!(rt; Open::replay(rt.alloc(), &records)?.low(), Some((3, 2)));
    let ended = Open::replay(rt.alloc(), &[Record::Commit { txn: 1, time: 4 }]);
    assert_eq!(rt; ended.err(), Some(OrderFault::NotOpen));
    Ok(())
}
