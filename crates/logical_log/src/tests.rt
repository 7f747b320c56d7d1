//! A log written in memory, call by call.
use crate::{LogRing, Room};
use log_record::Record;
use site_disk::{Era, MemDisk};
use std::test::Fail;

#[test]
fn files_follow_one_another(rt: HostRuntime) -> Result<(), Fail> {
    let alloc = rt.alloc();
    let era = Era::first();
    let disk = MemDisk::new(alloc, &era, Vec::new(alloc));
    let mut ring = LogRing::new(alloc, disk);
    ring.format(&era, 7, 1, 1, 0)?;
    assert_eq!(rt; ring.end(), 0);
    let batch = [Record::Begin { txn: 1 }, Record::Commit { txn: 1, time: 5 }];
    let room = ring.room(2, None);
    assert_eq!(rt; room, Room::Fits);
    let end = ring.append(&era, &batch)?;
    assert_eq!(rt; end, 2);
    let closes = ring.close_current(&era)?;
    assert!(rt; closes);
    let Room::Next { drops: None } = ring.room(1, None) else {
        assert!(rt; false, "the next file is wanted");
        return Ok(());
    };
    ring.open_next(&era)?;
    assert_eq!(rt;
        (
            ring.end(),
            ring.last_time(),
            ring.backed_up_to(),
            ring.closed_up_to()
        ),
        (2, 5, 0, 1)
    );
    assert_eq!(rt; ring.files().len(), 1);
    let disk = ring.into_disk();
    // Header, mark, gates, the records of file 1, and the second file's gates.
    assert_eq!(rt; disk.bytes().len(), 8_192 + 33_024 * 2 + 256);
    Ok(())
}
