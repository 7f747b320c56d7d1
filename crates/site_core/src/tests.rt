//! Records that come into a log in memory, call by call.
use crate::Site;
use boot_file::Boot;
use catalogue_journal::Catalogue;
use log_files::Room;
use log_record::Record;
use logical_log::LogRing;
use object_store::Store;
use site_disk::{Era, MemDisk};
use std::test::Fail;

#[test]
fn records_go_on_in_the_next_file(rt: HostRuntime) -> Result<(), Fail> {
    let alloc = rt.alloc();
    let mut era = Era::first();
    let mut log = LogRing::new(alloc, MemDisk::new(alloc, &era, Vec::new(alloc)));
    log.format(&era, 7, 1, 1, 0)?;
    let mut site = Site {
        store: Store {
            cat: Catalogue::new(
                alloc,
                MemDisk::new(alloc, &era, Vec::new(alloc)),
                MemDisk::new(alloc, &era, Vec::new(alloc)),
            ),
            volumes: Vec::new(alloc),
        },
        boot: Boot::new(alloc, MemDisk::new(alloc, &era, Vec::new(alloc))),
        log,
        lanes: Vec::new(alloc),
    };
    let batch = [Record::Begin { txn: 1 }, Record::Commit { txn: 1, time: 5 }];
    let room = site.log.room(2, None);
    assert_eq!(rt; room, Room::Fits);
    site.put_batch(&mut era, &batch)?;
    assert_eq!(rt; (era.number(), site.log.end()), (1, 2));
    site.log.close_current(&era)?;
    let Room::Next { drops: None } = site.log.room(1, None) else {
        assert!(rt; false, "the next file is wanted");
        return Ok(());
    };
    site.open_next_file(&mut era)?;
    assert_eq!(rt; (era.number(), site.log.closed_up_to()), (2, 1));
    Ok(())
}
