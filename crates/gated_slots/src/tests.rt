use crate::{AppendFault, Slots, header_close, header_open, header_read};
use site_disk::{Choice, Era, Failed, MemDisk};
use std::alloc::Global;
use std::test::Fail;

#[test]
fn batches_are_found_again(rt: HostRuntime) -> Result<(), Fail> {
    let alloc = rt.alloc();
    let era = Era::first();
    let mut disk = MemDisk::new(alloc, &era, Vec::new(alloc));
    let mut slots = Slots::new(8, 24, 4, 5);
    assert_eq!(rt; slots.format(&mut disk, &era), Ok(()));
    assert_eq!(rt; disk.bytes(), [0; 24].as_slice());
    assert_eq!(rt; slots.append(&mut disk, &era, b"aaaa"), Ok(0));
    assert_eq!(rt; slots.append(&mut disk, &era, b"bbbbcccc"), Ok(1));
    assert_eq!(rt;
        disk.bytes(),
        b"\0\0\0\0\0\0\0\0\x01\0\x01\0\0\0\0\0\0\0\0\0\0\0\0\0aaaabbbbcccc".as_slice()
    );
    let full = AppendFault::Full { used: 3, wanted: 3 };
    assert_eq!(rt; slots.append(&mut disk, &era, b"ddddeeeeffff"), Err(full));

    let mut again = Slots::new(8, 24, 4, 5);
    assert_eq!(rt; again.open(&mut disk, &era), Ok(()));
    assert_eq!(rt; again.used(), 3);
    let mut slot = [0; 4];
    assert_eq!(rt; again.read(&mut disk, &era, 2, &mut slot), Ok(true));
    assert_eq!(rt; slot, *b"cccc");
    let mut run = [0; 8];
    assert_eq!(rt; again.read_run(&mut disk, &era, 0, &mut run), Ok(true));
    assert_eq!(rt; run, *b"aaaabbbb");
    assert_eq!(rt; again.clear(&mut disk, &era), Ok(()));
    assert_eq!(rt; again.used(), 0);
    Ok(())
}

#[test]
fn a_header_is_opened_over_a_closed_one(rt: HostRuntime) -> Result<(), Fail> {
    let alloc = rt.alloc();
    let era = Era::first();
    let mut disk = MemDisk::new(alloc, &era, Vec::new(alloc));
    let mut page = [7; 4096];
    assert_eq!(rt; header_close(&mut disk, &era), Ok(()));
    assert_eq!(rt; header_close(&mut disk, &era), Ok(()));
    assert_eq!(rt; disk.bytes(), [0].as_slice());
    assert_eq!(rt; header_read(&mut disk, &era, &mut page), Ok(false));
    assert_eq!(rt; header_open(&mut disk, &era, &[9; 4096]), Ok(()));
    assert_eq!(rt; header_read(&mut disk, &era, &mut page), Ok(true));
    assert_eq!(rt; (page[0], page[1], page[4095]), (1, 9, 9));
    Ok(())
}

#[test]
fn a_failed_call_is_told(rt: HostRuntime) -> Result<(), Fail> {
    let alloc = rt.alloc();
    let era = Era::first();
    let mut disk = MemDisk::new(alloc, &era, Vec::from_slice(alloc, &[0; 24])?);
    let mut slots = Slots::new(8, 24, 4, 5);
    disk.fail_at(Vec::from_slice(alloc, &[1])?);
    assert_eq!(rt; slots.open(&mut disk, &era), Err(Failed));
    // The length, a write and a sync succeed, and then the write of the gate fails.
    disk.fail_at(Vec::from_slice(alloc, &[4])?);
    assert_eq!(rt;
        slots.append(&mut disk, &era, b"aaaa"),
        Err(AppendFault::Failed)
    );
    assert_eq!(rt; slots.used(), 0);
    assert_eq!(rt; slots.open(&mut disk, &era), Ok(()));
    assert_eq!(rt; slots.used(), 0);
    Ok(())
}

// Appends one slot, and stops an append of two more at a call; the slots used in an image that a crash leaves then.
fn used_after_stop(alloc: Global, call: u64, bytes: usize, seed: u64) -> Result<u32, Fail> {
    let mut era = Era::first();
    let mut disk = MemDisk::new(alloc, &era, Vec::new(alloc));
    let mut slots = Slots::new(8, 24, 4, 5);
    slots.format(&mut disk, &era)?;
    slots.append(&mut disk, &era, b"aaaa")?;
    era.next();
    disk.stop_at(call, bytes);
    let _ = slots.append(&mut disk, &era, b"bbbbcccc");
    let choice = Choice {
        calls: u64::MAX,
        seed,
    };
    let mut left = disk.crash(&era, &choice)?;
    let mut again = Slots::new(8, 24, 4, 5);
    again.open(&mut left, &era)?;
    Ok(again.used())
}

// The calls of an append: the length, the batch, a sync, the gate, a sync.
#[test]
fn a_stopped_batch_is_whole_or_not_there(rt: HostRuntime) -> Result<(), Fail> {
    let alloc = rt.alloc();
    for call in 1..7 {
        for bytes in [0, 1, 5, 8] {
            for seed in 0..4 {
                let used = used_after_stop(alloc, call, bytes, seed)?;
                assert!(rt;
                    used == 1 || used == 3,
                    "{used} at call {call}, byte {bytes}, seed {seed}"
                );
                assert!(rt;
                    call > 3 || used == 1,
                    "call {call}, byte {bytes}, seed {seed}"
                );
                assert!(rt;
                    call < 6 || used == 3,
                    "call {call}, byte {bytes}, seed {seed}"
                );
            }
        }
    }
    Ok(())
}
