ghost use Rattle.std.specs.Prelude.{◌≡◌, length};

use crate::{Mark, MarkFault};
use site_disk::{Choice, Era, Failed, MemDisk};
use std::alloc::Global;
use std::test::Fail;

const BASE: u64 = 8;

#[test]
fn the_last_record_is_loaded(rt: HostRuntime) -> Result<(), Fail> {
    let alloc = rt.alloc();
    let era = Era::first();
    let mut disk = MemDisk::new(alloc, &era, Vec::new(alloc));
    let mut mark = Mark::new(BASE);
    let mut found = [0; 255];
    assert_eq!(rt;
        mark.load(&mut disk, &era, &mut found),
        Err(MarkFault::NoMark)
    );
    assert_eq!(rt; mark.format(&mut disk, &era, &[100; 255]), Ok(()));
    assert_eq!(rt; disk.bytes().len(), 1032);
    for n in 101..106 {
        assert_eq!(rt; mark.store(&mut disk, &era, &[n; 255]), Ok(()));
        let mut again = Mark::new(BASE);
        assert_eq!(rt; again.load(&mut disk, &era, &mut found), Ok(()));
        assert_eq!(rt; found, [n; 255]);
    }
    assert_eq!(rt; disk.bytes_written(), 1032 + 257 + 4 * 258);
    disk.fail_at(Vec::from_slice(alloc, &[1, 3])?);
    assert_eq!(rt;
        mark.load(&mut disk, &era, &mut found),
        Err(MarkFault::Failed)
    );
    assert_eq!(rt; mark.store(&mut disk, &era, &[9; 255]), Err(Failed));
    Ok(())
}

// Gates, sequences, the bytes of the disk, and the record that counts: slot 0 holds 10, slot 1 holds 11, and 0 is none.
static SLOTS: [([u8; 2], [u8; 2], usize, u8); 16] = [
    ([0, 0], [0, 0], 768, 0),
    ([1, 0], [0, 0], 768, 10),
    ([9, 0], [2, 0], 768, 10),
    ([0, 1], [0, 2], 768, 11),
    ([1, 1], [0, 1], 768, 11),
    ([1, 1], [1, 2], 768, 11),
    ([1, 1], [2, 0], 768, 11),
    ([1, 1], [1, 0], 768, 10),
    ([1, 1], [2, 1], 768, 10),
    ([1, 1], [0, 2], 768, 10),
    ([1, 1], [1, 1], 768, 10),
    ([1, 1], [3, 0], 768, 11),
    ([1, 1], [3, 4], 768, 0),
    ([1, 1], [0, 1], 767, 10),
    ([1, 0], [0, 0], 512, 10),
    ([1, 0], [0, 0], 511, 0),
];

fn lay_slots(region: &mut [u8], gates: [u8; 2], sequences: [u8; 2])
    requires { length region.old ≡ 768 }
{
    region[257..512].fill(10);
    region[513..].fill(11);
    region[0] = gates[0];
    region[1] = gates[1];
    region[256] = sequences[0];
    region[512] = sequences[1];
}

fn front(bytes: &[u8], len: usize) -> &[u8] {
    &bytes[..len.min(bytes.len())]
}

fn loaded(alloc: Global, gates: [u8; 2], sequences: [u8; 2], len: usize) -> Result<u8, Fail> {
    let era = Era::first();
    let mut region = [0; 768];
    lay_slots(&mut region, gates, sequences);
    let bytes = Vec::from_slice(alloc, front(&region, len))?;
    let mut disk = MemDisk::new(alloc, &era, bytes);
    let mut found = [0; 255];
    match Mark::new(0).load(&mut disk, &era, &mut found) {
        Ok(()) => Ok(found[254]),
        Err(MarkFault::NoMark) => Ok(0),
        Err(MarkFault::Failed) => Ok(255),
    }
}

#[test]
fn the_slot_with_the_later_sequence_counts(rt: HostRuntime) -> Result<(), Fail> {
    let alloc = rt.alloc();
    for (gates, sequences, len, record) in SLOTS {
        assert_eq!(rt; loaded(alloc, gates, sequences, len)?, record);
    }
    Ok(())
}

// Stores some records after that of `format`, which is 100, and stops the last store at a call; the record in an image
// that a crash leaves then.
fn left_after_stop(
    alloc: Global,
    last: u8,
    call: u64,
    bytes: usize,
    seed: u64,
) -> Result<u8, Fail> {
    let mut era = Era::first();
    let mut disk = MemDisk::new(alloc, &era, Vec::new(alloc));
    let mut mark = Mark::new(BASE);
    mark.format(&mut disk, &era, &[100; 255])?;
    for n in 101..last {
        mark.store(&mut disk, &era, &[n; 255])?;
    }
    era.next();
    disk.stop_at(call, bytes);
    let _ = mark.store(&mut disk, &era, &[last; 255]);
    let choice = Choice {
        calls: u64::MAX,
        seed,
    };
    let mut left = disk.crash(&era, &choice)?;
    let mut found = [0; 255];
    match Mark::new(BASE).load(&mut left, &era, &mut found) {
        Ok(()) if found == [found[0]; 255] => Ok(found[0]),
        _ => Ok(0),
    }
}

// The calls of a store: the length, the gate read, closed and synced, the body, a sync, the gate, a sync. The first
// store finds the other gate closed, and has two calls less.
#[test]
fn a_stop_leaves_the_old_record_or_the_new_one(rt: HostRuntime) -> Result<(), Fail> {
    let alloc = rt.alloc();
    for last in 101..105 {
        for call in 1..10 {
            for bytes in [0, 1, 128, 256] {
                for seed in 0..3 {
                    let record = left_after_stop(alloc, last, call, bytes, seed)?;
                    assert!(rt;
                        record == last || record == last - 1,
                        "{record} of {last} at call {call}, byte {bytes}, seed {seed}"
                    );
                    assert!(rt; call > 4 || record != last, "{last} at call {call}");
                    assert!(rt; call < 9 || record == last, "{last} at call {call}");
                }
            }
        }
    }
    Ok(())
}
