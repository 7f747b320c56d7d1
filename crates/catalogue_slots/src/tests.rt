//! Slots laid by hand, one rule of the layout broken at a time, and objects at the limits of their slots.
use super::*;
use block_chain::Run;
use bsa_descriptor::{Descriptor, ObjectStatus};
use std::alloc::Global;
use std::test::Fail;

/// An object of 5 blocks with copy id 7, in runs of 2 and 3 blocks.
fn small(alloc: Global) -> Result<ObjectEntry, Fail> {
    let mut descriptor = Descriptor::empty();
    descriptor.copy = 7;
    let mut runs = Vec::new(alloc);
    runs.push(Run { first: 1, count: 2 })?;
    runs.push(Run {
        first: 0x0102_0304,
        count: 3,
    })?;
    Ok(ObjectEntry {
        copy: 7,
        volume: 16,
        size: 5 * 4096 - 1,
        digest: [0xab; 32],
        runs,
        descriptor,
    })
}

/// An object of so many blocks, none of them neighbours.
fn scattered(alloc: Global, runs: u32) -> Result<ObjectEntry, Fail> {
    let mut entry = small(alloc)?;
    entry.runs.clear();
    for i in 0..runs.min(4096) {
        entry.runs.push(Run {
            first: 2 * i,
            count: 1,
        })?;
    }
    Ok(entry)
}

/// The slot of the small object by the layout.
fn add_by_hand() -> [u8; 4096] {
    let mut slot = [0; 4096];
    slot[..8].copy_from_slice(b"\x01\0\0\x10\0\0\0\x02");
    slot[15] = 7;
    slot[22..24].copy_from_slice(b"\x4f\xff");
    slot[24..56].copy_from_slice(&[0xab; 32]);
    slot[56 + 2191] = 7;
    slot[56 + 2208..56 + 2211].copy_from_slice(&[1, 1, 1]);
    slot[2680..2696].copy_from_slice(b"\0\0\0\x01\0\0\0\x02\x01\x02\x03\x04\0\0\0\x03");
    slot
}

/// A slot of two more runs of object 7.
fn more_by_hand() -> [u8; 4096] {
    let mut slot = [0; 4096];
    slot[..4].copy_from_slice(b"\x02\0\0\x02");
    slot[15] = 7;
    slot[16..32].copy_from_slice(b"\0\0\0\x01\0\0\0\x02\0\0\0\x09\0\0\0\x03");
    slot
}

/// The deletion of object 0x010203040506.
fn del_by_hand() -> [u8; 4096] {
    let mut slot = [0; 4096];
    slot[..16].copy_from_slice(b"\x03\0\0\0\0\0\0\0\0\0\x01\x02\x03\x04\x05\x06");
    slot
}

/// The last copy id 5.
fn base_by_hand() -> [u8; 4096] {
    let mut slot = [0; 4096];
    slot[0] = 4;
    slot[15] = 5;
    slot
}

#[test]
fn a_small_object_fills_one_slot(rt: HostRuntime) -> Result<(), Fail> {
    let entry = small(rt.alloc())?;
    assert_eq!(rt; slots_for(2), 1);
    assert_eq!(rt; entry.runs.len(), 2);
    let mut slot = [0xff; 4096];
    write_entry(&mut slot, 0, &entry);
    assert_eq!(rt; slot.as_slice(), add_by_hand().as_slice());
    let Some(Slot::Add { count, entry: read }) = Slot::decode(rt.alloc(), &slot)? else {
        return Err("no object".into());
    };
    assert_eq!(rt; count, 2);
    assert_eq!(rt; read.copy, 7);
    assert_eq!(rt; read.volume, 16);
    assert_eq!(rt; read.size, 20_479);
    assert_eq!(rt; read.digest, [0xab; 32]);
    assert_eq!(rt; read.runs.as_slice(), entry.runs.as_slice());
    assert!(rt; read.descriptor.status == ObjectStatus::Any);
    Ok(())
}

#[test]
fn a_deletion_and_a_base_are_read(rt: HostRuntime) -> Result<(), Fail> {
    let mut slot = [0xff; 4096];
    write_del(&mut slot, 0, 0x0102_0304_0506);
    assert_eq!(rt; slot.as_slice(), del_by_hand().as_slice());
    let Some(Slot::Del { copy }) = Slot::decode(rt.alloc(), &slot)? else {
        return Err("no deletion".into());
    };
    assert_eq!(rt; copy, 0x0102_0304_0506);
    let Some(Slot::Base { last }) = Slot::decode(rt.alloc(), &base_by_hand())? else {
        return Err("no base".into());
    };
    assert_eq!(rt; last, 5);
    Ok(())
}

#[test]
fn objects_take_their_slots(rt: HostRuntime) -> Result<(), Fail> {
    let table = [(0, 1), (1, 1), (177, 1), (178, 2), (687, 2), (688, 3)];
    for (runs, slots) in table {
        assert_eq!(rt; slots_for(runs), slots, "{runs} runs");
        let entry = scattered(rt.alloc(), runs as u32)?;
        assert!(rt; entry.runs.len() == runs);
        let mut bytes = vec![in rt.alloc(); 0xff; 4096 * slots_for(runs)]?;
        write_entry(&mut bytes, 0, &entry);
        let mut read = Vec::new(rt.alloc());
        for slot in bytes.chunks(4096) {
            assert!(rt; slot.len() == 4096);
            match Slot::decode(rt.alloc(), slot)? {
                Some(Slot::Add { count, entry }) => {
                    assert_eq!(rt; count as usize, runs);
                    read.extend_from_slice(&entry.runs)?;
                }
                Some(Slot::More { copy, runs: more }) => {
                    assert_eq!(rt; copy, 7);
                    read.extend_from_slice(&more)?;
                }
                _ => return Err("no part of the object".into()),
            }
        }
        assert_eq!(rt; read.as_slice(), entry.runs.as_slice());
    }
    Ok(())
}

#[test]
fn each_rule_of_an_add_is_kept(rt: HostRuntime) -> Result<(), Fail> {
    let table = [
        (31, 0, true, "another digest"),
        (16, 0xff, true, "another size"),
        (7, 3, false, "a third run of no block"),
        (7, 1, false, "bytes behind the only run"),
        (
            4,
            1,
            false,
            "more runs than the first 177, which have no block",
        ),
        (0, 5, false, "a fifth kind"),
        (0, 0, false, "no kind"),
        (1, 1, false, "byte 1 is not named"),
        (3, 17, false, "volume 17"),
        (2, 1, false, "volume 272"),
        (
            9,
            1,
            false,
            "a copy id above 2^48, and not the descriptor's",
        ),
        (15, 8, false, "not the descriptor's copy id"),
        (56 + 2191, 8, false, "not the slot's copy id"),
        (56 + 2210, 2, false, "the status is most recent"),
        (56 + 2210, 0, false, "no status"),
        (56, 0x7f, false, "an owner that is not printed"),
        (56 + 2623, 1, false, "a byte behind the descriptor's fields"),
        (2687, 0, false, "a run of no block"),
        (2696, 1, false, "a byte behind the runs"),
        (4095, 1, false, "the last byte"),
    ];
    for (at, byte, is_read, rule) in table {
        assert!(rt; at < 4096);
        let mut slot = add_by_hand();
        slot[at] = byte;
        let read = Slot::decode(rt.alloc(), &slot)?;
        assert_eq!(rt; read.is_some(), is_read, "{rule}");
    }
    Ok(())
}

#[test]
fn each_rule_of_the_other_kinds_is_kept(rt: HostRuntime) -> Result<(), Fail> {
    let table = [
        (more_by_hand(), 15, 8, true, "more of another object"),
        (more_by_hand(), 3, 0, false, "no run"),
        (more_by_hand(), 3, 1, false, "bytes behind the only run"),
        (more_by_hand(), 2, 2, false, "514 runs"),
        (more_by_hand(), 7, 1, false, "byte 7 is not named"),
        (more_by_hand(), 9, 1, false, "a copy id above 2^48"),
        (
            more_by_hand(),
            27,
            3,
            false,
            "a run that begins where the one before it ends",
        ),
        (more_by_hand(), 4095, 1, false, "the last byte"),
        (del_by_hand(), 15, 9, true, "another deletion"),
        (del_by_hand(), 1, 1, false, "byte 1 is not named"),
        (del_by_hand(), 3, 1, false, "byte 3 is not named"),
        (del_by_hand(), 7, 1, false, "byte 7 is not named"),
        (del_by_hand(), 9, 1, false, "a copy id above 2^48"),
        (del_by_hand(), 16, 1, false, "byte 16 is not named"),
        (base_by_hand(), 15, 0, true, "no copy id was given"),
        (base_by_hand(), 9, 1, false, "a copy id above 2^48"),
        (base_by_hand(), 2, 1, false, "byte 2 is not named"),
        (base_by_hand(), 4095, 1, false, "the last byte"),
    ];
    for (by_hand, at, byte, is_read, rule) in table {
        assert!(rt; at < 4096);
        let mut slot = by_hand;
        slot[at] = byte;
        let read = Slot::decode(rt.alloc(), &slot)?;
        assert_eq!(rt; read.is_some(), is_read, "{rule}");
    }
    Ok(())
}
