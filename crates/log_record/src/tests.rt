//! Each kind's bytes, written by hand; what lies outside the layout.
use crate::{Record, Text64};
use std::process::Abort;
use std::test::Fail;

/// A slot of zeros, but for these bytes.
fn slot_of(bytes: &[(usize, u8)]) -> [u8; 128] {
    let mut slot = [0; 128];
    for (at, byte) in bytes {
        if let Some(place) = slot.get_mut(*at) {
            *place = *byte;
        }
    }
    slot
}

fn write(txn: u32, space: u16, page: u32, offset: u16, bytes: &[u8]) -> Result<Record, Fail> {
    let bytes = Text64::from_bytes(bytes).ok_or("1 to 64 bytes")?;
    Ok(Record::Write {
        txn,
        space,
        page,
        offset,
        bytes,
    })
}

/// The record is read, and is written so; no byte outside its fields may be other than zero.
fn check(rt: &impl Abort, record: &Record, slot: &[u8; 128], fields: &[(usize, usize)]) {
    let found = Record::decode(slot).expect(rt, "a record");
    assert_eq!(rt; found, *record);
    let mut again = [1; 128];
    found.encode_into(&mut again);
    assert_eq!(rt; again, *slot);
    for at in 0..128 {
        if !fields.iter().any(|(from, to)| *from <= at && at < *to) {
            let mut changed = *slot;
            changed[at] = 1;
            assert_eq!(rt; Record::decode(&changed), None, "at {at}");
        }
    }
}

#[test]
fn marks_by_hand(rt: HostRuntime) {
    let begin = Record::Begin { txn: 7 };
    check(&rt, &begin, &slot_of(&[(0, 1), (7, 7)]), &[(0, 1), (4, 8)]);
    let abort = Record::Abort { txn: 255 };
    let bytes = [(0, 4), (7, 255)];
    check(&rt, &abort, &slot_of(&bytes), &[(0, 1), (4, 8)]);
    let reset = Record::Reset {
        restore: 2,
        target: 258,
        time: 1 << 48,
    };
    let bytes = [(0, 5), (17, 1), (30, 1), (31, 2), (103, 2)];
    let fields = [(0, 1), (16, 32), (96, 104)];
    check(&rt, &reset, &slot_of(&bytes), &fields);
}

#[test]
fn a_commit_by_hand(rt: HostRuntime) {
    let commit = Record::Commit {
        txn: 256,
        time: 0x0102_0304_0506,
    };
    let time = [(18, 1), (19, 2), (20, 3), (21, 4), (22, 5), (23, 6)];
    let mut slot = slot_of(&time);
    slot[0] = 3;
    slot[6] = 1;
    check(&rt, &commit, &slot, &[(0, 1), (4, 8), (16, 24)]);
}

#[test]
fn writes_by_hand(rt: HostRuntime) -> Result<(), Fail> {
    let first = write(1, 0, 0, 0, b"A")?;
    let bytes = [(0, 2), (1, 1), (7, 1), (32, 0x41)];
    check(&rt, &first, &slot_of(&bytes), &[(0, 14), (32, 33)]);
    let last = write(0x0102_0304, 15, 65535, 4078, &[9, 0])?;
    let mut slot = slot_of(&[(0, 2), (1, 2), (3, 15), (32, 9)]);
    slot[4..8].copy_from_slice(&[1, 2, 3, 4]);
    slot[10..14].copy_from_slice(&[255, 255, 0x0f, 0xee]);
    check(&rt, &last, &slot, &[(0, 14), (32, 34)]);
    Ok(())
}

#[test]
fn outside_the_bounds(rt: HostRuntime) {
    let none: [&[(usize, u8)]; 14] = [
        &[],
        &[(0, 6), (7, 1)],
        &[(0, 1)],
        &[(0, 2), (7, 1)],
        &[(0, 2), (1, 65), (7, 1)],
        &[(0, 2), (1, 1), (3, 16), (7, 1)],
        &[(0, 2), (1, 1), (7, 1), (9, 1)],
        &[(0, 2), (1, 1), (7, 1), (12, 0x0f), (13, 0xf0)],
        &[(0, 3), (7, 1), (17, 1), (23, 1)],
        &[(0, 4)],
        &[(0, 5)],
        &[(0, 5), (17, 1), (23, 1), (103, 1)],
        &[(0, 5), (25, 1), (31, 1), (103, 1)],
        &[(0, 5), (97, 1), (103, 1)],
    ];
    for bytes in none {
        assert_eq!(rt; Record::decode(&slot_of(bytes)), None, "{bytes:?}");
    }
    assert_eq!(rt; Text64::from_bytes(&[]), None);
    assert_eq!(rt; Text64::from_bytes(&[1; 65]), None);
}

#[test]
fn a_copy_is_equal(rt: HostRuntime) -> Result<(), Fail> {
    let record = write(1, 2, 3, 4, &[5; 64])?;
    let copy = record.clone()?;
    assert_eq!(rt; copy, record);
    Ok(())
}
