//! Queries over three objects, two of which have one name.

use super::*;
use bsa_descriptor::{Descriptor, ObjectStatus, Text};
use catalogue_slots::ObjectEntry;
use std::alloc::Global;
use std::test::Fail;

fn object(alloc: Global, copy: u64, path: &[u8]) -> Result<ObjectEntry, Fail> {
    let mut descriptor = Descriptor::empty();
    descriptor.space = Text::from_bytes(b"db").ok_or("it fits")?;
    descriptor.path = Text::from_bytes(path).ok_or("it is too long")?;
    descriptor.copy = copy;
    Ok(ObjectEntry {
        copy,
        volume: 0,
        size: 0,
        digest: [0; 32],
        runs: Vec::new(alloc),
        descriptor,
    })
}

#[test]
fn the_most_recent_of_a_name_is_the_last(rt: HostRuntime) -> Result<(), Fail> {
    let alloc = rt.alloc();
    let mut objects = Vec::new(alloc);
    objects.push(object(alloc, 1, b"/a")?)?;
    objects.push(object(alloc, 2, b"/b")?)?;
    objects.push(object(alloc, 5, b"/a")?)?;
    let mut query = Descriptor::empty();
    query.space = Text::from_bytes(b"db").ok_or("it fits")?;
    query.path = Text::from_bytes(b"/?").ok_or("it fits")?;
    for (status, want) in [
        (ObjectStatus::Any, [1, 2, 5].as_slice()),
        (ObjectStatus::MostRecent, [2, 5].as_slice()),
        (ObjectStatus::NotMostRecent, [1].as_slice()),
    ] {
        query.status = status;
        let copies = found(alloc, &query, &objects)?;
        assert_eq!(rt; copies.as_slice(), want);
    }
    let first = described(&objects, 1).ok_or("it is there")?;
    assert_eq!(rt; first.status, ObjectStatus::NotMostRecent);
    let last = described(&objects, 5).ok_or("it is there")?;
    assert_eq!(rt; last.status, ObjectStatus::MostRecent);
    assert!(rt; described(&objects, 3).is_none());
    Ok(())
}
