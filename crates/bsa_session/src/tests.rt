//! A session over an empty catalogue.

use crate::{BsaRc, Session};
use bsa_descriptor::{CopyType, Descriptor, ObjectType, Text};
use catalogue_journal::Catalogue;
use object_volume::Volume;
use site_disk::{Era, MemDisk};
use std::test::Fail;

// The SHA-256 of `abc`, from the standard.
const ABC: [u8; 32] = [
    0xba, 0x78, 0x16, 0xbf, 0x8f, 0x01, 0xcf, 0xea, 0x41, 0x41, 0x40, 0xde, 0x5d, 0xae, 0x22, 0x23,
    0xb0, 0x03, 0x61, 0xa3, 0x96, 0x17, 0x7a, 0x9c, 0xb4, 0x10, 0xff, 0x61, 0xf2, 0x00, 0x15, 0xad,
];

// The record of a descriptor with a space, a path, and its kinds.
fn record() -> Result<[u8; 2624], Fail> {
    let mut descriptor = Descriptor::empty();
    descriptor.space = Text::from_bytes(b"db").ok_or("it fits")?;
    descriptor.path = Text::from_bytes(b"/a").ok_or("it fits")?;
    descriptor.copy_type = CopyType::Backup;
    descriptor.object_type = ObjectType::Database;
    let mut bytes = [0; 2624];
    descriptor.encode_into(&mut bytes);
    Ok(bytes)
}

#[test]
fn a_call_without_an_entry_is_refused(rt: HostRuntime) -> Result<(), Fail> {
    let alloc = rt.alloc();
    let era = Era::first();
    let cat = MemDisk::new(alloc, &era, Vec::new(alloc));
    let spare = MemDisk::new(alloc, &era, Vec::new(alloc));
    let catalogue = Catalogue::new(alloc, cat, spare);
    let record = record()?;
    let mut session = Session::new(alloc);
    assert_eq!(rt; session.begin_txn(), BsaRc::InvalidCallSequence);
    assert_eq!(rt; session.init(3, 5), BsaRc::Success);
    assert_eq!(rt; session.init(3, 5), BsaRc::InvalidCallSequence);
    assert_eq!(rt;
        session.query_object(&catalogue, &record),
        Err(BsaRc::InvalidCallSequence)
    );
    assert_eq!(rt; session.begin_txn(), BsaRc::Success);
    assert_eq!(rt;
        session.query_object(&catalogue, &[0; 2624]),
        Err(BsaRc::InvalidObjectDescriptor)
    );
    assert_eq!(rt;
        session.query_object(&catalogue, &record),
        Err(BsaRc::NoMatch)
    );
    assert_eq!(rt;
        session.get_next_query_object(),
        Err(BsaRc::InvalidCallSequence)
    );
    assert!(rt; session.described(&catalogue, 1).is_none());
    Ok(())
}

#[test]
fn an_object_is_sent(rt: HostRuntime) -> Result<(), Fail> {
    let alloc = rt.alloc();
    let era = Era::first();
    let live = Vec::new(alloc);
    let disk = MemDisk::new(alloc, &era, Vec::new(alloc));
    let mut volume = Volume::new(alloc, disk, 3);
    volume.format(&era, 7, 1)?;
    volume.open(&era, 7, &live)?;
    let record = record()?;
    let mut session = Session::new(alloc);
    assert_eq!(rt; session.init(3, 5), BsaRc::Success);
    assert_eq!(rt; session.begin_txn(), BsaRc::Success);
    let created = session.create_object(&mut volume, &record);
    assert_eq!(rt; created, BsaRc::Success);
    let sent = session.send_data(&mut volume, &era, b"abc");
    assert_eq!(rt; sent, BsaRc::Success);
    let ended = session.end_data(&mut volume, &era);
    assert_eq!(rt; ended, Ok(Some((3, ABC))));
    Ok(())
}
