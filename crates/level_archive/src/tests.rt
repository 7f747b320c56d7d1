//! A head by hand, images made and read, and what is refused.
use crate::{ImageFault, ImageHead, ImageMaker, ImageReader};
use std::process::Abort;

/// The image of level 1 of space 3, with the pages written behind position 5 up to 9.
fn sample() -> ImageHead {
    ImageHead {
        site: 77,
        space: 3,
        level: 1,
        at: 9,
        base: 5,
    }
}

/// A page of a space.
fn page(space: u16, number: u32, stamp: u64) -> [u8; 4096] {
    let mut block = [7; 4096];
    block[0..8].copy_from_slice(&stamp.to_be_bytes());
    block[8..10].copy_from_slice(&space.to_be_bytes());
    block[10..12].copy_from_slice(&[0; 2]);
    block[12..16].copy_from_slice(&number.to_be_bytes());
    block
}

fn size(entries: u64) -> u64 {
    4096_u64.wrapping_mul(entries.wrapping_add(1))
}

/// Feeds a block, and says which page it gave.
fn fed(reader: &mut ImageReader, block: &[u8; 4096]) -> Result<Option<u32>, ImageFault> {
    match reader.feed(block) {
        Ok(Some((number, _))) => Ok(Some(number)),
        Ok(None) => Ok(None),
        Err(fault) => Err(fault),
    }
}

/// A reader of the sample's image, of eight pages, that has read the head.
fn begun(rt: &impl Abort, entries: u64) -> ImageReader {
    let mut reader = ImageReader::new(sample(), 8, size(entries));
    let mut block = [0; 4096];
    sample().encode_into(&mut block);
    assert_eq!(rt; fed(&mut reader, &block), Ok(None));
    reader
}

#[test]
fn a_head_by_hand(rt: HostRuntime) {
    let mut bytes = [0; 4096];
    bytes[0..8].copy_from_slice(b"OBIM\x01\x01\x00\x03");
    bytes[15] = 77;
    bytes[23] = 9;
    bytes[31] = 5;
    let mut spelled = [7; 4096];
    sample().encode_into(&mut spelled);
    assert!(rt; spelled == bytes);
    assert_eq!(rt; ImageHead::decode(&bytes), Some(sample()));
    let other = ImageHead {
        base: 0,
        ..sample()
    };
    assert!(rt; !other.is_spelled_by(&bytes));
}

#[test]
fn one_bad_head_for_each_rule(rt: HostRuntime) {
    let bad = [
        (0, b'P'),
        (4, 2),
        (5, 3),
        (5, 0),
        (17, 2),
        (25, 2),
        (32, 1),
        (4095, 1),
    ];
    for (at, byte) in bad {
        let mut block = [0; 4096];
        sample().encode_into(&mut block);
        if let Some(place) = block.get_mut(at) {
            *place = byte;
        }
        assert_eq!(rt; ImageHead::decode(&block), None, "at {at}");
        let mut reader = ImageReader::new(sample(), 8, size(0));
        assert_eq!(rt;
            fed(&mut reader, &block),
            Err(ImageFault::BadHead),
            "at {at}"
        );
    }
}

#[test]
fn sizes_of_images(rt: HostRuntime) {
    let mut head = [0; 4096];
    sample().encode_into(&mut head);
    let sizes = [
        (0, false),
        (1, false),
        (4095, false),
        (4096, true),
        (4097, false),
        (8192, true),
        (9 * 4096, true),
        (9 * 4096 + 1, false),
        (10 * 4096, false),
        (u64::MAX, false),
    ];
    for (size, is_size) in sizes {
        let mut reader = ImageReader::new(sample(), 8, size);
        let wanted = if is_size {
            Ok(None)
        } else {
            Err(ImageFault::BadHead)
        };
        assert_eq!(rt; fed(&mut reader, &head), wanted, "{size}");
    }
}

/// Makes the image of pages with these stamps, and reads it again. It has the pages with these numbers.
fn made_and_read(rt: &impl Abort, head: ImageHead, stamps: &[u64; 4], wanted: &[u32]) {
    let mut maker = ImageMaker::new(head, 4);
    let mut reader = ImageReader::new(head, 4, size(wanted.len() as u64));
    let mut block = [9; 4096];
    assert!(rt; maker.take_head(&mut block));
    assert_eq!(rt; fed(&mut reader, &block), Ok(None));
    assert!(rt; !maker.take_head(&mut block));
    for number in 0..4_u32 {
        let page = page(head.space, number, stamps[number as usize]);
        let rest = maker.rest();
        if number < rest.start || number >= rest.end {
            continue;
        }
        let is_wanted = wanted.contains(&number);
        assert_eq!(rt; maker.take(number, &page), is_wanted, "page {number}");
        if is_wanted {
            assert_eq!(rt; fed(&mut reader, &page), Ok(Some(number)), "page {number}");
        }
    }
    assert_eq!(rt; maker.entries() as usize, wanted.len());
}

#[test]
fn images_made_and_read(rt: HostRuntime) {
    let whole = ImageHead {
        level: 0,
        base: 0,
        ..sample()
    };
    // Level 0 has the pages that were ever written.
    made_and_read(&rt, whole, &[0, 0, 0, 0], &[]);
    made_and_read(&rt, whole, &[1, 9, 3, 4], &[0, 1, 2, 3]);
    // A page whose stamp is exactly the base isn't in the image.
    made_and_read(&rt, sample(), &[5, 6, 0, 9], &[1, 3]);
    made_and_read(&rt, sample(), &[5, 5, 5, 5], &[]);
}

#[test]
fn one_bad_entry_for_each_rule(rt: HostRuntime) {
    let mut zeros_changed = page(3, 4, 8);
    zeros_changed[11] = 1;
    let mut head = [0; 4096];
    sample().encode_into(&mut head);
    let bad = [
        page(2, 4, 8),
        page(3, 3, 8),
        page(3, 2, 8),
        page(3, 8, 8),
        page(3, 4, 5),
        page(3, 4, 10),
        zeros_changed,
        head,
    ];
    let mut reader = begun(&rt, 5);
    let first = page(3, 3, 6);
    assert_eq!(rt; fed(&mut reader, &first), Ok(Some(3)));
    for block in &bad {
        assert_eq!(rt;
            fed(&mut reader, block),
            Err(ImageFault::BadEntry { entry: 1 })
        );
    }
    // A refusal leaves the reader as it was.
    let last = page(3, 7, 9);
    assert_eq!(rt; fed(&mut reader, &last), Ok(Some(7)));
    assert_eq!(rt;
        fed(&mut reader, &last),
        Err(ImageFault::BadEntry { entry: 2 })
    );
}
