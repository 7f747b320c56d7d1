//! The layout, byte by byte, and the texts that fit.

ghost use Rattle.std.specs.Prelude.{◌≡◌, Some};

use super::*;
use std::test::Fail;

/// What is written is read again, for every descriptor.
fn read_again(descriptor: &Descriptor) -> Option<Descriptor>
    ensures { result ≡ Some descriptor.now }
{
    let mut bytes = [0xee; 2624];
    descriptor.encode_into(&mut bytes);
    Descriptor::decode(&bytes)
}

fn sample() -> Option<Descriptor> {
    Some(Descriptor {
        bsa_owner: Text::from_bytes(b"onbar")?,
        app_owner: Text::from_bytes(b"1700000000")?,
        space: Text::from_bytes(b"site")?,
        path: Text::from_bytes(b"/space/rootdbs/0")?,
        create_time: 0x0102_0304_0506_0708,
        copy: 9,
        restore_order: 10,
        estimated_size: 11,
        copy_type: CopyType::Backup,
        object_type: ObjectType::Database,
        status: ObjectStatus::MostRecent,
        resource: Text::from_bytes(b"onbar")?,
        description: Text::from_bytes(b" ~")?,
        info: Text::from_bytes(b"")?,
    })
}

#[test]
fn a_field_stands_at_its_offset(rt: HostRuntime) -> Result<(), Fail> {
    let descriptor = sample().ok_or("each text fits")?;
    let mut bytes = [0xee; 2624];
    descriptor.encode_into(&mut bytes);
    for (offset, want) in [
        (0, b"onbar\0".as_slice()),
        (59, b"\0\0\0\0\x001700000000\0".as_slice()),
        (128, b"site\0".as_slice()),
        (1152, b"/space/rootdbs/0\0".as_slice()),
        (2175, b"\0\x01\x02\x03\x04\x05\x06\x07\x08".as_slice()),
        (2191, b"\x09\0\0\0\0\0\0\0\x0a".as_slice()),
        (2207, b"\x0b\x03\x02\x02onbar\0".as_slice()),
        (2241, b"\0 ~\0".as_slice()),
        (2342, b"\0".as_slice()),
        (
            2597,
            b"\0\0\0\0\0\0\0\0\0\0\0\0\0\0\0\0\0\0\0\0\0\0\0\0\0\0\0".as_slice(),
        ),
    ] {
        assert!(rt; offset + want.len() <= 2624);
        assert_eq!(rt; &bytes[offset..offset + want.len()], want, "at {offset}");
    }
    assert_eq!(rt; Descriptor::decode(&bytes), Some(descriptor));
    Ok(())
}

#[test]
fn a_byte_outside_the_layout_is_refused(rt: HostRuntime) -> Result<(), Fail> {
    let descriptor = sample().ok_or("each text fits")?;
    let mut bytes = [0; 2624];
    for (offset, byte, reads) in [
        (0, b'O', true),
        (0, 0, false),
        (4, 0x1f, false),
        (5, b'!', true),
        (6, b'!', false),
        (63, 1, false),
        (2176, 0xff, true),
        (2208, 0, false),
        (2208, 1, true),
        (2208, 4, false),
        (2209, 0, false),
        (2210, 4, false),
        (2341, b' ', false),
        (2342, 0x7f, false),
        (2342, 0x7e, true),
        (2598, 1, false),
        (2623, 1, false),
    ] {
        descriptor.encode_into(&mut bytes);
        assert!(rt; offset < 2624);
        bytes[offset] = byte;
        assert_eq!(rt;
            Descriptor::decode(&bytes).is_some(),
            reads,
            "{byte} at {offset}"
        );
    }
    descriptor.encode_into(&mut bytes);
    bytes[2211..2241].fill(b'x');
    assert_eq!(rt; Descriptor::decode(&bytes).is_some(), true);
    bytes[2241] = b'x';
    assert_eq!(rt;
        Descriptor::decode(&bytes),
        None,
        "a resource type with no zero"
    );
    Ok(())
}

#[test]
fn a_text_leaves_room_for_a_zero(rt: HostRuntime) -> Result<(), Fail> {
    for (bytes, fits) in [
        (b"".as_slice(), true),
        (b"abc".as_slice(), true),
        (b"abcd".as_slice(), false),
        (b" ~".as_slice(), true),
        (b"\x1f".as_slice(), false),
        (b"\x7f".as_slice(), false),
        (b"\xc3\xa4".as_slice(), false),
        (b"a\0".as_slice(), false),
    ] {
        assert_eq!(rt; Text::<4>::from_bytes(bytes).is_some(), fits);
    }
    assert_eq!(rt; Text::<0>::from_bytes(b""), None);
    let text = Text::<4>::from_bytes(b"abc").ok_or("it fits")?;
    assert_eq!(rt; text.as_bytes(), b"abc".as_slice());
    assert!(rt; text.clone()? == text);
    assert!(rt; Text::<4>::from_bytes(b"abd").ok_or("it fits")? != text);
    Ok(())
}

#[test]
fn an_empty_descriptor_asks_for_anything(rt: HostRuntime) -> Result<(), Fail> {
    let empty = Descriptor::empty();
    assert_eq!(rt; empty.space.as_bytes(), b"".as_slice());
    assert_eq!(rt; empty.copy_type, CopyType::Any);
    assert_eq!(rt; empty.create_time, 0);
    let copy = empty.clone()?;
    assert!(rt; copy == empty);
    assert_eq!(rt; read_again(&empty), Some(copy));
    Ok(())
}
