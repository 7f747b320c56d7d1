//! Headers written by hand, and one rule of the layout broken at a time.
use super::*;
use std::test::Fail;

/// The catalogue's header of site 0x0102030405060708 with 512 blocks a volume, and the spaces `root` of 4 pages and
/// `Data_1` of 65,536.
fn catalogue_by_hand() -> [u8; 4096] {
    let mut page = [0; 4096];
    page[..16].copy_from_slice(b"\x01OBS\x01\x01\0\0\x01\x02\x03\x04\x05\x06\x07\x08");
    page[16..28].copy_from_slice(b"\0\x02\0\0\0\0\0\0\0\0\x02\0");
    page[32..36].copy_from_slice(b"root");
    page[52..56].copy_from_slice(b"\0\0\0\x04");
    page[56..62].copy_from_slice(b"Data_1");
    page[76..80].copy_from_slice(b"\0\x01\0\0");
    page
}

/// The log's header of that site.
fn log_by_hand() -> [u8; 4096] {
    let mut page = [0; 4096];
    page[..16].copy_from_slice(b"\x01OBS\x04\x01\0\0\x01\x02\x03\x04\x05\x06\x07\x08");
    page
}

/// The header of volume 258 of that site, with 1,048,576 blocks.
fn volume_by_hand() -> [u8; 4096] {
    let mut page = [0; 4096];
    page[..20].copy_from_slice(
        b"\x01OBS\x05\x01\x01\x02\x01\x02\x03\x04\x05\x06\x07\x08\0\x10\0\0",
    );
    page
}

#[test]
fn a_catalogue_header_is_read_and_written_again(rt: HostRuntime) -> Result<(), Fail> {
    let by_hand = catalogue_by_hand();
    let head = read_catalogue_header(rt.alloc(), &by_hand)?.ok_or("no header")?;
    assert_eq!(rt; head.site, 0x0102_0304_0506_0708);
    assert_eq!(rt; head.blocks, 512);
    assert_eq!(rt; head.spaces.len(), 2);
    assert_eq!(rt; head.spaces[0].name.as_bytes(), b"root".as_slice());
    assert_eq!(rt; head.spaces[0].pages, 4);
    assert_eq!(rt; head.spaces[1].name.as_bytes(), b"Data_1".as_slice());
    assert_eq!(rt; head.spaces[1].pages, 65_536);
    let mut page = [0xff; 4096];
    write_catalogue_header(&head, &mut page);
    assert_eq!(rt; page.as_slice(), by_hand.as_slice());
    Ok(())
}

#[test]
fn a_catalogue_header_keeps_each_rule(rt: HostRuntime) -> Result<(), Fail> {
    let table = [
        (0, 0xff, true, "any gate but 0 is open"),
        (8, 0xff, true, "another site"),
        (32, b'R', true, "another name"),
        (0, 0, false, "the gate is closed"),
        (1, b'o', false, "OBS"),
        (3, b'Z', false, "OBS"),
        (4, 4, false, "the log's kind"),
        (5, 2, false, "version 2"),
        (7, 1, false, "a number"),
        (17, 1, false, "bytes behind the only space"),
        (17, 3, false, "a space without a name"),
        (17, 0, false, "no space"),
        (17, 17, false, "17 spaces"),
        (18, 1, false, "byte 18 is not named"),
        (23, 1, false, "byte 23 is not named"),
        (26, 0, false, "no block"),
        (25, 0x10, false, "1,049,088 blocks"),
        (28, 1, false, "byte 28 is not named"),
        (31, 1, false, "byte 31 is not named"),
        (32, 0, false, "bytes behind an empty name"),
        (32, b'1', false, "a digit first"),
        (34, b'-', false, "a character of no name"),
        (37, b'x', false, "a byte behind the name's zero"),
        (51, b'x', false, "the last byte behind the name"),
        (55, 0, false, "no page"),
        (79, 1, false, "65,537 pages"),
        (80, 1, false, "a byte behind the spaces"),
        (4095, 1, false, "the last byte"),
    ];
    for (at, byte, is_read, rule) in table {
        assert!(rt; at < 4096);
        let mut page = catalogue_by_hand();
        page[at] = byte;
        let read = read_catalogue_header(rt.alloc(), &page)?;
        assert_eq!(rt; read.is_some(), is_read, "{rule}");
    }
    Ok(())
}

#[test]
fn two_spaces_of_one_name_are_refused(rt: HostRuntime) -> Result<(), Fail> {
    let mut page = catalogue_by_hand();
    page[56..62].copy_from_slice(b"root\0\0");
    assert!(rt; read_catalogue_header(rt.alloc(), &page)?.is_none());
    page[59] = b'T';
    assert!(rt; read_catalogue_header(rt.alloc(), &page)?.is_some());
    Ok(())
}

#[test]
fn a_name_has_at_most_18_characters(rt: HostRuntime) -> Result<(), Fail> {
    let mut page = catalogue_by_hand();
    page[32..50].copy_from_slice(b"abcdefghijklmnopqr");
    assert!(rt; read_catalogue_header(rt.alloc(), &page)?.is_some());
    page[50] = b's';
    assert!(rt; read_catalogue_header(rt.alloc(), &page)?.is_none());
    Ok(())
}

#[test]
fn a_log_header_keeps_each_rule(rt: HostRuntime) {
    let site = 0x0102_0304_0506_0708;
    let mut page = [0xff; 4096];
    write_log_header(site, &mut page);
    assert_eq!(rt; page.as_slice(), log_by_hand().as_slice());
    let table = [
        (0, 1, true, "as it is written"),
        (0, 7, true, "any gate but 0 is open"),
        (0, 0, false, "the gate is closed"),
        (2, b'b', false, "OBS"),
        (4, 1, false, "the catalogue's kind"),
        (5, 0, false, "version 0"),
        (6, 1, false, "a number"),
        (15, 9, false, "another site"),
        (16, 1, false, "byte 16 is not named"),
        (4095, 1, false, "the last byte"),
    ];
    for (at, byte, is_header, rule) in table {
        assert!(rt; at < 4096);
        let mut page = log_by_hand();
        page[at] = byte;
        assert_eq!(rt; is_log_header(&page, site), is_header, "{rule}");
    }
}

#[test]
fn a_spare_header_keeps_each_rule(rt: HostRuntime) {
    let site = 0x0102_0304_0506_0708;
    let mut by_hand = log_by_hand();
    by_hand[4] = 2;
    let mut page = [0xff; 4096];
    write_spare_header(site, &mut page);
    assert_eq!(rt; page.as_slice(), by_hand.as_slice());
    assert!(rt; is_spare_header(&page, site));
    assert!(rt; !is_spare_header(&page, site + 1));
    assert!(rt; !is_spare_header(&log_by_hand(), site));
    page[4095] = 1;
    assert!(rt; !is_spare_header(&page, site));
}

#[test]
fn a_volume_header_keeps_each_rule(rt: HostRuntime) {
    let site = 0x0102_0304_0506_0708;
    let mut page = [0xff; 4096];
    write_volume_header(258, site, 1_048_576, &mut page);
    assert_eq!(rt; page.as_slice(), volume_by_hand().as_slice());
    let table = [
        (0, 7, Some(1_048_576), "any gate but 0 is open"),
        (0, 0, None, "the gate is closed"),
        (4, 6, None, "the chunk's kind"),
        (7, 3, None, "another number"),
        (15, 9, None, "another site"),
        (17, 0, None, "no block"),
        (18, 1, None, "1,048,832 blocks"),
        (20, 1, None, "byte 20 is not named"),
        (4095, 1, None, "the last byte"),
    ];
    for (at, byte, blocks, rule) in table {
        assert!(rt; at < 4096);
        let mut page = volume_by_hand();
        page[at] = byte;
        assert_eq!(rt; read_volume_header(&page, 258, site), blocks, "{rule}");
    }
}
