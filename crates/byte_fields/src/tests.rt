//! A number and a text by hand, and what stands around them.
use crate::{text_at, u32_at, write_text, write_u32};

#[test]
fn a_number_stands_with_its_highest_byte_first(rt: HostRuntime) {
    let mut bytes = [9; 6];
    write_u32(&mut bytes, 1, 0x0102_0304);
    assert_eq!(rt; bytes, [9, 1, 2, 3, 4, 9]);
    assert_eq!(rt; u32_at(&bytes, 1), 0x0102_0304);
}

#[test]
fn a_text_has_zeros_behind_it(rt: HostRuntime) {
    let mut bytes = [9; 7];
    write_text(&mut bytes, 1, 5, b"abc");
    assert_eq!(rt; bytes, [9, b'a', b'b', b'c', 0, 0, 9]);
    assert_eq!(rt; text_at(&bytes, 1, 5), Some(b"abc".as_slice()));
    assert_eq!(rt; text_at(&bytes, 1, 6), None);
    assert_eq!(rt; text_at(&bytes, 1, 3), None);
}
