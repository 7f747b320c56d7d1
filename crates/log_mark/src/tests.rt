//! A mark by hand, and what is no mark.
use crate::LogMark;

fn sample() -> LogMark {
    LogMark {
        current: 9,
        oldest: 8,
        backed_up_to: 8,
        before: 258,
        is_closed: false,
        firsts: [200, 456, 0, 0, 0, 0, 0, 0],
    }
}

#[test]
fn a_mark_by_hand(rt: HostRuntime) {
    let mut bytes = [0; 255];
    bytes[7] = 9;
    bytes[15] = 8;
    bytes[23] = 8;
    bytes[30] = 1;
    bytes[31] = 2;
    bytes[32] = 1;
    bytes[47] = 200;
    bytes[54] = 1;
    bytes[55] = 200;
    let mut spelled = [7; 255];
    sample().encode_into(&mut spelled);
    assert_eq!(rt; spelled, bytes);
    assert_eq!(rt; LogMark::decode(&bytes), Some(sample()));
    for at in 104..255 {
        let mut changed = bytes;
        changed[at] = 1;
        assert_eq!(rt; LogMark::decode(&changed), None, "at {at}");
    }
}

#[test]
fn one_bad_mark_for_each_rule(rt: HostRuntime) {
    let bad = [
        (7, 16),
        (7, 7),
        (15, 0),
        (23, 10),
        (23, 6),
        (32, 0),
        (32, 3),
        (33, 1),
        (25, 2),
        (41, 2),
    ];
    for (at, byte) in bad {
        let mut bytes = [0; 255];
        sample().encode_into(&mut bytes);
        if let Some(place) = bytes.get_mut(at) {
            *place = byte;
        }
        assert_eq!(rt; LogMark::decode(&bytes), None, "at {at}");
    }
}
