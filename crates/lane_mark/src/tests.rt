//! Marks by hand, and what is no mark.
use crate::{decode, encode_into};
use backup_lines::{Chain, LaneState};

fn two() -> Chain {
    Chain {
        len: 2,
        copies: [5, 6, 0],
    }
}

// Each state, and the bytes of its record that aren't 0.
fn marks() -> [(LaneState, [(usize, u8); 7]); 4] {
    [
        (
            LaneState::At {
                upto: 258,
                part: 65_539,
            },
            [(0, 1), (22, 1), (23, 2), (25, 1), (27, 3), (0, 1), (0, 1)],
        ),
        (
            LaneState::Blank { restore: 7 },
            [(0, 2), (15, 7), (0, 2), (0, 2), (0, 2), (0, 2), (0, 2)],
        ),
        (
            LaneState::Image {
                restore: 7,
                chain: two(),
                image: 1,
                entries: 256,
            },
            [(0, 3), (1, 2), (2, 1), (6, 1), (15, 7), (39, 5), (47, 6)],
        ),
        (
            LaneState::Replay {
                restore: 7,
                chain: two(),
                upto: 3,
                part: 0,
            },
            [(0, 4), (1, 2), (15, 7), (23, 3), (39, 5), (47, 6), (0, 4)],
        ),
    ]
}

#[test]
fn marks_by_hand(rt: HostRuntime) {
    for (state, places) in marks() {
        let mut bytes = [0; 255];
        for (at, byte) in places {
            if let Some(place) = bytes.get_mut(at) {
                *place = byte;
            }
        }
        assert_eq!(rt; decode(&bytes), Some(state));
        let mut spelled = [7; 255];
        if crate::is_lane(&state) {
            encode_into(&state, &mut spelled);
        }
        assert_eq!(rt; spelled, bytes);
    }
}

#[test]
fn one_bad_mark_for_each_rule(rt: HostRuntime) {
    // The code of one of these states, a place of its record, and a byte with which that is no record.
    let bad = [
        (1, 0, 0),
        (1, 0, 5),
        (1, 1, 1),
        (1, 3, 1),
        (1, 15, 1),
        (1, 17, 2),
        (1, 28, 1),
        (1, 32, 1),
        (1, 254, 1),
        (2, 15, 0),
        (2, 9, 2),
        (2, 23, 1),
        (3, 1, 0),
        (3, 1, 4),
        (3, 2, 2),
        (3, 55, 1),
        (4, 7, 1),
    ];
    for (_, places) in marks() {
        let mut bytes = [0; 255];
        for (at, byte) in places {
            if let Some(place) = bytes.get_mut(at) {
                *place = byte;
            }
        }
        for (code, at, byte) in bad {
            let mut changed = bytes;
            if let Some(place) = changed.get_mut(at) {
                *place = byte;
            }
            if bytes[0] == code {
                assert_eq!(rt; decode(&changed), None, "state {code} at {at}");
            }
        }
    }
}
