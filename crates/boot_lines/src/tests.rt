//! Lines and records by hand, and what is none.
use crate::{BootMark, decode_line, encode_line};
use backup_lines::{Archive, FileSpan, Line, Point, Restore};

/// Puts these bytes into others.
fn put(bytes: &mut [u8], changes: &[(usize, u8)]) {
    for (at, byte) in changes {
        if let Some(place) = bytes.get_mut(*at) {
            *place = *byte;
        }
    }
}

fn slot_of(changes: &[(usize, u8)]) -> [u8; 128] {
    let mut slot = [0; 128];
    put(&mut slot, changes);
    slot
}

fn mark_of(changes: &[(usize, u8)]) -> [u8; 255] {
    let mut mark = [0; 255];
    put(&mut mark, changes);
    mark
}

fn archive() -> Line {
    Line::Archive(Archive {
        space: 15,
        level: 2,
        at: 258,
        base: 200,
        base_copy: 4,
        low: 190,
        copy: 9,
    })
}

/// The bytes of that archive.
const ARCHIVE: [(usize, u8); 9] = [
    (0, 1),
    (1, 2),
    (3, 15),
    (15, 9),
    (22, 1),
    (23, 2),
    (31, 200),
    (39, 4),
    (47, 190),
];

fn log() -> Line {
    Line::Log(FileSpan {
        file: 3,
        first: 511,
        last: 600,
        reset: Some(480),
        before: 7,
        time: 1 << 48,
        copy: 5,
        gone: false,
    })
}

/// The bytes of that log file.
const LOG: [(usize, u8); 12] = [
    (0, 2),
    (1, 1),
    (15, 5),
    (23, 3),
    (30, 1),
    (31, 255),
    (38, 2),
    (39, 88),
    (46, 1),
    (47, 224),
    (55, 7),
    (57, 1),
];

/// The bytes of a line that says that copy 258 is gone.
const GONE: [(usize, u8); 3] = [(0, 3), (14, 1), (15, 2)];

#[test]
fn lines_by_hand(rt: HostRuntime) {
    let lines: [(Line, &[(usize, u8)], usize); 3] = [
        (archive(), &ARCHIVE, 48),
        (log(), &LOG, 64),
        (Line::Gone { copy: 258 }, &GONE, 16),
    ];
    for (line, bytes, end) in lines {
        let slot = slot_of(bytes);
        assert_eq!(rt; encode_line(&line), slot);
        assert_eq!(rt; decode_line(&slot), Some(line));
        for at in end..128 {
            let mut changed = slot;
            put(&mut changed, &[(at, 1)]);
            assert_eq!(rt; decode_line(&changed), None, "at {at}");
        }
    }
}

/// Bytes of the archive, of the log file and of the last line that are changed, each so that it is no line.
static BAD_ARCHIVES: [(usize, u8); 12] = [
    (0, 0),
    (0, 4),
    (1, 3),
    (2, 1),
    (3, 16),
    (4, 1),
    (15, 0),
    (9, 2),
    (17, 2),
    (25, 2),
    (39, 0),
    (41, 2),
];

static BAD_LOGS: [(usize, u8); 13] = [
    (1, 0),
    (1, 2),
    (2, 1),
    (9, 2),
    (15, 0),
    (22, 2),
    (23, 0),
    (30, 3),
    (33, 2),
    (46, 2),
    (49, 2),
    (57, 2),
    (64, 1),
];

#[test]
fn one_bad_line_for_each_rule(rt: HostRuntime) {
    for change in BAD_ARCHIVES {
        let mut slot = slot_of(&ARCHIVE);
        put(&mut slot, &[change]);
        assert_eq!(rt; decode_line(&slot), None, "archive: {change:?}");
    }
    for change in BAD_LOGS {
        let mut slot = slot_of(&LOG);
        put(&mut slot, &[change]);
        assert_eq!(rt; decode_line(&slot), None, "log file: {change:?}");
    }
    for change in [(1, 1), (9, 2)] {
        let mut slot = slot_of(&GONE);
        put(&mut slot, &[change]);
        assert_eq!(rt; decode_line(&slot), None, "gone: {change:?}");
    }
    let none: [&[(usize, u8)]; 4] = [
        &[],
        &[(0, 3)],
        &[(0, 1), (15, 9), (31, 1)],
        &[(0, 1), (15, 9), (39, 1)],
    ];
    for bytes in none {
        assert_eq!(rt; decode_line(&slot_of(bytes)), None, "{bytes:?}");
    }
}

fn restore(point: Point, prepared: bool) -> BootMark {
    BootMark {
        last_number: 258,
        restore: Some(Restore {
            number: 258,
            point,
            to: 513,
            prepared,
        }),
    }
}

#[test]
fn records_by_hand(rt: HostRuntime) {
    let none = BootMark {
        last_number: 7,
        restore: None,
    };
    let marks: [(BootMark, &[(usize, u8)]); 4] = [
        (none, &[(7, 7)]),
        (
            restore(Point::End, false),
            &[(6, 1), (7, 2), (8, 1), (9, 1), (30, 2), (31, 1)],
        ),
        (
            restore(Point::File { file: 6 }, true),
            &[(6, 1), (7, 2), (8, 2), (9, 2), (23, 6), (30, 2), (31, 1)],
        ),
        (
            restore(Point::Time { time: 5 }, true),
            &[(6, 1), (7, 2), (8, 2), (9, 3), (23, 5), (30, 2), (31, 1)],
        ),
    ];
    for (mark, bytes) in marks {
        let wanted = mark_of(bytes);
        let mut spelled = [7; 255];
        mark.encode_into(&mut spelled);
        assert_eq!(rt; spelled, wanted);
        assert_eq!(rt; BootMark::decode(&wanted), Some(mark));
        for at in 32..255 {
            let mut changed = wanted;
            put(&mut changed, &[(at, 1)]);
            assert_eq!(rt; BootMark::decode(&changed), None, "at {at}");
        }
    }
}

#[test]
fn one_bad_record_for_each_rule(rt: HostRuntime) {
    let bad: [&[(usize, u8)]; 12] = [
        &[(1, 2)],
        &[(7, 7), (9, 1)],
        &[(7, 7), (23, 1)],
        &[(7, 7), (31, 1)],
        &[(8, 1), (9, 1)],
        &[(7, 7), (8, 3), (9, 1)],
        &[(7, 7), (8, 1)],
        &[(7, 7), (8, 1), (9, 4)],
        &[(7, 7), (8, 1), (9, 1), (10, 1)],
        &[(7, 7), (8, 1), (9, 1), (23, 1)],
        &[(7, 7), (8, 1), (9, 3), (17, 2)],
        &[(7, 7), (8, 1), (9, 1), (25, 2)],
    ];
    for bytes in bad {
        assert_eq!(rt; BootMark::decode(&mark_of(bytes)), None, "{bytes:?}");
    }
}
