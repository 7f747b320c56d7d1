//! Points, chains and needs of small logs.
ghost use Rattle.std.specs.Prelude.{◌≡◌};

use backup_lines::{Archive, Chain, FileSpan, Lacking, LaneState, Line, Need, Point, What};
use log_record::Record;
use restore_planner::{Found, PlanFault, find, needed, plan, spans, within};
use std::test::Fail;

fn file(file: u64, first: u64, last: u64, before: u64, time: u64) -> FileSpan
    ensures { result.first ≡ first }
{
    FileSpan {
        file,
        first,
        last,
        reset: None,
        before,
        time,
        copy: 100,
        gone: false,
    }
}

fn with_copy(id: u64, copy: u64) -> FileSpan {
    FileSpan {
        copy,
        ..file(id, 1, 4, 0, 9)
    }
}

fn merging(restore: u64, chain: Chain, image: u8) -> LaneState {
    LaneState::Image {
        restore,
        chain,
        image,
        entries: 5,
    }
}

fn archive(level: u8, at: u64, base_copy: u64, copy: u64) -> Line {
    Line::Archive(Archive {
        space: 0,
        level,
        at,
        base: 0,
        base_copy,
        low: at.saturating_add(1),
        copy,
    })
}

#[test]
fn a_point_lies_where_the_times_say(rt: HostRuntime) -> Result<(), Fail> {
    // Two Commits in the first file, the second at the time of all of the second file; the fourth file's clock was behind.
    let files = [
        file(1, 1, 4, 0, 100),
        file(2, 5, 8, 100, 100),
        file(3, 9, 12, 100, 200),
        file(4, 13, 16, 200, 150),
        file(5, 17, 20, 150, 170),
    ];
    for (point, found) in [
        (Point::End, Found::At(20)),
        (Point::File { file: 2 }, Found::At(8)),
        (Point::File { file: 6 }, Found::NoSuchLog { file: 6 }),
        (Point::Time { time: 0 }, Found::Look { file: 1 }),
        (Point::Time { time: 50 }, Found::Look { file: 1 }),
        (Point::Time { time: 100 }, Found::Look { file: 3 }),
        (Point::Time { time: 199 }, Found::Look { file: 3 }),
        (Point::Time { time: 200 }, Found::At(20)),
    ] {
        assert_eq!(rt; find(&point, &files), found, "{point:?}");
    }
    assert_eq!(rt;
        find(&Point::Time { time: 120 }, &files[3..]),
        Found::At(12)
    );
    assert_eq!(rt; find(&Point::End, &[]), Found::At(0));
    assert_eq!(rt; find(&Point::Time { time: 7 }, &[]), Found::At(0));
    Ok(())
}

#[test]
fn a_time_is_that_of_the_last_commit_up_to_it(rt: HostRuntime) -> Result<(), Fail> {
    let records = [
        Record::Begin { txn: 1 },
        Record::Commit { txn: 1, time: 50 },
        Record::Begin { txn: 2 },
        Record::Commit { txn: 2, time: 50 },
        Record::Begin { txn: 3 },
        Record::Commit { txn: 3, time: 100 },
    ];
    let span = file(3, 11, 16, 0, 100);
    for (time, position) in [(0, 11), (49, 11), (50, 15), (99, 15), (100, 16)] {
        assert_eq!(rt; within(&span, &records, time), position, "{time}");
    }
    Ok(())
}

#[test]
fn a_file_is_known_by_its_best_line(rt: HostRuntime) -> Result<(), Fail> {
    let lines = [
        Line::Log(with_copy(2, 5)),
        Line::Log(with_copy(1, 3)),
        Line::Log(with_copy(1, 7)),
        Line::Log(with_copy(1, 8)),
        Line::Log(with_copy(3, 9)),
        Line::Gone { copy: 8 },
        Line::Gone { copy: 5 },
    ];
    let ring = [with_copy(3, 77), with_copy(4, 78)];
    let known = spans(rt.alloc(), &lines, &ring, 3).map_err(|_| "memory")?;
    let facts = [(1, 7, false), (2, 5, true), (3, 9, false), (4, 0, false)];
    assert_eq!(rt; known.len(), facts.len());
    for (span, (id, copy, gone)) in known.iter().zip(facts) {
        assert_eq!(rt; (span.file, span.copy, span.gone), (id, copy, gone));
    }
    Ok(())
}

#[test]
fn a_chain_passes_over_what_was_dropped(rt: HostRuntime) -> Result<(), Fail> {
    // From 11 on all is live, and before it what is up to 4.
    let files = [
        file(1, 1, 10, 0, 9),
        FileSpan {
            reset: Some(4),
            copy: 101,
            ..file(2, 11, 20, 9, 9)
        },
    ];
    // Two archives stand at 3; one at 8 was dropped, and one that was built on the other at 3 doesn't count.
    let lines = [
        archive(0, 3, 0, 1),
        archive(0, 3, 0, 2),
        archive(0, 8, 0, 4),
        archive(1, 12, 2, 5),
        archive(1, 14, 1, 6),
        archive(2, 13, 5, 7),
    ];
    let found = plan(rt.alloc(), &lines, &files, 1, 20).map_err(|_| "no plan")?;
    assert_eq!(rt; found.spaces.len(), 1);
    let top = found
        .spaces
        .first()
        .map(|space| (space.chain, space.at, space.low));
    let chain = Chain {
        len: 3,
        copies: [2, 5, 7],
    };
    assert_eq!(rt; top, Some((chain, 13, 14)));
    assert_eq!(rt; found.logs.len(), 1);
    assert_eq!(rt; found.logs.first().map(|span| span.file), Some(2));
    let early = plan(rt.alloc(), &lines, &files, 1, 9).map_err(|_| "no plan")?;
    let chain = Chain {
        len: 1,
        copies: [4, 0, 0],
    };
    assert_eq!(rt; early.spaces.first().map(|space| space.chain), Some(chain));
    match plan(rt.alloc(), &lines, &files, 2, 20) {
        Err(PlanFault::Lacking(list)) => assert_eq!(rt;
            list.as_slice(),
            [Lacking::NoLevel0 { space: 1 }].as_slice()
        ),
        _ => return Err("a plan without a level 0".into()),
    }
    Ok(())
}

#[test]
fn what_a_lane_has_done_isnt_needed(rt: HostRuntime) -> Result<(), Fail> {
    let lines = [archive(0, 3, 0, 1), archive(1, 6, 1, 2)];
    let files = [file(1, 1, 10, 0, 9)];
    let found = plan(rt.alloc(), &lines, &files, 1, 10).map_err(|_| "no plan")?;
    let chain = Chain {
        len: 2,
        copies: [1, 2, 0],
    };
    let other = Chain {
        len: 2,
        copies: [1, 3, 0],
    };
    for (state, count) in [
        (None, 3),
        (Some(LaneState::At { upto: 10, part: 0 }), 3),
        (Some(LaneState::Blank { restore: 7 }), 3),
        (Some(merging(7, chain, 0)), 3),
        (Some(merging(7, chain, 1)), 2),
        (Some(merging(6, chain, 1)), 3),
        (Some(merging(7, other, 1)), 3),
        (
            Some(LaneState::Replay {
                restore: 7,
                chain,
                upto: 6,
                part: 0,
            }),
            1,
        ),
    ] {
        let needs = needed(rt.alloc(), &found, 7, &[state]).map_err(|_| "memory")?;
        assert_eq!(rt; needs.len(), count, "{state:?}");
        assert_eq!(rt;
            needs.last().copied(),
            Some(Need {
                what: What::Log { file: 1 },
                copy: 100
            })
        );
    }
    let needs = needed(rt.alloc(), &found, 7, &[]).map_err(|_| "memory")?;
    for (at, (level, copy)) in [(0, 1), (1, 2)].into_iter().enumerate() {
        let what = What::Archive { space: 0, level };
        assert_eq!(rt; needs.get(at).copied(), Some(Need { what, copy }));
    }
    Ok(())
}
