//! Five hundred random lists each: the fast answers are those of the plain programs.
use crate::drawn::{draw, draw_lines, draw_resets, draw_span, draw_spans, draw_state};
use crate::plain;
use backup_lines::{FileSpan, Lacking, Line, Point};
use live_positions::ResetPoint;
use log_record::Record;
use restore_planner::{Found, LivePositions, Plan, PlanFault, find, needed, plan, spans, within};
use std::alloc::Global;
use std::test::Fail;

const ROUNDS: u64 = 500;

#[test]
fn what_is_live_is_so_from_reset_to_reset(rt: HostRuntime) -> Result<(), Fail> {
    let mut seed = 1;
    for round in 0..ROUNDS {
        let resets = draw_resets(&mut seed);
        let n = draw(&mut seed, 45);
        let live = LivePositions::new(rt.alloc(), Vec::from_array(rt.alloc(), resets)?, n)?;
        for _ in 0..20 {
            let from = draw(&mut seed, 45);
            let to = from + draw(&mut seed, 8);
            let is = (from..=to).any(|x| plain::is_live(&resets, n, x));
            assert_eq!(rt;
                live.has_between(from, to),
                is,
                "round {round}: {resets:?} at {n}, {from} to {to}"
            );
            assert_eq!(rt;
                live.has(from),
                plain::is_live(&resets, n, from),
                "round {round}"
            );
        }
    }
    Ok(())
}

#[test]
fn the_spans_are_the_best_of_each_file(rt: HostRuntime) -> Result<(), Fail> {
    let mut seed = 2;
    for round in 0..ROUNDS {
        let lines = draw_lines(rt.alloc(), &mut seed)?;
        let ring = draw_spans(rt.alloc(), &mut seed)?;
        let backed_up_to = draw(&mut seed, 6);
        let mut wanted = Vec::new(rt.alloc());
        for file in 1..6 {
            if let Some(span) = plain::span_of(&lines, &ring, backed_up_to, file) {
                wanted.push(span)?;
            }
        }
        let found = spans(rt.alloc(), &lines, &ring, backed_up_to)?;
        assert_eq!(rt; found, wanted, "round {round}");
    }
    Ok(())
}

// Whether a plan is the one by the plain programs.
fn is_planned(
    alloc: Global,
    lines: &[Line],
    files: &[FileSpan],
    resets: &[ResetPoint],
    found: &Plan,
) -> Result<bool, Fail> {
    let mut least: Option<u64> = None;
    for space in &found.spaces {
        let chain = plain::chain(alloc, lines, resets, found.to, space.space)?;
        let copies: Vec<u64> = chain.iter().map(|archive| archive.copy).collect(alloc)?;
        let top = chain.last().map(|archive| (archive.at, archive.low));
        if copies.as_slice() != space.chain.as_slice() || top != Some((space.at, space.low)) {
            return Ok(false);
        }
        least = Some(least.map_or(space.low, |low: u64| low.min(space.low)));
    }
    let mut logs = Vec::new(alloc);
    for span in files {
        if least.is_some_and(|low| plain::is_needed(resets, found.to, low, span)) {
            logs.push(*span)?;
        }
    }
    Ok(found.logs == logs)
}

#[test]
fn the_plan_and_its_needs_are_the_plain_ones(rt: HostRuntime) -> Result<(), Fail> {
    let mut seed = 3;
    let (mut planned, mut refused) = (0u64, 0u64);
    for round in 0..ROUNDS {
        let lines = draw_lines(rt.alloc(), &mut seed)?;
        let files = draw_spans(rt.alloc(), &mut seed)?;
        let resets = plain::resets_of(rt.alloc(), &files)?;
        let to = draw(&mut seed, 35);
        match plan(rt.alloc(), &lines, &files, 2, to) {
            Ok(found) => {
                planned = planned.saturating_add(1);
                assert_eq!(rt; (found.to, found.spaces.len()), (to, 2), "round {round}");
                let is = is_planned(rt.alloc(), &lines, &files, &resets, &found)?;
                assert!(rt; is, "round {round}: {found:?} of {lines:?} over {files:?}");
                let mut states = Vec::new(rt.alloc());
                for space in &found.spaces {
                    states.push(draw_state(&mut seed, 7, space.chain))?;
                }
                let needs = needed(rt.alloc(), &found, 7, &states)?;
                assert_eq!(rt;
                    needs,
                    plain::needed(rt.alloc(), &found, 7, &states)?,
                    "round {round}"
                );
            }
            Err(PlanFault::Lacking(list)) => {
                refused = refused.saturating_add(1);
                let mut lacking = Vec::new(rt.alloc());
                for space in 0..2 {
                    if plain::chain(rt.alloc(), &lines, &resets, to, space)?.is_empty() {
                        lacking.push(Lacking::NoLevel0 { space })?;
                    }
                }
                assert_eq!(rt; list.as_slice(), lacking.as_slice(), "round {round}");
            }
            Err(PlanFault::OutOfMemory) => return Err("memory".into()),
        }
    }
    assert!(rt; planned > 50 && refused > 50, "{planned} {refused}");
    Ok(())
}

// A history of two to five files of up to four records, with times that don't fall.
fn draw_history(alloc: Global, seed: &mut u64) -> Result<(Vec<Record>, Vec<FileSpan>), Fail> {
    let mut records: Vec<Record> = Vec::new(alloc);
    let mut files = Vec::new(alloc);
    let mut time: u64 = 0;
    for file in 1..draw(seed, 4) + 3 {
        let (first, before) = (records.len() as u64, time);
        for place in 0..draw(seed, 4) + 1 {
            let kind = draw(seed, 4);
            if kind > 0 {
                time = time.saturating_add(draw(seed, 3)).min(1000);
            }
            let record = match kind {
                0 => Record::Begin { txn: 1 },
                1 if place == 0 => Record::Reset {
                    restore: 1,
                    target: 0,
                    time,
                },
                _ => Record::Commit { txn: 1, time },
            };
            records.push(record)?;
        }
        files.push(FileSpan {
            first: first.saturating_add(1),
            last: records.len() as u64,
            file,
            before,
            time,
            ..draw_span(seed)
        })?;
    }
    Ok((records, files))
}

#[test]
fn a_point_is_where_the_whole_history_has_it(rt: HostRuntime) -> Result<(), Fail> {
    let mut seed = 4;
    let mut looked = 0u64;
    for round in 0..ROUNDS {
        let (records, files) = draw_history(rt.alloc(), &mut seed)?;
        assert_eq!(rt; find(&Point::End, &files), Found::At(records.len() as u64));
        for time in 0..30 {
            let position = match find(&Point::Time { time }, &files) {
                Found::At(position) => position,
                Found::NoSuchLog { .. } => return Err("no file".into()),
                Found::Look { file } => {
                    looked = looked.saturating_add(1);
                    look(&records, &files, file, time)?
                }
            };
            assert_eq!(rt;
                position,
                plain::position_of(&records, time),
                "round {round} at {time}"
            );
        }
    }
    assert!(rt; looked > 500, "{looked}");
    Ok(())
}

// The position of a time in a file.
fn look(records: &[Record], files: &[FileSpan], file: u64, time: u64) -> Result<u64, Fail> {
    let Some(span) = files.iter().find(|span| span.file == file) else {
        return Err("no file".into());
    };
    if !(1..1000).contains(&span.first) || span.last > 1000 {
        return Err("a long history".into());
    }
    let held = records
        .get(span.first as usize - 1..span.last as usize)
        .ok_or("no records")?;
    Ok(within(span, held, time))
}
