//! The definitions as plain programs, each as slow as it says.
use backup_lines::{Archive, FileSpan, LaneState, Line, Need, What};
use live_positions::ResetPoint;
use log_record::Record;
use restore_planner::{Plan, SpacePlan};
use std::alloc::{AllocError, Global};

/// Whether a position is live, by going from Reset to Reset.
pub fn is_live(resets: &[ResetPoint], n: u64, x: u64) -> bool {
    let mut limit = n;
    for _ in 0..=resets.len() {
        if limit < x {
            return false;
        }
        match resets.iter().filter(|reset| reset.at <= limit).last() {
            None => return true,
            Some(reset) if reset.at <= x => return true,
            Some(reset) if reset.target >= reset.at => return false,
            Some(reset) => limit = reset.target,
        }
    }
    false
}

fn is_gone(lines: &[Line], copy: u64) -> bool {
    lines.contains(&Line::Gone { copy })
}

// The line of a file with the greatest copy id, among those that aren't gone or among all.
fn newest_line(lines: &[Line], file: u64, gone: bool) -> Option<FileSpan> {
    let mut best: Option<FileSpan> = None;
    for line in lines {
        if let Line::Log(span) = line {
            let newer = best.is_none_or(|best| best.copy < span.copy);
            if span.file == file && newer && (gone || !is_gone(lines, span.copy)) {
                best = Some(FileSpan { gone, ..*span });
            }
        }
    }
    best
}

/// What is known of a file.
pub fn span_of(
    lines: &[Line],
    ring: &[FileSpan],
    backed_up_to: u64,
    file: u64,
) -> Option<FileSpan> {
    for span in ring {
        if span.file == file && file > backed_up_to {
            return Some(FileSpan {
                copy: 0,
                gone: false,
                ..*span
            });
        }
    }
    match newest_line(lines, file, false) {
        Some(span) => Some(span),
        None => newest_line(lines, file, true),
    }
}

/// The greatest position up to which each Commit and Reset has a time of at most this one.
pub fn position_of(records: &[Record], time: u64) -> u64 {
    let mut position: u64 = 0;
    for record in records {
        match record {
            Record::Commit { time: at, .. } | Record::Reset { time: at, .. } if *at > time => {
                return position;
            }
            _ => position = position.saturating_add(1),
        }
    }
    position
}

// The archive of a space and level on another one that stands at the greatest live position, of equal ones that with the greatest copy id.
fn link(
    lines: &[Line],
    resets: &[ResetPoint],
    q: u64,
    space: u16,
    level: u8,
    base: u64,
) -> Option<Archive> {
    let mut best: Option<Archive> = None;
    for line in lines {
        if let Line::Archive(archive) = line {
            let fits = archive.space == space
                && archive.level == level
                && archive.base_copy == base
                && !is_gone(lines, archive.copy)
                && is_live(resets, q, archive.at);
            let later = best.is_none_or(|best| {
                best.at < archive.at || best.at == archive.at && best.copy < archive.copy
            });
            if fits && later {
                best = Some(*archive);
            }
        }
    }
    best
}

/// The archives of a chain, in order of level.
pub fn chain(
    alloc: Global,
    lines: &[Line],
    resets: &[ResetPoint],
    q: u64,
    space: u16,
) -> Result<Vec<Archive>, AllocError> {
    let mut archives = Vec::new(alloc);
    let mut base = 0;
    for level in 0..3 {
        let Some(archive) = link(lines, resets, q, space, level, base) else {
            return Ok(archives);
        };
        archives.push(archive)?;
        base = archive.copy;
    }
    Ok(archives)
}

/// Whether a file has a live position from a low on.
pub fn is_needed(resets: &[ResetPoint], q: u64, low: u64, span: &FileSpan) -> bool {
    (span.first..=span.last).any(|x| low <= x && is_live(resets, q, x))
}

/// The Resets with which files begin.
pub fn resets_of(alloc: Global, spans: &[FileSpan]) -> Result<Vec<ResetPoint>, AllocError> {
    spans
        .iter()
        .filter_map(|span| span.reset.map(|target| ResetPoint {
            at: span.first,
            target,
        }))
        .collect(alloc)
}

// Whether a lane marks an image of a chain done.
fn is_done(plan: &SpacePlan, level: u8, restore: u64, state: &LaneState) -> bool {
    match state {
        LaneState::Image {
            restore: other,
            chain,
            image,
            ..
        } => *other == restore && chain.as_slice() == plan.chain.as_slice() && level < *image,
        LaneState::Replay {
            restore: other,
            chain,
            ..
        } => *other == restore && chain.as_slice() == plan.chain.as_slice(),
        _ => false,
    }
}

/// The objects that a restore needs by a plan.
pub fn needed(
    alloc: Global,
    plan: &Plan,
    restore: u64,
    states: &[Option<LaneState>],
) -> Result<Vec<Need>, AllocError> {
    let mut needs = Vec::new(alloc);
    for space in &plan.spaces {
        for (level, copy) in (0..3).zip(space.chain.as_slice()) {
            let is_done = match states.get(usize::from(space.space)) {
                Some(Some(state)) => is_done(space, level, restore, state),
                _ => false,
            };
            if !is_done {
                needs.push(Need {
                    what: What::Archive {
                        space: space.space,
                        level,
                    },
                    copy: *copy,
                })?;
            }
        }
    }
    for span in &plan.logs {
        if span.copy > 0 {
            needs.push(Need {
                what: What::Log { file: span.file },
                copy: span.copy,
            })?;
        }
    }
    Ok(needs)
}
