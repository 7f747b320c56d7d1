//! Lists drawn by a linear congruence.
ghost use Rattle.std.specs.Prelude.{◌<◌};

use backup_lines::{Archive, Chain, FileSpan, LaneState, Line};
use live_positions::ResetPoint;
use std::alloc::{AllocError, Global};

/// A number below a bound.
pub fn draw(seed: &mut u64, below: u64) -> u64
    requires { 0 < below }
    ensures { result < below }
{
    *seed = seed
        .wrapping_mul(6_364_136_223_846_793_005)
        .wrapping_add(1_442_695_040_888_963_407);
    (*seed >> 33) % below
}

/// Five Resets at rising positions up to 40, with targets at or before them.
pub fn draw_resets(seed: &mut u64) -> [ResetPoint; 5] {
    let mut resets = [ResetPoint { at: 0, target: 0 }; 5];
    let mut at: u64 = 1;
    for reset in &mut resets {
        at = at.saturating_add(draw(seed, 6)).min(40);
        *reset = ResetPoint {
            at,
            target: draw(seed, at + 1),
        };
        at += 1;
    }
    resets
}

fn draw_archive(seed: &mut u64) -> Archive {
    let level = draw(seed, 3) as u8;
    let at = draw(seed, 30);
    Archive {
        space: draw(seed, 2) as u16,
        level,
        at,
        base: 0,
        base_copy: if level == 0 { 0 } else { draw(seed, 6) },
        low: at.saturating_sub(draw(seed, 4)),
        copy: draw(seed, 8),
    }
}

/// A file of up to four records, which often begins with a Reset.
pub fn draw_span(seed: &mut u64) -> FileSpan {
    let file = draw(seed, 6);
    let first = 4 * file + 1;
    FileSpan {
        file,
        first,
        last: first + draw(seed, 4),
        reset: if draw(seed, 2) == 0 {
            None
        } else {
            Some(draw(seed, first + 1))
        },
        before: 0,
        time: draw(seed, 100),
        copy: draw(seed, 12),
        gone: draw(seed, 2) == 0,
    }
}

/// Lines of all three kinds, in no order.
pub fn draw_lines(alloc: Global, seed: &mut u64) -> Result<Vec<Line>, AllocError> {
    let mut lines = Vec::new(alloc);
    for _ in 0..draw(seed, 20) {
        let line = match draw(seed, 5) {
            0 => Line::Gone {
                copy: draw(seed, 12),
            },
            1 => Line::Log(draw_span(seed)),
            _ => Line::Archive(draw_archive(seed)),
        };
        lines.push(line)?;
    }
    Ok(lines)
}

/// Files in no order.
pub fn draw_spans(alloc: Global, seed: &mut u64) -> Result<Vec<FileSpan>, AllocError> {
    let mut spans = Vec::new(alloc);
    for _ in 0..draw(seed, 8) {
        spans.push(draw_span(seed))?;
    }
    Ok(spans)
}

/// The state of a lane, mostly of this restore and chain.
pub fn draw_state(seed: &mut u64, restore: u64, chain: Chain) -> Option<LaneState> {
    let restore = restore ^ u64::from(draw(seed, 4) == 0);
    match draw(seed, 5) {
        0 => None,
        1 => Some(LaneState::At { upto: 9, part: 0 }),
        2 => Some(LaneState::Blank { restore }),
        3 => Some(LaneState::Replay {
            restore,
            chain,
            upto: 9,
            part: 1,
        }),
        _ => Some(LaneState::Image {
            restore,
            chain,
            image: draw(seed, 3) as u8,
            entries: 5,
        }),
    }
}
