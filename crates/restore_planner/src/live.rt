//! Which positions are live.
ghost use Rattle.std.specs.Prelude.{◌≡◌, ◌↔◌, IfOk, IsTrue, map, max};
ghost use Rattle.std.specs.List.{list_any};
ghost use Rattle.std.specs.Option.{option_copied};
ghost use Rattle.log_history.specs.Live.{live_by};
ghost use Rattle.backup_lines.specs.Chains.{IsNeededFrom, is_live_between, live_stretches, reaches};
ghost use Rattle.backup_lines.specs.Spans.{resets_of};
ghost use Rattle.backup_lines.specs.Views.{span_view};
ghost use Rattle.live_positions.specs.ResetPoints.{reset_points_in};
ghost use Rattle.restore_planner.specs.Live.{Fall, LiveAt, reached_by};

use backup_lines::{FileSpan, Stretch};
use live_positions::ResetPoint;
use std::alloc::{AllocError, Global};
use std::marker::Model;

// The Resets of files in ascending order: a Reset is the first record of its file.
pub(crate) fn resets_of(alloc: Global, spans: &[FileSpan]) -> Result<Vec<ResetPoint>, AllocError>
    ensures { IfOk result (λ resets. reset_points_in resets.items ≡ resets_of (map span_view spans.now)) }
{
    let mut resets = Vec::new(alloc);
    for span in spans {
        if let Some(target) = span.reset {
            resets.push(ResetPoint {
                at: span.first,
                target,
            })?;
        }
    }
    Ok(resets)
}

// What is live at position `n`, in stretches, the last first.
fn live_stretches(alloc: Global, resets: &[ResetPoint], n: u64) -> Result<Vec<Stretch>, AllocError>
    ensures { IfOk result (λ stretches. stretches.items ≡ live_stretches (reset_points_in resets.now) n) }
{
    let mut stretches = Vec::new(alloc);
    let mut limit = n;
    for i in (0..resets.len()).rev() {
        let reset = resets[i];
        if limit >= reset.at {
            stretches.push(Stretch {
                from: reset.at,
                to: limit,
            })?;
            if reset.target >= reset.at {
                return Ok(stretches);
            }
            limit = reset.target;
        }
    }
    stretches.push(Stretch { from: 0, to: limit })?;
    Ok(stretches)
}

// Whether a stretch that begins at `to` or before has a position from one up to `to`.
fn is_reached_by(stretch: Option<&Stretch>, from: u64, to: u64) -> bool
    ensures { result ≡ reached_by from to (option_copied stretch.entry) }
{
    match stretch {
        None => false,
        Some(stretch) => from <= to && from <= stretch.to,
    }
}

// Whether one of the stretches, each below the one before it, has a position from one up to another.
fn is_reached(stretches: &[Stretch], from: u64, to: u64) -> bool
    requires { Fall stretches.now }
    ensures { result ≡ list_any (reaches from to) stretches.now }
{
    let next = stretches.partition_point(|stretch| to < stretch.from);
    is_reached_by(stretches.get(next), from, to)
}

/// What is live at a position of the log, by its Resets.
#[derive(Debug, Drop)]
pub struct LivePositions {
    resets: Vec<ResetPoint>,
    at: u64,
    // What is live there, the last first.
    stretches: Vec<Stretch>,
}

impl Model for LivePositions {
    ghost use Rattle.std.specs.Prelude.{◌≡◌};
    ghost use Rattle.backup_lines.specs.Chains.{live_stretches};
    ghost use Rattle.live_positions.specs.ResetPoints.{reset_points_in};
    ghost use Rattle.restore_planner.specs.Live.{LiveAt};

    ghost Value = { LiveAt };

    ghost view = { λ l. record { resets = reset_points_in l.resets.items; at = l.at } };

    ghost invariant = { λ l. l.stretches.items ≡ live_stretches (reset_points_in l.resets.items) l.at };
}

impl LivePositions {
    /// What is live at a position by these Resets, in the order in which they come.
    pub fn new(alloc: Global, resets: Vec<ResetPoint>, at: u64) -> Result<LivePositions, AllocError>
        ensures { IfOk result (λ live. live ≡ record { resets = reset_points_in resets.items; at = at }) }
    {
        let stretches = live_stretches(alloc, &resets, at)?;
        Ok(LivePositions {
            resets,
            at,
            stretches,
        })
    }

    /// Whether a position from one up to another is live.
    pub fn has_between(&self, from: u64, to: u64) -> bool
        ensures { result ≡ is_live_between self.now.resets self.now.at from to }
    {
        is_reached(&self.stretches, from, to)
    }

    /// Whether a position is live.
    pub fn has(&self, position: u64) -> bool
        ensures { result ≡ live_by self.now.resets self.now.at position }
    {
        self.has_between(position, position)
    }

    /// Whether a file has a live position from `low` on.
    pub fn has_of_file(&self, span: &FileSpan, low: u64) -> bool
        ensures test { result ≡ is_live_between self.now.resets self.now.at (max span.now.first low) span.now.last }
        ensures meaning { IsTrue result ↔ IsNeededFrom self.now.resets low self.now.at (span_view span.now) }
    {
        self.has_between(span.first.max(low), span.last)
    }
}
