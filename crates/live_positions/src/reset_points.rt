//! The Resets of a log, in the order in which they come.
ghost use Rattle.std.specs.Prelude.{◌≡◌, ◌∷◌, ◌↔◌, [], map, reverse, IsTrue, OnOk, OnErr};
ghost use Rattle.log_history.specs.Live.{live_by};
ghost use Rattle.live_positions.specs.ResetPoints.{reset_point_of, reset_points_in};

use std::alloc::{AllocError, Global};
use std::marker::Model;

/// Where a Reset stands, and the position that it goes back to.
#[derive(Clone, Copy, Debug, PartialEq, Eq)]
pub struct ResetPoint {
    pub at: u64,
    pub target: u64,
}

/// The Resets of a log.
#[derive(Debug, Drop)]
pub struct ResetPoints {
    points: Vec<ResetPoint>,
}

impl Model for ResetPoints {
    ghost use Rattle.std.specs.Prelude.{List};
    ghost use Rattle.log_history.specs.Live.{ResetPoint as Reset};
    ghost use Rattle.live_positions.specs.ResetPoints.{reset_points_in};

    ghost Value = { List Reset };

    ghost view = { λ t. reset_points_in t.points.items };
}

impl ResetPoints {
    /// No Reset.
    pub fn new(alloc: Global) -> ResetPoints
        ensures { result ≡ [] }
    {
        ResetPoints {
            points: Vec::new(alloc),
        }
    }

    pub fn is_empty(&self) -> bool
        ensures { IsTrue result ↔ (self.now ≡ []) }
    {
        self.points.is_empty()
    }

    /// Adds the next Reset.
    pub fn push(&mut self, point: ResetPoint) -> Result<(), AllocError>
        ensures added { OnOk result (self.new ≡ reset_point_of point ∷ self.old) }
        ensures unchanged { OnErr result (self.new ≡ self.old) }
    {
        self.points.push(point)?;
        Ok(())
    }

    /// Whether position `x` is live at position `n`.
    pub fn is_live(&self, n: u64, x: u64) -> bool
        ensures { result ≡ live_by self.now n x }
    {
        is_live(&self.points, n, x)
    }
}

/// Whether position `x` is live at position `n`, by these Resets.
fn is_live(points: &[ResetPoint], n: u64, x: u64) -> bool
    ensures { result ≡ live_by (reset_points_in points.now) n x }
{
    let mut limit = n;
    for i in (0..points.len()).rev() {
        let point = points[i];
        if limit >= point.at {
            if point.at <= x {
                return x <= limit;
            }
            if point.target >= point.at {
                return false;
            }
            limit = point.target;
        }
    }
    x <= limit
}
