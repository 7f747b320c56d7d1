//! What of the changes that are handed over is laid already.
ghost use Rattle.std.specs.Prelude.{◌≡◌, ◌≤◌, length, map, take, drop};
ghost use Rattle.txn_table.specs.Table.{change_of};
ghost use Rattle.lane_ways.specs.Ways.{changes_behind};
ghost use Rattle.lane_ways.specs.ListLaws.{Rises};
ghost use Rattle.lane_steps.specs.Choices.{own};

use lane_steps::is_own;
use txn_table::Change;

/// How many at the front are of commits up to a position.
pub(crate) fn passed(changes: &[Change], upto: u64) -> usize
    ensures within { result ≤ length changes.now }
    ensures behind { Rises 0 (map change_of changes.now)
        → drop result (map change_of changes.now) ≡ changes_behind upto (map change_of changes.now) }
{
    for (i, change) in changes.iter().enumerate() {
        if upto < change.commit {
            return i;
        }
    }
    changes.len()
}

/// How many at the front have so many of the space's own, or all of them.
pub(crate) fn laid(changes: &[Change], space: u16, count: u32, part: u32) -> usize
    ensures within { result ≤ length changes.now }
    ensures front { own space count (take result (map change_of changes.now)) ≡ take part (own space count (map change_of changes.now)) }
    ensures behind { own space count (drop result (map change_of changes.now)) ≡ drop part (own space count (map change_of changes.now)) }
{
    let mut left = part;
    for (i, change) in changes.iter().enumerate() {
        if left == 0 {
            return i;
        }
        if is_own(change, space, count) {
            left -= 1;
        }
    }
    changes.len()
}
