//! How far the work has come.
ghost use Rattle.std.specs.Prelude.{◌≡◌, ◌≤◌, ◌<◌, ◌+◌, ◌^◌, ℕ, List, length, map, drop, take, []};
ghost use Rattle.log_history.specs.History.{History};
ghost use Rattle.log_history.specs.Effects.{Change as ChangeView};
ghost use Rattle.txn_table.specs.Table.{change_of};
ghost use Rattle.lane_steps.specs.Choices.{Chooses, own};
ghost use Rattle.lane_advance.specs.Advances.{GoesOn, IsUnderWay, Leads};

use crate::passing::{laid, passed};
use lane_steps::Run;
use txn_table::Change;

/// How far the work has come along one list of changes.
#[derive(Clone, Copy, Debug, PartialEq, Eq)]
pub(crate) struct Progress {
    /// How many changes at the front are passed over or laid.
    pub(crate) taken: usize,
    /// What was laid last.
    pub(crate) run: Run,
    /// The place of the mark.
    pub(crate) upto: u64,
    pub(crate) part: u32,
}

/// What is laid at a place is passed over.
pub(crate) fn begin(changes: &[Change], space: u16, count: u32, upto: u64, part: u32) -> Progress
    ensures within { result.taken ≤ length changes.now }
    ensures upto { result.upto ≡ upto }
    ensures part { result.part ≡ part }
    ensures under_way { (history : History) (n to : ℕ) → Leads history n space count to upto part (map change_of changes.now)
        → IsUnderWay history n space count upto part (map change_of changes.now) result }
{
    let start = passed(changes, upto);
    let rest = &changes[start..];
    let more = laid(rest, space, count, part);
    Progress {
        taken: start + more,
        run: Run::new(upto).with_laid(&rest[..more], space, count),
        upto,
        part,
    }
}

/// Behind a step that takes so many changes at the front of those that are left.
pub(crate) fn behind(
    progress: &Progress,
    left: &[Change],
    front: usize,
    space: u16,
    count: u32,
    to: u64,
) -> Progress
    requires front { front ≤ length left.now }
    requires taken { progress.now.taken + length left.now < 2 ^ 64 }
    ensures taken { result.taken ≡ progress.now.taken + front }
    ensures upto { result.upto ≤ to }
    ensures goes { (history : History) (n upto part : ℕ) (list : List ChangeView) (pages : List ℕ)
        → Leads history n space count to upto part list
        → IsUnderWay history n space count upto part list progress.now → map change_of left.now ≡ drop progress.now.taken list
        → Chooses space count (map change_of left.now) front pages → (pages ≡ [] → ⊥)
        → GoesOn history n space count upto part list front progress.now result }
{
    let (taken, behind) = left.split_at(front);
    let run = progress.run.with_laid(taken, space, count);
    let (upto, part) = run.place(behind, space, count, to);
    Progress {
        taken: progress.taken + front,
        run,
        // No place on the way stands behind the position that it leads to.
        upto: upto.min(to),
        part,
    }
}
