//! The place of the mark behind changes that are laid.
ghost use Rattle.std.specs.Prelude.{◌≡◌, ◌<◌, ◌^◌, ◌+◌, ◌-◌, ◌++◌, ℕ, max, List, [], length, map};
ghost use Rattle.log_history.specs.Effects.{Change as ChangeView};
ghost use Rattle.txn_table.specs.Table.{change_of};
ghost use Rattle.lane_ways.specs.Ways.{cut_by};
ghost use Rattle.lane_ways.specs.ListLaws.{Rises};
ghost use Rattle.lane_steps.specs.Choices.{own};
ghost use Rattle.lane_steps.specs.Runs.{IsRun, first_commit};

use crate::choosing::is_own;
use txn_table::Change;

/// The commit of which changes were laid last, how many of it into the space's own pages, and the position before it: that of
/// the last commit that is laid whole, or that from which the work goes on.
#[derive(Clone, Copy, Debug, PartialEq, Eq)]
pub struct Run {
    commit: u64,
    count: u32,
    whole: u64,
}

impl Run {
    /// Nothing is laid behind a position.
    pub fn new(from: u64) -> Run
        ensures commit { result.commit ≡ 0 }
        ensures run { IsRun from result.commit result.count result.whole [] }
    {
        Run {
            commit: 0,
            count: 0,
            whole: from,
        }
    }

    /// With one change more, of this commit.
    fn and_one(self, commit: u64) -> Run
        ensures commit { result.commit ≡ commit }
        ensures same { commit ≡ self.commit → self.count < 2 ^ 32 - 1 → result.count ≡ self.count + 1 }
        ensures other { (commit ≡ self.commit → ⊥) → result.count ≡ 1 }
        ensures same_whole { commit ≡ self.commit → result.whole ≡ self.whole }
        ensures other_whole { (commit ≡ self.commit → ⊥) → result.whole ≡ max self.whole self.commit }
    {
        if commit == self.commit {
            Run {
                commit,
                count: self.count.saturating_add(1),
                whole: self.whole,
            }
        } else {
            Run {
                commit,
                count: 1,
                whole: self.whole.max(self.commit),
            }
        }
    }

    /// With these changes laid behind the others.
    pub fn with_laid(self, changes: &[Change], space: u16, count: u32) -> Run
        ensures run { (from : ℕ) (laid : List ChangeView) → IsRun from self.commit self.count self.whole laid → Rises self.commit (map change_of changes.now)
            → length (laid ++ own space count (map change_of changes.now)) < 2 ^ 32
            → IsRun from result.commit result.count result.whole (laid ++ own space count (map change_of changes.now)) }
        // Its commit is none that others behind these could fall below.
        ensures onward { (rest : List ChangeView) → Rises self.commit (map change_of changes.now ++ rest) → Rises result.commit rest }
    {
        let mut run = self;
        for change in changes {
            if is_own(change, space, count) {
                run = run.and_one(change.commit);
            }
        }
        run
    }

    /// The place of the mark where these changes are left, on a way that leads to a position.
    pub fn place(self, left: &[Change], space: u16, count: u32, to: u64) -> (u64, u32)
        ensures upto { (from : ℕ) (laid : List ChangeView) → IsRun from self.commit self.count self.whole laid → Rises self.commit (map change_of left.now)
            → result.0 ≡ (cut_by from to laid (own space count (map change_of left.now))).upto }
        ensures part { (from : ℕ) (laid : List ChangeView) → IsRun from self.commit self.count self.whole laid → Rises self.commit (map change_of left.now)
            → result.1 ≡ (cut_by from to laid (own space count (map change_of left.now))).part }
    {
        match next_commit(left, space, count) {
            None => (to, 0),
            Some(next) if next == self.commit => (self.whole, self.count),
            Some(_) => (self.whole.max(self.commit), 0),
        }
    }
}

/// The commit of the first change into the space's own pages.
fn next_commit(changes: &[Change], space: u16, count: u32) -> Option<u64>
    ensures { result ≡ first_commit (own space count (map change_of changes.now)) }
{
    for next in changes {
        if is_own(next, space, count) {
            return Some(next.commit);
        }
    }
    None
}
