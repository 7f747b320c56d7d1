//! The chain of a space: which archives a restore of it goes by.
ghost use Rattle.std.specs.Prelude.{◌≡◌, map, not, take};
ghost use Rattle.std.specs.Option.{option_map};
ghost use Rattle.backup_lines.specs.Chains.{is_later, is_link, last_link};
ghost use Rattle.backup_lines.specs.Plans.{has_no_level_0, plan_of_space, planned_on};
ghost use Rattle.backup_lines.specs.Views.{archive_of};
ghost use Rattle.restore_planner.specs.Views.{space_plan_of};

use crate::live::LivePositions;
use backup_lines::{Archive, Chain};

/// What a restore goes by in a space.
#[derive(Clone, Copy, Debug, PartialEq, Eq)]
pub struct SpacePlan {
    pub space: u16,
    pub chain: Chain,
    /// The position of the chain's last archive.
    pub at: u64,
    /// The position from which the log is wanted behind that archive.
    pub low: u64,
}

// Whether an archive of a space and level is built on the archive with this copy id, and its position is live.
fn is_link(archive: &Archive, live: &LivePositions, space: u16, level: u8, base: u64) -> bool
    ensures { result ≡ is_link live.now.resets space level base live.now.at (archive_of archive.now) }
{
    archive.space == space
        && archive.level == level
        && archive.base_copy == base
        && live.has(archive.at)
}

// Whether an archive stands at a greater position than the best so far, or at the same one with a greater copy id.
fn is_later(archive: &Archive, best: &Option<Archive>) -> bool
    ensures { result ≡ is_later (archive_of archive.now) (option_map archive_of best.now) }
{
    match best {
        None => true,
        Some(best) => best.at < archive.at || (best.at == archive.at && best.copy < archive.copy),
    }
}

// The last such archive: at the greatest position, and of equal ones with the greatest copy id.
fn last_link(
    archives: &[Archive],
    live: &LivePositions,
    space: u16,
    level: u8,
    base: u64,
) -> Option<Archive>
    ensures { option_map archive_of result
        ≡ last_link live.now.resets space level base live.now.at (map archive_of archives.now) }
{
    let mut best = None;
    for archive in archives {
        if is_link(archive, live, space, level, base) && is_later(archive, &best) {
            best = Some(*archive);
        }
    }
    best
}

// The plan of a space whose chain has these copy ids and ends with this archive.
fn planned(space: u16, len: u8, copies: [u64; 3], top: &Archive) -> SpacePlan
    ensures { space_plan_of result ≡ planned_on space (take len copies) (archive_of top.now) }
{
    SpacePlan {
        space,
        chain: Chain { len, copies },
        at: top.at,
        low: top.low,
    }
}

// Whether a level 0 of a space is live.
pub(crate) fn has_level_0(archives: &[Archive], live: &LivePositions, space: u16) -> bool
    ensures { result ≡ not (has_no_level_0 (map archive_of archives.now) live.now.resets live.now.at space) }
{
    last_link(archives, live, space, 0, 0).is_some()
}

// The plan of a space, by the archives that aren't gone: the last level 0 whose position is live, then the last level 1 on that one,
// then the last level 2 on that one. `None` where no level 0 is.
pub(crate) fn plan_of_space(
    archives: &[Archive],
    live: &LivePositions,
    space: u16,
) -> Option<SpacePlan>
    ensures plan { option_map space_plan_of result
        ≡ plan_of_space (map archive_of archives.now) live.now.resets live.now.at space }
{
    let zero = last_link(archives, live, space, 0, 0)?;
    let Some(one) = last_link(archives, live, space, 1, zero.copy) else {
        return Some(planned(space, 1, [zero.copy, 0, 0], &zero));
    };
    let Some(two) = last_link(archives, live, space, 2, one.copy) else {
        return Some(planned(space, 2, [zero.copy, one.copy, 0], &one));
    };
    Some(planned(space, 3, [zero.copy, one.copy, two.copy], &two))
}
