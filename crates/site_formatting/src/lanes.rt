//! The chunks of a site's spaces formatted.
ghost use Rattle.std.specs.Prelude.{◌≡◌, ◌<◌, ◌≤◌, length, MatchResult};
ghost use Rattle.site_disk.specs.Ledger.{MayUse};
ghost use Rattle.site_headers.specs.Heads.{IsHead};
ghost use Rattle.site_headers.specs.Views.{head_of};
ghost use Rattle.space_lane.specs.Lanes.{disk_of};
ghost use Rattle.site_core.specs.Made.{IsMadeAt};
ghost use Rattle.site_formatting.specs.Steps.{Changes, FirstFrom, OfEach, StopsAt};
ghost use Rattle.site_formatting.specs.Lanes.{FormatsLane, MissesLane};

use backup_lines::LaneState;
use site_core::SiteFault;
use site_disk::{Disk, Era};
use site_headers::SiteHead;
use site_model::DiskName;
use space_lane::Lane;

/// Formats the chunk of each space, in order.
pub(crate) fn format_lanes<D: Disk>(
    lanes: &mut [Lane<D>],
    era: &Era,
    head: &SiteHead,
) -> Result<(), SiteFault>
    requires head { IsHead (head_of head.now) }
    requires room { length head.now.spaces.items ≤ length lanes.old }
    requires era { OfEach (λ place lane. MayUse era.now (D.ledger (disk_of lane))) lanes.old }
    requires made { OfEach IsMadeAt lanes.old }
    ensures { MatchResult result
        (λ _. FirstFrom (FormatsLane D.Disk era.now (head_of head.now)) (length head.now.spaces.items) lanes.old lanes.new)
        (λ fault. StopsAt (FormatsLane D.Disk era.now (head_of head.now)) (λ place. MissesLane D.Disk era.now (head_of head.now) place fault)
        (length head.now.spaces.items) lanes.old lanes.new) }
{
    let count = head.spaces.len();
    for place in 0..count {
        format_lane(lanes, era, head, place)?;
    }
    Ok(())
}

// Formats one.
fn format_lane<D: Disk>(
    lanes: &mut [Lane<D>],
    era: &Era,
    head: &SiteHead,
    place: usize,
) -> Result<(), SiteFault>
    requires head { IsHead (head_of head.now) }
    requires within { place < length head.now.spaces.items }
    requires room { place < length lanes.old }
    requires era { OfEach (λ place lane. MayUse era.now (D.ledger (disk_of lane))) lanes.old }
    requires made { OfEach IsMadeAt lanes.old }
    ensures { MatchResult result
        (λ _. Changes (FormatsLane D.Disk era.now (head_of head.now) place) place lanes.old lanes.new)
        (λ fault. Changes (MissesLane D.Disk era.now (head_of head.now) place fault) place lanes.old lanes.new) }
{
    let pages = head.spaces[place].pages;
    let lane = &mut lanes[place];
    match lane.format(era, head.site, pages, &LaneState::At { upto: 0, part: 0 }) {
        Ok(()) => Ok(()),
        Err(_) => Err(SiteFault::DiskFault(DiskName::Chunk(place as u16))),
    }
}
