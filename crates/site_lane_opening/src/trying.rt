//! Lanes that are synced, and opened in the era behind.
ghost use Rattle.std.specs.Prelude.{◌≡◌, ◌+◌, ◌-◌, ◌^◌, ◌<◌, ◌≤◌, length, None, Some, OnOk, MatchResult};
ghost use Rattle.site_headers.specs.Heads.{IsHead};
ghost use Rattle.site_headers.specs.Views.{head_of};
ghost use Rattle.site_lanes.specs.Lanes.{MayUseEach};
ghost use Rattle.site_core.specs.Disks.{MayUseAll};
ghost use Rattle.site_core.specs.Made.{AreMade, IsMadeSite};
ghost use Rattle.site_lane_opening.specs.Steps.{ComesOne, Opens, Stops, StopsSite, ToAny, ToRefused, Refused, era_behind};

use site_core::{Site, SiteFault};
use site_disk::{Disk, Era};
use site_headers::SiteHead;
use site_lanes::{LanesFault, Opening, open_lane, open_lanes, sync_lane, sync_lanes};
use space_lane::Lane;

// Syncs the lanes of all spaces, and tries to open each in the next era.
fn try_lanes<D: Disk>(
    lanes: &mut [Lane<D>],
    era: &mut Era,
    head: &SiteHead,
) -> Result<(), LanesFault>
    requires left { era.old.number + 1 < 2 ^ 64 - 1 }
    requires may { MayUseEach D.Disk era.old lanes.old }
    requires made { AreMade lanes.old }
    requires head { IsHead (head_of head.now) }
    requires count { length head.now.spaces.items ≤ length lanes.old }
    ensures came { MatchResult result
        (λ _. Opens D.Disk None (head_of head.now) era.old lanes.old lanes.new)
        (λ fault. Stops D.Disk None (head_of head.now) era.old (ToAny D.Disk) era.new.number fault lanes.old lanes.new) }
    ensures done { OnOk result (era.new.number ≡ era.old.number + 2) }
    ensures era { era.new.number ≤ era.old.number + 2 }
    ensures era_later { era.old.number ≤ era.new.number }
    ensures key { era.new.key ≡ era.old.key }
{
    let count = head.spaces.len() as u16;
    sync_lanes(lanes, era, count)?;
    era.next();
    open_lanes(lanes, era, head)?;
    era.next();
    Ok(())
}

/// The same of a site.
pub(crate) fn try_all<D: Disk>(
    site: &mut Site<D>,
    era: &mut Era,
    head: &SiteHead,
) -> Result<(), SiteFault>
    requires may { MayUseAll D.Disk era.old site.old }
    requires made { IsMadeSite site.old }
    requires head { IsHead (head_of head.now) }
    requires left { era.old.number + 1 < 2 ^ 64 - 1 }
    ensures came { MatchResult result
        (λ _. Opens D.Disk None (head_of head.now) era.old site.old.lanes.items site.new.lanes.items)
        (λ fault. StopsSite D.Disk None (head_of head.now) era.old (ToAny D.Disk) era.new.number fault site.old site.new) }
    ensures others { site.new ≡ record site.old { lanes = site.new.lanes } }
    ensures done { OnOk result (era.new.number ≡ era.old.number + 2) }
    ensures era { era.new.number ≤ era.old.number + 2 }
    ensures era_later { era.old.number ≤ era.new.number }
    ensures key { era.new.key ≡ era.old.key }
{
    match try_lanes(&mut site.lanes, era, head) {
        Ok(()) => Ok(()),
        Err(fault) => Err(SiteFault::of_lanes(fault, &head.spaces)),
    }
}

// The lane of a space is refused, unless it was opened.
fn unless_opened(space: u16, opening: Opening) -> Result<(), LanesFault>
    ensures { Refused space opening result }
{
    match opening {
        Opening::Opened => Ok(()),
        Opening::Lost => Err(LanesFault::ChunkLost { space }),
        Opening::Bad => Err(LanesFault::BadMark { space }),
    }
}

// Opens the lane of one space.
fn open_only<D: Disk>(
    lanes: &mut [Lane<D>],
    era: &Era,
    head: &SiteHead,
    space: u16,
) -> Result<(), LanesFault>
    requires may { MayUseEach D.Disk era.now lanes.old }
    requires made { AreMade lanes.old }
    requires space { space < length head.now.spaces.items }
    requires count { length head.now.spaces.items ≤ length lanes.old }
    ensures came { ComesOne D.Disk era.now (head_of head.now) space result lanes.old lanes.new }
{
    let pages = head.spaces[usize::from(space)].pages;
    let opening = open_lane(lanes, era, space, head.site, pages)?;
    unless_opened(space, opening)
}

// Syncs the lane of one space, and tries to open it in the next era.
fn try_lane<D: Disk>(
    lanes: &mut [Lane<D>],
    era: &mut Era,
    head: &SiteHead,
    space: u16,
) -> Result<(), LanesFault>
    requires left { era.old.number + 1 < 2 ^ 64 - 1 }
    requires may { MayUseEach D.Disk era.old lanes.old }
    requires made { AreMade lanes.old }
    requires space { space < length head.now.spaces.items }
    requires count { length head.now.spaces.items ≤ length lanes.old }
    ensures came { MatchResult result
        (λ _. Opens D.Disk (Some space) (head_of head.now) era.old lanes.old lanes.new)
        (λ fault. Stops D.Disk (Some space) (head_of head.now) era.old (ToRefused D.Disk (era_behind era.old)) era.new.number fault lanes.old lanes.new) }
    ensures done { OnOk result (era.new.number ≡ era.old.number + 2) }
    ensures era { era.new.number ≤ era.old.number + 2 }
    ensures era_later { era.old.number ≤ era.new.number }
    ensures key { era.new.key ≡ era.old.key }
{
    sync_lane(lanes, era, space)?;
    era.next();
    open_only(lanes, era, head, space)?;
    era.next();
    Ok(())
}

/// The same of a site.
pub(crate) fn try_one<D: Disk>(
    site: &mut Site<D>,
    era: &mut Era,
    head: &SiteHead,
    space: u16,
) -> Result<(), SiteFault>
    requires may { MayUseAll D.Disk era.old site.old }
    requires made { IsMadeSite site.old }
    requires head { IsHead (head_of head.now) }
    requires space { space < length head.now.spaces.items }
    requires left { era.old.number + 1 < 2 ^ 64 - 1 }
    ensures came { MatchResult result
        (λ _. Opens D.Disk (Some space) (head_of head.now) era.old site.old.lanes.items site.new.lanes.items)
        (λ fault. StopsSite D.Disk (Some space) (head_of head.now) era.old (ToRefused D.Disk (era_behind era.old)) era.new.number fault site.old site.new) }
    ensures others { site.new ≡ record site.old { lanes = site.new.lanes } }
    ensures done { OnOk result (era.new.number ≡ era.old.number + 2) }
    ensures era { era.new.number ≤ era.old.number + 2 }
    ensures era_later { era.old.number ≤ era.new.number }
    ensures key { era.new.key ≡ era.old.key }
{
    match try_lane(&mut site.lanes, era, head, space) {
        Ok(()) => Ok(()),
        Err(fault) => Err(SiteFault::of_lanes(fault, &head.spaces)),
    }
}
