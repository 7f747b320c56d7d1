//! The opening of lanes.
ghost use Rattle.std.specs.Prelude.{◌≡◌, ◌<◌, ◌≤◌, length, IfOk, OnOk, IfErr, OnErr};
ghost use Rattle.space_lane.specs.Lanes.{IsMade};
ghost use Rattle.site_lanes.specs.Firsts.{CameBy};
ghost use Rattle.site_lanes.specs.Lanes.{OfEach, OfSpaces, SameFrom, ChangesOne, MayUseEach, Works, IsOpened, CameTo, RoseAt, Explains, AreOpened};

use crate::refusals::{LanesFault, Opening, Refusals};
use site_disk::{Disk, Era};
use site_headers::SiteHead;
use space_lane::{Lane, LaneFault};

// What the opening of a lane came to, by its answer.
fn opening_of(space: u16, opened: Result<(), LaneFault>) -> Result<Opening, LanesFault>
    ensures { CameBy space opened result }
{
    match opened {
        Ok(()) => Ok(Opening::Opened),
        Err(LaneFault::ChunkLost) => Ok(Opening::Lost),
        Err(LaneFault::BadMark) => Ok(Opening::Bad),
        Err(LaneFault::BadPage { .. } | LaneFault::Failed) => Err(LanesFault::Failed { space }),
    }
}

/// Opens the lane of one space, after a sync, and puts back what is kept for the place of its state.
pub fn open_lane<D: Disk>(
    lanes: &mut [Lane<D>],
    era: &Era,
    space: u16,
    site: u64,
    pages: u32,
) -> Result<Opening, LanesFault>
    requires within { space < length lanes.old }
    requires era { MayUseEach D.Disk era.now lanes.old }
    requires made { OfEach (λ place lane. IsMade lane) lanes.old }
    ensures works { ChangesOne (Works D.Disk era.now site pages) space lanes.old lanes.new }
    ensures came { IfOk result (λ opening. ChangesOne (CameTo D.Disk era.now site pages opening) space lanes.old lanes.new) }
    ensures failed { IfErr result (λ fault. (fault ≡ LanesFault.Failed space) × RoseAt D.Disk space lanes.old lanes.new) }
{
    let lane = &mut lanes[usize::from(space)];
    let result = lane.open(era, site, pages);
    opening_of(space, result)
}

/// Opens the lanes of a site, one a space, in order. A lane that is lost, or whose mark isn't in the grammar, doesn't stop
/// it; a disk that fails does.
///
/// Each begins with a sync, and puts back what is kept for the place of its state.
pub fn open_lanes<D: Disk>(
    lanes: &mut [Lane<D>],
    era: &Era,
    head: &SiteHead,
) -> Result<(), LanesFault>
    requires era { MayUseEach D.Disk era.now lanes.old }
    requires made { OfEach (λ place lane. IsMade lane) lanes.old }
    requires lanes { length head.now.spaces.items ≤ length lanes.old }
    requires few { length head.now.spaces.items ≤ 65536 }

    ensures opened { OnOk result (OfSpaces head.now.spaces.items (IsOpened D.Disk era.now head.now.site) lanes.old lanes.new) }
    ensures refused { IfErr result (Explains D.Disk head.now.site head.now.spaces.items lanes.old lanes.new) }
    ensures others { IfErr result (AreOpened D.Disk era.now head.now.site head.now.spaces.items lanes.old lanes.new) }
    ensures works { OfSpaces head.now.spaces.items (Works D.Disk era.now head.now.site) lanes.old lanes.new }
    ensures beyond { SameFrom (length head.now.spaces.items) lanes.old lanes.new }
{
    let mut refusals = Refusals {
        lost: None,
        bad: None,
    };
    for (i, space) in head.spaces.iter().enumerate() {
        let number = i as u16;
        let opening = open_lane(lanes, era, number, head.site, space.pages)?;
        refusals.note(number, opening);
    }
    refusals.answer()
}
