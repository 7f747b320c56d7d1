//! Which image is merged next.
ghost use Rattle.std.specs.Prelude.{◌≡◌, MatchOption, None, Some};
ghost use Rattle.lane_restore.specs.Images.{entries_in, step_len};
ghost use Rattle.lane_restore.specs.Jobs.{HasNone, IsFirstAt, amid, amid_of};

use crate::job::ImageJob;
use backup_lines::LaneState;

/// The most entries that are merged before they are marked.
const STEP_LEN: u64 = 256;

/// Which archive of the chain is merged next, and how many of its entries are merged. None where all images are.
pub(crate) fn amid_of(state: &LaneState) -> Option<(u8, u32)>
    ensures { MatchOption result (amid_of state.now ≡ None) (λ place. amid_of state.now ≡ Some (amid place.0 place.1)) }
{
    match *state {
        LaneState::Blank { .. } => Some((0, 0)),
        LaneState::Image { image, entries, .. } => Some((image, entries)),
        LaneState::At { .. } | LaneState::Replay { .. } => None,
    }
}

/// Where the first image of a level stands among those of a job.
pub(crate) fn place_of(images: &[ImageJob], level: u8) -> Option<usize>
    ensures { MatchOption result (HasNone level images.now) (IsFirstAt level images.now) }
{
    images.iter().position(|image| image.head.level == level)
}

/// How many entries an image of this size has.
pub(crate) fn entries_in(size: u64) -> u64
    ensures { result ≡ entries_in size }
{
    (size / 4096).saturating_sub(1)
}

/// How many entries are merged behind so many.
pub(crate) fn step_len(size: u64, entries: u32) -> u32
    ensures { result ≡ step_len size entries }
{
    let left = entries_in(size).saturating_sub(u64::from(entries));
    left.min(STEP_LEN) as u32
}
