//! The place of a state.
ghost use Rattle.std.specs.Prelude.{◌≡◌, ◌≤◌, ◌^◌, Some, None, MatchOption};
ghost use Rattle.lane_mark.specs.Layout.{FitsState};
ghost use Rattle.lane_advance.specs.Places.{place_in, with_place};

use backup_lines::LaneState;

/// The place of a state: `upto` and `part`. A lane that was emptied or merges images is at none.
pub fn place_in(state: &LaneState) -> Option<(u64, u32)>
    ensures { MatchOption result (place_in state.now ≡ None) (λ place. place_in state.now ≡ Some (record { upto = place.0; part = place.1 })) }
{
    match *state {
        LaneState::At { upto, part } | LaneState::Replay { upto, part, .. } => Some((upto, part)),
        LaneState::Blank { .. } | LaneState::Image { .. } => None,
    }
}

/// The state at another place. One that is at none stays as it is.
pub fn with_place(state: &LaneState, upto: u64, part: u32) -> LaneState
    ensures state { result ≡ with_place state.now upto part }
    ensures fits { FitsState state.now → upto ≤ 2 ^ 48 → FitsState result }
{
    match *state {
        LaneState::At { .. } => LaneState::At { upto, part },
        LaneState::Replay { restore, chain, .. } => LaneState::Replay {
            restore,
            chain,
            upto,
            part,
        },
        other => other,
    }
}
