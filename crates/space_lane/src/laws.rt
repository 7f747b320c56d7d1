//! What the words of the contracts come to together.
ghost use Rattle.std.specs.Prelude.{◌≡◌, ℕ, List, length};
ghost use Rattle.log_history.specs.Effects.{Page};
ghost use Rattle.backup_lines.specs.declared.lanes.Chain.{Chain as ChainView};
ghost use Rattle.backup_lines.specs.declared.lanes.LaneState.{LaneState as StateView};
ghost use Rattle.backup_lines.specs.declared.lanes.LaneState.TheVariants.{At, Replay};
ghost use Rattle.lane_ways.specs.Pictures.{MayMove, Shows, Stand};
ghost use Rattle.space_lane.specs.Chunks.{HasMark, HoldsState, IsSettled};
ghost use Rattle.space_lane.specs.Shown.{picture_of};
ghost use Rattle.space_lane.specs.Stops.{MayRestore, MaySet};

/// Where a state with a place stands, is settled and has these pages, the chunk shows them at that place.
pub fn what_stands_is_shown()
    ensures standing { (site space upto part : ℕ) (bytes : List ℕ) (pages : List Page) → HoldsState site space (length pages) (At upto part) bytes
        → IsSettled (At upto part) (length pages) bytes → Stand space 0 pages bytes
        → Shows (picture_of space (At upto part) upto part pages bytes) bytes }
    ensures replaying { (site space restore upto part : ℕ) (chain : ChainView) (bytes : List ℕ) (pages : List Page)
        → HoldsState site space (length pages) (Replay restore chain upto part) bytes → IsSettled (Replay restore chain upto part) (length pages) bytes
        → Stand space 0 pages bytes → Shows (picture_of space (Replay restore chain upto part) upto part pages bytes) bytes }
{}

/// A stop within the opening leaves what is shown at the place of the mark.
pub fn the_opening_shows_the_same()
    ensures standing { (space upto part : ℕ) (pages : List Page) (first old new : List ℕ) → HasMark (At upto part) old
        → MayRestore (length pages) old new → Shows (picture_of space (At upto part) upto part pages first) old
        → Shows (picture_of space (At upto part) upto part pages first) new }
    ensures replaying { (space restore upto part : ℕ) (chain : ChainView) (pages : List Page) (first old new : List ℕ)
        → HasMark (Replay restore chain upto part) old → MayRestore (length pages) old new
        → Shows (picture_of space (Replay restore chain upto part) upto part pages first) old
        → Shows (picture_of space (Replay restore chain upto part) upto part pages first) new }
{}

/// Where a chunk shows a place with pages that stand, a stop within the setting of a state leaves that place or the new
/// state's, with the same pages.
pub fn a_state_moves_the_place_alone()
    ensures { (space upto part to more : ℕ) (before state : StateView) (pages : List Page) (bytes new : List ℕ)
        → Shows (picture_of space before upto part pages bytes) bytes → Stand space 0 pages bytes → MaySet state bytes bytes new
        → MayMove (picture_of space before upto part pages bytes) (picture_of space state to more pages bytes) new }
{}
