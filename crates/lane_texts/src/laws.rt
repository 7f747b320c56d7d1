//! The pages of a history, as a lane holds them.
ghost use Rattle.std.specs.Prelude.{◌≡◌, ℕ, ◌<◌, ◌^◌, List, Some, slice_get};
ghost use Rattle.log_history.specs.Effects.{page_at};
ghost use Rattle.log_history.specs.History.{History};
ghost use Rattle.space_pages.specs.Pages.{pages_of};
ghost use Rattle.backup_lines.specs.declared.lanes.LaneState.{LaneState as StateView};
ghost use Rattle.lane_ways.specs.Pictures.{Stand};
ghost use Rattle.space_lane.specs.Chunks.{HoldsState};
ghost use Rattle.lane_texts.specs.Listings.{HoldsPages};

/// The pages of a history at a position, where they stand on a chunk that holds a state, are held: no stamp is above the
/// position.
pub fn the_pages_of_a_history_are_held()
    ensures held { (site space count n : ℕ) (state : StateView) (history : History) (bytes : List ℕ) → n < 2 ^ 64
        → HoldsState site space count state bytes → Stand space 0 (pages_of history n space 0 count) bytes
        → HoldsPages space count (pages_of history n space 0 count) bytes }
    ensures each { (space count n number : ℕ) (history : History) → number < count
        → slice_get (pages_of history n space 0 count) number ≡ Some (page_at history n space number) }
{}
