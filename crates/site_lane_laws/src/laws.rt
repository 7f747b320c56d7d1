//! The laws, each as the contract of a function.
ghost use Rattle.std.specs.Prelude.{◌≡◌, ◌+◌, ◌≤◌, ◌<◌, ℕ, List, length, slice_get, Some, None, Option, IsTrue};
ghost use Rattle.log_history.specs.History.{History};
ghost use Rattle.log_history.specs.Effects.{Change};
ghost use Rattle.site_disk.specs.Ledger.{EraView};
ghost use Rattle.site_headers.specs.Heads.{Head};
ghost use Rattle.site_headers.specs.declared.heads.SpaceHead.{SpaceHead};
ghost use Rattle.backup_lines.specs.Lines.{Line};
ghost use Rattle.backup_lines.specs.Spans.{Active};
ghost use Rattle.space_lane.specs.Lanes.{disk_of};
ghost use Rattle.space_lane.specs.declared.lane.Lane.{Lane};
ghost use Rattle.site_lanes.specs.Lanes.{OfFirst, OfSpaces, Works, HasCome, IsOpened, Explains};
ghost use Rattle.site_lanes.specs.Advancing.{IsAdvanced, MayHaveAdvanced};
ghost use Rattle.site_lanes.specs.declared.refusals.LanesFault.TheVariants.{ChunkLost, BadMark};
ghost use Rattle.site_courses.specs.Courses.{first_lost};
ghost use Rattle.site_courses.specs.Faults.{chunk_lost};
ghost use Rattle.site_worlds.specs.Worlds.{LaneState, Site, stands};
ghost use Rattle.site_worlds.specs.Lanes.{pages_of_space};
ghost use Rattle.site_layouts.specs.Chunks.{HoldsLane};
ghost use Rattle.site_lane_laws.specs.Agreements.{LanesAgree};
ghost use Rattle.site_lane_laws.specs.OpeningLaws.{AreSyncedLanes, IsSyncedLane};
ghost use Rattle.site_lane_laws.specs.AdvancingLaws.{AreOnTheirWay, AtSomePlace, all_goals};

use site_disk::Disk;

/// Once the opening has tried each lane of a site, the values agree with the lanes.
pub fn opened_lanes_agree<D: Disk>()
    ensures { (tells : IsTrue D.is_modelled) (era : EraView) (head : Head) (heads : List SpaceHead) (history : History) (lines : List Line) (number : ℕ) (active : Option Active)
        (lanes : List LaneState) (old new : List (Lane D)) → AreSyncedLanes D.Disk tells era head heads history lines number active lanes old new
        → OfSpaces heads (HasCome D.Disk era head.site) old new → OfSpaces heads (Works D.Disk era head.site) old new
        → LanesAgree D.Disk (era.number + 1) head number active lanes new }
{}

/// An opening of a site's lanes is refused as a course is: `ChunkLost` names the first lost lane, no mark is bad, and where all are opened
/// none is lost.
pub fn an_opening_is_refused_by_the_first_lost_lane<D: Disk>()
    ensures lost { (tells : IsTrue D.is_modelled) (era : EraView) (head : Head) (heads : List SpaceHead) (history : History) (lines : List Line) (number : ℕ)
        (active : Option Active) (lanes : List LaneState) (old new : List (Lane D)) → AreSyncedLanes D.Disk tells era head heads history lines number active lanes old new
        → (n : ℕ) → Explains D.Disk head.site heads old new (ChunkLost n) → first_lost 0 lanes ≡ Some (chunk_lost n) }
    ensures bad { (tells : IsTrue D.is_modelled) (era : EraView) (head : Head) (heads : List SpaceHead) (history : History) (lines : List Line) (number : ℕ)
        (active : Option Active) (lanes : List LaneState) (old new : List (Lane D)) → AreSyncedLanes D.Disk tells era head heads history lines number active lanes old new
        → (n : ℕ) → Explains D.Disk head.site heads old new (BadMark n) → ⊥ }
    ensures opened { (tells : IsTrue D.is_modelled) (era : EraView) (head : Head) (heads : List SpaceHead) (history : History) (lines : List Line) (number : ℕ)
        (active : Option Active) (lanes : List LaneState) (old new : List (Lane D)) → AreSyncedLanes D.Disk tells era head heads history lines number active lanes old new
        → OfSpaces heads (IsOpened D.Disk era head.site) old new → first_lost 0 lanes ≡ None }
{}

/// Wherever the opening of a lane stops, each image shows the lane still, a lost one too.
pub fn an_opening_leaves_the_lane<D: Disk>()
    ensures { (tells : IsTrue D.is_modelled) (era : EraView) (site count : ℕ) (history : History) (lines : List Line) (number : ℕ) (active : Option Active) (space : ℕ)
        (lane : LaneState) (was is : Lane D) → IsSyncedLane D.Disk tells era site count history lines number active space lane was is → Works D.Disk era site count was is
        → (f : ℕ) (c : List ℕ) → era.number ≤ f → D.image (disk_of is) f c
        → HoldsLane site count history lines number active space lane c }
{}

/// Wherever the work of lanes that go to the end of the log stops, each image of a chunk shows its lane at a place where it may be.
pub fn lanes_go_on_along_their_ways<D: Disk>()
    ensures { (tells : IsTrue D.is_modelled) (era : EraView) (site : Site) (changes : List Change) (old new : List (Lane D))
        (before : AreOnTheirWay D.Disk tells era site changes old new) (as_many : length new ≡ length old)
        → OfFirst (length site.lanes) (λ n was is. MayHaveAdvanced D.Disk era (length site.history) changes was is) old new
        → (n : ℕ) (is : Lane D) → n < length site.lanes → slice_get new n ≡ Some is → (f : ℕ) (c : List ℕ) → era.number ≤ f → D.image (disk_of is) f c
        → AtSomePlace D.Disk tells era site changes old new before as_many n c }
{}

/// Once they have come there, the values agree with lanes at the end, and each later image shows them there.
pub fn lanes_come_to_the_end<D: Disk>()
    ensures agree { (tells : IsTrue D.is_modelled) (era : EraView) (site : Site) (changes : List Change) (old new : List (Lane D))
        → AreOnTheirWay D.Disk tells era site changes old new → length new ≡ length old
        → OfFirst (length site.lanes) (λ n was is. IsAdvanced D.Disk era (length site.history) changes was is) old new
        → LanesAgree D.Disk (era.number + 1) site.head site.number site.active (all_goals D.Disk tells era site changes old new) new }
    ensures shown { (tells : IsTrue D.is_modelled) (era : EraView) (site : Site) (changes : List Change) (old new : List (Lane D))
        → AreOnTheirWay D.Disk tells era site changes old new → length new ≡ length old
        → OfFirst (length site.lanes) (λ n was is. IsAdvanced D.Disk era (length site.history) changes was is) old new
        → (n : ℕ) (is : Lane D) → n < length site.lanes → slice_get new n ≡ Some is → (f : ℕ) (c : List ℕ) → era.number + 1 ≤ f → D.image (disk_of is) f c
        → HoldsLane site.head.site (pages_of_space site.head.spaces n) site.history site.lines site.number site.active n (stands (length site.history) 0) c }
{}
