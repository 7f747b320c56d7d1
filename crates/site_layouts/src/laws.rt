//! The laws, each as the contract of a function.
ghost use Rattle.std.specs.Prelude.{◌≡◌, ◌⊎◌, ◌+◌, ◌<◌, ◌≤◌, ◌∷◌, [], ℕ, suc, List, Bool, Option, Some, None, true, false, length, slice_get};
ghost use Rattle.std.specs.List.{AllByRecursion};
ghost use Rattle.block_chain.specs.Blocks.{AreApart};
ghost use Rattle.catalogue_journal.specs.Transactions.{Addition, ended, slots_wanted};
ghost use Rattle.catalogue_replay.specs.Answers.{HasNoHead, IsCatalogue};
ghost use Rattle.gated_slots.specs.Slots.{used};
ghost use Rattle.backup_lines.specs.declared.lanes.Chain.{Chain as ChainView};
ghost use Rattle.backup_lines.specs.declared.lanes.LaneState.{LaneState as StateView};
ghost use Rattle.backup_lines.specs.declared.lanes.LaneState.TheVariants.{At, Replay};
ghost use Rattle.backup_lines.specs.Lines.{Line};
ghost use Rattle.lane_mark.specs.Layout.{FitsPlace, FitsState, spelling};
ghost use Rattle.lane_ways.specs.Pictures.{Shows, Stand};
ghost use Rattle.lane_ways.specs.Ways.{IsNotBefore, IsPlace, lane_pages};
ghost use Rattle.site_disk.specs.Seen.{seen};
ghost use Rattle.space_lane.specs.declared.lane.Lane.{Lane as LaneView};
ghost use Rattle.space_lane.specs.Chunks.{HasMark as HasMarkOf, HoldsState, IsSettled, chunk_tail};
ghost use Rattle.space_lane.specs.Lanes.{Stands, disk_of, space_of};
ghost use Rattle.space_lane.specs.Shown.{picture_of};
ghost use Rattle.space_lane.specs.Stops.{MayRestore};
ghost use Rattle.log_history.specs.History.{History};
ghost use Rattle.log_history.specs.Live.{live};
ghost use Rattle.log_history.specs.Transactions.{last_time};
ghost use Rattle.log_files.specs.Files.{LogFiles, new_files};
ghost use Rattle.log_files.specs.Ring.{HoldsRing, MayPass};
ghost use Rattle.object_volume.specs.Answers.{Judges};
ghost use Rattle.object_volume.specs.Objects.{Spares};
ghost use Rattle.object_volume.specs.declared.faults.Soundness.TheVariants.{Sound};
ghost use Rattle.site_headers.specs.Areas.{slot_count};
ghost use Rattle.site_headers.specs.Heads.{Head};
ghost use Rattle.site_headers.specs.Headers.{HasHeader};
ghost use Rattle.site_model.specs.declared.disk_name.DiskName.{DiskName};
ghost use Rattle.site_model.specs.declared.disk_name.DiskName.TheVariants.{Chunk as ChunkOf, Log as TheLog};
ghost use Rattle.site_worlds.specs.Allowed.{CanMove, FollowFrom};
ghost use Rattle.site_worlds.specs.Fitness.{AscendWithin, IsFit, IsFitSite};
ghost use Rattle.site_worlds.specs.Lanes.{pages_of_space};
ghost use Rattle.site_worlds.specs.Moves.{IsOnLane, Move, WorldMove, append_lines, begin_restore, end_restore, format_log, move_lanes, set_prepared, site_after, site_rules, store_after, with_prepared, world_after};
ghost use Rattle.site_worlds.specs.Objects.{IsKept, blocks_on};
ghost use Rattle.backup_lines.specs.Spans.{Active, Point};
ghost use Rattle.backup_lines.specs.Views.{copies_of};
ghost use Rattle.site_worlds.specs.Worlds.{Kept, LaneState, Ring, Site, Store, World, lost, new_site, replays, stands};
ghost use Rattle.space_pages.specs.Pages.{pages_of};
ghost use Rattle.walks.specs.Courses.{IsOnWay};
ghost use Rattle.world_laws.specs.KeptLaws.{CanAll};
ghost use Rattle.world_laws.specs.NewLaws.{CanWorldMove};
ghost use Rattle.ring_laws.specs.PassedLaws.{AreSteps};
ghost use Rattle.ring_laws.specs.Rings.{files_after, files_in, files_of, files_on_way};
ghost use Rattle.site_layouts.specs.ApartLaws.{Awaits};
ghost use Rattle.site_layouts.specs.BootLaws.{MayAppend, MayRecord, ShowsMoved, begun};
ghost use Rattle.site_layouts.specs.Chunks.{HoldsLane, HoldsPages, goal_of, lane_of};
ghost use Rattle.site_layouts.specs.Disks.{moves_disk, moves_world_disk};
ghost use Rattle.site_layouts.specs.Formatted.{IsFormatted};
ghost use Rattle.site_layouts.specs.LaneWords.{HaveSettled, IsThere, LaneAgrees};
ghost use Rattle.site_layouts.specs.LanesLaws.{MayStand};
ghost use Rattle.site_layouts.specs.Layouts.{ShowsSite, ShowsWorld};
ghost use Rattle.site_layouts.specs.NewLaws.{AwaitsWorld};
ghost use Rattle.site_layouts.specs.PhaseLaws.{site_at};
ghost use Rattle.site_layouts.specs.Rings.{ShowsRing};
ghost use Rattle.site_layouts.specs.Stores.{Held, HoldsCatalogue, HoldsSpare, HoldsVolume, IsSound, catalogue_area, contents_of, read_of};
ghost use Rattle.site_layouts.specs.TellsLaws.{HasMark};
ghost use Rattle.site_layouts.specs.VolumeLaws.{IsSentTo};
ghost use Rattle.site_layouts.specs.WayLaws.{AwaitAll, NoneMoves};
ghost use Rattle.site_layouts.specs.VoteLaws.{AreAdded};

use site_disk::Disk;

/// What any disk but those that move shows of a fit site, it shows behind a move that may be made; for a transaction of the store, where
/// a volume already reads the objects that it adds. While lanes go on the other disks show the site wherever the lanes are. So a disk that
/// none of several moves changes shows each site on their way.
pub fn a_move_leaves_the_others_apart()
    ensures behind { (move : Move) (site : Site) (held : Held) (name : DiskName) (bytes : List ℕ) → CanMove move site → IsFitSite site → Awaits move name bytes
        → moves_disk move name ≡ false → ShowsSite name site held bytes → ShowsSite name (site_after move site) held bytes }
    ensures way { (held : Held) (name : DiskName) (bytes : List ℕ) (moves : List Move) (site other : Site) → CanAll moves site → IsFitSite site
        → AwaitAll moves name bytes → NoneMoves moves name → IsOnWay site_rules moves site other → ShowsSite name site held bytes
        → ShowsSite name other held bytes }
    ensures amid { (mids : List LaneState) (site : Site) (held : Held) (name : DiskName) (bytes : List ℕ) → moves_disk (move_lanes mids) name ≡ false
        → ShowsSite name site held bytes → ShowsSite name (record site { lanes = mids }) held bytes }
{}

/// The same of worlds, from a site that isn't formatted yet on: before its catalogue's header is opened, the other disks are formatted.
pub fn a_move_of_worlds_leaves_the_others_apart()
    ensures { (move : WorldMove) (world : World) (held : Held) (name : DiskName) (bytes : List ℕ) → held.area ≡ 0 → CanWorldMove move world → IsFit world
        → AwaitsWorld move name bytes → moves_world_disk move name ≡ false → ShowsWorld name world held bytes
        → ShowsWorld name (world_after move world) held bytes }
{}

/// A volume that already reads the objects that a transaction adds shows the store behind it.
pub fn a_volume_with_new_objects_shows_them()
    ensures { (head : Head) (store : Store) (added : List Kept) (deleted : List ℕ) (volume : ℕ) (bytes : List ℕ)
        → AllByRecursion (λ copy. copy ≤ store.last) store.damaged → FollowFrom store.last added → AllByRecursion (IsSentTo volume bytes) added
        → HoldsVolume head store volume bytes → HoldsVolume head (store_after added deleted store) volume bytes }
{}

/// A volume still shows what it did where only blocks that no live object has were written, and the others are spared at least as far as
/// some bytes go that show it.
pub fn free_blocks_show_nothing()
    ensures { (head : Head) (store : Store) (volume limit : ℕ) (blocks base old new : List ℕ) → AllByRecursion IsKept store.kept
        → AreApart blocks (blocks_on volume store.kept) → HoldsVolume head store volume base → length base ≤ limit → Spares blocks limit old new
        → HoldsVolume head store volume old → HoldsVolume head store volume new }
{}

/// An object that stands as it was sent is found sound.
pub fn a_sound_object_is_found_sound()
    ensures { (kept : Kept) (bytes : List ℕ) → IsKept kept → IsSound kept bytes → Judges (read_of kept bytes) kept.object.size kept.object.digest Sound }
{}

/// The disks of a new site, as they are formatted, show it.
pub fn a_formatted_disk_shows_a_new_site()
    ensures { (head : Head) (held : Held) (name : DiskName) (bytes : List ℕ) → held.area ≡ 0 → IsFormatted name head bytes
        → ShowsSite name (new_site head) held bytes }
{}

/// A catalogue shows a formatted site or one that isn't, and of a formatted one the head, what the catalogue has, and how many of its slots
/// are in use.
pub fn a_catalogue_tells_what_it_shows()
    ensures either { (head : Head) (store : Store) (held : Held) (bytes : List ℕ) → HasNoHead bytes → HoldsCatalogue head store held bytes → ⊥ }
    ensures head { (first second : Head) (store other : Store) (held with : Held) (bytes : List ℕ) → HoldsCatalogue first store held bytes
        → HoldsCatalogue second other with bytes → first ≡ second }
    ensures contents { (first second : Head) (store other : Store) (held with : Held) (bytes : List ℕ) → HoldsCatalogue first store held bytes
        → HoldsCatalogue second other with bytes → (contents_of store ≡ contents_of other) × (store.used ≡ other.used) }
{}

/// A chunk shows its own lane, wherever the others are.
pub fn a_chunk_shows_its_own_lane()
    ensures shows { (site : Site) (held : Held) (places : DiskName → LaneState) (n : ℕ) (bytes : List ℕ) → n < length site.lanes
        → HoldsLane site.head.site (pages_of_space site.head.spaces n) site.history site.lines site.number site.active n (places (ChunkOf n)) bytes
        → ShowsSite (ChunkOf n) (site_at site places) held bytes }
    ensures only { (site : Site) (held : Held) (places : DiskName → LaneState) (n : ℕ) (bytes : List ℕ) → n < length site.lanes
        → ShowsSite (ChunkOf n) (site_at site places) held bytes
        → HoldsLane site.head.site (pages_of_space site.head.spaces n) site.history site.lines site.number site.active n (places (ChunkOf n)) bytes }
    ensures same { (site : Site) (held : Held) (mids others : List LaneState) (n : ℕ) (bytes : List ℕ) → slice_get mids n ≡ slice_get others n
        → ShowsSite (ChunkOf n) (record site { lanes = mids }) held bytes → ShowsSite (ChunkOf n) (record site { lanes = others }) held bytes }
{}

/// A chunk whose lane isn't lost has its header. One at a position that is live at the log's end, with nothing more laid, has the pages of
/// that position, once what is kept for its place is put back.
pub fn a_lane_has_its_header_and_pages()
    ensures header { (site count : ℕ) (history : History) (lines : List Line) (number : ℕ) (active : Option Active) (space : ℕ) (lane : LaneState) (bytes : List ℕ)
        → (lane ≡ lost → ⊥) → HoldsLane site count history lines number active space lane bytes → HasHeader (chunk_tail site space count) bytes }
    ensures pages { (site count : ℕ) (history : History) (lines : List Line) (number : ℕ) (active : Option Active) (space upto : ℕ) (bytes : List ℕ)
        → live history (length history) upto ≡ true → HoldsLane site count history lines number active space (stands upto 0) bytes
        → HoldsPages site space count (stands upto 0) upto 0 (pages_of history upto space 0 count) bytes }
{}

/// Two disks are a catalogue exactly where they show a store, but for the count of slots in use. Behind a transaction of the catalogue, with
/// as many slots more in use, they show the store behind the vote that adds its objects and deletes by the same copy ids.
pub fn a_catalogue_shows_its_store()
    ensures shows { (head : Head) (store : Store) (held : Held) (bytes spare : List ℕ) → held.area ≡ 0 → used catalogue_area bytes ≡ store.used
        → IsCatalogue slot_count head (contents_of store) bytes spare → HoldsCatalogue head store held bytes × HoldsSpare head spare }
    ensures stands { (head : Head) (store : Store) (held : Held) (bytes spare : List ℕ) → HoldsCatalogue head store held bytes → HoldsSpare head spare
        → IsCatalogue slot_count head (contents_of store) bytes spare }
    ensures behind { (head : Head) (store : Store) (held : Held) (added : List Kept) (deleted : List ℕ) (additions : List Addition) (bytes spare : List ℕ) → held.area ≡ 0
        → AscendWithin 0 store.last store.kept → AreAdded store.last added additions → used catalogue_area bytes ≡ store.used + slots_wanted deleted additions
        → IsCatalogue slot_count head (ended deleted additions (contents_of store)) bytes spare
        → HoldsCatalogue head (store_after added deleted store) held bytes × HoldsSpare head spare }
{}

/// The record of a chunk's mark has the 255 bytes of its slot.
pub fn a_mark_fills_its_slot()
    ensures { (state : StateView) → FitsState state → length (spelling state) ≡ 255 }
{}

/// Two states with the same record of a mark are one, so a chunk shows one lane that has a mark.
pub fn a_mark_tells_its_state()
    ensures state { (state other : StateView) → FitsState state → FitsState other → spelling state ≡ spelling other → state ≡ other }
    ensures chunk { (site count : ℕ) (history : History) (lines : List Line) (number : ℕ) (active : Option Active) (space : ℕ) (lane other : LaneState) (bytes : List ℕ)
        → HasMark lane → HasMark other → HoldsLane site count history lines number active space lane bytes
        → HoldsLane site count history lines number active space other bytes → lane ≡ other }
{}

/// Where a call of the log may leave what a move makes of the files that it holds, or leave them, each image that comes of one that shows a
/// fit site shows it still, or shows it behind the move. So it is with moves one after another: an image shows a site on their way. A new
/// log, behind all that is known of a lost one, shows the site behind its formatting.
pub fn a_call_of_the_log_makes_its_moves()
    ensures one { (move : Move) (site : Site) (held : Held) (files : LogFiles) (old new : List ℕ) → CanMove move site → IsFitSite site → (move ≡ format_log → ⊥)
        → files_in site ≡ Some files → MayPass site.head.site files (files_after move files ∷ []) old new → ShowsSite TheLog site held old
        → ShowsSite TheLog site held new ⊎ ShowsSite TheLog (site_after move site) held new }
    ensures way { (moves : List Move) (site : Site) (held : Held) (files : LogFiles) (old new : List ℕ) → AreSteps moves → CanAll moves site → IsFitSite site
        → files_in site ≡ Some files → MayPass site.head.site files (files_on_way moves files) old new → ShowsSite TheLog site held old
        → (other : Site) × IsOnWay site_rules moves site other × ShowsSite TheLog other held new }
    ensures format { (site : Site) (held : Held) (bytes : List ℕ) → IsFitSite site
        → HoldsRing site.head.site (new_files (suc (length site.starts)) (suc (length site.history)) (last_time site.history)) bytes
        → ShowsSite TheLog (site_after format_log site) held bytes }
{}

/// Where a call of the boot file may add lines, or may put a restore or none into the place of the one that is under way, each image that
/// comes of one that shows a fit site shows it still, or shows it behind the move.
pub fn a_call_of_the_boot_file_makes_its_move()
    ensures lines { (more : List Line) (site : Site) (held : Held) (old new : List ℕ) → MayAppend site more old new → ShowsMoved (append_lines more) site held old new }
    ensures begins { (point : Point) (to : ℕ) (site : Site) (held : Held) (old new : List ℕ) → MayRecord site (Some (begun site point to)) old new
        → ShowsMoved (begin_restore point to) site held old new }
    ensures prepared { (prepared : Bool) (restore : Active) (site : Site) (held : Held) (old new : List ℕ) → IsFitSite site → site.active ≡ Some restore
        → MayRecord site (Some (with_prepared prepared restore)) old new → ShowsMoved (set_prepared prepared) site held old new }
    ensures ends { (site : Site) (held : Held) (old new : List ℕ) → MayRecord site None old new → ShowsMoved end_restore site held old new }
{}

/// A log shows a site whose log is lost or one whose log is there, and of this the files that it holds.
pub fn a_log_tells_what_it_holds()
    ensures either { (site : ℕ) (starts others : List ℕ) (history other : History) (ring : Ring) (bytes : List ℕ)
        → ShowsRing site starts history None bytes → ShowsRing site others other (Some ring) bytes → ⊥ }
    ensures files { (site : ℕ) (starts others : List ℕ) (history other : History) (first second : Ring) (bytes : List ℕ)
        → ShowsRing site starts history (Some first) bytes → ShowsRing site others other (Some second) bytes
        → files_of starts history first ≡ files_of others other second }
{}

/// Where a state of a lane at a place stands, settled, with the pages that the site has there, the chunk shows the lane. So does each image that
/// shows these pages there, under a header of the chunk.
pub fn a_lane_at_a_place_is_shown()
    ensures standing { (site count : ℕ) (history : History) (lines : List Line) (number : ℕ) (active : Option Active) (space upto part : ℕ) (state : StateView)
        (bytes : List ℕ) → lane_of state ≡ stands upto part → HoldsState site space count state bytes → IsSettled state count bytes
        → Stand space 0 (lane_pages history (length history) space upto part count) bytes
        → HoldsLane site count history lines number active space (stands upto part) bytes }
    ensures replaying { (site count : ℕ) (history : History) (lines : List Line) (number : ℕ) (active : Option Active) (space restore : ℕ) (chain : List ℕ) (upto part : ℕ)
        (state : StateView) (bytes : List ℕ) → lane_of state ≡ replays restore chain upto part → HoldsState site space count state bytes → IsSettled state count bytes
        → Stand space 0 (lane_pages history (goal_of active) space upto part count) bytes
        → HoldsLane site count history lines number active space (replays restore chain upto part) bytes }
    ensures standing_image { (site count : ℕ) (history : History) (lines : List Line) (number : ℕ) (active : Option Active) (space upto part : ℕ) (first bytes : List ℕ)
        → FitsState (At upto part) → HasHeader (chunk_tail site space count) first
        → Shows (picture_of space (At upto part) upto part (lane_pages history (length history) space upto part count) first) bytes
        → HoldsLane site count history lines number active space (stands upto part) bytes }
    ensures replaying_image { (site count : ℕ) (history : History) (lines : List Line) (number : ℕ) (active : Option Active) (space restore upto part : ℕ) (chain : ChainView)
        (first bytes : List ℕ) → FitsState (Replay restore chain upto part) → HasHeader (chunk_tail site space count) first
        → Shows (picture_of space (Replay restore chain upto part) upto part (lane_pages history (goal_of active) space upto part count) first) bytes
        → HoldsLane site count history lines number active space (replays restore (copies_of chain) upto part) bytes }
{}

/// A chunk that shows a lane which isn't lost can be opened, and its mark has a state of the lane. At a place it has the pages of that place,
/// once it is settled for that state.
pub fn a_lane_that_is_shown_can_be_opened()
    ensures there { (site count : ℕ) (history : History) (lines : List Line) (number : ℕ) (active : Option Active) (space : ℕ) (lane : LaneState) (bytes : List ℕ)
        → (lane ≡ lost → ⊥) → HoldsLane site count history lines number active space lane bytes → IsThere site space count number active lane bytes }
    ensures standing { (site count : ℕ) (history : History) (lines : List Line) (number : ℕ) (active : Option Active) (space upto part : ℕ) (bytes : List ℕ)
        → HoldsLane site count history lines number active space (stands upto part) bytes
        → HaveSettled space count (lane_pages history (length history) space upto part count) bytes }
    ensures replaying { (site count : ℕ) (history : History) (lines : List Line) (number : ℕ) (active : Option Active) (space restore : ℕ) (chain : List ℕ) (upto part : ℕ)
        (bytes : List ℕ) → HoldsLane site count history lines number active space (replays restore chain upto part) bytes
        → HaveSettled space count (lane_pages history (goal_of active) space upto part count) bytes }
{}

/// A stop within the opening of a lane leaves what its chunk shows, unless that is a lost lane.
pub fn an_opening_leaves_the_lane_shown()
    ensures { (site space count : ℕ) (old new : List ℕ) → MayRestore count old new → (history : History) (lines : List Line) (number : ℕ) (active : Option Active) (lane : LaneState)
        → (lane ≡ lost → ⊥) → HoldsLane site count history lines number active space lane old → HoldsLane site count history lines number active space lane new }
{}

/// A place on a way to a position within the history of a fit site fits a mark.
pub fn a_place_fits_its_mark()
    ensures { (site : Site) (n space upto part : ℕ) → IsFitSite site → n ≤ length site.history → IsPlace site.history n space upto part → FitsPlace upto part }
{}

/// A lane that goes on to the end of the log may be at any place that isn't before the one where it began; an image of its chunk that shows
/// such a place with its pages shows the lane there.
pub fn a_lane_goes_on_by_its_places()
    ensures way { (site : Site) (space from begun upto part : ℕ) → IsPlace site.history (length site.history) space upto part → IsNotBefore from begun upto part
        → IsOnLane site space (stands from begun) (stands (length site.history) 0) (stands upto part) }
    ensures image { (site : Site) (goals : List LaneState) (count space from begun upto part : ℕ) (first bytes : List ℕ) → slice_get site.lanes space ≡ Some (stands from begun)
        → slice_get goals space ≡ Some (stands (length site.history) 0) → IsPlace site.history (length site.history) space upto part → IsNotBefore from begun upto part
        → IsFitSite site → HasHeader (chunk_tail site.head.site space count) first
        → Shows (picture_of space (At upto part) upto part (lane_pages site.history (length site.history) space upto part count) first) bytes
        → MayStand site goals space (stands upto part) × HoldsLane site.head.site count site.history site.lines site.number site.active space (stands upto part) bytes }
{}

/// A value that agrees with a lane from an era on does so from each later one; one that was opened over bytes that show a lane agrees with
/// it. With the pages that the site has at a place, a value that agrees with a lane there has a chunk that shows it; and where what a read
/// gives shows a lane, so does each image of the eras from there on.
pub fn a_lane_that_agrees_shows_it<D: Disk>()
    ensures later { (site count number : ℕ) (active : Option Active) (from to space : ℕ) (value : LaneView D) (lane : LaneState) → from ≤ to
        → LaneAgrees D.Disk from site count number active space value lane → LaneAgrees D.Disk to site count number active space value lane }
    ensures opened { (site count number : ℕ) (active : Option Active) (from space : ℕ) (value : LaneView D) (lane : LaneState) (state : StateView) (bytes : List ℕ)
        → space_of value ≡ space → (D.ledger (disk_of value)).last < from → (lane ≡ lost → ⊥) → IsThere site space count number active lane bytes
        → HasMarkOf state bytes → Stands site count state (seen D.Disk (disk_of value)) value
        → LaneAgrees D.Disk from site count number active space value lane }
    ensures standing { (site count number : ℕ) (active : Option Active) (history : History) (lines : List Line) (from space upto part : ℕ) (value : LaneView D)
        → LaneAgrees D.Disk from site count number active space value (stands upto part)
        → Stand space 0 (lane_pages history (length history) space upto part count) (D.bytes (disk_of value))
        → HoldsLane site count history lines number active space (stands upto part) (D.bytes (disk_of value)) }
    ensures replaying { (site count number : ℕ) (active : Option Active) (history : History) (lines : List Line) (from space restore : ℕ) (chain : List ℕ) (upto part : ℕ)
        (value : LaneView D) → LaneAgrees D.Disk from site count number active space value (replays restore chain upto part)
        → Stand space 0 (lane_pages history (goal_of active) space upto part count) (D.bytes (disk_of value))
        → HoldsLane site count history lines number active space (replays restore chain upto part) (D.bytes (disk_of value)) }
    ensures images { (site count number : ℕ) (active : Option Active) (history : History) (lines : List Line) (from space : ℕ) (value : LaneView D) (lane : LaneState)
        → (lane ≡ lost → ⊥) → LaneAgrees D.Disk from site count number active space value lane
        → HoldsLane site count history lines number active space lane (D.bytes (disk_of value)) → (f : ℕ) (bytes : List ℕ) → from ≤ f
        → D.image (disk_of value) f bytes → HoldsLane site count history lines number active space lane bytes }
{}
