//! The laws, each as the contract of a function.
ghost use Rattle.std.specs.Prelude.{◌≡◌, ◌∷◌, [], ℕ, suc, List, Some, length};
ghost use Rattle.std.specs.Option.{option_map};
ghost use Rattle.log_history.specs.History.{reset};
ghost use Rattle.log_history.specs.Transactions.{last_time, table_of};
ghost use Rattle.log_files.specs.Files.{AreFiles, LogFiles, current_id, end_of, is_full, last_time_in, new_files, passed_to_head, with_next, with_place};
ghost use Rattle.log_files.specs.Ring.{HoldsOneOf, HoldsRing, MayPass};
ghost use Rattle.log_files.specs.Rooms.{room_of};
ghost use Rattle.walks.specs.Courses.{IsOnWay};
ghost use Rattle.site_worlds.specs.Allowed.{CanMove};
ghost use Rattle.site_worlds.specs.Fitness.{IsFitSite};
ghost use Rattle.site_worlds.specs.Moves.{Move, append_reset, format_log, site_after, site_rules};
ghost use Rattle.site_worlds.specs.Worlds.{Ring, Site};
ghost use Rattle.world_laws.specs.KeptLaws.{CanAll};
ghost use Rattle.site_courses.specs.Appending.{room};
ghost use Rattle.ring_laws.specs.Rings.{FitsLayout, files_after, files_in, files_of, files_on_way, heading, opening};
ghost use Rattle.ring_laws.specs.PassedLaws.{AreSteps};
ghost use Rattle.ring_laws.specs.RoomLaws.{oldest_begin, room_in};

/// What a fit site's log holds is what the log's disk may hold, where its layout takes it.
pub fn a_fit_site_holds_files_that_may_be_held()
    ensures { (site : Site) (ring : Ring) → site.ring ≡ Some ring → IsFitSite site → FitsLayout site.starts site.history
        → AreFiles (files_of site.starts site.history ring) }
{}

/// The current one of the files that a fit site's log holds is the last one that has begun, and the last position and the last time in them
/// are the history's.
pub fn what_is_held_ends_with_the_history()
    ensures current { (site : Site) (ring : Ring) → site.ring ≡ Some ring → IsFitSite site
        → current_id (files_of site.starts site.history ring) ≡ length site.starts }
    ensures end { (site : Site) (ring : Ring) → site.ring ≡ Some ring → IsFitSite site
        → end_of (files_of site.starts site.history ring) ≡ length site.history }
    ensures time { (site : Site) (ring : Ring) → site.ring ≡ Some ring → IsFitSite site
        → last_time_in (files_of site.starts site.history ring) ≡ last_time site.history }
{}

/// Behind a move that may be made, a fit site's log holds what the log's own step makes of the files that it held. A lost log that is
/// formatted holds one empty file, behind all that is known of it.
pub fn a_move_of_the_log_is_its_step()
    ensures step { (move : Move) (site : Site) → CanMove move site → IsFitSite site → (move ≡ format_log → ⊥)
        → files_in (site_after move site) ≡ option_map (files_after move) (files_in site) }
    ensures format { (site : Site) → IsFitSite site
        → files_in (site_after format_log site) ≡ Some (new_files (suc (length site.starts)) (suc (length site.history)) (last_time site.history)) }
{}

/// What the log answers to so many records, where it is asked with the oldest open Begin of the history, is what the whole history says.
pub fn the_answer_on_room_is_that_of_the_whole_history()
    ensures { (site : Site) (ring : Ring) (count : ℕ) → site.ring ≡ Some ring → IsFitSite site
        → room_in (room_of (files_of site.starts site.history ring) count (oldest_begin (table_of site.history))) ≡ room site.history site.starts ring count }
{}

/// Bytes that hold some files of the log hold no others.
pub fn the_bytes_of_a_log_tell_its_files()
    ensures { (site : ℕ) (first second : LogFiles) (bytes : List ℕ) → HoldsRing site first bytes → HoldsRing site second bytes → first ≡ second }
{}

/// What a stop within a call of the log leaves is what its moves pass: while the next file is opened, and while a Reset is written. A disk
/// that holds what moves pass, each of which may be made, holds the files of a site on their way.
pub fn what_a_stop_leaves_is_on_the_way()
    ensures opening { (site : ℕ) (files : LogFiles) (old new : List ℕ) → MayPass site files (with_place files ∷ with_next (with_place files) ∷ []) old new
        → MayPass site files (files_on_way (opening (is_full files)) files) old new }
    ensures heading { (site : ℕ) (files : LogFiles) (old new : List ℕ) (restore target time : ℕ)
        → MayPass site files (passed_to_head files files.current (reset restore target time)) old new
        → MayPass site files (files_on_way (heading (is_full files) files.current (append_reset restore target time)) files) old new }
    ensures way { (moves : List Move) (site : Site) (files : LogFiles) (bytes : List ℕ) → AreSteps moves → CanAll moves site → IsFitSite site
        → files_in site ≡ Some files → HoldsOneOf site.head.site (files ∷ files_on_way moves files) bytes
        → (other : Site) × (held : LogFiles) × IsOnWay site_rules moves site other × (other.head ≡ site.head) × (files_in other ≡ Some held)
        × HoldsRing site.head.site held bytes }
{}
