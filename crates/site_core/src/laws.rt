//! The laws, each as the contract of a function.
ghost use Rattle.std.specs.Prelude.{◌≡◌, ◌+◌, ◌^◌, ◌≤◌, ◌∷◌, [], ℕ, List, Option, None, Some, length, All};
ghost use Rattle.site_disk.specs.Ledger.{MayUse};
ghost use Rattle.site_model.specs.declared.disk_name.DiskName.{DiskName};
ghost use Rattle.site_core.specs.Disks.{disk_given, disk_named, MayUseAll};
ghost use Rattle.log_history.specs.History.{LogEntry};
ghost use Rattle.log_history.specs.Transactions.{table_of};
ghost use Rattle.log_files.specs.Files.{LogFiles, end_of};
ghost use Rattle.log_files.specs.Rooms.{room_of};
ghost use Rattle.log_files.specs.declared.room.Room.{Room as LogRoom};
ghost use Rattle.log_files.specs.declared.room.Room.TheVariants.{Next as TheNext};
ghost use Rattle.walks.specs.Courses.{after_all, behind_moves, make, only};
ghost use Rattle.site_worlds.specs.Fitness.{IsFitSite};
ghost use Rattle.site_worlds.specs.Moves.{site_rules};
ghost use Rattle.site_worlds.specs.Worlds.{Site as SiteView};
ghost use Rattle.world_laws.specs.KeptLaws.{CanAll};
ghost use Rattle.site_courses.specs.Appending.{append_course, fits, is_full, wants_drop, wants_next};
ghost use Rattle.site_courses.specs.Courses.{if_any_lost, lanes_to_end};
ghost use Rattle.site_courses.specs.Faults.{LogFull as WhyFull, log_full};
ghost use Rattle.course_laws.specs.AppendingLaws.{IsReadyFor};
ghost use Rattle.ring_laws.specs.Rings.{files_of};
ghost use Rattle.ring_laws.specs.RoomLaws.{oldest_begin, room_in};
ghost use Rattle.site_core.specs.Appending.{MayMake, TakesBatch, batch_moves, next_batch_moves};

use crate::site::{Site, SiteDisks};
use site_disk::{Disk, Era};

/// Where a batch may come to a fit site, what its log answers on room, asked with the oldest open Begin, is the whole history's answer.
pub fn the_log_answers_for_the_whole_history()
    ensures { (answer : LogRoom) (low : Option (ℕ × ℕ)) (records : List LogEntry) (site : SiteView) → IsFitSite site → (ready : IsReadyFor (records ∷ []) site)
        → low ≡ oldest_begin (table_of site.history) → answer ≡ room_of (files_of site.starts site.history ready.has.ring) (length records) low
        → TakesBatch (room_in answer) records site }
{}

/// By that answer a batch is appended by moves that may be made: alone; behind the next file; behind all lanes at the end, the drop of the
/// oldest file, and the next one. Where there is no room it is refused.
pub fn a_batch_is_appended_by_the_answer_on_room()
    ensures fitting { (records : List LogEntry) (site : SiteView) → IsFitSite site → TakesBatch fits records site
        → MayMake (batch_moves records) site × (make (batch_moves records site) ≡ append_course records site) }
    ensures next { (records : List LogEntry) (site : SiteView) → IsFitSite site → TakesBatch wants_next records site
        → MayMake (next_batch_moves records) site × (make (next_batch_moves records site) ≡ append_course records site) }
    ensures drop { (records : List LogEntry) (site : SiteView) → IsFitSite site → TakesBatch wants_drop records site
        → CanAll (lanes_to_end site) site × MayMake (next_batch_moves records) (after_all site_rules (lanes_to_end site) site)
        × (behind_moves (lanes_to_end site) (make (next_batch_moves records (after_all site_rules (lanes_to_end site) site))) ≡ append_course records site) }
    ensures full { (why : WhyFull) (records : List LogEntry) (site : SiteView) → TakesBatch (is_full why) records site
        → append_course records site ≡ only (Some (log_full why)) }
{}

/// Where none of the lanes is lost, none is behind a batch.
pub fn no_batch_loses_a_lane()
    ensures { (records : List LogEntry) (site : SiteView) → if_any_lost site ≡ None → if_any_lost (after_all site_rules (append_course records site).moves site) ≡ None }
{}

/// A batch for which the next file is wanted has positions.
#[tactic(auto, using(crate::specs::AppendLaws::next_positions))]
pub fn the_next_file_has_positions()
    ensures { (files : LogFiles) (count : ℕ) (low : Option (ℕ × ℕ)) (drops : Option ℕ) → room_of files count low ≡ TheNext drops → end_of files + count ≤ 2 ^ 48 }
{}

/// A site over disks that may be used may be used.
pub fn a_site_may_be_used_over_its_disks<D: Disk>(era: &Era, site: &Site<D>, disks: &SiteDisks<D>)
    ensures { ((name : DiskName) → disk_named site.now name ≡ disk_given disks.now name)
        → MayUse era.now (D.ledger disks.now.cat) → MayUse era.now (D.ledger disks.now.spare) → MayUse era.now (D.ledger disks.now.boot)
        → MayUse era.now (D.ledger disks.now.log) → All (λ it. MayUse era.now (D.ledger it)) disks.now.volumes.items
        → All (λ it. MayUse era.now (D.ledger it)) disks.now.chunks.items → MayUseAll D.Disk era.now site.now }
{}
