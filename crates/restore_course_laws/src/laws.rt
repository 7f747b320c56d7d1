//! The laws, each as the contract of a function.
ghost use Rattle.std.specs.Prelude.{◌≡◌, ◌<◌, ◌^◌, [], List, None, Some, false, suc, ℕ};
ghost use Rattle.backup_lines.specs.Spans.{Active, Point};
ghost use Rattle.walks.specs.Courses.{IsOnWay, after_all};
ghost use Rattle.site_worlds.specs.Fitness.{IsFitSite};
ghost use Rattle.site_worlds.specs.Moves.{site_rules};
ghost use Rattle.site_worlds.specs.Worlds.{Site};
ghost use Rattle.site_courses.specs.Faults.{Fault};
ghost use Rattle.site_courses.specs.Plans.{position_of};
ghost use Rattle.site_courses.specs.Restores.{restart_course, restore_course};
ghost use Rattle.site_stories.specs.Restarts.{AreTurns, IsRestart, IsTurn};
ghost use Rattle.site_stories.specs.Restores.{IsBackAt, IsRestore};
ghost use Rattle.restore_course_laws.specs.RefusalLaws.{restart_refusal};
ghost use Rattle.restore_course_laws.specs.RestoringLaws.{HasEnded};

/// From a fit site a restart makes the moves of one: each where it isn't made yet, by the chains that are planned then, to the position of
/// the restore under way.
pub fn a_restart_makes_its_moves()
    ensures moves { (moment : ℕ) (site : Site) → IsFitSite site → IsRestart (restart_course moment site).moves site }
    ensures turns { (moment : ℕ) (site next : Site) → IsFitSite site → IsOnWay site_rules (restart_course moment site).moves site next → IsTurn site next }
{}

/// A restart passes fit sites alone; and where it ends without a refusal it has ended the restore: the restore's Reset is the last
/// record of the log, and each lane stands there.
pub fn a_restart_ends_the_restore()
    ensures passes { (moment : ℕ) (site other : Site) → IsFitSite site → IsOnWay site_rules (restart_course moment site).moves site other → IsFitSite other }
    ensures ends { (moment : ℕ) (restore : Active) (site : Site) → IsFitSite site → site.active ≡ Some restore → (restart_course moment site).fault ≡ None
        → HasEnded restore (after_all site_rules (restart_course moment site).moves site) }
{}

/// A restart of the restore under way is refused exactly for what it finds as it begins: a prepared one for a lost log, then for the first
/// lost chunk; before the Reset is written for what is lacking of what it needs, then for want of a position. Then nothing is done. Else,
/// from a fit site, it ends the restore.
pub fn a_restart_ends_or_is_refused_as_it_begins()
    ensures refusal { (moment : ℕ) (restore : Active) (site : Site) → site.active ≡ Some restore → (restart_course moment site).fault ≡ restart_refusal restore site }
    ensures nothing { (moment : ℕ) (restore : Active) (site : Site) → site.active ≡ Some restore → (fault : Fault) → restart_refusal restore site ≡ Some fault
        → (restart_course moment site).moves ≡ [] }
    ensures ends { (moment : ℕ) (restore : Active) (site : Site) → site.active ≡ Some restore → IsFitSite site → restart_refusal restore site ≡ None
        → HasEnded restore (after_all site_rules (restart_course moment site).moves site) }
{}

/// From a fit site a new restore makes the moves of one, to the position that its point comes to as it begins. It passes fit sites
/// alone; and where it ends without a refusal it has ended.
pub fn a_restore_makes_its_moves()
    ensures moves { (moment : ℕ) (point : Point) (site : Site) → moment < 2 ^ 64 → IsFitSite site
        → IsRestore (position_of point site) (restore_course moment point site).moves site }
    ensures passes { (moment : ℕ) (point : Point) (site other : Site) → moment < 2 ^ 64 → IsFitSite site
        → IsOnWay site_rules (restore_course moment point site).moves site other → IsFitSite other }
    ensures ends { (moment : ℕ) (point : Point) (site : Site) → moment < 2 ^ 64 → IsFitSite site → (restore_course moment point site).fault ≡ None
        → HasEnded (record { number = suc site.number; point = point; to = position_of point site; prepared = false })
        (after_all site_rules (restore_course moment point site).moves site) }
{}

/// A new restore has begun, stopped or not, and was restarted until none is under way: each chunk stands at the end of the log, where all
/// pages are those at the position that the point came to.
pub fn a_restore_gives_the_pages_at_its_point()
    ensures { (moment : ℕ) (point : Point) (sites : List Site) (site next last : Site) → moment < 2 ^ 64 → IsFitSite site
        → IsOnWay site_rules (restore_course moment point site).moves site next → next.number ≡ suc site.number → AreTurns sites next last
        → last.active ≡ None → IsBackAt (position_of point site) site last }
{}
