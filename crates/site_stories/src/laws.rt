//! The laws, each as the contract of a function.
ghost use Rattle.std.specs.Prelude.{◌≡◌, ◌⊎◌, ◌≤◌, ℕ, List, None, length, suc, take};
ghost use Rattle.std.specs.List.{AllByRecursion};
ghost use Rattle.log_history.specs.Effects.{page_at};
ghost use Rattle.log_history.specs.History.{History};
ghost use Rattle.walks.specs.Courses.{IsOnWay, after_all};
ghost use Rattle.backup_lines.specs.Spans.{Point};
ghost use Rattle.site_worlds.specs.Allowed.{CanBegin};
ghost use Rattle.site_worlds.specs.Fitness.{IsFit, IsFitSite};
ghost use Rattle.site_worlds.specs.Moves.{Move, WorldMove, begin_restore, site_after, site_rules, world_rules};
ghost use Rattle.site_worlds.specs.Worlds.{Site, World};
ghost use Rattle.world_laws.specs.NewLaws.{CanWorldAll};
ghost use Rattle.site_stories.specs.Events.{Befalls};
ghost use Rattle.site_stories.specs.Restarts.{AreTurns, IsRestart, IsRestored, IsUnderway};
ghost use Rattle.site_stories.specs.Restores.{HasCome, IsBackAt, IsRestore};
ghost use Rattle.site_stories.specs.Stories.{AreEvents, history_of, logged_of};
ghost use Rattle.site_stories.specs.StoryLaws.{HasGrown};

/// Lost chunks, a lost log and damaged volumes leave a fit site.
pub fn what_befalls_a_site_leaves_it_fit()
    ensures { (site other : Site) → Befalls site other → IsFitSite site → IsFitSite other }
{}

/// Each world of a story is fit.
#[tactic(auto, using(crate::specs::StoryLaws::events_fit))]
pub fn each_world_of_a_story_is_fit()
    ensures { (worlds : List World) (world last : World) → AreEvents worlds world last → IsFit world → IsFit last × AllByRecursion IsFit worlds }
{}

/// A command, ended or stopped, takes no record from the log.
#[tactic(auto, using(crate::specs::StoryLaws::run_grows))]
pub fn the_log_only_grows()
    ensures { (moves : List WorldMove) (world other : World) → CanWorldAll moves world → IsOnWay world_rules moves world other → HasGrown world other }
{}

/// Whatever happens, the pages at a position that was backed up are the same from then on.
#[tactic(auto, using(crate::specs::StoryLaws::logged_pages_stay))]
pub fn what_was_backed_up_stays()
    ensures { (worlds : List World) (world last : World) → AreEvents worlds world last → IsFit world → (n space page : ℕ) → n ≤ logged_of world
        → page_at (history_of last) n space page ≡ page_at (history_of world) n space page }
{}

/// A restore that begins is under way, back to the end of the log up to its position.
pub fn a_restore_begins()
    ensures { (point : Point) (to : ℕ) (site : Site) → CanBegin to site → IsFitSite site
        → IsUnderway (suc site.number) (take to site.history) (site_after (begin_restore point to) site) }
{}

/// A restart that is stopped anywhere leaves the restore under way or done, and one whose moves end it leaves it done.
pub fn a_restart_goes_on()
    ensures stops { (number : ℕ) (past : History) (moves : List Move) (site other : Site) → IsRestart moves site → IsOnWay site_rules moves site other
        → IsUnderway number past site → IsUnderway number past other ⊎ IsRestored number past other }
    ensures done { (number : ℕ) (past : History) (moves : List Move) (site : Site) → IsRestart moves site → (after_all site_rules moves site).active ≡ None
        → IsUnderway number past site → IsRestored number past (after_all site_rules moves site) }
{}

/// However often a restore is restarted, and whatever comes between, it is under way or done, back to the same position of the same log.
#[tactic(auto, using(crate::specs::RestartLaws::turns_restore))]
pub fn a_restore_is_restarted()
    ensures { (number : ℕ) (past : History) (sites : List Site) (site last : Site) → AreTurns sites site last
        → IsUnderway number past site ⊎ IsRestored number past site → IsUnderway number past last ⊎ IsRestored number past last }
{}

/// Where a restore is done, all pages at the end of the log are those at the end of the log that it went back to.
pub fn a_done_restore_has_the_pages()
    ensures { (number : ℕ) (past : History) (site : Site) → IsRestored number past site → (space page : ℕ)
        → page_at site.history (length site.history) space page ≡ page_at past (length past) space page }
{}

/// A restore that is stopped anywhere hasn't begun, is under way or is done.
pub fn a_restore_may_be_stopped()
    ensures { (to : ℕ) (moves : List Move) (site other : Site) → IsRestore to moves site → IsOnWay site_rules moves site other → IsFitSite site
        → HasCome to site other }
{}

/// A restore that has begun, and is restarted until none is under way, leaves each chunk at the end of the log, where all pages
/// are those at the position that it goes back to.
#[tactic(auto, using(crate::specs::RestoreLaws::restore_is_back))]
pub fn a_restore_gives_the_pages_at_its_position()
    ensures { (to : ℕ) (moves : List Move) (sites : List Site) (site next last : Site) → IsFitSite site → IsRestore to moves site
        → IsOnWay site_rules moves site next → next.number ≡ suc site.number → AreTurns sites next last → last.active ≡ None → IsBackAt to site last }
{}
