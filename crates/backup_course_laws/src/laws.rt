//! The laws, each as the contract of a function.
ghost use Rattle.std.specs.Prelude.{Bool, List, length, ℕ, ◌<◌, ◌^◌};
ghost use Rattle.walks.specs.Courses.{IsOnWay};
ghost use Rattle.site_worlds.specs.Fitness.{IsFitSite};
ghost use Rattle.site_worlds.specs.Moves.{site_rules};
ghost use Rattle.site_worlds.specs.Worlds.{Site};
ghost use Rattle.site_courses.specs.Backups.{logs_course, spaces_course};
ghost use Rattle.site_courses.specs.Upkeep.{expire_one, generations_course, sync_course};
ghost use Rattle.backup_course_laws.specs.ArchivingLaws.{AreSpaces};

/// A backup of the log's files passes fit sites alone.
pub fn backups_of_logs_pass_fit_sites()
    ensures { (closes salvages : Bool) (moment : ℕ) (site other : Site) → moment < 2 ^ 64 → IsFitSite site
        → IsOnWay site_rules (logs_course closes salvages moment site).moves site other → IsFitSite other }
{}

/// So does a backup of spaces of the site, at any level.
pub fn backups_of_spaces_pass_fit_sites()
    ensures { (level : ℕ) (spaces : List ℕ) (moment : ℕ) (site other : Site) → moment < 2 ^ 64 → AreSpaces (length site.head.spaces) spaces → IsFitSite site
        → IsOnWay site_rules (spaces_course level spaces moment site).moves site other → IsFitSite other }
{}

/// So do the courses that bring the boot file and the store in line, that let a copy expire, and that keep some generations.
pub fn upkeep_passes_fit_sites()
    ensures syncs { (site other : Site) → IsFitSite site → IsOnWay site_rules (sync_course site).moves site other → IsFitSite other }
    ensures expires { (copy : ℕ) (site other : Site) → IsFitSite site → IsOnWay site_rules (expire_one copy site).moves site other → IsFitSite other }
    ensures generations { (keep : ℕ) (site other : Site) → IsFitSite site → IsOnWay site_rules (generations_course keep site).moves site other → IsFitSite other }
{}
