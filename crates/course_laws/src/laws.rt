//! The laws, each as the contract of a function.
ghost use Rattle.std.specs.Prelude.{List, Option, ℕ};
ghost use Rattle.walks.specs.Courses.{IsOnWay};
ghost use Rattle.log_history.specs.History.{LogEntry};
ghost use Rattle.site_headers.specs.Heads.{Head, IsHead};
ghost use Rattle.site_worlds.specs.Fitness.{IsFit, IsFitSite};
ghost use Rattle.site_worlds.specs.Moves.{site_rules, world_rules};
ghost use Rattle.site_worlds.specs.Worlds.{Site, World};
ghost use Rattle.site_courses.specs.Appending.{transactions_course};
ghost use Rattle.site_courses.specs.Courses.{init_course, show_course};
ghost use Rattle.site_courses.specs.Faults.{Fault};
ghost use Rattle.course_laws.specs.AppendingLaws.{MayCome};

/// Formatting passes fit worlds alone.
#[tactic(auto, using(crate::specs::Passing::init_passes))]
pub fn formatting_passes_fit_worlds()
    ensures { (head : Head) (world other : World) → IsHead head → IsFit world → IsOnWay world_rules (init_course head world).moves world other → IsFit other }
{}

/// A script of transactions passes fit sites alone, whatever room has to be made in the log, and wherever it is stopped.
#[tactic(auto, using(crate::specs::Passing::transactions_pass))]
pub fn transactions_pass_fit_sites()
    ensures { (batches : List (List LogEntry)) (ending : Option Fault) (site other : Site) → MayCome batches site → IsFitSite site
        → IsOnWay site_rules (transactions_course batches ending site).moves site other → IsFitSite other }
{}

/// So does the showing of a space.
#[tactic(auto, using(crate::specs::Passing::show_passes))]
pub fn showing_passes_fit_sites()
    ensures { (name : List ℕ) (page : Option ℕ) (site other : Site) → IsFitSite site → IsOnWay site_rules (show_course name page site).moves site other → IsFitSite other }
{}
