//! The laws, each as the contract of a function.
ghost use Rattle.std.specs.Prelude.{ℕ, List};
ghost use Rattle.walks.specs.Courses.{IsOnWay};
ghost use Rattle.site_worlds.specs.Fitness.{IsFitSite};
ghost use Rattle.site_worlds.specs.Moves.{site_rules};
ghost use Rattle.site_worlds.specs.Worlds.{Site};
ghost use Rattle.site_runs.specs.Scripts.{transactions_of};

/// A script of transactions passes fit sites alone, wherever it is stopped.
pub fn scripts_pass_fit_sites()
    ensures { (moment : ℕ) (text : List ℕ) (site other : Site) → IsFitSite site
        → IsOnWay site_rules (transactions_of moment text site).moves site other → IsFitSite other }
{}
