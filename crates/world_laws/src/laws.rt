//! The laws, each as the contract of a function.
ghost use Rattle.std.specs.Prelude.{List};
ghost use Rattle.walks.specs.Courses.{IsOnWay, after_all};
ghost use Rattle.site_headers.specs.Heads.{Head, IsHead};
ghost use Rattle.site_worlds.specs.Allowed.{CanMove};
ghost use Rattle.site_worlds.specs.Fitness.{IsFit, IsFitSite};
ghost use Rattle.site_worlds.specs.Moves.{Move, StopsAt, WorldMove, site_after, site_rules, world_rules};
ghost use Rattle.site_worlds.specs.Worlds.{Site, World, new_site};
ghost use Rattle.world_laws.specs.KeptLaws.{CanAll};
ghost use Rattle.world_laws.specs.NewLaws.{CanWorldAll};

/// A site is fit as it is formatted.
#[tactic(auto, using(crate::specs::NewLaws::new_site_fits))]
pub fn a_new_site_is_fit()
    ensures { (head : Head) → IsHead head → IsFitSite (new_site head) }
{}

/// A move that may be made leaves a fit site, and so does a stop within it.
#[tactic(auto, using(crate::specs::KeptLaws::kept, crate::specs::KeptLaws::kept_within))]
pub fn a_move_keeps_a_site_fit()
    ensures after { (move : Move) (site : Site) → CanMove move site → IsFitSite site → IsFitSite (site_after move site) }
    ensures within { (move : Move) (site other : Site) → CanMove move site → StopsAt move site other → IsFitSite site → IsFitSite other }
{}

/// Moves that may be made one after another leave a fit site, wherever they are stopped.
#[tactic(auto, using(crate::specs::KeptLaws::fit_after_all, crate::specs::KeptLaws::fit_on_way))]
pub fn a_way_is_fit()
    ensures after { (moves : List Move) (site : Site) → CanAll moves site → IsFitSite site → IsFitSite (after_all site_rules moves site) }
    ensures within { (moves : List Move) (site other : Site) → CanAll moves site → IsFitSite site → IsOnWay site_rules moves site other → IsFitSite other }
{}

/// The same of worlds, from a site that isn't formatted yet on.
#[tactic(auto, using(crate::specs::NewLaws::world_fit_on_way))]
pub fn a_way_of_worlds_is_fit()
    ensures { (moves : List WorldMove) (world other : World) → CanWorldAll moves world → IsFit world → IsOnWay world_rules moves world other → IsFit other }
{}
