//! The laws, each as the contract of a function.
ghost use Rattle.std.specs.Prelude.{◌<◌, ◌^◌, ℕ};
ghost use Rattle.walks.specs.Courses.{IsOnWay};
ghost use Rattle.site_worlds.specs.Fitness.{IsFit};
ghost use Rattle.site_worlds.specs.Moves.{world_rules};
ghost use Rattle.site_worlds.specs.Worlds.{World};
ghost use Rattle.world_laws.specs.NewLaws.{CanWorldAll};
ghost use Rattle.site_courses.specs.Generated.{generated_course};

/// Each move of the generated story may be made behind those before it, whatever is drawn; so wherever it is stopped, the world is fit.
pub fn the_generated_story_passes_fit_worlds()
    ensures may { (seed count moment : ℕ) (world : World) → moment < 2 ^ 64 → CanWorldAll (generated_course seed count moment world).moves world }
    ensures passes { (seed count moment : ℕ) (world other : World) → moment < 2 ^ 64 → IsFit world
        → IsOnWay world_rules (generated_course seed count moment world).moves world other → IsFit other }
{}
