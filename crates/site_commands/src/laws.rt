//! The laws, each as the contract of a function.
ghost use Rattle.std.specs.Prelude.{ℕ, List};
ghost use Rattle.command_grammar.specs.Words.{CommandForm};
ghost use Rattle.walks.specs.Courses.{IsOnWay};
ghost use Rattle.site_worlds.specs.Fitness.{IsFit};
ghost use Rattle.site_worlds.specs.Moves.{world_rules};
ghost use Rattle.site_worlds.specs.Worlds.{World};
ghost use Rattle.site_commands.specs.PassLaws.{Extends, MakesAHead};
ghost use Rattle.site_commands.specs.Runs.{run_form};

/// From a fit world a command passes fit worlds alone, wherever it is stopped, and what is in the log stays there.
#[tactic(auto, using(crate::specs::PassLaws::run_passes, crate::specs::PassLaws::run_extends))]
pub fn commands_pass_fit_worlds()
    ensures fit { (moment : ℕ) (script : List ℕ) (form : CommandForm) (begun other : World) → MakesAHead moment form → IsFit begun
        → IsOnWay world_rules (run_form moment script form begun).course.moves begun other → IsFit other }
    ensures extends { (moment : ℕ) (script : List ℕ) (form : CommandForm) (begun other : World)
        → IsOnWay world_rules (run_form moment script form begun).course.moves begun other → Extends begun other }
{}
