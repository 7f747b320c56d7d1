//! A law of plans, as the contract of a function.
ghost use Rattle.std.specs.Prelude.{ℕ, List};
ghost use Rattle.log_history.specs.Live.{ResetPoint};
ghost use Rattle.backup_lines.specs.Lines.{Span};
ghost use Rattle.backup_lines.specs.Plans.{SpacePlan, files_behind, least_low};
ghost use Rattle.restore_planner.specs.Wanted.{AreWanted};

/// The files of a plan are those with a live position behind the last archive of one of the chains.
pub fn a_plan_has_the_files_that_are_wanted()
    ensures { (resets : List ResetPoint) (q : ℕ) (plans : List SpacePlan) (spans : List Span)
        → AreWanted resets q plans spans (files_behind resets q (least_low plans) spans) }
{}
