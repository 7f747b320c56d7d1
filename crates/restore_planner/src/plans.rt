//! The plan of a restore.
use crate::chains::SpacePlan;
use backup_lines::{FileSpan, LackingList};
use std::alloc::AllocError;

/// What a restore goes by.
#[derive(Debug, Drop)]
pub struct Plan {
    /// The position that it goes to.
    pub to: u64,
    /// One for each space, in order.
    pub spaces: Vec<SpacePlan>,
    /// The files with a live position behind one of the chains.
    pub logs: Vec<FileSpan>,
}

/// Why there is no plan.
#[derive(Debug, Drop)]
pub enum PlanFault {
    /// These spaces have no level 0 that serves.
    Lacking(LackingList),
    OutOfMemory,
}

impl From<AllocError> for PlanFault {
    ghost use Rattle.std.specs.Prelude.{◌≡◌};
    ghost use Rattle.restore_planner.specs.declared.plans.PlanFault.TheVariants.{OutOfMemory as NoMemory};

    ghost from_gives = { λ _ e. e ≡ NoMemory };

    fn from(_error: AllocError) -> PlanFault {
        PlanFault::OutOfMemory
    }
}
