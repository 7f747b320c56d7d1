//! How a run of a script ends.
ghost use Rattle.std.specs.Prelude.{◌≡◌, ℕ, Some};
ghost use Rattle.log_files.specs.declared.room.LogFull.{LogFull as FullView};
ghost use Rattle.site_core.specs.Batches.{IsAppendFault};
ghost use Rattle.site_core.specs.Faults.{fault_in};
ghost use Rattle.site_model.specs.declared.disk_name.DiskName.{DiskName as NameView};
ghost use Rattle.site_scripts.specs.Outcomes.{IsOfAppend, leaves_batch, stop_fault};

use log_files::LogFull;
use onbar_grammar::Why;
use site_core::SiteFault;
use site_model::{DiskName, Status};

/// How a script ends that was run.
#[derive(Clone, Copy, Debug, PartialEq, Eq)]
pub enum ScriptEnd {
    /// All of its lines were taken.
    Done,
    /// This line is refused.
    Fault { line: u64, why: Why },
    /// The log takes no further record.
    Full(LogFull),
}

/// Why a run is cut short.
#[derive(Clone, Copy, Debug, PartialEq, Eq)]
pub enum Cut {
    OutOfMemory,
    /// The script couldn't be read.
    ReadFault,
    /// This disk failed. What was opened of it has to be opened again.
    DiskFault(DiskName),
    /// A place of the log whose bytes aren't in the grammar any more.
    BadRecord { slot: u32 },
}

impl From<Cut> for Status {
    ghost use Rattle.std.specs.Prelude.{◌≡◌};
    ghost use Rattle.site_scripts.specs.Outcomes.{status_of_cut};

    ghost from_gives = { λ cut status. status ≡ status_of_cut cut };

    fn from(cut: Cut) -> Self {
        match cut {
            Cut::OutOfMemory => Status::OutOfMemory,
            Cut::ReadFault => Status::ReadFault,
            Cut::DiskFault(disk) => Status::DiskFault(disk),
            Cut::BadRecord { slot } => Status::BadRecord {
                disk: DiskName::Log,
                slot,
            },
        }
    }
}

/// How far a script went: its records that stand, the Commits among them, the end of the log, and how the script ended.
#[derive(Debug, Drop)]
pub struct Extended {
    pub lines: u64,
    pub commits: u64,
    pub end: u64,
    pub ending: ScriptEnd,
}

/// Why a run stops taking lines.
#[derive(Clone, Copy, Debug, PartialEq, Eq)]
pub enum Stop {
    /// The script has ended.
    Done,
    /// This line is refused.
    Fault { line: u64, why: Why },
    /// The log has no room for the batch.
    Full(LogFull),
    Cut(Cut),
}

impl Stop {
    /// Whether the last batch is left to be appended: at the script's end, or where a line is refused.
    pub fn leaves_batch(&self) -> bool
        ensures { result ≡ leaves_batch self.now }
    {
        matches!(self, Stop::Done | Stop::Fault { .. })
    }
}

/// Why a run stops whose batch wasn't appended.
pub fn stop_of(fault: SiteFault) -> Stop
    requires append { IsAppendFault fault }
    ensures fault { stop_fault result ≡ Some (fault_in fault) }
    ensures stop { IsOfAppend result }
    ensures disk { (name : NameView) → result ≡ Stop.Cut (Cut.DiskFault name) → fault ≡ SiteFault.DiskFault name }
    ensures full { (why : FullView) → result ≡ Stop.Full why → fault ≡ SiteFault.LogFull why }
{
    match fault {
        SiteFault::LogFull(why) => Stop::Full(why),
        SiteFault::OutOfMemory => Stop::Cut(Cut::OutOfMemory),
        SiteFault::DiskFault(disk) => Stop::Cut(Cut::DiskFault(disk)),
        SiteFault::BadRecord { slot, .. } => Stop::Cut(Cut::BadRecord { slot }),
        SiteFault::NotFormatted
        | SiteFault::AlreadyFormatted
        | SiteFault::NeedsRestart(_)
        | SiteFault::NoSuchSpace(_)
        | SiteFault::NoSuchPage(_)
        | SiteFault::ChunkLost { .. }
        | SiteFault::LogLost
        | SiteFault::StoreFull(_)
        | SiteFault::CatalogueFull
        | SiteFault::TooManyObjects
        | SiteFault::BootFull => unreachable!(),
    }
}
