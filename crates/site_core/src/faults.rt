//! Why a call of a site failed.
ghost use Rattle.std.specs.Prelude.{◌≡◌};
ghost use Rattle.site_headers.specs.Views.{spaces_of};
ghost use Rattle.site_model.specs.Runs.{name_at};
ghost use Rattle.site_core.specs.Faults.{of_lanes};

use bsa_descriptor::Text;
use held_log::HeldFault;
use log_files::{LogFault, LogFull};
use site_headers::SpaceHead;
use site_lanes::LanesFault;
use site_model::{DiskName, Status};

/// Why a call of a site failed.
#[derive(Debug, Drop)]
pub enum SiteFault {
    OutOfMemory,
    /// This disk failed. What was opened of it has to be opened again.
    DiskFault(DiskName),
    NotFormatted,
    AlreadyFormatted,
    /// The first place looked at whose bytes aren't in the grammar.
    BadRecord { disk: DiskName, slot: u32 },
    /// A restore with this number is active.
    NeedsRestart(u64),
    /// The site has no space with this name.
    NoSuchSpace(Text<19>),
    /// The space has no such page.
    NoSuchPage(u32),
    /// The chunk of the space at this place, which has this name, has no valid header.
    ChunkLost { space: u16, name: Text<19> },
    LogLost,
    LogFull(LogFull),
    /// This volume lacks free blocks.
    StoreFull(u16),
    /// The catalogue lacks free slots.
    CatalogueFull,
    /// The catalogue has no room for so many objects, or no copy ids are left.
    TooManyObjects,
    /// The boot file lacks free slots.
    BootFull,
}

impl From<LogFault> for SiteFault {
    ghost use Rattle.std.specs.Prelude.{◌≡◌};
    ghost use Rattle.site_core.specs.Faults.{of_log};

    ghost from_gives = { λ fault e. e ≡ of_log fault };

    fn from(fault: LogFault) -> Self {
        match fault {
            LogFault::LogLost => SiteFault::LogLost,
            LogFault::BadRecord { slot } => SiteFault::BadRecord {
                disk: DiskName::Log,
                slot,
            },
            LogFault::Failed => SiteFault::DiskFault(DiskName::Log),
            LogFault::OutOfMemory => SiteFault::OutOfMemory,
        }
    }
}

/// The name of the space at a place; none where there is none.
fn name_of(spaces: &[SpaceHead], place: u16) -> Text<19>
    ensures { result ≡ name_at (spaces_of spaces.now) place }
{
    let bytes = match spaces.get(usize::from(place)) {
        Some(space) => space.name.as_bytes(),
        None => &[],
    };
    match Text::from_bytes(bytes) {
        Some(name) => name,
        None => unreachable!(),
    }
}

impl SiteFault {
    /// A fault of the lanes of a site with these spaces.
    pub fn of_lanes(fault: LanesFault, spaces: &[SpaceHead]) -> SiteFault
        ensures { result ≡ of_lanes (spaces_of spaces.now) fault }
    {
        match fault {
            LanesFault::ChunkLost { space } => SiteFault::ChunkLost {
                space,
                name: name_of(spaces, space),
            },
            LanesFault::BadMark { space } => SiteFault::BadRecord {
                disk: DiskName::Chunk(space),
                slot: u32::MAX,
            },
            LanesFault::Failed { space } => SiteFault::DiskFault(DiskName::Chunk(space)),
        }
    }
}

// Where no chunk can be lost.
impl From<LanesFault> for SiteFault {
    ghost use Rattle.std.specs.Prelude.{◌≡◌, []};
    ghost use Rattle.site_core.specs.Faults.{of_lanes};

    ghost from_gives = { λ fault e. e ≡ of_lanes [] fault };

    fn from(fault: LanesFault) -> Self {
        SiteFault::of_lanes(fault, &[])
    }
}

impl From<HeldFault> for SiteFault {
    ghost use Rattle.std.specs.Prelude.{◌≡◌};
    ghost use Rattle.site_core.specs.Checkpoints.{of_held};

    ghost from_gives = { λ fault e. e ≡ of_held fault };

    fn from(fault: HeldFault) -> Self {
        match fault {
            HeldFault::OutOfMemory => SiteFault::OutOfMemory,
            HeldFault::Failed => SiteFault::DiskFault(DiskName::Log),
            HeldFault::BadRecord { slot } => SiteFault::from(LogFault::BadRecord { slot }),
        }
    }
}

impl From<SiteFault> for Status {
    ghost use Rattle.std.specs.Prelude.{◌≡◌};
    ghost use Rattle.site_core.specs.Faults.{status_in};

    ghost from_gives = { λ fault status. status ≡ status_in fault };

    fn from(fault: SiteFault) -> Self {
        match fault {
            SiteFault::OutOfMemory => Status::OutOfMemory,
            SiteFault::DiskFault(disk) => Status::DiskFault(disk),
            SiteFault::NotFormatted => Status::NotFormatted,
            SiteFault::AlreadyFormatted => Status::AlreadyFormatted,
            SiteFault::BadRecord { disk, slot } => Status::BadRecord { disk, slot },
            SiteFault::NeedsRestart(number) => Status::NeedsRestart(number),
            SiteFault::NoSuchSpace(name) => Status::NoSuchSpace(name),
            SiteFault::NoSuchPage(page) => Status::NoSuchPage(page),
            SiteFault::ChunkLost { space: _, name } => Status::ChunkLost(name),
            SiteFault::LogLost => Status::LogLost,
            SiteFault::LogFull(why) => Status::LogFull(why),
            SiteFault::StoreFull(volume) => Status::StoreFull(volume),
            SiteFault::CatalogueFull => Status::CatalogueFull,
            SiteFault::TooManyObjects => Status::TooManyObjects,
            SiteFault::BootFull => Status::BootFull,
        }
    }
}
