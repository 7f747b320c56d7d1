// How a command of `onbar` ends.
ghost use Rattle.std.specs.Prelude.{◌≡◌};
ghost use Rattle.site_model.specs.Exits.{status_number};

use crate::DiskName;
use backup_lines::LackingList;
use bsa_descriptor::Text;
use log_files::LogFull;
use onbar_grammar::Why;

/// How a command ends. The exit status of the program is the variant's place, from 0.
#[derive(Debug, Drop)]
pub enum Status {
    Ok,
    OutOfMemory,
    ReadFault,
    WriteFault,
    DiskFault(DiskName),
    /// The first refused word, from 1; one past the last where words are wanting.
    Usage(u32),
    /// The first script line that is bad or out of order, from 1. The lines before it stand.
    ScriptFault { line: u64, why: Why },
    NotFormatted,
    AlreadyFormatted,
    /// The first place looked at whose bytes aren't in the grammar.
    BadRecord { disk: DiskName, slot: u32 },
    NoSuchSpace(Text<19>),
    NoSuchCopy(u64),
    NoSuchPage(u32),
    NoSuchLog(u64),
    /// A restore with this number is active.
    NeedsRestart(u64),
    NothingToRestart,
    /// The chunk of the space with this name has no valid header.
    ChunkLost(Text<19>),
    LogLost,
    Refused(LackingList),
    LogFull(LogFull),
    StoreFull(u16),
    CatalogueFull,
    BootFull,
    TooManyObjects,
}

/// The exit status of a command, from 0 to 23.
pub fn exit_status(status: &Status) -> u8
    ensures { result ≡ status_number status.now }
{
    match status {
        Status::Ok => 0,
        Status::OutOfMemory => 1,
        Status::ReadFault => 2,
        Status::WriteFault => 3,
        Status::DiskFault(_) => 4,
        Status::Usage(_) => 5,
        Status::ScriptFault { line: _, why: _ } => 6,
        Status::NotFormatted => 7,
        Status::AlreadyFormatted => 8,
        Status::BadRecord { disk: _, slot: _ } => 9,
        Status::NoSuchSpace(_) => 10,
        Status::NoSuchCopy(_) => 11,
        Status::NoSuchPage(_) => 12,
        Status::NoSuchLog(_) => 13,
        Status::NeedsRestart(_) => 14,
        Status::NothingToRestart => 15,
        Status::ChunkLost(_) => 16,
        Status::LogLost => 17,
        Status::Refused(_) => 18,
        Status::LogFull(_) => 19,
        Status::StoreFull(_) => 20,
        Status::CatalogueFull => 21,
        Status::BootFull => 22,
        Status::TooManyObjects => 23,
    }
}
