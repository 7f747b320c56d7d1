//! What ends a shell.
ghost use Rattle.std.specs.Prelude.{◌≡◌};
ghost use Rattle.xbsa_shell.specs.Statuses.{disk_of_store, status_of_store, status_of_line, status_of_answer};

use onbar_grammar::Why;
use script_lines::LineFault;
use session_machine::{Access, BsaRc};
use site_model::{DiskName, Status};
use store_opening::{StoreDisk, StoreFault};

fn disk_name(disk: StoreDisk) -> DiskName
    ensures { result ≡ disk_of_store disk }
{
    match disk {
        StoreDisk::Cat => DiskName::Cat,
        StoreDisk::Spare => DiskName::Spare,
        StoreDisk::Volume(number) => DiskName::Volume(number),
    }
}

/// How a shell ends whose store isn't opened.
pub(crate) fn status_of_store(fault: StoreFault) -> Status
    ensures { result ≡ status_of_store fault }
{
    match fault {
        StoreFault::OutOfMemory => Status::OutOfMemory,
        StoreFault::DiskFault(disk) => Status::DiskFault(disk_name(disk)),
        StoreFault::NotFormatted => Status::NotFormatted,
        StoreFault::BadRecord { disk, slot } => Status::BadRecord {
            disk: disk_name(disk),
            slot,
        },
    }
}

/// How it ends where this line isn't cut.
pub(crate) fn status_of_line(line: u64, fault: LineFault) -> Status
    ensures { result ≡ status_of_line line fault }
{
    match fault {
        LineFault::Failed => Status::ReadFault,
        LineFault::TooLong => Status::ScriptFault {
            line,
            why: Why::TooLong,
        },
        LineFault::ScriptTooLong => Status::ScriptFault {
            line,
            why: Why::ScriptTooLong,
        },
        LineFault::OutOfMemory => Status::OutOfMemory,
    }
}

/// How it ends at an answer that isn't printed: a disk failed, or memory ran out.
pub(crate) fn status_of_answer(code: BsaRc) -> Option<Status>
    ensures { result ≡ status_of_answer code }
{
    match code {
        BsaRc::AccessFailure(Access::Cat) => Some(Status::DiskFault(DiskName::Cat)),
        BsaRc::AccessFailure(Access::Spare) => Some(Status::DiskFault(DiskName::Spare)),
        BsaRc::AccessFailure(Access::Volume(number)) => Some(Status::DiskFault(DiskName::Volume(
            number,
        ))),
        BsaRc::OutOfMemory => Some(Status::OutOfMemory),
        _ => None,
    }
}
