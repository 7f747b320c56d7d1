// The line of a status.
ghost use Rattle.std.specs.Prelude.{◌≡◌, IfOk, string_bytes};
ghost use Rattle.site_model.specs.Texts.{status_text, why_text, disk_text, full_text};

use log_files::LogFull;
use onbar_grammar::Why;
use site_model::{DiskName, Status};
use std::alloc::{AllocError, Global};

fn why_name(why: Why) -> &'static str
    ensures { result.now ≡ why_text why }
{
    match why {
        Why::Words => "words",
        Why::NoSpace => "no space",
        Why::NoPage => "no page",
        Why::Range => "range",
        Why::AlreadyOpen => "already open",
        Why::NotOpen => "not open",
        Why::TooManyOpen => "too many open",
        Why::TooLong => "line too long",
        Why::ScriptTooLong => "script too long",
        Why::OutOfMemory => "",
    }
}

fn full_line(alloc: Global, full: LogFull) -> Result<String, AllocError>
    ensures { IfOk result (λ text. string_bytes text ≡ full_text full) }
{
    match full {
        LogFull::NotBackedUp { file } => format!(in alloc; "log full: file {file} not backed up\n"),
        LogFull::Needed { file, txn } => {
            format!(in alloc; "log full: file {file} needed by transaction {txn}\n")
        }
        LogFull::Positions { end: _ } => String::from_str(alloc, "log full: no position left\n"),
    }
}

fn disk_name_text(alloc: Global, disk: DiskName) -> Result<String, AllocError>
    ensures { IfOk result (λ text. string_bytes text ≡ disk_text disk) }
{
    match disk {
        DiskName::Cat => String::from_str(alloc, "cat"),
        DiskName::Spare => String::from_str(alloc, "spare"),
        DiskName::Boot => String::from_str(alloc, "boot"),
        DiskName::Log => String::from_str(alloc, "log"),
        DiskName::Volume(n) => {
            if n < 10 {
                format!(in alloc; "vol0{n}")
            } else {
                format!(in alloc; "vol{n}")
            }
        }
        DiskName::Chunk(n) => {
            if n < 10 {
                format!(in alloc; "chunk0{n}")
            } else {
                format!(in alloc; "chunk{n}")
            }
        }
    }
}

/// The last line that a command prints; nothing at the statuses that end it as a stop does.
pub fn status_line(alloc: Global, status: &Status) -> Result<String, AllocError>
    ensures { IfOk result (λ text. string_bytes text ≡ status_text status.now) }
{
    match status {
        Status::Ok => String::from_str(alloc, "ok\n"),
        Status::Usage(word) => format!(in alloc; "usage at word {word}\n"),
        Status::ScriptFault { line, why } => {
            let name = why_name(*why);
            format!(in alloc; "script fault at line {line}: {name}\n")
        }
        Status::NotFormatted => String::from_str(alloc, "not formatted\n"),
        Status::AlreadyFormatted => String::from_str(alloc, "already formatted\n"),
        Status::BadRecord { disk, slot } => {
            let name = disk_name_text(alloc, *disk)?;
            format!(in alloc; "bad record in {name} at slot {slot}\n")
        }
        Status::NoSuchSpace(name) => {
            let name = name.as_str();
            format!(in alloc; "no such space {name}\n")
        }
        Status::NoSuchCopy(copy) => format!(in alloc; "no such copy {copy}\n"),
        Status::NoSuchPage(page) => format!(in alloc; "no such page {page}\n"),
        Status::NoSuchLog(file) => format!(in alloc; "no such log {file}\n"),
        Status::NeedsRestart(restore) => format!(in alloc; "restore {restore} is active\n"),
        Status::NothingToRestart => String::from_str(alloc, "nothing to restart\n"),
        Status::ChunkLost(name) => {
            let name = name.as_str();
            format!(in alloc; "chunk of {name} lost\n")
        }
        Status::LogLost => String::from_str(alloc, "log lost\n"),
        Status::Refused(_) => String::from_str(alloc, "refused\n"),
        Status::LogFull(full) => full_line(alloc, *full),
        Status::StoreFull(volume) => format!(in alloc; "store full on volume {volume}\n"),
        Status::CatalogueFull => String::from_str(alloc, "catalogue full\n"),
        Status::BootFull => String::from_str(alloc, "boot file full\n"),
        Status::TooManyObjects => String::from_str(alloc, "too many objects\n"),
        Status::OutOfMemory | Status::ReadFault | Status::WriteFault | Status::DiskFault(_) => Ok(
            String::new(alloc),
        ),
    }
}
